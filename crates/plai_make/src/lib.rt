//! A made program and edits on it, of any size, for measurements and tests: the same for the same number. Which predicates call
//! which is drawn by a linear congruential generator (Knuth, The Art of Computer Programming, volume 2, 3.2.1).
#![tactic(auto)]

mod clauses;
mod draws;
mod edits;
mod program;

pub use edits::made_edits;
pub use program::made_program;
