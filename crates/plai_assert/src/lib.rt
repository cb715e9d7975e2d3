//! Verdicts on assertions: what the rows of a table say of each (Hermenegildo, Puebla, Bueno and Lopez-Garcia, "Integrated
//! Program Debugging, Verification, and Optimization Using Abstract Interpretation", 2005).
#![tactic(auto)]

mod groups;
mod judging;
mod laws;
mod row;
mod sides;
mod verdict;

pub use judging::verdicts;
pub use laws::verdicts_need_no_order;
pub use row::Row;
pub use verdict::Verdict;
