//! Sharing and freeness of arguments: sets of groups of slots that may have a variable in common (Jacobs and Langen 1992), and
//! sets of slots that are free variables (Muthukumar and Hermenegildo 1992).
#![tactic(auto)]

mod admitted;
mod describing;
mod domain;
mod filters;
mod implementation;
mod literal;
mod masks;
mod refine;
mod sharing;
mod side;
mod sorted;
mod splitting;
mod unify;
mod unions;
mod value;

pub use domain::ShareFree;
pub use value::{State, Value};
