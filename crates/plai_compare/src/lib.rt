//! The operations of a domain beside a second program for them, on generated clauses. Tests of domains are over this crate.
#![tactic(auto)]

mod beside;
mod fail;
mod fits;
mod generated;
mod known;
mod numbers;
mod places;
mod second;
pub mod tried;
mod walk;

pub use fail::{CompareFail, Operation};
pub use known::{Known, Reached};
pub use numbers::Numbers;
pub use second::SecondProgram;
pub use walk::{compare_clauses, compare_properties};
