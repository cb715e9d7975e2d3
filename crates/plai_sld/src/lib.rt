//! Runs of SLD resolution (Lloyd 1987), and what a closed table says of all of them (Muthukumar and Hermenegildo 1992).
#![tactic(auto)]

mod front;
mod item;
mod laws;
mod limits;
mod pending;
mod run;
mod stack;
mod stepped;
mod terms;

pub use front::Front;
pub use item::Item;
pub use laws::{closed_tables_describe_runs, laws_of_runs, verdicts_hold_of_runs};
pub use run::Run;
pub use stepped::Stepped;
