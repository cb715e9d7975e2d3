//! What an abstract domain is: its plain meaning, the actions of builtins, and what is told of the work.
#![tactic(auto)]

mod action;
mod dom_fail;
mod domain;
mod key;
mod work;
mod work_log;

pub use action::Action;
pub use dom_fail::DomFail;
pub use domain::Domain;
pub use key::Key;
pub use plai_terms::{Abs, RowName, Skeleton};
pub use work::{Tally, Work, WorkEntry};
pub use work_log::WorkLog;
