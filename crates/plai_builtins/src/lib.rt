//! The builtin predicates: what they do to a state, and what they mean.
#![tactic(auto)]

mod actions;
mod concrete;
mod construct;
mod copies;
mod found;
mod kind;
mod laws;
mod lists;

pub use actions::{Actions, actions_of, table};
pub use concrete::meaning;
pub use laws::{meanings_are_allowed, table_laws};
