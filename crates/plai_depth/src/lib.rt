//! Terms cut at a depth: the domain in which a value is a skeleton for each argument (Sato and Tamaki 1984).
#![tactic(auto)]

mod cuts;
mod domain;
mod implementation;
mod lattice;
mod properties;
mod pulls;
mod pushes;
mod refine;
mod shared;
mod state;

pub use domain::DepthK;
pub use state::State;
