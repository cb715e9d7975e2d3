//! Boolean functions over slots 0 to 63 as canonical decision diagrams: lists of nodes in one fixed numbering, so that equal
//! functions have equal lists. After Bryant, "Graph-Based Algorithms for Boolean Function Manipulation", 1986.
#![tactic(auto)]

mod bdd;
mod chain;
mod change;
mod combine;
mod memo;
mod node;
mod print;
mod questions;
mod replace;
mod table;
mod used;
mod walk;

pub use bdd::Bdd;
pub use node::Node;
