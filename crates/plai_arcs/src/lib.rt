//! Which clauses of a table's rows are to be evaluated, and which rows clauses call.
#![tactic(auto)]

mod arcs;
mod callers;
mod change;
mod dirty;
mod dirty_row;
mod finds;
mod links;
mod marks;
mod renames;
mod row_calls;

pub use arcs::Arcs;
