//! The table of an analysis: rows with a name, an answer or none, and two marks, found by their names.
#![tactic(auto)]

mod add_fail;
mod contents;
mod row;
mod table;

pub use add_fail::AddFail;
pub use row::Row;
pub use table::Table;
