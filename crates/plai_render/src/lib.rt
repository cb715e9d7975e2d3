//! Tables as text: rows as plain values, their order, and the block of lines that they print as.
#![tactic(auto)]

mod block;
mod checked;
mod keyed;
mod laws;
mod made;
mod order;
mod refused;
mod stopped;
mod text_row;
mod text_table;

pub use block::{render_table, render_texts};
pub use laws::{distinct_names_are_apart, names_have_different_texts};
pub use made::{render_counts, render_made_refused, render_made_stopped};
pub use order::{sort_rows, sort_texts};
pub use plai_terms::PlainRow;
pub use refused::{render_refused, write_clause_cause};
pub use stopped::render_stopped;
pub use text_row::TextRow;
pub use text_table::TextTable;
