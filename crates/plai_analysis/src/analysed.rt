//! What an analysis hands out.
use plai_arcs::Arcs;
use plai_render::TextTable;
use plai_table::Table;
use std::hash::Hash;

/// The least table of a program, as text, with what the work leaves that found it: rows over a domain's own values, and what
/// their clauses call. [`rows_of_table`](crate::rows_of_table) makes patterns of them.
#[derive(Drop)]
pub struct Analysed<V: Eq + Hash + Drop> {
    /// The least table, and what it says of the program's assertions.
    pub texts: TextTable,
    /// Its rows.
    pub table: Table<V>,
    /// What their clauses call.
    pub arcs: Arcs,
}
