use plai_clauses::Program;
use plai_domain::Domain;
use std::alloc::Global;

/// What is worked on: a program under a domain, with at most so many live rows.
#[derive(Drop)]
pub struct Task<'a, D: Domain> {
    /// Where memory comes from.
    pub alloc: Global,
    /// The domain.
    pub domain: &'a D,
    /// The program.
    pub program: &'a Program,
    /// How many rows may be live at the most.
    pub limit: u64,
}
