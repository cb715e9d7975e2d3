//! A file while it is read.
use crate::items::{Header, NumberedItem};
use plai_reader::OpTable;
use plai_terms::Listed;

/// A file so far: the operators, its module once the first term is read, its items in order, and how many clauses,
/// entries and checks the program has with them.
#[derive(Debug, Drop)]
pub struct Reading {
    pub operators: OpTable,
    pub header: Option<Header>,
    pub items: Listed<NumberedItem>,
    pub count: u64,
}
