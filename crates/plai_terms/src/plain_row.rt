use crate::abs::Abs;
use crate::row_name::RowName;

/// A row of a table: a predicate with a pattern of its calls, and the pattern of the answers to these calls, which is
/// `Abs::Nothing` where there is none.
#[derive(Debug, Drop)]
pub struct PlainRow {
    /// The predicate, and the pattern of its calls.
    pub name: RowName,
    /// The pattern of the answers.
    pub answer: Abs,
}
