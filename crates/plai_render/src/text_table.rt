use crate::text_row::TextRow;
use plai_assert::Verdict;
use plai_terms::Listed;

/// A table as text, with what it says of a program's assertions.
#[derive(Debug, Drop)]
pub struct TextTable {
    /// The rows, in the order of a table.
    pub rows: Listed<TextRow>,
    /// The verdicts, in the order of the assertions.
    pub verdicts: Listed<Verdict>,
}
