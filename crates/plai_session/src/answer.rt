//! What an edit is answered.
use plai_clauses::EditCause;
use plai_terms::RowName;

/// What an edit is answered, or the opening of a session.
#[derive(Debug, Drop)]
pub enum EditAnswer {
    /// The edit is in the program, and the session has the program's table.
    Table,
    /// The edit is refused, by its first cause: program and table are as before.
    Refused(EditCause),
    /// The edit is in the program. Its analysis met this limit of rows, and there is no table.
    StoppedRows(u64),
    /// The edit is in the program. An evaluation formed a set of more than 65,536 groups, and there is no table.
    StoppedGroups {
        /// The row whose clause was evaluated.
        row: RowName,
        /// The number of its clause, from 1.
        clause: u64,
        /// The number of the literal, from 1, or 0 for the head.
        literal: u64,
        /// The place of the set, from 1, among those of the literal's operation.
        place: u64,
    },
}
