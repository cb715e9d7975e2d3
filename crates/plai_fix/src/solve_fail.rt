ghost use Rattle.std.specs.Prelude.{◌≡◌};
ghost use Rattle.plai_fix.specs.declared.solve_fail.SolveFail.TheVariants.{Memory};

use plai_terms::RowName;
use std::alloc::AllocError;

/// Why the work of an edit came to no end.
#[derive(Debug, Drop)]
pub enum SolveFail {
    /// Memory is wanting.
    Memory,
    /// More rows are demanded than this limit.
    Rows(u64),
    /// An evaluation formed a set of more than 65,536 groups.
    Groups {
        /// The row whose clause was evaluated.
        row: RowName,
        /// The number of its clause, from 1.
        clause: u64,
        /// The number of the literal, from 1, or 0 for the head.
        literal: u64,
        /// The place of the set, from 1, among those of the literal's operation.
        place: u64,
    },
}

impl From<AllocError> for SolveFail {
    ghost from_gives = { λ _ fail. fail ≡ Memory };

    fn from(_: AllocError) -> Self {
        SolveFail::Memory
    }
}
