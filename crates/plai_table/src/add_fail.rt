ghost use Rattle.std.specs.Prelude.{◌≡◌};
ghost use Rattle.plai_table.specs.declared.add_fail.AddFail.TheVariants.{Memory};

use std::alloc::{AllocError, AllocFailed};
use thiserror::Error;

/// Why a row was not added.
#[derive(Clone, Copy, Debug, PartialEq, Eq, Drop, Error)]
pub enum AddFail {
    /// Memory is wanting.
    #[error("out of memory")]
    Memory,
    /// There are as many live rows as the limit says.
    #[error("the table is full")]
    Full,
}

impl From<AllocError> for AddFail {
    ghost from_gives = { λ _ fail. fail ≡ Memory };

    fn from(_: AllocError) -> AddFail {
        AddFail::Memory
    }
}
