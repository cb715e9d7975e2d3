// Why words give no settings.
ghost use Rattle.std.specs.Prelude.{◌≡◌};
ghost use Rattle.plai_words.specs.declared.fail.WordsFail.TheVariants.{Memory};

use std::alloc::{AllocError, AllocFailed};
use thiserror::Error;

/// Why words give no settings.
#[derive(Debug, PartialEq, Eq, Drop, Error)]
pub enum WordsFail {
    /// Memory is wanting.
    #[error("out of memory")]
    Memory,
    /// The words form no command.
    #[error("the words form no command")]
    Refused,
}

impl From<AllocError> for WordsFail {
    ghost from_gives = { λ _ fail. fail ≡ Memory };

    fn from(_: AllocError) -> WordsFail {
        WordsFail::Memory
    }
}

impl<T: Drop> From<AllocFailed<T>> for WordsFail {
    ghost from_gives = { λ _ fail. fail ≡ Memory };

    fn from(_: AllocFailed<T>) -> WordsFail {
        WordsFail::Memory
    }
}
