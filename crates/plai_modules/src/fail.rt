//! Why no program is loaded.
ghost use Rattle.std.specs.Prelude.{◌≡◌};
ghost use Rattle.plai_modules.specs.declared.fail.LoadFail.TheVariants.{Memory};
ghost use Rattle.plai_modules.specs.Outcomes.{fail_in};

use plai_sources::{ItemsFail, LoadCause};
use std::alloc::{AllocError, AllocFailed};

/// Why files give no program.
#[derive(Debug, Drop)]
pub enum LoadFail {
    /// Memory is wanting.
    Memory,
    /// A term is refused: the number of its file and its own number in that file, both from 1, and why.
    Refused {
        file: u32,
        term: u64,
        cause: LoadCause,
    },
}

impl From<AllocError> for LoadFail {
    ghost from_gives = { λ _ fail. fail ≡ Memory };

    fn from(_: AllocError) -> LoadFail {
        LoadFail::Memory
    }
}

impl<T: Drop> From<AllocFailed<T>> for LoadFail {
    ghost from_gives = { λ _ fail. fail ≡ Memory };

    fn from(_: AllocFailed<T>) -> LoadFail {
        LoadFail::Memory
    }
}

/// The failure of a file, as one of the file of this number.
pub(crate) fn fail_in(number: u32, fail: ItemsFail) -> LoadFail
    ensures { result ≡ fail_in number fail }
{
    match fail {
        ItemsFail::Memory => LoadFail::Memory,
        ItemsFail::Refused { term, cause } => LoadFail::Refused {
            file: number,
            term,
            cause,
        },
    }
}
