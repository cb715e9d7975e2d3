//! Why a term gives no value.
use crate::cause::LoadCause;
use std::alloc::{AllocError, AllocFailed};

/// Why a term gives no value.
#[derive(Clone, Copy, Debug, PartialEq, Eq)]
pub enum Stop {
    /// There is no memory.
    Memory,
    /// The term has another form.
    Unfit,
}

/// Why a term is not taken into a file.
#[derive(Debug, Drop)]
pub enum TermFail {
    /// There is no memory.
    Memory,
    /// The first cause that refuses it.
    Refused(LoadCause),
}

impl From<AllocError> for Stop {
    ghost use Rattle.std.specs.Prelude.{◌≡◌};
    ghost use Rattle.plai_sources.specs.declared.stop.Stop.TheVariants.{Memory};

    ghost from_gives = { λ _ stop. stop ≡ Memory };

    fn from(_: AllocError) -> Stop {
        Stop::Memory
    }
}

impl<T: Drop> From<AllocFailed<T>> for Stop {
    ghost use Rattle.std.specs.Prelude.{◌≡◌};
    ghost use Rattle.plai_sources.specs.declared.stop.Stop.TheVariants.{Memory};

    ghost from_gives = { λ _ stop. stop ≡ Memory };

    fn from(_: AllocFailed<T>) -> Stop {
        Stop::Memory
    }
}

impl From<AllocError> for TermFail {
    ghost use Rattle.std.specs.Prelude.{◌≡◌};
    ghost use Rattle.plai_sources.specs.declared.stop.TermFail.TheVariants.{Memory};

    ghost from_gives = { λ _ fail. fail ≡ Memory };

    fn from(_: AllocError) -> TermFail {
        TermFail::Memory
    }
}

impl<T: Drop> From<AllocFailed<T>> for TermFail {
    ghost use Rattle.std.specs.Prelude.{◌≡◌};
    ghost use Rattle.plai_sources.specs.declared.stop.TermFail.TheVariants.{Memory};

    ghost from_gives = { λ _ fail. fail ≡ Memory };

    fn from(_: AllocFailed<T>) -> TermFail {
        TermFail::Memory
    }
}
