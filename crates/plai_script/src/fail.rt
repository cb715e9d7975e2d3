//! Why there is no edit, or no program after one.
use plai_clauses::EditCause;
use plai_lex::LexCause;
use std::alloc::{AllocError, AllocFailed};

/// Why an edit isn't read or carried out.
#[derive(Debug, Drop)]
pub enum EditFail {
    /// There is no memory.
    Memory,
    /// It is refused, for the first cause.
    Refused(EditCause),
}

/// Why a script isn't read.
#[derive(Debug, Drop)]
pub enum ScriptFail {
    /// There is no memory.
    Memory,
    /// A place of the text has no token: the number of its term, from 1, the cause, and the place, counted in bytes from 0.
    Lex { term: u64, cause: LexCause, at: u64 },
}

impl From<AllocError> for EditFail {
    ghost use Rattle.std.specs.Prelude.{◌≡◌};
    ghost use Rattle.plai_script.specs.declared.fail.EditFail.TheVariants.{Memory};

    ghost from_gives = { λ _ fail. fail ≡ Memory };

    fn from(_: AllocError) -> EditFail {
        EditFail::Memory
    }
}

impl<T: Drop> From<AllocFailed<T>> for EditFail {
    ghost use Rattle.std.specs.Prelude.{◌≡◌};
    ghost use Rattle.plai_script.specs.declared.fail.EditFail.TheVariants.{Memory};

    ghost from_gives = { λ _ fail. fail ≡ Memory };

    fn from(_: AllocFailed<T>) -> EditFail {
        EditFail::Memory
    }
}

impl From<AllocError> for ScriptFail {
    ghost use Rattle.std.specs.Prelude.{◌≡◌};
    ghost use Rattle.plai_script.specs.declared.fail.ScriptFail.TheVariants.{Memory};

    ghost from_gives = { λ _ fail. fail ≡ Memory };

    fn from(_: AllocError) -> ScriptFail {
        ScriptFail::Memory
    }
}

impl<T: Drop> From<AllocFailed<T>> for ScriptFail {
    ghost use Rattle.std.specs.Prelude.{◌≡◌};
    ghost use Rattle.plai_script.specs.declared.fail.ScriptFail.TheVariants.{Memory};

    ghost from_gives = { λ _ fail. fail ≡ Memory };

    fn from(_: AllocFailed<T>) -> ScriptFail {
        ScriptFail::Memory
    }
}
