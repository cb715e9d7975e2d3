//! Why a term is no clause.
ghost use Rattle.std.specs.Prelude.{◌≡◌, IfOk};

use plai_terms::Name;
use std::alloc::{AllocError, AllocFailed, Global};

/// Why a term says no clause that a program takes.
#[derive(Debug, Drop)]
pub enum ClauseCause {
    /// The head is a variable, or the head or a goal is an integer.
    NotAClause,
    /// The head or a goal of this name and number of arguments isn't supported: the head is a builtin's, either is a
    /// control construct, a directive or a predicate that changes the program, a goal is a variable (`call/1`), or the
    /// term is a rule of a grammar (`-->/2`).
    Unsupported(Name, u32),
    /// The head or a goal has this many arguments, which is over 16.
    ArityTooLarge(u32),
    /// The head's arguments, the variables and the arguments of the widest literal are so many together, which is
    /// over 64.
    TooManySlots(u32),
}

impl ClauseCause {
    /// An equal cause.
    pub fn copy(&self, alloc: Global) -> Result<ClauseCause, AllocError>
        ensures { IfOk result (λ cause. cause ≡ self.now) }
    {
        Ok(match self {
            ClauseCause::NotAClause => ClauseCause::NotAClause,
            ClauseCause::Unsupported(name, arity) => {
                ClauseCause::Unsupported(name.copy(alloc)?, *arity)
            }
            ClauseCause::ArityTooLarge(arity) => ClauseCause::ArityTooLarge(*arity),
            ClauseCause::TooManySlots(count) => ClauseCause::TooManySlots(*count),
        })
    }
}

/// Why no clause was made of a term.
#[derive(Debug, Drop)]
pub enum ClauseFail {
    /// There is no memory.
    Memory,
    /// The term says no clause.
    Refused(ClauseCause),
}

impl From<AllocError> for ClauseFail {
    ghost use Rattle.std.specs.Prelude.{◌≡◌};
    ghost use Rattle.plai_clauses.specs.declared.cause.ClauseFail.TheVariants.{Memory};

    ghost from_gives = { λ _ fail. fail ≡ Memory };

    fn from(_: AllocError) -> ClauseFail {
        ClauseFail::Memory
    }
}

impl<T: Drop> From<AllocFailed<T>> for ClauseFail {
    ghost use Rattle.std.specs.Prelude.{◌≡◌};
    ghost use Rattle.plai_clauses.specs.declared.cause.ClauseFail.TheVariants.{Memory};

    ghost from_gives = { λ _ fail. fail ≡ Memory };

    fn from(_: AllocFailed<T>) -> ClauseFail {
        ClauseFail::Memory
    }
}
