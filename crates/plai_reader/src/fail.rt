ghost use Rattle.std.specs.Prelude.{◌≡◌};
ghost use Rattle.plai_reader.specs.declared.fail.OpFail.TheVariants.{Memory};

use std::alloc::{AllocError, AllocFailed};
use thiserror::Error;

/// Why an operator is not taken into a table.
#[derive(Debug, PartialEq, Eq, Drop, Error)]
pub enum OpFail {
    /// Memory is wanting.
    #[error("out of memory")]
    Memory,
    /// The priority is over 1200.
    #[error("the priority is over 1200")]
    BadPriority,
    /// `,`, `|` and `[]` can't be made operators.
    #[error("the name can't be an operator")]
    BadName,
    /// The name would be both infix and postfix.
    #[error("the name would be both infix and postfix")]
    InfixAndPostfix,
}

impl From<AllocError> for OpFail {
    ghost from_gives = { λ _ fail. fail ≡ Memory };

    fn from(_: AllocError) -> OpFail {
        OpFail::Memory
    }
}

impl<T: Drop> From<AllocFailed<T>> for OpFail {
    ghost from_gives = { λ _ fail. fail ≡ Memory };

    fn from(_: AllocFailed<T>) -> OpFail {
        OpFail::Memory
    }
}

/// Why tokens give no term.
#[derive(Debug, PartialEq, Eq, Drop, Error)]
pub enum ReadTermFail {
    /// Memory is wanting.
    #[error("out of memory")]
    Memory,
    /// The tokens have no tree.
    #[error("the tokens are no term")]
    Syntax,
    /// The term is deeper than 2,000, where an atom, an integer or a variable is 1 deep.
    #[error("the term is deeper than 2,000")]
    TooDeep,
    /// The term is no deeper than that, and a compound in it has more than 255 arguments.
    #[error("a compound has more than 255 arguments")]
    ArityTooLarge,
}
