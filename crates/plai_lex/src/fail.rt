ghost use Rattle.std.specs.Prelude.{◌≡◌};
ghost use Rattle.plai_lex.specs.declared.fail.LexFail.TheVariants.{Memory};

use std::alloc::AllocError;

/// Why there is no token at a place.
#[derive(Clone, Copy, Debug, PartialEq, Eq)]
pub enum LexCause {
    /// A byte begins no token and no layout, or may not stand in the quoted token. The place is that byte's.
    BadCharacter,
    /// The text or the line ends inside a quoted token. The place is the opening quote's.
    OpenQuote,
    /// The text ends inside a bracketed comment. The place is that of the comment's `/`.
    OpenComment,
    /// A backslash begins no escape, or no character stands behind `0'`. The place is the backslash's or the `0`'s.
    BadEscape,
    /// An integer is over 2^127 - 1. The place is its first byte's.
    NumberTooLarge,
}

/// Why the lexer gave no token.
#[derive(Clone, Copy, Debug, PartialEq, Eq)]
pub enum LexFail {
    /// Memory is wanting.
    Memory,
    /// The text has no token there. Places are counted in bytes from 0.
    At { cause: LexCause, at: u64 },
}

impl From<AllocError> for LexFail {
    ghost from_gives = { λ _ fail. fail ≡ Memory };

    fn from(_: AllocError) -> Self {
        LexFail::Memory
    }
}
