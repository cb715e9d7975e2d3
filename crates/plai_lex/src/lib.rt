//! Tokens of a profile of ISO Prolog (ISO/IEC 13211-1:1995, 6.4).
#![tactic(auto)]

mod class;
mod digits;
mod fail;
mod gap;
mod integer;
mod lexer;
mod piece;
mod quoted;
mod token;

pub use fail::{LexCause, LexFail};
pub use lexer::{Lexer, tokens_given_and_left};
pub use token::{Token, TokenKind};
