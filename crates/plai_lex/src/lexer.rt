//! The lexer.
ghost use Rattle.std.specs.Prelude.{◌≡◌, ◌≤◌, length, drop, List, IfOk, IfSome};
ghost use Rattle.plai_lex.specs.Tokens.{Tokens, tokens_from, tokens_of, with_tokens, Answers, Gives, IsWritten};
ghost use Rattle.plai_lex.specs.Nexts.{IsNext};
ghost use Rattle.plai_lex.specs.declared.token.Token.{Token};

use crate::fail::LexFail;
use crate::piece::{Piece, piece_at};
use crate::token::Token;
use std::alloc::Global;
use std::marker::Model;

/// A token, and the place behind it.
#[derive(Drop)]
struct Next {
    token: Token,
    end: usize,
}

/// The next token of the text from a place on, where `tight` says whether a token ends there.
fn next_token(
    alloc: Global,
    text: &[u8],
    start: usize,
    tight: bool,
) -> Result<Option<Next>, LexFail>
    requires { start ≤ length text.now }
    ensures next { IsNext text.now (tokens_from start tight (drop start text.now)) result }
    ensures written { IfOk result (λ found. IfSome found (λ next. IsWritten next.token.kind)) }
{
    let mut at = start;
    let mut tight = tight;
    loop {
        match piece_at(alloc, &text[at..])? {
            Piece::Nothing => return Ok(None),
            Piece::Gap(len) => {
                at += len;
                tight = false;
            }
            Piece::Found(kind, len) => {
                let token = Token {
                    kind,
                    at: at as u64,
                    tight,
                };
                return Ok(Some(Next {
                    token,
                    end: at + len,
                }));
            }
            Piece::Failed(cause, place) => {
                return Err(LexFail::At {
                    cause,
                    at: (at + place) as u64,
                });
            }
        }
    }
}

/// Gives the tokens of a text one after the other (ISO/IEC 13211-1:1995, 6.4). Contracts see it as the tokens that
/// are left and the first failure behind them.
#[derive(Drop)]
pub struct Lexer<'a> {
    text: &'a [u8],
    at: usize,
    tight: bool,
}

impl<'a> Model for Lexer<'a> {
    ghost Value = { Tokens };

    ghost view = { λ lexer. tokens_from lexer.at lexer.tight (drop lexer.at lexer.text.now) };

    ghost invariant = { λ lexer. lexer.at ≤ length lexer.text.now };
}

impl<'a> Lexer<'a> {
    /// A lexer at the beginning of the text.
    pub fn new(text: &'a [u8]) -> Lexer<'a>
        ensures tokens { result ≡ tokens_of text.now }
        ensures few { length result.tokens ≤ length text.now }
    {
        Lexer {
            text,
            at: 0,
            tight: false,
        }
    }

    /// The next token, or none exactly at the end of the text. A failure is the first of the text from here on.
    /// After a failure the lexer is unchanged.
    pub fn next(&mut self, alloc: Global) -> Result<Option<Token>, LexFail>
        ensures answer { Answers self.old self.new result }
        ensures written { IfOk result (λ found. IfSome found (λ token. IsWritten token.kind)) }
    {
        match next_token(alloc, self.text, self.at, self.tight)? {
            Some(next) => {
                self.at = next.end;
                self.tight = true;
                Ok(Some(next.token))
            }
            None => Ok(None),
        }
    }
}

/// The tokens that calls of `next` gave one after the other, and behind them those that are left, are all tokens.
pub fn tokens_given_and_left()
    ensures { (all : Tokens) (given : List Token) (left : Tokens) → Gives all given left → all ≡ with_tokens given left }
{}
