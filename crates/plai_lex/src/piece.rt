//! What stands at a place of a text (ISO/IEC 13211-1:1995, 6.4).
ghost use Rattle.std.specs.Prelude.{◌≡◌, ◌+◌, ◌≤◌, ◌<◌, ◌^◌, ◌∷◌, length, drop, take_while, IfOk};
ghost use Rattle.std.specs.List.{prefix_len};
ghost use Rattle.plai_lex.specs.Pieces.{ends, symbols_at, single_at, quoted_at, token_at, piece_at};
ghost use Rattle.plai_lex.specs.Classes.{in_class};
ghost use Rattle.plai_lex.specs.Quoted.{quoted_from};
ghost use Rattle.plai_lex.specs.Lengths.{FitsPiece};

use crate::class::{Class, is_capital, is_layout, is_small_letter, is_symbol, run_len};
use crate::digits::is_digit_of;
use crate::fail::LexCause;
use crate::gap::comment;
use crate::integer::integer_at;
use crate::quoted::{Body, quoted_token};
use crate::token::TokenKind;
use plai_terms::Name;
use std::alloc::{AllocError, Global};

/// What stands at a place of a text.
#[derive(Debug, Drop)]
pub enum Piece {
    /// The end of the text.
    Nothing,
    /// Layout or a comment of so many bytes.
    Gap(usize),
    /// A token of so many bytes.
    Found(TokenKind, usize),
    /// No token; the failure stands so many bytes behind.
    Failed(LexCause, usize),
}

/// The first byte with all bytes of the class behind it, and how many these are.
fn longest(alloc: Global, class: Class, first: u8, rest: &[u8]) -> Result<(Name, usize), AllocError>
    ensures bytes { IfOk result (λ run. run.0 ≡ first ∷ take_while (in_class class) rest.now) }
    ensures len { IfOk result (λ run. run.1 ≡ 1 + prefix_len (in_class class) rest.now) }
    ensures within { IfOk result (λ run. run.1 ≤ 1 + length rest.now) }
{
    let more = run_len(rest, class);
    let mut bytes = Vec::with_capacity(alloc, 1 + more)?;
    bytes.push(first)?;
    bytes.extend_from_slice(&rest[..more])?;
    Ok((Name::new(bytes), 1 + more))
}

/// Whether layout, a comment or the end of the text follows.
fn ends(text: &[u8]) -> bool
    ensures { result ≡ ends text.now }
{
    match text.first() {
        Some(byte) => is_layout(*byte) || *byte == b'%',
        None => true,
    }
}

/// A run of symbol characters: the end of a term, or a name.
fn symbols_at(alloc: Global, first: u8, rest: &[u8]) -> Result<Piece, AllocError>
    ensures value { IfOk result (λ piece. piece ≡ symbols_at first rest.now) }
    ensures within { IfOk result (FitsPiece (1 + length rest.now)) }
{
    if first == b'.' && run_len(rest, Class::Symbol) == 0 && ends(rest) {
        return Ok(Piece::Found(TokenKind::End, 1));
    }
    let (name, len) = longest(alloc, Class::Symbol, first, rest)?;
    Ok(Piece::Found(TokenKind::Name(name), len))
}

/// A token of one byte.
fn single_at(alloc: Global, byte: u8) -> Result<Piece, AllocError>
    ensures value { IfOk result (λ piece. piece ≡ single_at byte) }
    ensures within { IfOk result (FitsPiece 1) }
{
    let kind = match byte {
        b'(' => TokenKind::Open,
        b')' => TokenKind::Close,
        b'[' => TokenKind::OpenList,
        b']' => TokenKind::CloseList,
        b',' => TokenKind::Comma,
        b'|' => TokenKind::Bar,
        b'!' | b';' => TokenKind::Name(Name::new(Vec::from_slice(alloc, &[byte])?)),
        _ => return Ok(Piece::Failed(LexCause::BadCharacter, 0)),
    };
    Ok(Piece::Found(kind, 1))
}

/// The quoted token at the beginning of the text.
fn quoted_at(alloc: Global, quote: u8, text: &[u8]) -> Result<Piece, AllocError>
    requires { 0 < length text.now }
    ensures value { IfOk result (λ piece. piece ≡ quoted_at quote (drop 1 text.now)) }
    ensures within { IfOk result (FitsPiece (length text.now)) }
{
    match quoted_token(alloc, quote, text)? {
        Body::Closed(codes, len) if quote == b'\'' => {
            Ok(Piece::Found(TokenKind::Quoted(codes), len))
        }
        Body::Closed(codes, len) => Ok(Piece::Found(TokenKind::Text(codes), len)),
        Body::Broken(cause, at) => Ok(Piece::Failed(cause, at)),
    }
}

/// The longest token at the beginning of the text, whose first byte and rest are given.
fn token_at(alloc: Global, text: &[u8], first: u8, rest: &[u8]) -> Result<Piece, AllocError>
    requires { text.now ≡ first ∷ rest.now }
    ensures value { IfOk result (λ piece. piece ≡ token_at first rest.now) }
    ensures within { IfOk result (FitsPiece (length text.now)) }
{
    if is_small_letter(first) {
        let (name, len) = longest(alloc, Class::Alphanumeric, first, rest)?;
        Ok(Piece::Found(TokenKind::Name(name), len))
    } else if is_capital(first) {
        let (name, len) = longest(alloc, Class::Alphanumeric, first, rest)?;
        Ok(Piece::Found(TokenKind::Var(name), len))
    } else if is_digit_of(10, first) {
        Ok(integer_at(text))
    } else if is_symbol(first) {
        symbols_at(alloc, first, rest)
    } else if first == b'\'' || first == b'"' {
        quoted_at(alloc, first, text)
    } else {
        single_at(alloc, first)
    }
}

/// What stands at the beginning of the text.
pub fn piece_at(alloc: Global, text: &[u8]) -> Result<Piece, AllocError>
    ensures value { IfOk result (λ piece. piece ≡ piece_at text.now) }
    ensures within { IfOk result (FitsPiece (length text.now)) }
{
    let Some((first, rest)) = text.split_first() else {
        return Ok(Piece::Nothing);
    };
    if is_layout(*first) {
        Ok(Piece::Gap(1))
    } else if *first == b'%' {
        Ok(Piece::Gap(1 + run_len(rest, Class::Line)))
    } else if text.starts_with(b"/*") {
        Ok(comment(text))
    } else {
        token_at(alloc, text, *first, rest)
    }
}
