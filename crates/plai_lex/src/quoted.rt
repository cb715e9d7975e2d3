//! Quoted tokens, their items and escapes (ISO/IEC 13211-1:1995, 6.4.2.1).
ghost use Rattle.std.specs.Prelude.{◌≡◌, ◌+◌, ◌≤◌, ◌<◌, ◌^◌, length, drop, IfOk, IfSome, nat_le};
ghost use Rattle.plai_lex.specs.Numbers.{digits_at};
ghost use Rattle.plai_lex.specs.Quoted.{letter_code, numbered, escape_at, is_plain, item_at, escaped, quoted_from};
ghost use Rattle.plai_lex.specs.Lengths.{FitsCharacter, FitsItem, FitsBody};

use crate::class::is_printable;
use crate::digits::{digits_at, is_digit_of};
use crate::fail::LexCause;
use plai_terms::Name;
use std::alloc::{AllocError, Global};

/// A character, and how many bytes write it.
#[derive(Clone, Copy, Debug, PartialEq, Eq)]
pub struct Character {
    pub code: u8,
    pub len: usize,
}

/// What stands at a place between two quotes.
#[derive(Clone, Copy, Debug, PartialEq, Eq)]
pub enum Item {
    /// The closing quote.
    Close,
    /// A backslash and the end of the line.
    Continuation,
    /// A character.
    Code(Character),
    /// The end of the text or of the line.
    Unclosed,
    /// No item.
    Refused(LexCause),
}

/// A quoted token.
#[derive(Debug, Drop)]
pub enum Body {
    /// Its codes, and how many bytes it has with its quotes.
    Closed(Name, usize),
    /// Its first failure, and the place of it behind the opening quote's.
    Broken(LexCause, usize),
}

/// The code of an escape by one letter.
fn letter_code(byte: u8) -> Option<u8>
    ensures { result ≡ letter_code byte }
{
    match byte {
        b'a' => Some(7),
        b'b' => Some(8),
        b'f' => Some(12),
        b'n' => Some(b'\n'),
        b'r' => Some(b'\r'),
        b't' => Some(b'\t'),
        b'v' => Some(11),
        b'\\' | b'\'' | b'"' | b'`' => Some(byte),
        _ => None,
    }
}

/// An escape by digits of the base, before which so many bytes stand.
fn numbered(before: usize, base: u32, text: &[u8]) -> Option<Character>
    requires low { 2 ≤ base }
    requires high { base ≤ 36 }
    requires short { before ≤ 1 }
    ensures value { result ≡ numbered before (digits_at base text.now) text.now }
    ensures within { FitsCharacter (before + length text.now) result }
{
    let digits = digits_at(text, base, 127)?;
    if digits.len == 0 || !text[digits.len..].starts_with(b"\\") {
        return None;
    }
    Some(Character {
        code: digits.value as u8,
        len: before + digits.len + 1,
    })
}

/// The character of the escape whose backslash stands before the text.
pub fn escape_at(text: &[u8]) -> Option<Character>
    ensures value { result ≡ escape_at text.now }
    ensures within { FitsCharacter (length text.now) result }
{
    let (byte, rest) = text.split_first()?;
    if *byte == b'x' {
        numbered(1, 16, rest)
    } else if is_digit_of(8, *byte) {
        numbered(0, 8, text)
    } else {
        let code = letter_code(*byte)?;
        Some(Character { code, len: 1 })
    }
}

/// Whether the byte may stand for itself between these quotes.
fn is_plain(quote: u8, byte: u8) -> bool
    ensures { result ≡ is_plain quote byte }
{
    is_printable(byte) || byte == b'\t' || (128 <= byte && quote == b'\'')
}

/// The item behind a backslash, which no end of the line follows.
fn escaped(text: &[u8]) -> Item
    ensures value { result ≡ escaped (escape_at text.now) }
    ensures within { FitsItem (1 + length text.now) result }
{
    match escape_at(text) {
        Some(character) => Item::Code(Character {
            code: character.code,
            len: 1 + character.len,
        }),
        None => Item::Refused(LexCause::BadEscape),
    }
}

/// What stands at the beginning of the text, which is within these quotes.
fn item_at(quote: u8, text: &[u8]) -> Item
    ensures value { result ≡ item_at quote text.now }
    ensures within { FitsItem (length text.now) result }
{
    let Some((byte, rest)) = text.split_first() else {
        return Item::Unclosed;
    };
    if *byte == quote {
        if rest.starts_with(&[quote]) {
            Item::Code(Character {
                code: quote,
                len: 2,
            })
        } else {
            Item::Close
        }
    } else if *byte == b'\\' {
        if rest.starts_with(b"\n") {
            Item::Continuation
        } else {
            escaped(rest)
        }
    } else if *byte == b'\n' {
        Item::Unclosed
    } else if is_plain(quote, *byte) {
        Item::Code(Character {
            code: *byte,
            len: 1,
        })
    } else {
        Item::Refused(LexCause::BadCharacter)
    }
}

/// The quoted token that begins with the opening quote of the text.
pub fn quoted_token(alloc: Global, quote: u8, text: &[u8]) -> Result<Body, AllocError>
    requires { 0 < length text.now }
    ensures value { IfOk result (λ body. body ≡ quoted_from quote 1 (drop 1 text.now)) }
    ensures within { IfOk result (FitsBody (length text.now)) }
{
    let mut codes = Vec::new(alloc);
    let mut at = 1;
    loop {
        match item_at(quote, &text[at..]) {
            Item::Close => return Ok(Body::Closed(Name::new(codes), at + 1)),
            Item::Continuation => at += 2,
            Item::Code(character) => {
                codes.push(character.code)?;
                at += character.len;
            }
            Item::Unclosed => return Ok(Body::Broken(LexCause::OpenQuote, 0)),
            Item::Refused(cause) => return Ok(Body::Broken(cause, at)),
        }
    }
}
