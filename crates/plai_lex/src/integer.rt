//! Integers (ISO/IEC 13211-1:1995, 6.4.4).
ghost use Rattle.std.specs.Prelude.{◌≡◌, ◌+◌, ◌≤◌, ◌<◌, length, drop, nat_lt};
ghost use Rattle.std.specs.List.{prefix_len};
ghost use Rattle.plai_lex.specs.Numbers.{digits_at, is_digit_of};
ghost use Rattle.plai_lex.specs.Pieces.{character_at, coded, number, integer_at};
ghost use Rattle.plai_lex.specs.Lengths.{FitsCharacter, FitsPiece};

use crate::class::is_printable;
use crate::digits::{digits_at, is_digit_of};
use crate::fail::LexCause;
use crate::piece::Piece;
use crate::quoted::{Character, escape_at};
use crate::token::TokenKind;

/// The greatest integer, 2^127 - 1.
const GREATEST: u128 = i128::MAX as u128;

/// The character behind `0'`.
fn character_at(text: &[u8]) -> Option<Character>
    ensures value { result ≡ character_at text.now }
    ensures within { FitsCharacter (length text.now) result }
{
    let (byte, rest) = text.split_first()?;
    if *byte == b'\'' {
        if rest.starts_with(b"'") {
            Some(Character {
                code: b'\'',
                len: 2,
            })
        } else {
            None
        }
    } else if *byte == b'\\' {
        let escape = escape_at(rest)?;
        Some(Character {
            code: escape.code,
            len: 1 + escape.len,
        })
    } else if is_printable(*byte) {
        Some(Character {
            code: *byte,
            len: 1,
        })
    } else {
        None
    }
}

/// The integer of the character behind `0'`.
fn coded(text: &[u8]) -> Piece
    ensures value { result ≡ coded (character_at text.now) }
    ensures within { FitsPiece (2 + length text.now) result }
{
    match character_at(text) {
        Some(character) => Piece::Found(
            TokenKind::Int(i128::from(character.code)),
            2 + character.len,
        ),
        None => Piece::Failed(LexCause::BadEscape, 0),
    }
}

/// The integer of the digits at the beginning of the text, before which so many bytes of it stand.
fn number(before: usize, base: u32, text: &[u8]) -> Piece
    requires low { 2 ≤ base }
    requires high { base ≤ 36 }
    requires short { before ≤ 2 }
    requires some { 0 < prefix_len (is_digit_of base) text.now }
    ensures value { result ≡ number before (digits_at base text.now) }
    ensures within { FitsPiece (before + length text.now) result }
{
    match digits_at(text, base, GREATEST) {
        Some(digits) => { Piece::Found(TokenKind::Int(digits.value as i128), before + digits.len) }
        None => Piece::Failed(LexCause::NumberTooLarge, 0),
    }
}

/// Whether a digit of the base is the first byte of the text.
fn begins_with_digit(base: u32, text: &[u8]) -> bool
    requires low { 2 ≤ base }
    requires high { base ≤ 36 }
    ensures { result ≡ nat_lt 0 (prefix_len (is_digit_of base) text.now) }
{
    match text.first() {
        Some(byte) => is_digit_of(base, *byte),
        None => false,
    }
}

/// The integer at the beginning of the text, where a decimal digit stands.
pub fn integer_at(text: &[u8]) -> Piece
    requires { 0 < prefix_len (is_digit_of 10) text.now }
    ensures value { result ≡ integer_at text.now }
    ensures within { FitsPiece (length text.now) result }
{
    if text.starts_with(b"0'") {
        coded(&text[2..])
    } else if text.starts_with(b"0x") && begins_with_digit(16, &text[2..]) {
        number(2, 16, &text[2..])
    } else if text.starts_with(b"0o") && begins_with_digit(8, &text[2..]) {
        number(2, 8, &text[2..])
    } else if text.starts_with(b"0b") && begins_with_digit(2, &text[2..]) {
        number(2, 2, &text[2..])
    } else {
        number(0, 10, text)
    }
}
