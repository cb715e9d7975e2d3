// Which terms the text of a term cut at a depth describes. No name in the tests' programs has a bracket or a comma, or is a
// word of patterns.

use std::alloc::{AllocError, Global};

fn is_mark(byte: u8) -> bool {
    matches!(byte, b'(' | b',' | b')')
}

fn is_integer(text: &[u8]) -> bool {
    let digits = text.strip_prefix(b"-").unwrap_or(text);
    match digits.first() {
        Some(byte) => byte.is_ascii_digit(),
        None => false,
    }
}

/// What stands behind the term that a text begins with.
fn behind_term(text: &[u8]) -> &[u8] {
    let mut open: u32 = 0;
    let mut left = text;
    for byte in text {
        if open == 0 && (*byte == b',' || *byte == b')') {
            return left;
        }
        match byte {
            b'(' => open = open.saturating_add(1),
            b')' => open = open.saturating_sub(1),
            _ => {}
        }
        left = left.get(1..).unwrap_or(b"");
    }
    left
}

/// What stands in a text behind what a word of a pattern describes, and then the mark behind the word.
fn behind<'a>(text: &'a [u8], word: &[u8], mark: u8) -> Option<&'a [u8]> {
    let rest = match word {
        b"any" if mark != b'(' => behind_term(text),
        b"int" if mark != b'(' => {
            if !is_integer(text) {
                return None;
            }
            behind_term(text)
        }
        _ => text.strip_prefix(word)?,
    };
    rest.strip_prefix(&[mark])
}

/// Whether the pattern of arguments describes those with this text.
pub(crate) fn describes(alloc: Global, pattern: &[u8], text: &[u8]) -> Result<bool, AllocError> {
    let mut word = Vec::new(alloc);
    let mut left = text;
    for byte in pattern {
        if !is_mark(*byte) {
            word.push(*byte)?;
            continue;
        }
        match behind(left, &word, *byte) {
            Some(rest) => left = rest,
            None => return Ok(false),
        }
        word.clear();
    }
    Ok(left.is_empty() && word.is_empty())
}
