// Texts of scripts and of programs.
use std::alloc::{AllocError, Global};

/// A program with an entry, two clauses and an import, and the module that it imports from.
pub(crate) const IMPORTING: &str =
    ":- module(m,[]). :- use_module(n,[q/0]). :- entry p(X). p(a). p(X) :- q.";

pub(crate) const IMPORTED: &str = ":- module(n,[q/0]). q.";

/// The text with so many pieces between what stands before and behind.
pub(crate) fn repeated(
    alloc: Global,
    before: &str,
    piece: &str,
    count: u32,
    behind: &str,
) -> Result<String, AllocError> {
    let mut text = String::from_str(alloc, before)?;
    for _ in 0..count {
        text.push_str(piece)?;
    }
    text.push_str(behind)?;
    Ok(text)
}

/// What a letter of a case stands for: `@` for a term that is deeper than the limit in any edit, `$` for one that isn't in
/// `add(m,r($))`, `#` for a compound of 256 arguments, `&` for one of 255.
fn meant(alloc: Global, letter: char) -> Result<String, AllocError> {
    match letter {
        '@' => repeated(alloc, "(", " -", 2000, " a)"),
        '$' => repeated(alloc, "(", " -", 1997, " a)"),
        '#' => repeated(alloc, "f(", "a,", 255, "a)"),
        '&' => repeated(alloc, "f(", "a,", 254, "a)"),
        _ => {
            let mut text = String::new(alloc);
            text.push(letter)?;
            Ok(text)
        }
    }
}

/// The script of a case, in full.
pub(crate) fn script_of(alloc: Global, case: &str) -> Result<String, AllocError> {
    let mut text = String::new(alloc);
    for letter in case.chars() {
        text.push_str(meant(alloc, letter)?.as_str())?;
    }
    Ok(text)
}
