// Texts at and past the limits of terms.
use crate::shown::answer;
use std::alloc::{AllocError, Global};
use std::test::Fail;

/// What stands before, a piece and how often it stands, what stands behind, and what the files give.
const LIMITS: [(&str, &str, u32, &str, &str); 4] = [
    (":- module(m,[]).", " -", 1999, " a.", "ok 1"),
    (":- module(m,[]).", " -", 2000, " a.", "1 2 too_deep"),
    (":- module(m,[]). p(f(", "a,", 254, "a)).", "ok 1"),
    (":- module(m,[]). p(f(", "a,", 255, "a)).", "1 2 term_arity"),
];

/// The text with so many pieces between what stands before and behind.
fn repeated(
    alloc: Global,
    before: &str,
    piece: &str,
    count: u32,
    behind: &str,
) -> Result<String, AllocError> {
    let mut text = String::from_str(alloc, before)?;
    for _ in 0..count {
        text.push_str(piece)?;
    }
    text.push_str(behind)?;
    Ok(text)
}

#[test]
fn limits(rt: HostRuntime) -> Result<(), Fail> {
    let alloc = rt.alloc();
    for (before, piece, count, behind, wanted) in &LIMITS {
        let files = repeated(alloc, before, piece, *count, behind)?;
        let found = answer(alloc, files.as_str())?;
        assert_eq!(rt; found.as_slice(), wanted.as_bytes());
    }
    Ok(())
}
