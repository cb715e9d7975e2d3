// Which arguments the text of a row's pattern describes.
use crate::skeletons;
use crate::tuples::Tuple;
use std::alloc::{AllocError, Global};

/// How patterns are written.
#[derive(Clone, Copy)]
pub(crate) enum Pattern {
    Ground,
    Share,
    Depth,
}

/// Where a walk over the text of a decision diagram is: where it decides, in the number of an argument, or in the first of
/// two texts, with so many brackets open in it.
#[derive(Clone, Copy)]
enum Walk {
    Deciding,
    Number(u32),
    Skipping(u32),
}

/// The set of the argument of this number, from 1.
fn place(number: u32) -> u32 {
    if number == 0 || number > 32 {
        return 0;
    }
    1 << (number - 1)
}

fn digit(number: u32, byte: u8) -> u32 {
    number
        .wrapping_mul(10)
        .wrapping_add(byte.wrapping_sub(b'0') as u32)
}

fn skipped(open: u32, byte: u8) -> Walk {
    match byte {
        b'(' => Walk::Skipping(open.saturating_add(1)),
        b')' if open > 1 => Walk::Skipping(open - 1),
        b')' => Walk::Deciding,
        b't' | b'f' if open == 0 => Walk::Deciding,
        _ => Walk::Skipping(open),
    }
}

/// Whether the diagram with this text answers yes where these arguments alone are ground.
fn allows(diagram: &[u8], ground: u32) -> bool {
    let mut walk = Walk::Deciding;
    for byte in diagram {
        walk = match (walk, *byte) {
            (Walk::Deciding, b't') => return true,
            (Walk::Deciding, b'f') => return false,
            (Walk::Deciding, b'(') => Walk::Number(0),
            (Walk::Deciding, _) => Walk::Deciding,
            (Walk::Number(number), b' ') if ground & place(number) != 0 => Walk::Deciding,
            (Walk::Number(_), b' ') => Walk::Skipping(0),
            (Walk::Number(number), byte) => Walk::Number(digit(number, byte)),
            (Walk::Skipping(open), byte) => skipped(open, byte),
        };
    }
    false
}

/// Adds the unions of the sets with the group.
fn add_unions(unions: &mut Vec<u32>, before: &[u32], group: u32) -> Result<(), AllocError> {
    for set in before {
        let union = *set | group;
        if !unions.contains(&union) {
            unions.push(union)?;
        }
    }
    Ok(())
}

/// The sets of arguments that some instance leaves not ground: the unions of groups.
fn unions(alloc: Global, groups: &[u32]) -> Result<Vec<u32>, AllocError> {
    let mut unions = vec![in alloc; 0]?;
    for group in groups {
        let before = Vec::from_slice(alloc, unions.as_slice())?;
        add_unions(&mut unions, &before, *group)?;
    }
    Ok(unions)
}

fn describes_ground(alloc: Global, text: &[u8], tuple: &Tuple) -> Result<bool, AllocError> {
    for union in &unions(alloc, &tuple.groups)? {
        if !allows(text, !union) {
            return Ok(false);
        }
    }
    Ok(true)
}

/// The sets in braces, with the number of their braces.
fn sets(alloc: Global, text: &[u8]) -> Result<Vec<(u32, u32)>, AllocError> {
    let mut sets = Vec::new(alloc);
    let mut braces: u32 = 0;
    let mut number = 0;
    let mut set = 0;
    for byte in text {
        match byte {
            b'{' => braces = braces.wrapping_add(1),
            b'0'..=b'9' => number = digit(number, *byte),
            b'.' | b',' | b'}' => {
                set |= place(number);
                number = 0;
                if *byte != b'.' {
                    sets.push((braces, set))?;
                    set = 0;
                }
            }
            _ => {}
        }
    }
    Ok(sets)
}

/// Whether each group stands in the first braces.
fn has_groups(sets: &[(u32, u32)], groups: &[u32]) -> bool {
    for group in groups {
        if !sets.contains(&(1, *group)) {
            return false;
        }
    }
    true
}

/// Whether each set in the second braces is one of variables.
fn has_free(sets: &[(u32, u32)], variables: u32) -> bool {
    for set in sets {
        if set.0 == 2 && set.1 & !variables != 0 {
            return false;
        }
    }
    true
}

fn describes_sharing(alloc: Global, text: &[u8], tuple: &Tuple) -> Result<bool, AllocError> {
    let sets = sets(alloc, text)?;
    Ok(has_groups(&sets, &tuple.groups) && has_free(&sets, tuple.variables))
}

/// Whether the pattern with this text describes the arguments.
pub(crate) fn describes(
    alloc: Global,
    pattern: Pattern,
    text: &[u8],
    tuple: &Tuple,
) -> Result<bool, AllocError> {
    if text == b"none".as_slice() {
        return Ok(false);
    }
    match pattern {
        Pattern::Ground => describes_ground(alloc, text, tuple),
        Pattern::Share => describes_sharing(alloc, text, tuple),
        Pattern::Depth => skeletons::describes(alloc, text, &tuple.text),
    }
}
