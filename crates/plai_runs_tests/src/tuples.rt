// What rows say something of in the arguments of a call or an answer.
use plai_terms::{Term, print_term};
use std::alloc::{AllocError, Global};

/// The arguments of a call or an answer. A set of arguments has a bit for each, the lowest for the first.
#[derive(Drop)]
pub(crate) struct Tuple {
    /// For each variable, the set of the arguments that it stands in.
    pub(crate) groups: Vec<u32>,
    /// The set of the arguments that are variables.
    pub(crate) variables: u32,
    /// The text of the arguments, in brackets and with commas between.
    pub(crate) text: Vec<u8>,
}

impl Tuple {
    pub(crate) fn of(alloc: Global, args: &[Term]) -> Result<Tuple, AllocError> {
        Ok(Tuple {
            groups: groups(alloc, args)?,
            variables: variables(args),
            text: text(alloc, args)?,
        })
    }
}

/// Notes that the variable stands in these arguments.
fn note(found: &mut Vec<(u32, u32)>, variable: u32, places: u32) -> Result<(), AllocError> {
    for pair in found.iter_mut() {
        if pair.0 == variable {
            pair.1 |= places;
            return Ok(());
        }
    }
    found.push((variable, places))?;
    Ok(())
}

fn note_all(
    alloc: Global,
    arg: &Term,
    place: u32,
    found: &mut Vec<(u32, u32)>,
) -> Result<(), AllocError> {
    for node in arg.nodes(alloc)?.as_slice() {
        if let Term::Var(variable) = node {
            note(found, *variable, place)?;
        }
    }
    Ok(())
}

fn pairs(alloc: Global, args: &[Term]) -> Result<Vec<(u32, u32)>, AllocError> {
    let mut found = Vec::new(alloc);
    let mut place: u32 = 1;
    for arg in args {
        note_all(alloc, arg, place, &mut found)?;
        place = place.wrapping_mul(2);
    }
    Ok(found)
}

fn groups(alloc: Global, args: &[Term]) -> Result<Vec<u32>, AllocError> {
    let mut sets = Vec::new(alloc);
    for pair in &pairs(alloc, args)? {
        if !sets.contains(&pair.1) {
            sets.push(pair.1)?;
        }
    }
    Ok(sets)
}

fn variables(args: &[Term]) -> u32 {
    let mut all = 0;
    let mut place: u32 = 1;
    for arg in args {
        if matches!(arg, Term::Var(_)) {
            all |= place;
        }
        place = place.wrapping_mul(2);
    }
    all
}

fn text(alloc: Global, args: &[Term]) -> Result<Vec<u8>, AllocError> {
    let mut text = Vec::new(alloc);
    for arg in args {
        text.push(if text.is_empty() { b'(' } else { b',' })?;
        print_term(alloc, arg, &mut text)?;
    }
    text.push(b')')?;
    Ok(text)
}
