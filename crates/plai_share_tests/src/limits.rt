//! Sets of 65,535 groups and more: heads and calls that form them, or name the place of the first one that is too large.
ghost use Rattle.std.specs.Prelude.{◌≡◌, ◌<◌};

use plai_base::Steps;
use plai_compare::CompareFail;
use plai_compare::tried::{call, describe, enter};
use plai_share::ShareFree;
use plai_terms::{Args, Name, Term};
use std::alloc::{AllocError, Global};
use std::sync::ledger::{Blank, Ledger};

/// So many variables.
fn variables(alloc: Global, count: u32) -> Result<Vec<Term>, AllocError> {
    let mut all = Vec::new(alloc);
    for number in 0..count {
        all.push(Term::Var(number))?;
    }
    Ok(all)
}

/// A compound of so many variables and of one more.
fn compound(alloc: Global, count: u32) -> Result<Term, AllocError> {
    let mut args = variables(alloc, count)?;
    args.push(Term::Var(count))?;
    let name = Name::new(Vec::from_slice(alloc, "f".as_bytes())?);
    Ok(Term::Compound(name, Args::new(args)))
}

/// Whether a clause of so many variables begins whose head's argument, of which nothing is known, is a compound of so many of them
/// and of one more.
pub fn begins<L: Ledger>(
    alloc: Global,
    count: u32,
    all: u32,
    blank: Blank,
) -> Result<bool, CompareFail>
    requires name { blank.name ≡ L.name }
    requires parts { blank.parts ≡ L.parts }
    requires some { 0 < blank.parts }
{
    let domain = ShareFree::new();
    let mut steps = Steps::<L>::new(blank);
    let any = describe(alloc, &domain, 1, &[])?;
    let head = [compound(alloc, count)?];
    let place = enter(alloc, &domain, &any, head.as_slice(), all, &mut steps)?;
    Ok(place.is_some())
}

/// The number of arguments of the call of so many variables, where a clause of 16 variables has all 65,535 groups of them.
pub fn calls<L: Ledger>(alloc: Global, count: u32, blank: Blank) -> Result<u32, CompareFail>
    requires name { blank.name ≡ L.name }
    requires parts { blank.parts ≡ L.parts }
    requires some { 0 < blank.parts }
{
    let domain = ShareFree::new();
    let mut steps = Steps::<L>::new(blank);
    let any = describe(alloc, &domain, 1, &[])?;
    let head = [compound(alloc, 15)?];
    match enter(alloc, &domain, &any, head.as_slice(), 16, &mut steps)? {
        None => Ok(0),
        Some(at) => {
            let args = variables(alloc, count)?;
            let called = call(alloc, &domain, &at, args.as_slice(), &mut steps)?;
            Ok(called.arity)
        }
    }
}
