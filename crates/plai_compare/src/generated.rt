//! Small terms, actions and properties.
ghost use Rattle.std.specs.Prelude.{◌<◌};

use crate::numbers::Numbers;
use plai_base::Mask;
use plai_domain::Action;
use plai_terms::{Args, Name, Prop, Term};
use std::alloc::{AllocError, Global};

/// The names of atoms and functors. Some are those of patterns.
const NAMES: [&str; 4] = ["a", "b", "any", "int"];

/// One of a few names.
fn name(alloc: Global, numbers: &mut Numbers) -> Result<Name, AllocError> {
    let text = NAMES[numbers.index(4)];
    Ok(Name::new(Vec::from_slice(alloc, text.as_bytes())?))
}

/// An integer, one of two.
fn integer(numbers: &mut Numbers) -> Term {
    Term::Int(i128::from(numbers.below(2)))
}

/// A variable with a number below the limit, if it is over zero, or an integer or an atom, which are rarer.
fn leaf(alloc: Global, numbers: &mut Numbers, variables: u32) -> Result<Term, AllocError> {
    match numbers.below(6) {
        0 => Ok(integer(numbers)),
        1 => Ok(Term::Atom(name(alloc, numbers)?)),
        _ => {
            if variables == 0 {
                return Ok(Term::Atom(name(alloc, numbers)?));
            }
            Ok(Term::Var(numbers.below(variables)))
        }
    }
}

/// A compound of up to three arguments, of which one is the term.
fn around(
    alloc: Global,
    numbers: &mut Numbers,
    variables: u32,
    term: Term,
) -> Result<Term, AllocError> {
    let mut args = Vec::new(alloc);
    for _ in 0..numbers.below(3) {
        args.push(leaf(alloc, numbers, variables)?)?;
    }
    let place = numbers.index(args.len() + 1);
    args.insert(place, term)?;
    Ok(Term::Compound(name(alloc, numbers)?, Args::new(args)))
}

/// A leaf, or one with up to three functors around it.
fn term(alloc: Global, numbers: &mut Numbers, variables: u32) -> Result<Term, AllocError> {
    let mut term = leaf(alloc, numbers, variables)?;
    let levels = numbers.below(7);
    if levels > 3 {
        return Ok(term);
    }
    for _ in 0..levels {
        term = around(alloc, numbers, variables, term)?;
    }
    Ok(term)
}

/// So many terms, whose variables are numbered below the limit.
pub(crate) fn terms(
    alloc: Global,
    numbers: &mut Numbers,
    count: u32,
    variables: u32,
) -> Result<Vec<Term>, AllocError> {
    let mut terms = Vec::new(alloc);
    for _ in 0..count {
        terms.push(term(alloc, numbers, variables)?)?;
    }
    Ok(terms)
}

/// The variables below the limit.
pub(crate) fn variables(alloc: Global, limit: u32) -> Result<Vec<Term>, AllocError> {
    let mut all = Vec::new(alloc);
    for variable in 0..limit {
        all.push(Term::Var(variable))?;
    }
    Ok(all)
}

/// Each action, at some of so many arguments. Without arguments only those that name none.
pub(crate) fn actions(
    alloc: Global,
    numbers: &mut Numbers,
    arguments: u32,
) -> Result<Vec<Action>, AllocError>
    requires { arguments < 4 }
{
    let some = Mask::from_bits(u64::from(numbers.below(1 << arguments)));
    let mut actions = vec![in alloc; Action::Fail, Action::Havoc(some)]?;
    if arguments > 0 {
        let i = numbers.below(arguments) + 1;
        let j = numbers.below(arguments) + 1;
        let all = [
            Action::Unify(i, j),
            Action::Same(i, j),
            Action::Ground(i),
            Action::BindInt(i),
            Action::Var(i),
            Action::Nonvar(i),
        ];
        actions.extend_from_slice(&all)?;
    }
    Ok(actions)
}

/// Each property of so many arguments.
pub(crate) fn properties(alloc: Global, arity: u32) -> Result<Vec<Prop>, AllocError> {
    let mut all = Vec::new(alloc);
    for i in 1..=arity {
        all.extend_from_slice(&[Prop::Ground(i), Prop::Var(i), Prop::Nonvar(i), Prop::Int(i)])?;
        for j in 1..=arity {
            all.push(Prop::Indep(i, j))?;
        }
    }
    Ok(all)
}
