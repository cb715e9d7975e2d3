//! Makes terms of great depth by unification, copies, prints and lets go of them, asks what builtins mean of them, and prints
//! how many bytes their texts have. The first argument says how often the depth is doubled: at 20 the terms are a million
//! levels deep.
#![tactic(auto)]

use plai_builtins::meaning;
use plai_terms::{Args, Name, Outcome, Subst, Term, print_term, unify};
use std::alloc::{AllocError, Global};
use std::env::Env;
use std::{env, io};

/// A number above the variables of all terms.
const FRESH: u32 = 3;

/// A compound of that name and these arguments.
fn compound(alloc: Global, name: &[u8], args: Args) -> Result<Term, AllocError> {
    let name = Name::new(Vec::from_slice(alloc, name)?);
    Ok(Term::Compound(name, args))
}

/// A compound that is nested by its only argument.
fn straight(alloc: Global) -> Result<Term, AllocError> {
    compound(alloc, b"f", Args::new(vec![in alloc; Term::Var(1)]?))
}

/// A compound that is nested by its last argument, as a list is.
fn right(alloc: Global) -> Result<Term, AllocError> {
    let items = vec![in alloc; Term::Int(-7), Term::Var(1)]?;
    compound(alloc, b".", Args::new(items))
}

/// A compound that is nested by its first argument.
fn left(alloc: Global) -> Result<Term, AllocError> {
    let items = vec![in alloc; Term::Var(1), Term::Int(3), Term::Var(2)]?;
    compound(alloc, b"g", Args::new(items))
}

/// A sum that is nested by its first argument.
fn sum(alloc: Global) -> Result<Term, AllocError> {
    let items = vec![in alloc; Term::Var(1), Term::Int(2)]?;
    compound(alloc, b"+", Args::new(items))
}

/// The term put into itself in place of variable 1, so many times.
fn doubled(alloc: Global, first: Term, times: u32) -> Result<Term, AllocError> {
    let mut term = first;
    for _ in 0..times {
        let binding = Subst::single(alloc, 1, term.copy(alloc)?)?;
        term = binding.apply(alloc, &term)?;
    }
    Ok(term)
}

/// What variable 0 is bound to, where it is to be equal to the term, and else an integer.
fn solved(alloc: Global, term: Term) -> Result<Term, AllocError> {
    match unify(alloc, &[Term::Var(0)], &[term])? {
        Outcome::Unified(subst) => subst.apply(alloc, &Term::Var(0)),
        Outcome::Clash | Outcome::Occurs => Ok(Term::Int(0)),
    }
}

/// Whether variable 1 can't be bound to a term in which it stands.
fn is_refused(alloc: Global, term: Term) -> Result<bool, AllocError> {
    match unify(alloc, &[Term::Var(1)], &[term])? {
        Outcome::Occurs => Ok(true),
        Outcome::Unified(_) | Outcome::Clash => Ok(false),
    }
}

fn text(alloc: Global, term: &Term) -> Result<Vec<u8>, AllocError> {
    let mut out = Vec::new(alloc);
    print_term(alloc, term, &mut out)?;
    Ok(out)
}

fn tell<R: Print + AllocGlobal>(rt: &R, what: &str, first: Term, times: u32) -> io::Result<()> {
    let alloc = rt.alloc();
    let term = doubled(alloc, first, times)?;
    let printed = text(alloc, &term)?;
    let same = text(alloc, &solved(alloc, term.copy(alloc)?)?)? == printed;
    let refused = is_refused(alloc, term.copy(alloc)?)?;
    println!(rt;
        "{what}: {} bytes, bound: {same}, refused: {refused}",
        printed.len()
    )?;
    tell_tests(rt, &term)?;
    tell_results(rt, &term)
}

/// The term with this one in place of variable 1.
fn filled(alloc: Global, term: &Term, middle: Term) -> Result<Term, AllocError> {
    Subst::single(alloc, 1, middle)?.apply(alloc, term)
}

/// Whether the two terms are unified with each other by binding variable 1 to 5.
fn are_unified(alloc: Global, left: Term, right: Term) -> Result<bool, AllocError> {
    match unify(alloc, &[left], &[right])? {
        Outcome::Unified(subst) => Ok(subst.apply(alloc, &Term::Var(1))? == Term::Int(5)),
        Outcome::Clash | Outcome::Occurs => Ok(false),
    }
}

/// What a builtin of one argument means.
fn meaning_of_one(alloc: Global, name: &str, term: Term) -> Result<Option<Subst>, AllocError> {
    if term.has_variables_below(alloc, FRESH)? {
        let name = Name::new(Vec::from_slice(alloc, name.as_bytes())?);
        meaning(alloc, &name, &[term], FRESH)
    } else {
        Ok(None)
    }
}

/// What a builtin of two arguments means.
fn meaning_of_two(
    alloc: Global,
    name: &str,
    left: Term,
    right: Term,
) -> Result<Option<Subst>, AllocError> {
    if left.has_variables_below(alloc, FRESH)? && right.has_variables_below(alloc, FRESH)? {
        let name = Name::new(Vec::from_slice(alloc, name.as_bytes())?);
        meaning(alloc, &name, &[left, right], FRESH)
    } else {
        Ok(None)
    }
}

/// The term that the first variable that a builtin binds is bound to, and where there is none an integer.
fn bound(alloc: Global, found: Option<Subst>) -> Result<Term, AllocError> {
    if let Some(subst) = found {
        for binding in subst.as_slice() {
            return binding.1.copy(alloc);
        }
    }
    Ok(Term::Int(0))
}

/// Whether builtins hold that test or compare the term and its instance.
fn tell_tests<R: Print + AllocGlobal>(rt: &R, term: &Term) -> io::Result<()> {
    let alloc = rt.alloc();
    let instance = filled(alloc, term, Term::Int(5))?;
    let same = meaning_of_two(alloc, "==", term.copy(alloc)?, term.copy(alloc)?)?.is_some();
    let differ = meaning_of_two(alloc, "==", term.copy(alloc)?, instance.copy(alloc)?)?.is_none();
    let before = meaning_of_two(alloc, "@<", term.copy(alloc)?, instance.copy(alloc)?)?.is_some();
    let open = meaning_of_one(alloc, "ground", term.copy(alloc)?)?.is_none();
    let unified = are_unified(alloc, term.copy(alloc)?, instance.copy(alloc)?)?;
    let ground = meaning_of_one(alloc, "ground", instance)?.is_some();
    println!(rt;
        "  same: {same}, differ: {differ}, before: {before}, unified: {unified}, open: {open}, ground: {ground}"
    )
}

/// How many bytes the texts have of a copy, of the list of the term's name and arguments, and of the term made of that list.
fn tell_results<R: Print + AllocGlobal>(rt: &R, term: &Term) -> io::Result<()> {
    let alloc = rt.alloc();
    let found = meaning_of_two(alloc, "copy_term", term.copy(alloc)?, Term::Var(0))?;
    let copy = text(alloc, &bound(alloc, found)?)?.len();
    let found = meaning_of_two(alloc, "=..", term.copy(alloc)?, Term::Var(0))?;
    let list = bound(alloc, found)?;
    let size = text(alloc, &list)?.len();
    let found = meaning_of_two(alloc, "=..", Term::Var(0), list)?;
    let made = text(alloc, &bound(alloc, found)?)?.len();
    println!(rt; "  copy: {copy} bytes, list: {size} bytes, made of it: {made} bytes")
}

/// The value of the sum.
fn tell_sum<R: Print + AllocGlobal>(rt: &R, times: u32) -> io::Result<()> {
    let alloc = rt.alloc();
    let sum = filled(alloc, &doubled(alloc, sum(alloc)?, times)?, Term::Int(5))?;
    let found = meaning_of_two(alloc, "is", Term::Var(0), sum)?;
    match &bound(alloc, found)? {
        Term::Int(value) => println!(rt; "a sum by the first argument: {value}"),
        _ => println!(rt; "no sum"),
    }
}

/// How often the depth is doubled.
fn times<R: Env + AllocGlobal>(rt: &R) -> io::Result<u32> {
    let mut times = 10;
    for word in env::args(rt)?.skip(1) {
        if let Ok(number) = word.parse::<u32>() {
            times = number;
        }
    }
    Ok(times)
}

fn main(rt: HostRuntime) -> io::Result<()> {
    let alloc = rt.alloc();
    let times = times(&rt)?;
    tell(&rt, "by the only argument", straight(alloc)?, times)?;
    tell(&rt, "by the last argument", right(alloc)?, times)?;
    tell(&rt, "by the first argument", left(alloc)?, times)?;
    tell_sum(&rt, times)
}
