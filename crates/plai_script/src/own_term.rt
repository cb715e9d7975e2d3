//! Terms with variables of their own.
ghost use Rattle.std.specs.Prelude.{◌≡◌, ◌<◌, ◌^◌, [], ◌∷◌, IfOk, OnOk, length, map, nat_eq, unwrap_or};
ghost use Rattle.std.specs.List.{position};
ghost use Rattle.plai_terms.specs.Substitution.{under};
ghost use Rattle.plai_script.specs.OwnTerms.{occurrences, with_variables, variables_of, numbered, own_term};
ghost use Rattle.plai_script.specs.Readable.{IsPart};

use indexmap::IndexSet;
use plai_terms::{Args, ReadTerm, Term};
use std::alloc::{AllocError, Global};

fn note(variable: u32, seen: &mut IndexSet<u32>) -> Result<(), AllocError>
    ensures { OnOk result (seen.new.keys ≡ with_variables seen.old.keys (variable ∷ [])) }
{
    seen.insert(variable)?;
    Ok(())
}

/// Notes the term's variables that aren't noted yet.
fn note_variables(term: &Term, seen: &mut IndexSet<u32>) -> Result<(), AllocError>
    ensures { OnOk result (seen.new.keys ≡ with_variables seen.old.keys (occurrences term.now)) }
{
    match term {
        Term::Var(variable) => note(*variable, seen),
        Term::Int(_) => Ok(()),
        Term::Atom(_) => Ok(()),
        Term::Compound(_, args) => {
            for arg in args.as_slice() {
                note_variables(arg, seen)?;
            }
            Ok(())
        }
    }
}

/// The term's variables, each once, in the order in which they first stand there.
fn variables(alloc: Global, term: &Term) -> Result<IndexSet<u32>, AllocError>
    ensures { IfOk result (λ seen. seen.keys ≡ variables_of term.now) }
{
    let mut seen = IndexSet::new(alloc);
    note_variables(term, &mut seen)?;
    Ok(seen)
}

/// The place of a variable among these.
fn place_among(seen: &IndexSet<u32>, variable: u32) -> u32
    requires { length seen.now.keys < 2 ^ 31 }
    ensures { result ≡ unwrap_or (position (nat_eq variable) seen.now.keys) 0 }
{
    match seen.get_index_of(&variable) {
        Some(place) => place as u32,
        None => 0,
    }
}

fn count_of(seen: &IndexSet<u32>) -> u32
    requires { length seen.now.keys < 2 ^ 31 }
    ensures { result ≡ length seen.now.keys }
{
    seen.len() as u32
}

/// The term, in which each variable has become its place among these.
#[cycle(number)]
fn number(alloc: Global, seen: &IndexSet<u32>, term: &Term) -> Result<Term, AllocError>
    requires { length seen.now.keys < 2 ^ 31 }
    ensures { IfOk result (λ t. t ≡ under (numbered seen.now.keys) term.now) }
{
    match term {
        Term::Var(variable) => Ok(Term::Var(place_among(seen, *variable))),
        Term::Int(value) => Ok(Term::Int(*value)),
        Term::Atom(name) => Ok(Term::Atom(name.copy(alloc)?)),
        Term::Compound(name, args) => {
            let args = number_all(alloc, seen, args.as_slice())?;
            Ok(Term::Compound(name.copy(alloc)?, Args::new(args)))
        }
    }
}

#[cycle(number)]
fn number_all(alloc: Global, seen: &IndexSet<u32>, terms: &[Term]) -> Result<Vec<Term>, AllocError>
    requires { length seen.now.keys < 2 ^ 31 }
    ensures { IfOk result (λ all. all.items ≡ map (under (numbered seen.now.keys)) terms.now) }
{
    let mut all = Vec::new(alloc);
    for term in terms {
        all.push(number(alloc, seen, term)?)?;
    }
    Ok(all)
}

/// A part, with variables of its own, of a term of so many variables.
pub(crate) fn own_term(alloc: Global, limit: u32, term: &Term) -> Result<ReadTerm, AllocError>
    requires few { limit < 2 ^ 31 }
    requires part { IsPart limit term.now }
    ensures { IfOk result (λ read. read ≡ own_term term.now) }
{
    let seen = variables(alloc, term)?;
    let term = number(alloc, &seen, term)?;
    Ok(ReadTerm {
        term,
        variables: count_of(&seen),
    })
}
