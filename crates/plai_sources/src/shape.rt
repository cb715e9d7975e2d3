//! What a term looks like.
ghost use Rattle.std.specs.Prelude.{◌≡◌, option_map};
ghost use Rattle.std.specs.Option.{option_copied};
ghost use Rattle.plai_clauses.specs.ClauseOf.{two, two_arguments};
ghost use Rattle.plai_sources.specs.Shapes.{one, one_argument, atom_of, variable_of, number_up_to, is_nil, list_items};
ghost use Rattle.plai_sources.specs.Answering.{ListsItems};

use crate::stop::Stop;
use plai_terms::{Name, Term};
use std::alloc::Global;

fn one(args: &[Term]) -> Option<&Term>
    ensures { option_copied result ≡ one args.now }
{
    match args {
        [arg] => Some(arg),
        _ => None,
    }
}

/// The argument of a compound of this name with one argument.
pub fn one_argument<'a>(wanted: &[u8], term: &'a Term) -> Option<&'a Term>
    ensures { option_copied result ≡ one_argument wanted.now term.entry.now }
{
    match term {
        Term::Compound(name, args) => {
            if name.as_slice() == wanted {
                one(args.as_slice())
            } else {
                None
            }
        }
        _ => None,
    }
}

fn two(args: &[Term]) -> Option<(&Term, &Term)>
    ensures { option_map (λ p. (p.0.now, p.1.now)) result ≡ two args.now }
{
    match args {
        [first, second] => Some((first, second)),
        _ => None,
    }
}

/// The arguments of a compound of this name with two arguments.
pub fn two_arguments<'a>(wanted: &[u8], term: &'a Term) -> Option<(&'a Term, &'a Term)>
    ensures { option_map (λ p. (p.0.now, p.1.now)) result ≡ two_arguments wanted.now term.entry.now }
{
    match term {
        Term::Compound(name, args) => {
            if name.as_slice() == wanted {
                two(args.as_slice())
            } else {
                None
            }
        }
        _ => None,
    }
}

/// The name of an atom.
pub fn atom(term: &Term) -> Option<&Name>
    ensures { option_copied result ≡ atom_of term.now }
{
    match term {
        Term::Atom(name) => Some(name),
        _ => None,
    }
}

/// The number of a variable.
pub fn variable(term: &Term) -> Option<u32>
    ensures { result ≡ variable_of term.now }
{
    match term {
        Term::Var(number) => Some(*number),
        _ => None,
    }
}

/// The value of an integer from 0 up to the greatest one.
pub fn number_up_to(greatest: u32, term: &Term) -> Option<u32>
    ensures { result ≡ number_up_to greatest term.now }
{
    match term {
        Term::Int(value) => {
            if *value >= 0 && *value <= greatest as i128 {
                Some(*value as u32)
            } else {
                None
            }
        }
        _ => None,
    }
}

/// Whether the term is the atom `[]`.
fn is_nil(term: &Term) -> bool
    ensures { result ≡ is_nil term.now }
{
    match term {
        Term::Atom(name) => name.as_slice() == b"[]".as_slice(),
        _ => false,
    }
}

/// The items of a list that ends with `[]`.
pub fn list_items<'a>(alloc: Global, term: &'a Term) -> Result<Vec<&'a Term>, Stop>
    ensures { ListsItems (list_items term.entry.now) result }
{
    let mut items = Vec::new(alloc);
    let mut rest = term;
    while let Some((head, tail)) = two_arguments(b".", rest) {
        items.push(head)?;
        rest = tail;
    }
    if is_nil(rest) {
        Ok(items)
    } else {
        Err(Stop::Unfit)
    }
}
