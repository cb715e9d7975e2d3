//! Lists of predicates, as `module` and `use_module` have them.
ghost use Rattle.plai_sources.specs.Shapes.{each};
ghost use Rattle.plai_sources.specs.Keys.{key, key_of, keys_of};
ghost use Rattle.plai_sources.specs.Answering.{Gives, Lists};

use crate::shape::{atom, list_items, number_up_to, two_arguments};
use crate::stop::Stop;
use plai_clauses::is_definable;
use plai_terms::{Listed, Name, Term};
use std::alloc::Global;

/// The greatest number of arguments of a predicate.
const MOST_ARGUMENTS: u32 = 16;

/// The name and number of arguments, if a program may define a predicate of them.
fn key(alloc: Global, name: &Name, arity: u32) -> Result<(Name, u32), Stop>
    ensures { Gives (key name.now arity) result }
{
    if is_definable(name, arity) {
        Ok((name.copy(alloc)?, arity))
    } else {
        Err(Stop::Unfit)
    }
}

/// The name and number of arguments of `P/A`.
fn key_of(alloc: Global, term: &Term) -> Result<(Name, u32), Stop>
    ensures { Gives (key_of term.now) result }
{
    let (left, right) = two_arguments(b"/", term).ok_or(Stop::Unfit)?;
    let name = atom(left).ok_or(Stop::Unfit)?;
    let arity = number_up_to(MOST_ARGUMENTS, right).ok_or(Stop::Unfit)?;
    key(alloc, name, arity)
}

fn each_key(alloc: Global, items: &[&Term]) -> Result<Vec<(Name, u32)>, Stop>
    ensures { Lists (each (λ item. key_of item.now) items.now) result }
{
    let mut keys = Vec::new(alloc);
    for item in items {
        keys.push(key_of(alloc, item)?)?;
    }
    Ok(keys)
}

fn list_keys(alloc: Global, term: &Term) -> Result<Vec<(Name, u32)>, Stop>
    ensures { Lists (keys_of term.now) result }
{
    let items = list_items(alloc, term)?;
    each_key(alloc, items.as_slice())
}

/// The names and numbers of arguments of `[P/A,..]`, each of which a program may define (ISO/IEC 13211-1:1995, 7.1.6.6).
pub fn keys(alloc: Global, term: &Term) -> Result<Listed<(Name, u32)>, Stop>
    ensures { Gives (keys_of term.now) result }
{
    Ok(Listed::new(list_keys(alloc, term)?))
}
