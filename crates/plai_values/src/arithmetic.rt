ghost use Rattle.std.specs.Prelude.{◌≡◌, ◌++◌, [], ◌∷◌, ℤ, List, Option, IfOk, length, map, reverse};
ghost use Rattle.plai_terms.specs.Preorder.{arguments_of};
ghost use Rattle.plai_values.specs.Values.{functor_value, value_of};

use crate::functor::{Binary, Unary};
use plai_terms::Term;
use std::alloc::{AllocError, Global};

fn unary_value(name: &[u8], value: Option<i128>) -> Option<i128>
    ensures { result ≡ functor_value name.now (value ∷ []) }
{
    Unary::named(name)?.value(value?)
}

fn binary_value(name: &[u8], left: Option<i128>, right: Option<i128>) -> Option<i128>
    ensures { result ≡ functor_value name.now (left ∷ right ∷ []) }
{
    Binary::named(name)?.value(left?, right?)
}

// What a functor makes of the values of its arguments, of which the last stands first.
fn functor_value(name: &[u8], values: &[Option<i128>]) -> Option<i128>
    ensures { result ≡ functor_value name.now (reverse values.now) }
{
    match values {
        [only] => unary_value(name, *only),
        [right, left] => binary_value(name, *left, *right),
        _ => None,
    }
}

// The last values are those of the arguments, that of the first argument last; they are taken off.
fn take_value(name: &[u8], count: usize, values: &mut Vec<Option<i128>>) -> Option<i128>
    ensures { (taken others : List (Option ℤ)) → length taken ≡ count → reverse values.old.items ≡ taken ++ others → (result ≡ functor_value name.now taken) × (reverse values.new.items ≡ others) }
{
    let kept = values.len().saturating_sub(count);
    let value = functor_value(name, &values[kept..]);
    values.truncate(kept);
    value
}

fn value_at(term: &Term, values: &mut Vec<Option<i128>>) -> Option<i128>
    ensures { (others : List (Option ℤ)) → reverse values.old.items ≡ map value_of (arguments_of term.now) ++ others → (result ≡ value_of term.now) × (reverse values.new.items ≡ others) }
{
    match term {
        Term::Int(value) => Some(*value),
        Term::Compound(name, args) => { take_value(name.as_slice(), args.as_slice().len(), values) }
        Term::Var(_) => None,
        Term::Atom(_) => None,
    }
}

// The values of a term's arguments give way to that of the term.
fn put_value(term: &Term, values: &mut Vec<Option<i128>>) -> Result<(), AllocError>
    ensures { IfOk result (λ _. (others : List (Option ℤ)) → reverse values.old.items ≡ map value_of (arguments_of term.now) ++ others → reverse values.new.items ≡ value_of term.now ∷ others) }
{
    let value = value_at(term, values);
    values.push(value)?;
    Ok(())
}

/// The value of an arithmetic expression (ISO/IEC 13211-1:1995, 9.1, 9.3 and 9.4), here an integer from -2^127 to 2^127 - 1.
///
/// `None` exactly where it has none: at a variable or another term that is no integer and has no evaluable functor, at a
/// divisor of zero, at a quotient by `/` that isn't whole, at a shift by a number that isn't from 0 to 127, at an exponent
/// below zero, and where a result is out of range.
///
/// The term may be of any depth: its subterms are gone through with stacks on the heap.
pub fn value(alloc: Global, term: &Term) -> Result<Option<i128>, AllocError>
    ensures { IfOk result (λ v. v ≡ value_of term.now) }
{
    let mut nodes = term.nodes(alloc)?;
    let mut values = Vec::new(alloc);
    while let Some(node) = nodes.pop() {
        put_value(node, &mut values)?;
    }
    Ok(values.pop().flatten())
}
