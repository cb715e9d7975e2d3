// Skeletons pushed into terms: what becomes of the variables' skeletons, where a term is to lie below another skeleton.
//
// A push says whether there are such skeletons. Where there are none, those that are left are of no use.
ghost use Rattle.std.specs.Prelude.{◌≡◌, IfOk, Some, None, if◌then◌else◌};
ghost use Rattle.std.specs.Option.{is_some};
ghost use Rattle.plai_terms.specs.declared.skeleton.Skeleton.{Int, Atom};
ghost use Rattle.plai_terms.specs.declared.term.Term.{Var};
ghost use Rattle.plai_depth_laws.specs.Skeletons.{meet};
ghost use Rattle.plai_depth_laws.specs.Moves.{push, push_all};
ghost use Rattle.plai_depth.specs.Values.{where_kept};

use crate::lattice::{meet, same_functor};
use crate::shared::Shared;
use plai_terms::{Name, Skeleton, Term};
use std::alloc::{AllocError, Global};

/// Whether an integer has a meet with the skeleton.
fn integer_meets(value: i128, pushed: &Skeleton) -> bool
    ensures { result ≡ is_some (meet (Int value) pushed.now) }
{
    match pushed {
        Skeleton::Any => true,
        Skeleton::Integer => true,
        Skeleton::Int(other) => value == *other,
        _ => false,
    }
}

/// Whether an atom has a meet with the skeleton.
fn atom_meets(name: &Name, pushed: &Skeleton) -> bool
    ensures { result ≡ is_some (meet (Atom name.now) pushed.now) }
{
    match pushed {
        Skeleton::Any => true,
        Skeleton::Atom(other) => name == other,
        _ => false,
    }
}

/// The variable's skeleton meets what is pushed.
fn push_variable(
    alloc: Global,
    number: u32,
    skeletons: &mut Vec<Shared>,
    pushed: &Skeleton,
) -> Result<bool, AllocError>
    ensures { IfOk result (λ some. push (Var number) skeletons.old.items pushed.now ≡ where_kept some skeletons.new.items) }
{
    let Some(present) = skeletons.get(number as usize) else {
        return Ok(true);
    };
    match meet(alloc, present.as_skeleton(), pushed)? {
        None => Ok(false),
        Some(met) => {
            skeletons[number as usize] = Shared::new(alloc, met)?;
            Ok(true)
        }
    }
}

/// Pushes a skeleton into a term.
#[cycle(push)]
pub(crate) fn push(
    alloc: Global,
    term: &Term,
    skeletons: &mut Vec<Shared>,
    pushed: &Skeleton,
) -> Result<bool, AllocError>
    ensures { IfOk result (λ some. push term.now skeletons.old.items pushed.now ≡ where_kept some skeletons.new.items) }
{
    match term {
        Term::Var(number) => push_variable(alloc, *number, skeletons, pushed),
        Term::Int(value) => Ok(integer_meets(*value, pushed)),
        Term::Atom(name) => Ok(atom_meets(name, pushed)),
        Term::Compound(name, args) => match pushed {
            Skeleton::Any => Ok(true),
            Skeleton::Compound(other, others) => {
                let (args, others) = (args.as_slice(), others.as_slice());
                if !same_functor(name, args.len(), other, others.len()) {
                    return Ok(false);
                }
                push_all(alloc, args, skeletons, others)
            }
            _ => Ok(false),
        },
    }
}

/// Pushes each skeleton into its fellow among the terms, from the left.
#[cycle(push)]
pub(crate) fn push_all(
    alloc: Global,
    terms: &[Term],
    skeletons: &mut Vec<Shared>,
    pushed: &[Skeleton],
) -> Result<bool, AllocError>
    ensures { IfOk result (λ some. push_all terms.now pushed.now skeletons.old.items ≡ where_kept some skeletons.new.items) }
{
    for (term, skeleton) in terms.iter().zip(pushed) {
        if !push(alloc, term, skeletons, skeleton)? {
            return Ok(false);
        }
    }
    Ok(true)
}
