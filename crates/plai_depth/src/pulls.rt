// Terms with skeletons put for their variables.
ghost use Rattle.std.specs.Prelude.{◌≡◌, IfOk, map};
ghost use Rattle.plai_depth_laws.specs.Skeletons.{cut};
ghost use Rattle.plai_depth_laws.specs.Moves.{skeleton_at, pull};
ghost use Rattle.plai_depth_laws.specs.Operations.{pulled};

use crate::cuts::cut;
use crate::shared::Shared;
use plai_terms::{Listed, Skeleton, Term};
use std::alloc::{AllocError, Global};

/// The skeleton of a variable.
fn variable(alloc: Global, skeletons: &[Shared], number: u32) -> Result<Skeleton, AllocError>
    ensures { IfOk result (λ s. s ≡ skeleton_at skeletons.now number) }
{
    match skeletons.get(number as usize) {
        None => Ok(Skeleton::Any),
        Some(skeleton) => skeleton.as_skeleton().copy(alloc),
    }
}

/// The skeleton of a variable, cut.
fn cut_variable(
    alloc: Global,
    depth: u32,
    skeletons: &[Shared],
    number: u32,
) -> Result<Skeleton, AllocError>
    ensures { IfOk result (λ s. s ≡ cut depth (skeleton_at skeletons.now number)) }
{
    match skeletons.get(number as usize) {
        None => Ok(Skeleton::Any),
        Some(skeleton) => cut(alloc, depth, skeleton.as_skeleton()),
    }
}

/// The term with the skeletons put for its variables.
#[cycle(pull)]
pub(crate) fn pull(alloc: Global, skeletons: &[Shared], term: &Term) -> Result<Skeleton, AllocError>
    ensures { IfOk result (λ s. s ≡ pull skeletons.now term.now) }
{
    match term {
        Term::Var(number) => variable(alloc, skeletons, *number),
        Term::Int(value) => Ok(Skeleton::Int(*value)),
        Term::Atom(name) => Ok(Skeleton::Atom(name.copy(alloc)?)),
        Term::Compound(name, args) => Ok(Skeleton::Compound(
            name.copy(alloc)?,
            Listed::new(pull_all(alloc, skeletons, args.as_slice())?),
        )),
    }
}

#[cycle(pull)]
fn pull_all(
    alloc: Global,
    skeletons: &[Shared],
    terms: &[Term],
) -> Result<Vec<Skeleton>, AllocError>
    ensures { IfOk result (λ all. all.items ≡ map (pull skeletons.now) terms.now) }
{
    let mut all = Vec::new(alloc);
    for term in terms {
        all.push(pull(alloc, skeletons, term)?)?;
    }
    Ok(all)
}

/// The term with the skeletons put for its variables, cut. What lies deeper in the term isn't read.
#[cycle(cut_pull)]
fn cut_pull(
    alloc: Global,
    depth: u32,
    skeletons: &[Shared],
    term: &Term,
) -> Result<Skeleton, AllocError>
    ensures { IfOk result (λ s. s ≡ cut depth (pull skeletons.now term.now)) }
{
    if depth == 0 {
        return Ok(Skeleton::Any);
    }
    match term {
        Term::Var(number) => cut_variable(alloc, depth, skeletons, *number),
        Term::Int(value) => Ok(Skeleton::Int(*value)),
        Term::Atom(name) => Ok(Skeleton::Atom(name.copy(alloc)?)),
        Term::Compound(name, args) => Ok(Skeleton::Compound(
            name.copy(alloc)?,
            Listed::new(cut_pulls(alloc, depth - 1, skeletons, args.as_slice())?),
        )),
    }
}

/// Terms with the skeletons put for their variables, cut.
#[cycle(cut_pull)]
pub(crate) fn cut_pulls(
    alloc: Global,
    depth: u32,
    skeletons: &[Shared],
    terms: &[Term],
) -> Result<Vec<Skeleton>, AllocError>
    ensures { IfOk result (λ all. all.items ≡ pulled depth terms.now skeletons.now) }
{
    let mut all = Vec::new(alloc);
    for term in terms {
        all.push(cut_pull(alloc, depth, skeletons, term)?)?;
    }
    Ok(all)
}
