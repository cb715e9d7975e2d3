// Skeletons cut at a depth.
ghost use Rattle.std.specs.Prelude.{◌≡◌, IfOk, map};
ghost use Rattle.plai_depth_laws.specs.Skeletons.{cut};

use crate::shared::Shared;
use plai_terms::{Listed, Skeleton};
use std::alloc::{AllocError, Global};

/// The skeleton with each part at a greater depth made `any`; the whole is at depth 1.
#[cycle(cut)]
pub(crate) fn cut(alloc: Global, depth: u32, skeleton: &Skeleton) -> Result<Skeleton, AllocError>
    ensures { IfOk result (λ s. s ≡ cut depth skeleton.now) }
{
    if depth == 0 {
        return Ok(Skeleton::Any);
    }
    match skeleton {
        Skeleton::Any => Ok(Skeleton::Any),
        Skeleton::Integer => Ok(Skeleton::Integer),
        Skeleton::Int(value) => Ok(Skeleton::Int(*value)),
        Skeleton::Atom(name) => Ok(Skeleton::Atom(name.copy(alloc)?)),
        Skeleton::Compound(name, args) => Ok(Skeleton::Compound(
            name.copy(alloc)?,
            Listed::new(cut_all(alloc, depth - 1, args.as_slice())?),
        )),
    }
}

/// Each skeleton cut.
#[cycle(cut)]
fn cut_all(alloc: Global, depth: u32, skeletons: &[Skeleton]) -> Result<Vec<Skeleton>, AllocError>
    ensures { IfOk result (λ all. all.items ≡ map (cut depth) skeletons.now) }
{
    let mut all = Vec::new(alloc);
    for skeleton in skeletons {
        all.push(cut(alloc, depth, skeleton)?)?;
    }
    Ok(all)
}

/// Each skeleton of a state cut.
pub(crate) fn cut_shared(
    alloc: Global,
    depth: u32,
    skeletons: &[Shared],
) -> Result<Vec<Shared>, AllocError>
    ensures { IfOk result (λ all. all.items ≡ map (cut depth) skeletons.now) }
{
    let mut all = Vec::new(alloc);
    for skeleton in skeletons {
        let cut = cut(alloc, depth, skeleton.as_skeleton())?;
        all.push(Shared::new(alloc, cut)?)?;
    }
    Ok(all)
}
