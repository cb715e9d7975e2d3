ghost use Rattle.std.specs.Prelude.{◌≡◌, IfOk, replicate};
ghost use Rattle.plai_terms.specs.declared.skeleton.Skeleton.{Any};
ghost use Rattle.plai_depth_laws.specs.DepthK.{state_with};

use crate::shared::Shared;
use plai_terms::Skeleton;
use std::alloc::{AllocError, Global};

/// What is known at a place of a clause: a skeleton for each of its variables.
#[derive(Drop)]
pub struct State {
    pub(crate) arity: u32,
    pub(crate) variables: u32,
    pub(crate) skeletons: Vec<Shared>,
}

/// The same skeletons.
pub(crate) fn share_all(alloc: Global, skeletons: &[Shared]) -> Result<Vec<Shared>, AllocError>
    ensures { IfOk result (λ all. all.items ≡ skeletons.now) }
{
    let mut all = Vec::new(alloc);
    for skeleton in skeletons {
        all.push(skeleton.share()?)?;
    }
    Ok(all)
}

impl State {
    ghost use Rattle.plai_depth.specs.Values.{state_of};

    /// So many skeletons `any`.
    pub(crate) fn any(alloc: Global, count: u32) -> Result<Vec<Shared>, AllocError>
        ensures { IfOk result (λ all. all.items ≡ replicate count Any) }
    {
        let any = Shared::new(alloc, Skeleton::Any)?;
        let mut all = Vec::new(alloc);
        for _ in 0..count {
            all.push(any.share()?)?;
        }
        Ok(all)
    }

    /// The state at another place of the same clause, with these skeletons.
    pub(crate) fn with_skeletons(&self, skeletons: Vec<Shared>) -> State
        ensures { state_of result ≡ state_with self.now.arity self.now.variables skeletons.items }
    {
        State {
            arity: self.arity,
            variables: self.variables,
            skeletons,
        }
    }
}
