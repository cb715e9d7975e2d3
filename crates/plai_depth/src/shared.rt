use plai_terms::Skeleton;
use std::alloc::{AllocError, Global};
use std::marker::Model;
use std::rc::Rc;

/// A skeleton that several states may hold, which contracts see as the skeleton.
#[derive(Drop)]
pub(crate) struct Shared {
    skeleton: Rc<Skeleton>,
}

impl Model for Shared {
    ghost use Rattle.plai_terms.specs.declared.skeleton.Skeleton.{Skeleton};
    ghost use Rattle.plai_terms.specs.contracts.skeleton.Skeleton as whole;
    ghost use Rattle.std.specs.Coded.{codes};

    ghost Value = { Skeleton };

    ghost coded = { Prim.hlevel (codes, whole.the_row.coded) };

    ghost view = { λ s. s.skeleton.value };
}

impl Shared {
    ghost use Rattle.std.specs.Prelude.{◌≡◌, IfOk};

    pub(crate) fn new(alloc: Global, skeleton: Skeleton) -> Result<Shared, AllocError>
        ensures { IfOk result (λ s. s ≡ skeleton) }
    {
        let skeleton = Rc::new(alloc, skeleton)?;
        Ok(Shared { skeleton })
    }

    pub(crate) fn as_skeleton(&self) -> &Skeleton
        ensures { result.now ≡ self.now }
    {
        self.skeleton.as_ref()
    }

    /// The same skeleton, in time that doesn't depend on it.
    pub(crate) fn share(&self) -> Result<Shared, AllocError>
        ensures { IfOk result (λ s. s ≡ self.now) }
    {
        let skeleton = self.skeleton.clone()?;
        Ok(Shared { skeleton })
    }
}
