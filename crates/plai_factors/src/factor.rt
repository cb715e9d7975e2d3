ghost use Rattle.std.specs.Prelude.{◌≡◌, ◌<◌, false, IfOk};
ghost use Rattle.plai_bdd.specs.Assignment.{IsFree};
ghost use Rattle.plai_bdd.specs.Nodes.{holds};

use plai_base::Mask;
use plai_bdd::Bdd;
use std::alloc::{AllocError, Global};
use std::marker::Model;
use std::rc::Rc;

/// A Boolean function of slots 0 to 63 that may have several owners, with the slots that its diagram branches on. Contracts see the
/// list of the diagram's nodes, as they see a [`Bdd`].
#[derive(Drop)]
pub struct Factor {
    diagram: Rc<Bdd>,
    slots: Mask,
}

impl Model for Factor {
    ghost use Rattle.std.specs.Prelude.{List};
    ghost use Rattle.plai_bdd.specs.declared.node.Node.{Node};
    ghost use Rattle.plai_factors.specs.Product.{IsFreeOutside};

    ghost Value = { List Node };

    ghost view = { λ f. f.diagram.value };

    ghost invariant = { λ f. IsFreeOutside f.slots f.diagram.value };
}

impl Factor {
    /// The function of the diagram.
    pub fn new(alloc: Global, diagram: Bdd) -> Result<Factor, AllocError>
        ensures { IfOk result (λ f. f ≡ diagram) }
    {
        let slots = diagram.slots();
        let diagram = Rc::new(alloc, diagram)?;
        Ok(Factor { diagram, slots })
    }

    /// The same function, for one more owner. Nothing of it is copied.
    pub fn share(&self) -> Result<Factor, AllocError>
        ensures { IfOk result (λ f. f ≡ self.now) }
    {
        let diagram = self.diagram.clone()?;
        Ok(Factor {
            diagram,
            slots: self.slots,
        })
    }

    /// The function's diagram.
    pub fn diagram(&self) -> &Bdd
        ensures { result.now ≡ self.now }
    {
        self.diagram.as_ref()
    }

    /// The number of its diagram's nodes.
    pub(crate) fn nodes(&self) -> usize {
        self.diagram.node_count()
    }

    /// The slots that its diagram branches on.
    pub(crate) fn slots(&self) -> Mask {
        self.slots
    }

    /// Whether its diagram branches on the slot.
    pub(crate) fn depends_on(&self, slot: u32) -> bool
        requires { slot < 64 }
        ensures { result ≡ false → IsFree (holds self.now) slot }
    {
        self.slots.contains(slot)
    }
}
