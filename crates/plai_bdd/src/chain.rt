ghost use Rattle.std.specs.Prelude.{◌≡◌, ◌+◌, ◌<◌, ℕ, IsTrue, IfOk, OnOk};
ghost use Rattle.plai_base.specs.Mask.{has_slot};
ghost use Rattle.plai_bdd.specs.Chain.{IsChain};
ghost use Rattle.plai_bdd.specs.Nodes.{IsFunction};
ghost use Rattle.plai_bdd.specs.Slots.{conjunction};

use crate::node::Node;
use plai_base::Mask;
use std::alloc::{AllocError, Global};

/// Adds a branch on the slot, if that is in the set, which is false where the slot is and else as the last node.
fn link(nodes: &mut Vec<Node>, all: Mask, slot: u32) -> Result<(), AllocError>
    requires slot_fits { slot < 64 }
    requires chain { IsChain all (slot + 1) nodes.old.items }
    ensures { OnOk result (IsChain all slot nodes.new.items) }
{
    if all.contains(slot) {
        let high = nodes.len() - 1;
        nodes.push(Node::Branch { slot, low: 0, high })?;
    }
    Ok(())
}

/// The nodes of the function that all slots of the set are true. The set has one.
pub fn chain(alloc: Global, all: Mask) -> Result<Vec<Node>, AllocError>
    requires { (slot : ℕ) × (slot < 64 × IsTrue (has_slot all slot)) }
    ensures { IfOk result (λ nodes. IsFunction nodes.items (conjunction all)) }
{
    let mut nodes = vec![in alloc; Node::Leaf(false), Node::Leaf(true)]?;
    for slot in (0..64).rev() {
        link(&mut nodes, all, slot)?;
    }
    Ok(nodes)
}
