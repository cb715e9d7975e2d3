ghost use Rattle.std.specs.Prelude.{◌≡◌, ◌<◌, ◌||◌, [], ◌∷◌, ℕ, IsTrue, nat_eq, true, ◌↔◌};
ghost use Rattle.std.specs.List.{list_any};
ghost use Rattle.plai_base.specs.Mask.{has_slot, mask_of};
ghost use Rattle.plai_bdd.specs.declared.node.Node.TheVariants.{Leaf};
ghost use Rattle.plai_bdd.specs.Table.{slot_of as slot_of_node};

use crate::combine::slot_of;
use crate::node::Node;
use plai_base::Mask;

/// Whether some node is a branch on the slot, which is below 64.
pub fn has_branch(nodes: &[Node], slot: u32) -> bool
    ensures { result ≡ list_any (λ node. nat_eq (slot_of_node node) slot) nodes.now }
{
    nodes.iter().any(|node| slot_of(*node) == slot)
}

/// The set with the slot that the node branches on, if it does.
fn with_branch(slots: Mask, node: Node) -> Mask
    ensures { (slot : ℕ) → slot < 64 → has_slot result slot ≡ (has_slot slots slot || nat_eq (slot_of_node node) slot) }
{
    let slot = slot_of(node);
    if slot < 64 { slots.insert(slot) } else { slots }
}

/// Whether the set has this slot alone.
pub fn is_single(slots: Mask, slot: u32) -> bool
    requires { slot < 64 }
    ensures { IsTrue result → slots ≡ mask_of slot }
{
    slots.bits() == Mask::of(slot).bits()
}

/// The slots that the nodes branch on.
pub fn branch_slots(nodes: &[Node]) -> Mask
    ensures { (slot : ℕ) → slot < 64 → has_slot result slot ≡ list_any (λ node. nat_eq (slot_of_node node) slot) nodes.now }
{
    let mut slots = Mask::empty();
    for node in nodes {
        slots = with_branch(slots, *node);
    }
    slots
}

/// Whether the nodes are the leaf true alone.
pub fn is_always(nodes: &[Node]) -> bool
    ensures { IsTrue result ↔ (nodes.now ≡ Leaf true ∷ []) }
{
    nodes == [Node::Leaf(true)].as_slice()
}
