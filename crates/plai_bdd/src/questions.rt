ghost use Rattle.std.specs.Prelude.{◌≡◌, ◌<◌, ◌^◌, ◌||◌, ◌↔◌, ℕ, false, nat_eq, IsTrue};
ghost use Rattle.std.specs.List.{list_any};
ghost use Rattle.plai_base.specs.Mask.{has_slot};
ghost use Rattle.plai_bdd.specs.Assignment.{Assignment, IsFree};
ghost use Rattle.plai_bdd.specs.Nodes.{IsOver, holds, is_model};
ghost use Rattle.plai_bdd.specs.Table.{slot_of};

use crate::bdd::Bdd;
use crate::memo::Pair;
use crate::used::{branch_slots, is_always};
use crate::walk::{answer_at, either, implies_at, root_of_either};
use plai_base::Mask;

impl Bdd {
    /// The slots that its nodes branch on. It depends on no others.
    pub fn slots(&self) -> Mask
        ensures branches { (slot : ℕ) → slot < 64 → has_slot result slot ≡ list_any (λ node. nat_eq (slot_of node) slot) self.now }
        ensures free { (slot : ℕ) → slot < 64 → has_slot result slot ≡ false → IsFree (holds self.now) slot }
    {
        branch_slots(self.nodes.as_slice())
    }

    /// Whether the function is true at all assignments. Nothing is allocated.
    pub fn is_always(&self) -> bool
        ensures { IsTrue result ↔ ((at : Assignment) → IsTrue (holds self.now at)) }
    {
        is_always(self.nodes.as_slice())
    }

    /// Whether each assignment that makes this function true makes the other true. Nothing is allocated.
    pub fn implies(&self, other: &Bdd) -> bool
        ensures function { IsTrue result ↔ ((at : Assignment) → IsTrue (holds self.now at) → IsTrue (holds other.now at)) }
        ensures models { (bound : ℕ) → IsOver bound self.now → IsOver bound other.now
            → (IsTrue result ↔ ((mask : ℕ) → mask < 2 ^ bound → IsTrue (is_model self.now mask) → IsTrue (is_model other.now mask))) }
    {
        let left = self.nodes.as_slice();
        let right = other.nodes.as_slice();
        let roots = Pair {
            left: left.len() - 1,
            right: right.len() - 1,
        };
        implies_at(left, right, roots)
    }

    /// Whether each assignment that makes the function true makes one of the two slots true, which may be one slot. Nothing is
    /// allocated.
    pub fn forces(&self, a: u32, b: u32) -> bool
        requires a_fits { a < 64 }
        requires b_fits { b < 64 }
        ensures function { IsTrue result ↔ ((at : Assignment) → IsTrue (holds self.now at) → IsTrue (at a || at b)) }
        ensures models { (bound : ℕ) → a < bound → b < bound → IsOver bound self.now
            → (IsTrue result ↔ ((mask : ℕ) → mask < 2 ^ bound → IsTrue (is_model self.now mask) → IsTrue (has_slot mask a || has_slot mask b))) }
    {
        let left = self.nodes.as_slice();
        let right = either(a.min(b), a.max(b));
        let roots = Pair {
            left: left.len() - 1,
            right: root_of_either(a, b),
        };
        implies_at(left, &right, roots)
    }

    /// Whether the function is true where the slots of the set are true and no others. Nothing is allocated.
    pub fn is_model(&self, mask: Mask) -> bool
        ensures { result ≡ is_model self.now mask }
    {
        let nodes = self.nodes.as_slice();
        answer_at(nodes, nodes.len() - 1, mask)
    }
}
