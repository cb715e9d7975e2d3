ghost use Rattle.std.specs.Prelude.{◌≡◌, ◌<◌, ◌≤◌, ◌+◌, ◌-◌, ◌&&◌, ◌||◌, ◌↔◌, ◌++◌, ℕ, false, true, IsTrue, IfOk, OnOk, OnErr, length};
ghost use Rattle.std.specs.Bool.{beq};
ghost use Rattle.plai_base.specs.Mask.{has_slot};
ghost use Rattle.plai_bdd.specs.Assignment.{Assignment, IsFree, with_slot};
ghost use Rattle.plai_bdd.specs.Change.{IsPlaceable, combined};
ghost use Rattle.plai_bdd.specs.Nodes.{AreSameFunction, HaveSameModels, IsCanonical, IsFunction, IsOver, holds, root_of};
ghost use Rattle.plai_bdd.specs.Text.{tree_text};
ghost use Rattle.plai_bdd.specs.Slots.{AllTrue, Somewhere, conjunction, quantified, some_slot};

use crate::chain::chain;
use crate::change::{Change, Connective};
use crate::combine::combine;
use crate::memo::{Pair, blank_memo};
use crate::node::Node;
use crate::print::write_node;
use crate::table::{empty_table, into_nodes};
use crate::used::{has_branch, is_single};
use plai_base::Mask;
use std::alloc::{AllocError, Global};
use std::hash::{Hash, Hasher};
use std::marker::Model;

/// A Boolean function of slots 0 to 63, as the list of the nodes of its reduced diagram in the one numbering. The root is the last
/// node. Contracts see the list, and `holds` of it is the function.
#[derive(Debug, Drop)]
pub struct Bdd {
    pub(crate) nodes: Vec<Node>,
}

impl Model for Bdd {
    ghost use Rattle.std.specs.Prelude.{List};
    ghost use Rattle.plai_bdd.specs.declared.node.Node.{Node};
    ghost use Rattle.plai_bdd.specs.Nodes.{IsCanonical};

    ghost Value = { List Node };

    ghost view = { λ b. b.nodes.items };

    ghost invariant = { λ b. IsCanonical b.nodes.items };
}

impl Bdd {
    /// The function of one answer. The error is want of memory, here and below.
    pub fn constant(alloc: Global, value: bool) -> Result<Bdd, AllocError>
        ensures { IfOk result (λ b. IsFunction b (λ _. value)) }
    {
        let nodes = vec![in alloc; Node::Leaf(value)]?;
        Ok(Bdd { nodes })
    }

    /// The function that answers as its slot.
    pub fn variable(alloc: Global, slot: u32) -> Result<Bdd, AllocError>
        requires { slot < 64 }
        ensures { IfOk result (λ b. IsFunction b (λ at. at slot)) }
    {
        let nodes = vec![in alloc;
            Node::Leaf(false),
            Node::Leaf(true),
            Node::Branch {
                slot,
                low: 0,
                high: 1
            },
        ]?;
        Ok(Bdd { nodes })
    }

    /// The functions' answers, joined, after a change of slots.
    fn combined(
        &self,
        alloc: Global,
        other: &Bdd,
        connective: Connective,
        change: Change,
    ) -> Result<Bdd, AllocError>
        requires left { IsPlaceable change (holds self.now) }
        requires right { IsPlaceable change (holds other.now) }
        ensures { IfOk result (λ b. IsFunction b (combined connective change (root_of self.now) (root_of other.now))) }
    {
        let left = self.nodes.as_slice();
        let right = other.nodes.as_slice();
        let pair = Pair {
            left: left.len() - 1,
            right: right.len() - 1,
        };
        let mut table = empty_table(alloc, left.len(), right.len())?;
        let mut memo = blank_memo(alloc, left.len(), right.len())?;
        let _root = combine(connective, change, left, right, pair, &mut table, &mut memo)?;
        let nodes = into_nodes(alloc, table)?;
        Ok(Bdd { nodes })
    }

    /// The function that both are true.
    pub fn and(&self, alloc: Global, other: &Bdd) -> Result<Bdd, AllocError>
        ensures { IfOk result (λ b. IsFunction b (λ at. holds self.now at && holds other.now at)) }
    {
        if self.is_always() {
            other.copy(alloc)
        } else if other.is_always() {
            self.copy(alloc)
        } else {
            self.combined(alloc, other, Connective::And, Change::Keep)
        }
    }

    /// The function that one of the two is true, or both.
    pub fn or(&self, alloc: Global, other: &Bdd) -> Result<Bdd, AllocError>
        ensures { IfOk result (λ b. IsFunction b (λ at. holds self.now at || holds other.now at)) }
    {
        self.combined(alloc, other, Connective::Or, Change::Keep)
    }

    /// The function with one slot fixed.
    pub fn restrict(&self, alloc: Global, slot: u32, value: bool) -> Result<Bdd, AllocError>
        ensures { IfOk result (λ b. IsFunction b (λ at. holds self.now (with_slot at slot value))) }
    {
        let fixed = Change::Fix {
            slot,
            answer: value,
        };
        self.combined(alloc, self, Connective::And, fixed)
    }

    /// The function with each slot that it depends on raised. None of them may come to 64 or more.
    pub fn shift_up(&self, alloc: Global, by: u32) -> Result<Bdd, AllocError>
        requires { (slot : ℕ) → 64 ≤ slot + by → IsFree (holds self.now) slot }
        ensures { IfOk result (λ b. IsFunction b (λ at. holds self.now (λ slot. at (slot + by)))) }
    {
        self.combined(alloc, self, Connective::And, Change::Raise(by))
    }

    /// The function with each slot that it depends on lowered. It may depend on none below `by`.
    pub fn shift_down(&self, alloc: Global, by: u32) -> Result<Bdd, AllocError>
        requires { (slot : ℕ) → slot < by → IsFree (holds self.now) slot }
        ensures { IfOk result (λ b. IsFunction b (λ at. holds self.now (λ slot. at (slot - by)))) }
    {
        self.combined(alloc, self, Connective::And, Change::Lower(by))
    }

    /// An equal function.
    pub fn copy(&self, alloc: Global) -> Result<Bdd, AllocError>
        ensures same { IfOk result (λ b. b ≡ self.now) }
        ensures canonical { IfOk result (λ b. IsCanonical b) }
    {
        let nodes = Vec::from_slice(alloc, self.nodes.as_slice())?;
        Ok(Bdd { nodes })
    }

    /// The function that all slots of the set are true.
    pub fn all_of(alloc: Global, all: Mask) -> Result<Bdd, AllocError>
        ensures function { IfOk result (λ b. IsFunction b (conjunction all)) }
        ensures meaning { IfOk result (λ b. (at : Assignment) → IsTrue (holds b at) ↔ AllTrue all at) }
    {
        match all.lowest() {
            None => Bdd::constant(alloc, true),
            Some(slot) => {
                if is_single(all, slot) {
                    return Bdd::variable(alloc, slot);
                }
                let nodes = chain(alloc, all)?;
                Ok(Bdd { nodes })
            }
        }
    }

    /// The function that both are true, or neither.
    pub fn iff(&self, alloc: Global, other: &Bdd) -> Result<Bdd, AllocError>
        ensures { IfOk result (λ b. IsFunction b (λ at. beq (holds self.now at) (holds other.now at))) }
    {
        self.combined(alloc, other, Connective::Iff, Change::Keep)
    }

    /// The function that the slot is true if and only if all of the set are.
    pub fn iff_all(alloc: Global, slot: u32, all: Mask) -> Result<Bdd, AllocError>
        requires { slot < 64 }
        ensures function { IfOk result (λ b. IsFunction b (λ at. beq (at slot) (conjunction all at))) }
        ensures meaning { IfOk result (λ b. (at : Assignment) → IsTrue (holds b at) ↔ (IsTrue (at slot) ↔ AllTrue all at)) }
    {
        let conjunction = Bdd::all_of(alloc, all)?;
        let variable = Bdd::variable(alloc, slot)?;
        variable.iff(alloc, &conjunction)
    }

    /// Whether some node branches on the slot.
    fn branches_on(&self, slot: u32) -> bool
        ensures { result ≡ false → IsFree (holds self.now) slot }
    {
        has_branch(self.nodes.as_slice(), slot)
    }

    /// The function that is true where this one is at some answer of the slot.
    pub fn exists_one(&self, alloc: Global, slot: u32) -> Result<Bdd, AllocError>
        ensures { IfOk result (λ b. IsFunction b (λ at. holds self.now (with_slot at slot false) || holds self.now (with_slot at slot true))) }
    {
        self.combined(alloc, self, Connective::Or, Change::Apart(slot))
    }

    /// The function, or what it is at some answer of a slot if that is in the set.
    fn exists_slot(self, alloc: Global, slots: Mask, slot: u32) -> Result<Bdd, AllocError>
        requires slot_fits { slot < 64 }
        requires canonical { IsCanonical self }
        ensures { IfOk result (λ b. IsFunction b (some_slot slots slot (holds self))) }
    {
        if slots.contains(slot) && self.branches_on(slot) {
            self.exists_one(alloc, slot)
        } else {
            Ok(self)
        }
    }

    /// The function that is true where this one is at some answers of the slots of the set. The greatest slots go first, since what
    /// stands below them is smallest.
    pub fn exists(&self, alloc: Global, slots: Mask) -> Result<Bdd, AllocError>
        ensures function { IfOk result (λ b. IsFunction b (quantified slots (holds self.now))) }
        ensures meaning { IfOk result (λ b. (at : Assignment) → IsTrue (holds b at) ↔ Somewhere slots (holds self.now) at) }
        ensures free { IfOk result (λ b. (slot : ℕ) → slot < 64 → IsTrue (has_slot slots slot) → IsFree (holds b) slot) }
    {
        let mut rest = self.copy(alloc)?;
        for k in (0..64).rev() {
            rest = rest.exists_slot(alloc, slots, k)?;
        }
        Ok(rest)
    }

    /// Appends the function's text: `t` where it is true at all assignments, `f` where it is at none, and else `(i Y N)`
    /// with the least slot that it depends on, counted from 1, and the texts of the function with that slot true and with
    /// it false. The time is linear in the text. After want of memory `out` is as before.
    pub fn print(&self, alloc: Global, out: &mut Vec<u8>) -> Result<(), AllocError>
        ensures ok { OnOk result (out.new.items ≡ out.old.items ++ tree_text (root_of self.now)) }
        ensures err { OnErr result (out.new.items ≡ out.old.items) }
    {
        let nodes = self.nodes.as_slice();
        let mut text = Vec::new(alloc);
        write_node(nodes, nodes.len() - 1, &mut text)?;
        out.extend_from_slice(&text)
    }

    /// The number of nodes, leaves among them, which is at least 1. That every list is canonical stands here for callers that
    /// come by a function from elsewhere.
    pub fn node_count(&self) -> usize
        ensures count { result ≡ length self.now }
        ensures canonical { IsCanonical self.now }
    {
        self.nodes.len()
    }
}

impl PartialEq for Bdd {
    ghost use Rattle.std.specs.Cmp.Lexicographic.{pointwise, lists_per};
    ghost use Rattle.plai_bdd.specs.contracts.node.NodePartialEq.TheImpl.Laws as node_laws;

    ghost eq = { pointwise ⟦<Node as PartialEq>⟧.eq };

    ghost laws = { lists_per node_laws.laws-law };

    /// Whether the lists are equal, which they are exactly where the functions are. Nothing is allocated.
    fn eq(&self, other: &Bdd) -> bool
        ensures computed { result ≡ pointwise ⟦<Node as PartialEq>⟧.eq self.now other.now }
        ensures lists { IsTrue result ↔ (self.now ≡ other.now) }
        ensures functions { IsTrue result ↔ AreSameFunction self.now other.now }
        ensures equal_functions_have_equal_lists { AreSameFunction self.now other.now ↔ (self.now ≡ other.now) }
        ensures models { (bound : ℕ) → IsOver bound self.now → IsOver bound other.now
            → HaveSameModels bound self.now other.now → self.now ≡ other.now }
    {
        self.nodes.as_slice() == other.nodes.as_slice()
    }
}

impl Eq for Bdd {
    ghost use Rattle.std.specs.Cmp.Lexicographic.{lists_equiv};
    ghost use Rattle.plai_bdd.specs.contracts.node.NodeEq.TheImpl.Laws as node_laws;

    ghost laws = { lists_equiv node_laws.laws-law };
}

impl Hash for Bdd {
    ghost use Rattle.std.specs.Hash as fed;
    ghost use Rattle.std.specs.Hash.{items_Alike};
    ghost use Rattle.plai_bdd.specs.contracts.node.NodeHash.TheImpl.Laws as node_laws;

    ghost hash_input = { fed.slice ⟦<Node as Hash>⟧.hash_input };

    ghost respects_eq = { (items_Alike (record { fed = node_laws.respects_eq-law })).fed };

    fn hash<H: Hasher>(&self, state: &mut H) {
        self.nodes.as_slice().hash(state);
    }
}
