ghost use Rattle.std.specs.Prelude.{◌≡◌, cond, get_or, length, IfOk};
ghost use Rattle.plai_bdd.specs.Nodes.{IsCanonical, IsFunction, holds};
ghost use Rattle.plai_bdd.specs.Replace.{replaced, replaced_node};
ghost use Rattle.plai_bdd.specs.Table.{HasChildrenBelow};

use crate::bdd::Bdd;
use crate::node::Node;
use plai_base::Mask;
use std::alloc::{AllocError, Global};

/// The set of the slot, which has no slot where there is none.
fn set_at(sets: &[Mask], slot: u32) -> Mask
    ensures { result ≡ get_or sets.now slot 0 }
{
    match sets.get(slot as usize) {
        Some(set) => *set,
        None => Mask::empty(),
    }
}

/// The function that answers as `high` where `test` is true and else as `low`.
fn choice(alloc: Global, test: &Bdd, low: &Bdd, high: &Bdd) -> Result<Bdd, AllocError>
    ensures { IfOk result (λ b. IsFunction b (λ at. cond (holds test.now at) (holds high.now at) (holds low.now at))) }
{
    let both = test.and(alloc, high)?;
    if low.implies(high) {
        return both.or(alloc, low);
    }
    let never = Bdd::constant(alloc, false)?;
    let other = test.iff(alloc, &never)?.and(alloc, low)?;
    both.or(alloc, &other)
}

/// What becomes of a node's function, by what has become of its children's.
fn replaced_function(
    alloc: Global,
    node: Node,
    sets: &[Mask],
    made: &[Bdd],
) -> Result<Bdd, AllocError>
    requires { HasChildrenBelow (length made.now) node }
    ensures { IfOk result (λ b. IsFunction b (replaced_node sets.now made.now node)) }
{
    match node {
        Node::Leaf(answer) => Bdd::constant(alloc, answer),
        Node::Branch { slot, low, high } => {
            let all = Bdd::all_of(alloc, set_at(sets, slot))?;
            choice(alloc, &all, &made[low], &made[high])
        }
    }
}

/// The function of the nodes, with its slots replaced.
fn replaced_root(alloc: Global, nodes: &[Node], sets: &[Mask]) -> Result<Bdd, AllocError>
    requires { IsCanonical nodes.now }
    ensures { IfOk result (λ b. IsFunction b (λ at. holds nodes.now (replaced sets.now at))) }
{
    let mut made = Vec::with_capacity(alloc, nodes.len())?;
    for node in nodes {
        let next = replaced_function(alloc, *node, sets, made.as_slice())?;
        made.push(next)?;
    }
    match made.pop() {
        Some(root) => Ok(root),
        None => Bdd::constant(alloc, false),
    }
}

impl Bdd {
    /// The function with each slot replaced by the conjunction of a set: slot 0 by the first, and so on, and slots behind the last by
    /// true. The error is want of memory.
    pub fn replaced(&self, alloc: Global, sets: &[Mask]) -> Result<Bdd, AllocError>
        ensures { IfOk result (λ b. IsFunction b (λ at. holds self.now (replaced sets.now at))) }
    {
        replaced_root(alloc, self.nodes.as_slice(), sets)
    }
}
