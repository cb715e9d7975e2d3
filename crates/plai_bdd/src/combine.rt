ghost use Rattle.std.specs.Prelude.{◌≡◌, ◌<◌, ◌≤◌, Bool, IfOk, OnOk, Some, length, get_or, min, nat_eq, ◌||◌};
ghost use Rattle.std.specs.List.{list_any};
ghost use Rattle.plai_bdd.specs.declared.node.Node.TheVariants.{Leaf};
ghost use Rattle.plai_bdd.specs.Change.{answer_of};
ghost use Rattle.plai_bdd.specs.Table.{Adds, IsMemo, IsSource, IsTable, children_of, function_of, is_absorbing, joined_place, joined_table, least_of, no_node, nodes_of, slot_of as slot_of_node, leaf_answer as leaf_answer_of};

use crate::change::{Change, Connective, Placed};
use crate::memo::{Memo, Pair, note, recall};
use crate::node::Node;
use crate::table::{Table, place};
use std::alloc::AllocError;

/// The children of a node where its slot is this one, and else its own place twice.
pub fn children(node: Node, slot: u32, place: usize) -> (usize, usize)
    ensures { result ≡ children_of node slot place }
{
    match node {
        Node::Leaf(_) => (place, place),
        Node::Branch {
            slot: top,
            low,
            high,
        } => {
            if top == slot {
                (low, high)
            } else {
                (place, place)
            }
        }
    }
}

/// The place of a function whose answers with the slot false and true are at the two places.
fn join(table: &mut Table, slot: u32, low: usize, high: usize) -> Result<usize, AllocError>
    ensures place { IfOk result (λ place. place ≡ joined_place slot low high (nodes_of table.old)) }
    ensures table { OnOk result (nodes_of table.new ≡ joined_table slot low high (nodes_of table.old)) }
{
    if low == high {
        Ok(low)
    } else {
        place(table, Node::Branch { slot, low, high })
    }
}

/// The node at a place.
pub fn node_at(nodes: &[Node], place: usize) -> Node
    requires { place < length nodes.now }
    ensures { result ≡ get_or nodes.now place no_node }
{
    nodes[place]
}

/// The slot of a branch, and 64 of a leaf.
pub fn slot_of(node: Node) -> u32
    ensures { result ≡ slot_of_node node }
{
    match node {
        Node::Leaf(_) => 64,
        Node::Branch { slot, .. } => slot,
    }
}

/// The lesser slot of two nodes.
pub fn first_slot(a: Node, b: Node) -> u32
    ensures { result ≡ min (slot_of_node a) (slot_of_node b) }
{
    slot_of(a).min(slot_of(b))
}

/// The answer of a leaf. A branch has none, and gives false.
pub fn leaf_answer(node: Node) -> bool
    ensures { result ≡ leaf_answer_of node }
{
    match node {
        Node::Leaf(answer) => answer,
        Node::Branch { .. } => false,
    }
}

/// Whether the node is a leaf whose answer decides the connective's.
fn is_absorbing(connective: Connective, node: Node) -> bool
    ensures { result ≡ is_absorbing connective node }
{
    match node {
        Node::Leaf(answer) => connective.absorbs(answer),
        Node::Branch { .. } => false,
    }
}

/// Whether one of the nodes is a leaf whose answer decides the connective's.
fn is_decided(connective: Connective, a: Node, b: Node) -> bool
    ensures { result ≡ (is_absorbing connective a || is_absorbing connective b) }
{
    is_absorbing(connective, a) || is_absorbing(connective, b)
}

/// The leaf of two leaves' answers, joined. Where one leaf decides, the other node may be any.
fn joined_leaf(connective: Connective, a: Node, b: Node) -> Node
    ensures { result ≡ Leaf (answer_of connective (leaf_answer_of a) (leaf_answer_of b)) }
{
    Node::Leaf(connective.answer(leaf_answer(a), leaf_answer(b)))
}

/// Adds the function of a pair, and notes where it is, except where a leaf decides.
#[cycle(combine)]
pub fn combine(
    connective: Connective,
    change: Change,
    left: &[Node],
    right: &[Node],
    pair: Pair,
    table: &mut Table,
    memo: &mut Memo,
) -> Result<usize, AllocError>
    requires left_is { IsSource change left.now pair.left }
    requires right_is { IsSource change right.now pair.right }
    requires table_is { IsTable (nodes_of table.old) }
    requires memo_is { IsMemo connective change left.now right.now memo.old (nodes_of table.old) }
    ensures added { IfOk result (λ place. Adds (nodes_of table.old) place (nodes_of table.new)
        (least_of change left.now right.now pair.left pair.right) (function_of connective change left.now right.now pair.left pair.right)) }
    ensures noted { OnOk result (IsMemo connective change left.now right.now memo.new (nodes_of table.new)) }
{
    let a = node_at(left, pair.left);
    let b = node_at(right, pair.right);
    if is_decided(connective, a, b) {
        return place(table, joined_leaf(connective, a, b));
    }
    if let Some(known) = recall(memo, pair) {
        return Ok(known);
    }
    let place = combine_new(connective, change, left, right, pair, table, memo)?;
    note(memo, pair, place)?;
    Ok(place)
}

/// Adds the function of a pair of which nothing is noted.
#[cycle(combine)]
fn combine_new(
    connective: Connective,
    change: Change,
    left: &[Node],
    right: &[Node],
    pair: Pair,
    table: &mut Table,
    memo: &mut Memo,
) -> Result<usize, AllocError>
    requires left_is { IsSource change left.now pair.left }
    requires right_is { IsSource change right.now pair.right }
    requires table_is { IsTable (nodes_of table.old) }
    requires memo_is { IsMemo connective change left.now right.now memo.old (nodes_of table.old) }
    ensures added { IfOk result (λ place. Adds (nodes_of table.old) place (nodes_of table.new)
        (least_of change left.now right.now pair.left pair.right) (function_of connective change left.now right.now pair.left pair.right)) }
    ensures noted { OnOk result (IsMemo connective change left.now right.now memo.new (nodes_of table.new)) }
{
    let a = node_at(left, pair.left);
    let b = node_at(right, pair.right);
    let slot = first_slot(a, b);
    if slot == 64 {
        return place(table, joined_leaf(connective, a, b));
    }
    let (left_low, left_high) = children(a, slot, pair.left);
    let (right_low, right_high) = children(b, slot, pair.right);
    let low = Pair {
        left: left_low,
        right: right_low,
    };
    let high = Pair {
        left: left_high,
        right: right_high,
    };
    match change.place(slot) {
        Placed::Fixed(answer) => {
            if answer {
                combine(connective, change, left, right, high, table, memo)
            } else {
                combine(connective, change, left, right, low, table, memo)
            }
        }
        Placed::Parted => {
            let apart = Pair {
                left: left_low,
                right: right_high,
            };
            combine(connective, change, left, right, apart, table, memo)
        }
        Placed::At(moved) => {
            let low_place = combine(connective, change, left, right, low, table, memo)?;
            let high_place = combine(connective, change, left, right, high, table, memo)?;
            join(table, moved, low_place, high_place)
        }
    }
}
