ghost use Rattle.std.specs.Prelude.{◌≡◌, ◌<◌, ◌≤◌, ◌↔◌, IsTrue, length, get_or, slice_set, true};
ghost use Rattle.plai_base.specs.Mask.{has_slot};
ghost use Rattle.plai_bdd.specs.Nodes.{tree_at};
ghost use Rattle.plai_bdd.specs.Tree.{value};
ghost use Rattle.plai_bdd.specs.Table.{IsSource};
ghost use Rattle.plai_bdd.specs.Walk.{AreShown, Implies, either_nodes, either_root, no_line, shows, with_pair};
ghost use Rattle.plai_bdd.specs.declared.change.Change.TheVariants.{Keep};
ghost use Rattle.plai_bdd.specs.declared.node.Node.TheVariants.{Leaf};

use crate::combine::{children, first_slot, leaf_answer, node_at};
use crate::memo::Pair;
use crate::node::Node;
use plai_base::Mask;

/// Pairs of places that a walk has shown: one place on the right with some of 64 places on the left, those from `64 * block` on.
#[derive(Clone, Copy)]
struct Line {
    right: usize,
    block: usize,
    shown: Mask,
}

impl Line {
    /// The line with nothing shown.
    fn empty() -> Line
        ensures { result ≡ no_line }
    {
        Line {
            right: 0,
            block: 0,
            shown: Mask::empty(),
        }
    }

    /// Whether the line has the pair.
    fn shows(&self, pair: Pair) -> bool
        ensures { result ≡ shows self.now pair }
    {
        self.right == pair.right
            && self.block == pair.left / 64
            && self.shown.contains((pair.left % 64) as u32)
    }

    /// The line with the pair, which takes the place of what the line had for other pairs.
    fn with_pair(&self, pair: Pair) -> Line
        ensures { result ≡ with_pair self.now pair }
    {
        let block = pair.left / 64;
        let shown = if self.right == pair.right && self.block == block {
            self.shown
        } else {
            Mask::empty()
        };
        Line {
            right: pair.right,
            block,
            shown: shown.insert((pair.left % 64) as u32),
        }
    }
}

/// Where the pair's line is, where the left list has so many blocks of 64 places. Pairs share it only where they have one line, or
/// where there are more lines than `lines` has.
fn line_of(lines: &[Line], blocks: usize, pair: Pair) -> usize
    requires { 0 < length lines.now }
    ensures { result < length lines.now }
{
    pair.right.wrapping_mul(blocks).wrapping_add(pair.left / 64) % lines.len()
}

/// Whether the pair is among those of the lines.
fn is_shown(lines: &[Line], place: usize, pair: Pair) -> bool
    requires { place < length lines.now }
    ensures { result ≡ shows (get_or lines.now place no_line) pair }
{
    let line = &lines[place];
    line.shows(pair)
}

/// Notes that the pair is shown.
fn show(lines: &mut [Line], place: usize, pair: Pair)
    requires { place < length lines.old }
    ensures { lines.new ≡ slice_set lines.old place (with_pair (get_or lines.old place no_line) pair) }
{
    let line = lines[place].with_pair(pair);
    lines[place] = line;
}

/// Whether the node is the leaf of this answer.
fn is_leaf(node: Node, answer: bool) -> bool
    ensures { IsTrue result → node ≡ Leaf answer }
{
    match node {
        Node::Leaf(own) => own == answer,
        Node::Branch { .. } => false,
    }
}

/// Whether the function at the first place implies that at the second. The calls nest at most 65 deep, since slots grow, and
/// nothing is allocated. The left list has so many blocks of 64 places.
fn implied(left: &[Node], right: &[Node], pair: Pair, blocks: usize, lines: &mut [Line]) -> bool
    requires left_is { IsSource Keep left.now pair.left }
    requires right_is { IsSource Keep right.now pair.right }
    requires lines_are { AreShown left.now right.now lines.old }
    requires some { 0 < length lines.old }
    ensures implies { IsTrue result ↔ Implies (tree_at left.now pair.left) (tree_at right.now pair.right) }
    ensures lines { AreShown left.now right.now lines.new }
{
    let a = node_at(left, pair.left);
    let b = node_at(right, pair.right);
    if is_leaf(a, false) || is_leaf(b, true) {
        return true;
    }
    let slot = first_slot(a, b);
    if slot == 64 {
        return !leaf_answer(a) || leaf_answer(b);
    }
    let place = line_of(lines, blocks, pair);
    if is_shown(lines, place, pair) {
        return true;
    }
    let (left_low, left_high) = children(a, slot, pair.left);
    let (right_low, right_high) = children(b, slot, pair.right);
    let low = Pair {
        left: left_low,
        right: right_low,
    };
    let high = Pair {
        left: left_high,
        right: right_high,
    };
    if !implied(left, right, low, blocks, lines) {
        return false;
    }
    if !implied(left, right, high, blocks, lines) {
        return false;
    }
    show(lines, place, pair);
    true
}

/// The walk from a pair with so many lines, which stand on the stack.
fn implied_within<const LINES: usize>(
    left: &[Node],
    right: &[Node],
    pair: Pair,
    blocks: usize,
) -> bool
    requires left_is { IsSource Keep left.now pair.left }
    requires right_is { IsSource Keep right.now pair.right }
    requires some { 0 < LINES }
    requires few { LINES ≤ 65536 }
    ensures { IsTrue result ↔ Implies (tree_at left.now pair.left) (tree_at right.now pair.right) }
{
    let mut lines = [Line::empty(); LINES];
    implied(left, right, pair, blocks, &mut lines)
}

/// Whether the function at the first place implies that at the second. Nothing is allocated. No pair of places is walked twice where
/// there are at most 8,192 lines, which is one for each node of the right list and each 64 nodes of the left. The fewer lines there
/// are, the fewer are kept, since each call writes them all once.
pub fn implies_at(left: &[Node], right: &[Node], pair: Pair) -> bool
    requires left_is { IsSource Keep left.now pair.left }
    requires right_is { IsSource Keep right.now pair.right }
    ensures { IsTrue result ↔ Implies (tree_at left.now pair.left) (tree_at right.now pair.right) }
{
    let blocks = left.len() / 64 + 1;
    if right.len() <= 64 / blocks {
        implied_within::<64>(left, right, pair, blocks)
    } else if right.len() <= 1024 / blocks {
        implied_within::<1024>(left, right, pair, blocks)
    } else {
        implied_within::<8192>(left, right, pair, blocks)
    }
}

/// The nodes of the function that one of two slots is true.
pub fn either(first: u32, second: u32) -> [Node; 4]
    ensures { result ≡ either_nodes first second }
{
    [
        Node::Leaf(false),
        Node::Leaf(true),
        Node::Branch {
            slot: second,
            low: 0,
            high: 1,
        },
        Node::Branch {
            slot: first,
            low: 2,
            high: 1,
        },
    ]
}

/// Where that function's root is among them.
pub fn root_of_either(a: u32, b: u32) -> usize
    ensures { result ≡ either_root a b }
{
    if a == b { 2 } else { 3 }
}

/// The answer of the function at a place, where the slots of the set are true and no others.
pub fn answer_at(nodes: &[Node], place: usize, mask: Mask) -> bool
    requires { IsSource Keep nodes.now place }
    ensures { result ≡ value (tree_at nodes.now place) (has_slot mask) }
{
    match node_at(nodes, place) {
        Node::Leaf(answer) => answer,
        Node::Branch { slot, low, high } => {
            if mask.contains(slot) {
                answer_at(nodes, high, mask)
            } else {
                answer_at(nodes, low, mask)
            }
        }
    }
}
