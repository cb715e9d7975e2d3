//! Trees of leaves and of levels.
ghost use Rattle.std.specs.Prelude.{◌≡◌, ◌++◌, ◌∷◌, [], reverse, map, pos};
ghost use Rattle.plai_reader.specs.Climb.{finished, Gives};
ghost use Rattle.plai_reader.specs.Limits.{kept_trees};
ghost use Rattle.plai_reader.specs.Roles.{nil};
ghost use Rattle.plai_reader.specs.Reading.{limit_of, within, list_of, text_tree, leaf_tree, closed};
ghost use Rattle.plai_reader.specs.States.{Makes, Lists};

use crate::climb::finish;
use crate::level::{Frame, Operand};
use crate::state::{Bracket, Leaf};
use crate::stop::Stop;
use crate::tree::{Tree, compound};
use plai_terms::{Name, Term};
use std::alloc::Global;

fn make_nil(alloc: Global) -> Result<Tree, Stop>
    ensures { Makes (kept_trees.atom nil) result }
{
    let name = Name::new(Vec::from_slice(alloc, b"[]")?);
    Ok(Tree::Whole(Term::Atom(name), 1))
}

/// The cell of a list.
fn make_cell(alloc: Global, item: Tree, tail: Tree) -> Result<Tree, Stop>
    ensures { Makes (list_of kept_trees (item ∷ []) tail) result }
{
    let name = Name::new(Vec::from_slice(alloc, b".")?);
    Ok(compound(alloc, name, vec![in alloc; item, tail]?)?)
}

/// The list of these items before the tail.
#[tactic(auto, using(crate::proofs::Lists::list_of_last))]
fn make_list(alloc: Global, items: Vec<Tree>, tail: Tree) -> Result<Tree, Stop>
    ensures { Makes (list_of kept_trees items.items tail) result }
{
    let mut items = items;
    let mut tail = tail;
    while let Some(item) = items.pop() {
        tail = make_cell(alloc, item, tail)?;
    }
    Ok(tail)
}

fn make_integers(alloc: Global, text: &[u8]) -> Result<Vec<Tree>, Stop>
    ensures { Lists (map (λ c. kept_trees.integer (pos c)) text.now) result }
{
    let mut items = Vec::with_capacity(alloc, text.len())?;
    for byte in text {
        items.push(Tree::Whole(Term::Int(i128::from(*byte)), 1))?;
    }
    Ok(items)
}

/// The list of a text's codes.
fn make_text(alloc: Global, text: &Name) -> Result<Tree, Stop>
    ensures { Makes (text_tree kept_trees text.now) result }
{
    let items = make_integers(alloc, text.as_slice())?;
    let tail = make_nil(alloc)?;
    Ok(make_list(alloc, items, tail)?)
}

/// The tree of an operand of one token.
pub fn make_leaf(alloc: Global, leaf: Leaf) -> Result<Tree, Stop>
    ensures { Makes (leaf_tree kept_trees leaf) result }
{
    match leaf {
        Leaf::Variable(number) => Ok(Tree::Whole(Term::Var(number), 1)),
        Leaf::Integer(value) => Ok(Tree::Whole(Term::Int(value), 1)),
        Leaf::Atom(name) => Ok(Tree::Whole(Term::Atom(name), 1)),
        Leaf::Text(text) => make_text(alloc, &text),
    }
}

/// The greatest priority of a level or item.
pub fn limit(bracket: &Bracket) -> u32
    ensures { result ≡ limit_of bracket.now }
{
    match bracket {
        Bracket::Whole | Bracket::Round => 1200,
        _ => 999,
    }
}

/// The tree of the innermost level or item.
pub fn take_item(
    alloc: Global,
    frames: Vec<Frame<Tree>>,
    place: Option<Operand<Tree>>,
    limit: u32,
) -> Result<Tree, Stop>
    ensures { Gives (within limit (finished kept_trees (reverse frames.items) place)) result }
{
    let mut frames = frames;
    match finish(alloc, &mut frames, place)? {
        Some(operand) => {
            if operand.priority <= limit {
                Ok(operand.tree)
            } else {
                Err(Stop::Syntax)
            }
        }
        None => Err(Stop::Syntax),
    }
}

/// One more item.
pub fn append(items: Vec<Tree>, tree: Tree) -> Result<Vec<Tree>, Stop>
    ensures { Lists (items.items ++ tree ∷ []) result }
{
    let mut items = items;
    items.push(tree)?;
    Ok(items)
}

/// What a level stands for, with its last item.
pub fn close(alloc: Global, bracket: Bracket, items: Vec<Tree>, tree: Tree) -> Result<Tree, Stop>
    ensures { Makes (closed kept_trees bracket items.items tree) result }
{
    match bracket {
        Bracket::Whole | Bracket::Round => Ok(tree),
        Bracket::Arguments(name) => {
            let args = append(items, tree)?;
            Ok(compound(alloc, name, args)?)
        }
        Bracket::Items => {
            let items = append(items, tree)?;
            let tail = make_nil(alloc)?;
            make_list(alloc, items, tail)
        }
        Bracket::Tail => make_list(alloc, items, tree),
    }
}
