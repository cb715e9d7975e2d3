//! What an action does to a reader.
ghost use Rattle.std.specs.Prelude.{◌≡◌, [], ◌∷◌};
ghost use Rattle.plai_reader.specs.Climb.{climbing};
ghost use Rattle.plai_reader.specs.Limits.{kept_trees};
ghost use Rattle.plai_reader.specs.Reading.{placed, back, put, begun, fresh, wanting, performed};
ghost use Rattle.plai_reader.specs.States.{layer_of, layers_of, state_of, Steps};

use crate::build::{append, close, limit, make_leaf, take_item};
use crate::climb::reduce;
use crate::level::{Frame, Operand};
use crate::operator::Operator;
use crate::state::{Action, Bracket, Leaf, Level, Mode, Pending, Reader};
use crate::stop::Stop;
use crate::tree::Tree;
use crate::variables::Variables;
use std::alloc::Global;

fn want(wanted: bool, mode: &Mode) -> Mode
    ensures { result ≡ wanting wanted mode.now }
{
    Mode {
        wanted,
        pending: Pending::Clear,
        at_edge: mode.at_edge,
    }
}

/// A level behind these items.
pub fn open(alloc: Global, bracket: Bracket, items: Vec<Tree>) -> Level
    ensures { layer_of result ≡ fresh bracket items.items }
{
    Level {
        bracket,
        items,
        frames: Vec::new(alloc),
        place: None,
    }
}

fn place(tree: Tree, level: Level) -> Level
    ensures { layer_of result ≡ placed tree (layer_of level) }
{
    let Level {
        bracket,
        items,
        frames,
        place: _,
    } = level;
    Level {
        bracket,
        items,
        frames,
        place: Some(Operand { tree, priority: 0 }),
    }
}

fn put_leaf(alloc: Global, leaf: Leaf, reader: Reader) -> Result<Reader, Stop>
    ensures { Steps (performed kept_trees (climbing kept_trees) (Action.Put leaf) (state_of reader)) result }
{
    let tree = make_leaf(alloc, leaf)?;
    let Reader {
        inner,
        outer,
        mode,
        variables,
    } = reader;
    Ok(Reader {
        inner: place(tree, inner),
        outer,
        mode: want(false, &mode),
        variables,
    })
}

/// An operator behind the last place.
fn push(alloc: Global, operator: Operator, reader: Reader) -> Result<Reader, Stop>
    ensures { Steps (performed kept_trees (climbing kept_trees) (Action.Push operator) (state_of reader)) result }
{
    let Reader {
        inner,
        outer,
        mode,
        variables,
    } = reader;
    let Level {
        bracket,
        items,
        frames,
        place,
    } = inner;
    let mut frames = frames;
    let left = reduce(alloc, &mut frames, place, &operator)?;
    let wanted = !operator.kind.is_postfix();
    frames.push(Frame { left, operator })?;
    Ok(Reader {
        inner: Level {
            bracket,
            items,
            frames,
            place: None,
        },
        outer,
        mode: want(wanted, &mode),
        variables,
    })
}

fn wait(pending: Pending, reader: Reader) -> Reader
    ensures { Steps (performed kept_trees (climbing kept_trees) (Action.Wait pending) (state_of reader)) (Ok result) }
{
    let Reader {
        inner,
        outer,
        mode,
        variables,
    } = reader;
    Reader {
        inner,
        outer,
        mode: Mode {
            wanted: true,
            pending,
            at_edge: mode.at_edge,
        },
        variables,
    }
}

fn begin(alloc: Global, bracket: Bracket, reader: Reader) -> Result<Reader, Stop>
    ensures { Steps (performed kept_trees (climbing kept_trees) (Action.Begin bracket) (state_of reader)) result }
{
    let Reader {
        inner,
        outer,
        mode,
        variables,
    } = reader;
    let mut outer = outer;
    outer.push(inner)?;
    Ok(Reader {
        inner: open(alloc, bracket, Vec::new(alloc)),
        outer,
        mode: want(true, &mode),
        variables,
    })
}

/// The item ends, and the level goes on.
fn next_item(alloc: Global, reader: Reader) -> Result<Reader, Stop>
    ensures { Steps (performed kept_trees (climbing kept_trees) Action.Item (state_of reader)) result }
{
    let Reader {
        inner,
        outer,
        mode,
        variables,
    } = reader;
    let Level {
        bracket,
        items,
        frames,
        place,
    } = inner;
    let tree = take_item(alloc, frames, place, limit(&bracket))?;
    Ok(Reader {
        inner: open(alloc, bracket, append(items, tree)?),
        outer,
        mode: want(true, &mode),
        variables,
    })
}

/// The last item before a bar ends.
fn next_tail(alloc: Global, reader: Reader) -> Result<Reader, Stop>
    ensures { Steps (performed kept_trees (climbing kept_trees) Action.Tail (state_of reader)) result }
{
    let Reader {
        inner,
        outer,
        mode,
        variables,
    } = reader;
    let Level {
        bracket,
        items,
        frames,
        place,
    } = inner;
    let tree = take_item(alloc, frames, place, limit(&bracket))?;
    Ok(Reader {
        inner: open(alloc, Bracket::Tail, append(items, tree)?),
        outer,
        mode: want(true, &mode),
        variables,
    })
}

/// A tree in the level around the one that ends.
fn go_back(tree: Tree, outer: Vec<Level>, mode: &Mode, variables: Variables) -> Result<Reader, Stop>
    ensures { Steps (back tree (layers_of outer.items) mode.now variables) result }
{
    let mut outer = outer;
    match outer.pop() {
        None => Err(Stop::Syntax),
        Some(level) => Ok(Reader {
            inner: place(tree, level),
            outer,
            mode: want(false, mode),
            variables,
        }),
    }
}

fn end(alloc: Global, reader: Reader) -> Result<Reader, Stop>
    ensures { Steps (performed kept_trees (climbing kept_trees) Action.End (state_of reader)) result }
{
    let Reader {
        inner,
        outer,
        mode,
        variables,
    } = reader;
    let Level {
        bracket,
        items,
        frames,
        place,
    } = inner;
    let tree = take_item(alloc, frames, place, limit(&bracket))?;
    go_back(close(alloc, bracket, items, tree)?, outer, &mode, variables)
}

/// Does what a token does.
pub fn perform(alloc: Global, action: Action, reader: Reader) -> Result<Reader, Stop>
    ensures { Steps (performed kept_trees (climbing kept_trees) action (state_of reader)) result }
{
    match action {
        Action::Put(leaf) => put_leaf(alloc, leaf, reader),
        Action::Push(operator) => push(alloc, operator, reader),
        Action::Wait(pending) => Ok(wait(pending, reader)),
        Action::Begin(bracket) => begin(alloc, bracket, reader),
        Action::Item => next_item(alloc, reader),
        Action::Tail => next_tail(alloc, reader),
        Action::End => end(alloc, reader),
    }
}
