//! Climbs priorities.
ghost use Rattle.std.specs.Prelude.{◌≡◌, reverse};
ghost use Rattle.plai_reader.specs.Level.{taken, applied};
ghost use Rattle.plai_reader.specs.Climb.{holds, finished, popped, Gives, Argues, Pops};
ghost use Rattle.plai_reader.specs.Limits.{kept_trees};

use crate::level::{Frame, Operand};
use crate::operator::{Operator, Side};
use crate::stop::Stop;
use crate::tree::{Tree, compound};
use std::alloc::Global;

type Place = Option<Operand<Tree>>;

/// Whether the next operator belongs to the right side of this one.
fn holds(operator: &Operator, next: &Operator) -> bool
    ensures { result ≡ holds operator.now next.now }
{
    next.priority < operator.priority
        || (next.priority == operator.priority && operator.kind.leans_right())
}

/// The argument that a side takes from a place.
fn argument(side: Side, priority: u32, place: Place) -> Result<Option<Tree>, Stop>
    ensures { Argues (taken side priority place) result }
{
    match (side, place) {
        (Side::Nothing, None) => Ok(None),
        (Side::Below, Some(operand)) => {
            if operand.priority < priority {
                Ok(Some(operand.tree))
            } else {
                Err(Stop::Syntax)
            }
        }
        (Side::UpTo, Some(operand)) => {
            if operand.priority <= priority {
                Ok(Some(operand.tree))
            } else {
                Err(Stop::Syntax)
            }
        }
        _ => Err(Stop::Syntax),
    }
}

/// The operator over what stands on its two sides.
fn apply(alloc: Global, operator: Operator, left: Place, right: Place) -> Result<Place, Stop>
    ensures { Gives (applied kept_trees operator left right) result }
{
    let Operator {
        name,
        priority,
        kind,
    } = operator;
    let before = argument(kind.left(), priority, left)?;
    let after = argument(kind.right(), priority, right)?;
    let mut args = Vec::new(alloc);
    if let Some(tree) = before {
        args.push(tree)?;
    }
    if let Some(tree) = after {
        args.push(tree)?;
    }
    if args.is_empty() {
        return Err(Stop::Syntax);
    }
    let tree = compound(alloc, name, args)?;
    Ok(Some(Operand { tree, priority }))
}

/// Applies the frames that don't hold the operator, and gives what then stands on its left.
pub fn reduce(
    alloc: Global,
    frames: &mut Vec<Frame<Tree>>,
    current: Place,
    operator: &Operator,
) -> Result<Place, Stop>
    ensures { Pops (popped kept_trees operator.now (reverse frames.old.items) current) (reverse frames.new.items) result }
{
    let mut current = current;
    while let Some(frame) = frames.pop() {
        if holds(&frame.operator, operator) {
            frames.push(frame)?;
            return Ok(current);
        }
        current = apply(alloc, frame.operator, frame.left, current)?;
    }
    Ok(current)
}

/// Applies all frames.
pub fn finish(alloc: Global, frames: &mut Vec<Frame<Tree>>, current: Place) -> Result<Place, Stop>
    ensures { Gives (finished kept_trees (reverse frames.old.items) current) result }
{
    let mut current = current;
    while let Some(frame) = frames.pop() {
        current = apply(alloc, frame.operator, frame.left, current)?;
    }
    Ok(current)
}
