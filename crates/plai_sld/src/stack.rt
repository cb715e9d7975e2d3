// The list of a run as a stack, with its front at the end, so that a step changes the end alone.
ghost use Rattle.std.specs.Prelude.{◌≡◌, ◌+◌, ◌≤◌, ◌++◌, OnErr, OnOk, IfOk, length, take, reverse, vec_len, vec_capacity};
ghost use Rattle.plai_sld.specs.Stacks.{AreLimited, IsBrought};

use crate::item::Item;
use crate::pending::Pending;
use plai_terms::{Listed, Subst};
use std::alloc::{AllocError, Global};

// An item, and what waits behind it for those below.
#[derive(Drop)]
pub(crate) struct Waiting {
    pub(crate) item: Item,
    pub(crate) below: Pending,
}

// What takes the place of the last item of a stack, if there is one, so that the stack is under a substitution; and how many
// items stay.
pub(crate) fn brought(
    alloc: Global,
    stack: &[Waiting],
    bindings: &Subst,
) -> Result<(usize, Listed<Waiting>), AllocError>
    requires { AreLimited (reverse stack.now) }
    ensures { IfOk result (λ change. IsBrought bindings.now stack.now change.0 change.1) }
{
    match stack.split_last() {
        None => Ok((0, Listed::new(Vec::new(alloc)))),
        Some((front, rest)) => {
            let item = front.item.under(alloc, bindings)?;
            let below = front.below.then(alloc, bindings)?;
            let top = vec![in alloc; Waiting { item, below }]?;
            Ok((rest.len(), Listed::new(top)))
        }
    }
}

// Moves the items, of which the first is to be the front, to the end of the stack, which has room for them.
fn put_all(stack: &mut Vec<Waiting>, mut top: Vec<Waiting>)
    requires { vec_len stack.old + length top.items ≤ vec_capacity stack.old }
    ensures { stack.new.items ≡ stack.old.items ++ reverse top.items }
{
    while let Some(item) = top.pop() {
        stack.push_reserved(item);
    }
}

// Leaves so many items of the stack, and puts others on them, of which the first is to be the front.
pub(crate) fn replace_top(
    stack: &mut Vec<Waiting>,
    count: usize,
    top: Vec<Waiting>,
) -> Result<(), AllocError>
    ensures ok { OnOk result (stack.new.items ≡ take count stack.old.items ++ reverse top.items) }
    ensures err { OnErr result (stack.new.items ≡ stack.old.items) }
{
    stack.reserve(top.len())?;
    stack.truncate(count);
    put_all(stack, top);
    Ok(())
}
