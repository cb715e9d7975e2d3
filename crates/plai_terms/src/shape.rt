// The text of a set of assignments, over its table of truths: the truth of assignment m stands at place m.
ghost use Rattle.std.specs.Prelude.{◌≡◌, ℕ, ◌+◌, ◌*◌, ◌^◌, ◌<◌, ◌≤◌, ◌++◌, ◌∷◌, [], false, not, cond, decimal, length, slice_index_or, OnOk, IfOk};
ghost use Rattle.std.specs.Bool.{beq};
ghost use Rattle.plai_base.specs.Sets.{has};
ghost use Rattle.plai_terms.specs.Shape.{All, None, depends, shape, shape_text, entry, set_text};

use itoa::Buffer;
use plai_base::Mask;
use std::alloc::{AllocError, Global};

fn note(masks: &[Mask], flags: &mut [bool])
    requires { (m : ℕ) → m < length flags.old → slice_index_or flags.old m false ≡ false }
    ensures { (m : ℕ) → m < length flags.new → slice_index_or flags.new m false ≡ has masks.now m }
{
    for mask in masks {
        let place = mask.bits() as usize;
        if place < flags.len() {
            flags[place] = true;
        }
    }
}

// The table of truths of a list of assignments to so many slots.
fn truths(alloc: Global, arity: u32, masks: &[Mask]) -> Result<Vec<bool>, AllocError>
    requires { arity ≤ 16 }
    ensures size { IfOk result (λ flags. length flags.items ≡ 2 ^ arity) }
    ensures truths { IfOk result (λ flags. (m : ℕ) → m < 2 ^ arity → slice_index_or flags.items m false ≡ has masks.now m) }
{
    let mut flags = vec![in alloc; false; 1 << arity]?;
    note(masks, &mut flags);
    Ok(flags)
}

#[tactic(auto, using(crate::proofs::Tables::scaled))]
fn differs(flags: &[bool], first: usize, step: usize, m: usize) -> bool
    requires first { first < step }
    requires within { first + step * (2 * m + 1) < length flags.now }
    ensures { result ≡ not (beq (entry flags.now first step (2 * m + 1)) (entry flags.now first step (2 * m))) }
{
    flags[first + step * (2 * m + 1)] != flags[first + step * (2 * m)]
}

// Whether the set depends on its first slot.
fn depends(flags: &[bool], first: usize, step: usize, half: usize) -> bool
    requires first { first < step }
    requires half { step * (2 * half) ≤ length flags.now }
    ensures { result ≡ depends half (entry flags.now first step) }
{
    for m in 0..half {
        if differs(flags, first, step, m) {
            return true;
        }
    }
    false
}

fn write_constant(all: bool, out: &mut Vec<u8>) -> Result<(), AllocError>
    ensures { OnOk result (out.new.items ≡ out.old.items ++ shape_text (cond all All None)) }
{
    out.push(if all { b't' } else { b'f' })?;
    Ok(())
}

fn open_node(slot: u32, out: &mut Vec<u8>) -> Result<(), AllocError>
    ensures { OnOk result (out.new.items ≡ out.old.items ++ 40 ∷ (decimal slot ++ 32 ∷ [])) }
{
    out.push(b'(')?;
    let mut buffer = Buffer::new();
    out.extend_from_slice(buffer.format(slot).as_bytes())?;
    out.push(b' ')?;
    Ok(())
}

// The text of the set of assignments to `count` slots, the first of which has this number: its truths are every
// `step`-th of the table, from `first` on.
fn write_shape(
    flags: &[bool],
    first: usize,
    step: usize,
    count: u32,
    slot: u32,
    out: &mut Vec<u8>,
) -> Result<(), AllocError>
    requires first { first < step }
    requires whole { step * 2 ^ count ≡ length flags.now }
    requires slot { slot + count ≤ 17 }
    ensures { OnOk result (out.new.items ≡ out.old.items ++ shape_text (shape count slot (entry flags.now first step))) }
{
    if count == 0 {
        return write_constant(flags[first], out);
    }
    if !depends(flags, first, step, 1 << (count - 1)) {
        return write_shape(flags, first, 2 * step, count - 1, slot + 1, out);
    }
    open_node(slot, out)?;
    write_shape(flags, first + step, 2 * step, count - 1, slot + 1, out)?;
    out.push(b' ')?;
    write_shape(flags, first, 2 * step, count - 1, slot + 1, out)?;
    out.push(b')')?;
    Ok(())
}

// The text of a list of assignments to so many slots.
pub(crate) fn write_set(
    alloc: Global,
    arity: u32,
    masks: &[Mask],
    out: &mut Vec<u8>,
) -> Result<(), AllocError>
    requires { arity ≤ 16 }
    ensures { OnOk result (out.new.items ≡ out.old.items ++ set_text arity masks.now) }
{
    let flags = truths(alloc, arity, masks)?;
    write_shape(&flags, 0, 1, arity, 1, out)
}
