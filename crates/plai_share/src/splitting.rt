// All unions of two large sets of masks, slot by slot.
ghost use Rattle.std.specs.Prelude.{◌≡◌, ◌<◌, ◌≤◌, ◌++◌, map, bit_or, IfOk};
ghost use Rattle.std.specs.Option.{option_map};
ghost use Rattle.plai_base.specs.Mask.{mask_of};
ghost use Rattle.plai_share_laws.specs.Groups.{normal, bin};
ghost use Rattle.plai_share.specs.Formed.{IsFormed};
ghost use Rattle.plai_share.specs.Splitting.{having, lacking, with_slot};

use crate::sorted::{formed, normal};
use crate::unions::{push_unions, smaller_first};
use plai_base::Mask;
use std::alloc::{AllocError, Global};

/// Sets of at most so many masks are taken as they are.
const FEW_MASKS: usize = 16;

/// The masks with the slot.
fn having(alloc: Global, masks: &[Mask], slot: u32) -> Result<Vec<Mask>, AllocError>
    requires { slot < 64 }
    ensures { IfOk result (λ kept. kept.items ≡ having slot masks.now) }
{
    masks
        .iter()
        .copied()
        .filter(|mask| mask.contains(slot))
        .collect(alloc)
}

/// The masks without the slot.
fn lacking(alloc: Global, masks: &[Mask], slot: u32) -> Result<Vec<Mask>, AllocError>
    requires { slot < 64 }
    ensures { IfOk result (λ kept. kept.items ≡ lacking slot masks.now) }
{
    masks
        .iter()
        .copied()
        .filter(|mask| !mask.contains(slot))
        .collect(alloc)
}

/// The masks with the slot, and the others with the slot as well, each once.
fn with_slot(
    alloc: Global,
    without: &[Mask],
    with: &[Mask],
    slot: u32,
) -> Result<Vec<Mask>, AllocError>
    requires { slot < 64 }
    ensures { IfOk result (λ all. all.items ≡ normal (map (bit_or (mask_of slot)) without.now ++ with.now)) }
{
    let mut all = Vec::new(alloc);
    push_unions(&mut all, Mask::of(slot), without)?;
    all.extend_from_slice(with)?;
    Ok(normal(all))
}

/// All unions of a mask of each list, or none where there are too many. The lists are split by the slots below a number, the
/// highest first: where a mask of one list has the slot, the other's need not be told apart by it.
pub(crate) fn bin_by_slots(
    alloc: Global,
    left: &[Mask],
    right: &[Mask],
    slots: u32,
) -> Result<Option<Vec<Mask>>, AllocError>
    requires { slots ≤ 64 }
    ensures { IfOk result (λ set. IsFormed (bin left.now right.now) (option_map (λ set. set.items) set)) }
{
    if slots == 0 || left.len() <= FEW_MASKS || right.len() <= FEW_MASKS {
        let set = smaller_first(alloc, left, right)?;
        return Ok(set);
    }
    let slot = slots - 1;
    let left_with = having(alloc, left, slot)?;
    let right_with = having(alloc, right, slot)?;
    if left_with.is_empty() && right_with.is_empty() {
        let set = bin_by_slots(alloc, left, right, slot)?;
        return Ok(set);
    }
    let left_without = lacking(alloc, left, slot)?;
    let right_without = lacking(alloc, right, slot)?;
    let Some(low) = bin_by_slots(alloc, &left_without, &right_without, slot)? else {
        return Ok(None);
    };
    let all_with = with_slot(alloc, &right_without, &right_with, slot)?;
    let Some(high) = bin_by_slots(alloc, &left_with, &all_with, slot)? else {
        return Ok(None);
    };
    let Some(mixed) = bin_by_slots(alloc, &left_without, &right_with, slot)? else {
        return Ok(None);
    };
    let mut all = low;
    all.extend_from_slice(high.as_slice())?;
    all.extend_from_slice(mixed.as_slice())?;
    Ok(formed(all))
}

/// All unions of a mask of each list, or none where there are too many.
pub(crate) fn bin(
    alloc: Global,
    left: &[Mask],
    right: &[Mask],
) -> Result<Option<Vec<Mask>>, AllocError>
    ensures { IfOk result (λ set. IsFormed (bin left.now right.now) (option_map (λ set. set.items) set)) }
{
    bin_by_slots(alloc, left, right, 64)
}
