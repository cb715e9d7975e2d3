// Unions of groups (Jacobs and Langen 1992). No list here is much longer than a few times the most groups of a set.
ghost use Rattle.std.specs.Prelude.{◌≡◌, ◌++◌, ◌∷◌, IfOk, OnOk, map, bit_or};
ghost use Rattle.std.specs.Option.{option_map};
ghost use Rattle.plai_share_laws.specs.Groups.{normal, star, bin};
ghost use Rattle.plai_share.specs.Formed.{IsFormed, IsShortened, IsSomeAs};

use crate::sorted::{MOST_GROUPS, formed, has};
use plai_base::Mask;
use std::alloc::{AllocError, Global};

/// How long a list of unions may get before its repeats are dropped.
const MOST_LISTED: usize = 4 * MOST_GROUPS;

/// All unions of one or more groups, and some of the groups, whose unions are the same.
#[derive(Drop)]
pub(crate) struct Unions {
    pub(crate) all: Vec<Mask>,
    pub(crate) base: Vec<Mask>,
}

/// Appends the union of the mask with each of the others.
pub(crate) fn push_unions(
    masks: &mut Vec<Mask>,
    mask: Mask,
    others: &[Mask],
) -> Result<(), AllocError>
    ensures { OnOk result (masks.new.items ≡ masks.old.items ++ map (bit_or mask) others.now) }
{
    masks.reserve(others.len())?;
    for other in others {
        masks.push(mask.union(*other))?;
    }
    Ok(())
}

/// The unions of masks where one more group takes part.
fn with_group(alloc: Global, all: &[Mask], group: Mask) -> Result<Option<Vec<Mask>>, AllocError>
    ensures { IfOk result (λ more. IsFormed (group ∷ (all.now ++ map (bit_or group) all.now))
        (option_map (λ set. set.items) more)) }
{
    let mut masks = vec![in alloc; group]?;
    masks.extend_from_slice(all)?;
    push_unions(&mut masks, group, all)?;
    Ok(formed(masks))
}

/// All unions of one or more groups, or none where there are too many. A group that is a union of others adds nothing.
pub(crate) fn star(alloc: Global, groups: &[Mask]) -> Result<Option<Unions>, AllocError>
    ensures all { IfOk result (λ unions. IsFormed (star groups.now) (option_map (λ set. set.all.items) unions)) }
    ensures base { IfOk result (λ unions. IsSomeAs (star groups.now) (option_map (λ set. set.base.items) unions)) }
{
    let mut all = Vec::new(alloc);
    let mut base = Vec::new(alloc);
    for group in groups {
        if has(&all, *group) {
            continue;
        }
        let Some(more) = with_group(alloc, &all, *group)? else {
            return Ok(None);
        };
        all = more;
        base.push(*group)?;
    }
    Ok(Some(Unions { all, base }))
}

/// The masks, each once where there are many, or none where too many are left.
fn without_repeats(masks: Vec<Mask>) -> Option<Vec<Mask>>
    ensures { IsShortened masks.items (option_map (λ fewer. fewer.items) result) }
{
    if masks.len() > MOST_LISTED {
        formed(masks)
    } else {
        Some(masks)
    }
}

/// All unions of a mask of the first list with one of the second, which is the longer one, or none where there are too many.
fn products(alloc: Global, few: &[Mask], many: &[Mask]) -> Result<Option<Vec<Mask>>, AllocError>
    ensures { IfOk result (λ set. IsFormed (bin few.now many.now) (option_map (λ set. set.items) set)) }
{
    let mut masks = Vec::new(alloc);
    for mask in few {
        let Some(fewer) = without_repeats(masks) else {
            return Ok(None);
        };
        masks = fewer;
        push_unions(&mut masks, *mask, many)?;
    }
    Ok(formed(masks))
}

/// All unions of a mask of each list, or none where there are too many. The shorter list is gone over once.
pub(crate) fn smaller_first(
    alloc: Global,
    left: &[Mask],
    right: &[Mask],
) -> Result<Option<Vec<Mask>>, AllocError>
    ensures { IfOk result (λ set. IsFormed (bin left.now right.now) (option_map (λ set. set.items) set)) }
{
    if right.len() < left.len() {
        let set = products(alloc, right, left)?;
        Ok(set)
    } else {
        products(alloc, left, right)
    }
}

/// All unions of a mask of the list with one or more of the groups, or none where there are too many.
pub(crate) fn bin_star(
    alloc: Global,
    masks: &[Mask],
    groups: &[Mask],
) -> Result<Option<Vec<Mask>>, AllocError>
    ensures { IfOk result (λ set. IsFormed (bin masks.now (star groups.now)) (option_map (λ set. set.items) set)) }
{
    let mut all = Vec::new(alloc);
    for group in groups {
        let mut more = Vec::from_slice(alloc, all.as_slice())?;
        push_unions(&mut more, *group, &all)?;
        push_unions(&mut more, *group, masks)?;
        let Some(set) = formed(more) else {
            return Ok(None);
        };
        all = set;
    }
    Ok(Some(all))
}
