// The text of sharing groups and free slots.
ghost use Rattle.std.specs.Prelude.{◌≡◌, ◌++◌, map, OnOk, IfOk};
ghost use Rattle.std.specs.List.{join_with_byte};
ghost use Rattle.plai_base.specs.Mask.{slots_of};
ghost use Rattle.plai_terms.specs.Groups.{ordered, slot_text, group_text, groups_text};

use itoa::Buffer;
use plai_base::Mask;
use std::alloc::{AllocError, Global};

// The slots of each group.
fn slot_lists(alloc: Global, groups: &[Mask]) -> Result<Vec<Vec<u32>>, AllocError>
    ensures { IfOk result (λ lists. map (λ list. list.items) lists.items ≡ map slots_of groups.now) }
{
    let mut lists = Vec::new(alloc);
    for group in groups {
        lists.push(group.slots(alloc)?)?;
    }
    Ok(lists)
}

fn sorted_lists(alloc: Global, groups: &[Mask]) -> Result<Vec<Vec<u32>>, AllocError>
    ensures { IfOk result (λ lists. map (λ list. list.items) lists.items ≡ ordered (map slots_of groups.now)) }
{
    let mut lists = slot_lists(alloc, groups)?;
    lists.sort_unstable();
    Ok(lists)
}

fn write_slot(slot: u32, out: &mut Vec<u8>) -> Result<(), AllocError>
    ensures { OnOk result (out.new.items ≡ out.old.items ++ slot_text slot) }
{
    let mut buffer = Buffer::new();
    out.extend_from_slice(buffer.format(u64::from(slot) + 1).as_bytes())
}

// The slots by their numbers from 1, with a byte between two.
fn write_slots(slots: &[u32], separator: u8, out: &mut Vec<u8>) -> Result<(), AllocError>
    ensures { OnOk result (out.new.items ≡ out.old.items ++ join_with_byte separator (map slot_text slots.now)) }
{
    for (i, slot) in slots.iter().enumerate() {
        if i > 0 {
            out.push(separator)?;
        }
        write_slot(*slot, out)?;
    }
    Ok(())
}

fn write_lists(lists: &[Vec<u32>], out: &mut Vec<u8>) -> Result<(), AllocError>
    ensures { OnOk result (out.new.items ≡ out.old.items ++ join_with_byte 44 (map (λ list. group_text list.items) lists.now)) }
{
    for (i, list) in lists.iter().enumerate() {
        if i > 0 {
            out.push(b',')?;
        }
        write_slots(list, b'.', out)?;
    }
    Ok(())
}

// The groups in the order of their slots, and the free slots.
pub(crate) fn write_groups(
    alloc: Global,
    groups: &[Mask],
    free: Mask,
    out: &mut Vec<u8>,
) -> Result<(), AllocError>
    ensures { OnOk result (out.new.items ≡ out.old.items ++ groups_text groups.now free) }
{
    let lists = sorted_lists(alloc, groups)?;
    let slots = free.slots(alloc)?;
    out.extend_from_slice(b"sh={")?;
    write_lists(&lists, out)?;
    out.extend_from_slice(b"} fr={")?;
    write_slots(&slots, b',', out)?;
    out.push(b'}')?;
    Ok(())
}
