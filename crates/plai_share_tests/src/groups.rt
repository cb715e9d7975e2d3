//! Sets of groups as lists in no order, and what the definitions of set sharing make of them (Jacobs and Langen 1992). A group is
//! a number whose bits are 1 at its slots.
use std::alloc::{AllocError, Global};

/// The group of one slot. From 64 on there is none.
pub fn bit(slot: u32) -> u64 {
    1u64.checked_shl(slot).unwrap_or(0)
}

/// The group of the slots below the limit.
pub fn below(limit: u32) -> u64 {
    !u64::MAX.checked_shl(limit).unwrap_or(0)
}

/// Puts the group behind the others, unless it is one of them or empty.
pub fn put(groups: &mut Vec<u64>, group: u64) -> Result<(), AllocError> {
    if group != 0 && !groups.contains(&group) {
        groups.push(group)?;
    }
    Ok(())
}

/// The groups that have one of the slots.
pub fn meeting(alloc: Global, groups: &[u64], slots: u64) -> Result<Vec<u64>, AllocError> {
    let mut found = Vec::new(alloc);
    for group in groups {
        if *group & slots != 0 {
            found.push(*group)?;
        }
    }
    Ok(found)
}

/// The groups that have none of the slots.
pub fn missing(alloc: Global, groups: &[u64], slots: u64) -> Result<Vec<u64>, AllocError> {
    let mut found = Vec::new(alloc);
    for group in groups {
        if *group & slots == 0 {
            found.push(*group)?;
        }
    }
    Ok(found)
}

/// The slots that are in a group with one of these.
pub fn near(groups: &[u64], slots: u64) -> u64 {
    let mut all = 0;
    for group in groups {
        if *group & slots != 0 {
            all |= *group;
        }
    }
    all
}

/// Puts the unions of the group with these behind the others.
fn put_unions(unions: &mut Vec<u64>, group: u64, with: &[u64]) -> Result<(), AllocError> {
    for other in with {
        put(unions, group | *other)?;
    }
    Ok(())
}

/// All unions of one or more of the groups. A group that is a union already gives no others.
pub fn star(alloc: Global, groups: &[u64]) -> Result<Vec<u64>, AllocError> {
    let mut unions = Vec::new(alloc);
    for group in groups {
        if !unions.contains(group) {
            let before = Vec::from_slice(alloc, unions.as_slice())?;
            put(&mut unions, *group)?;
            put_unions(&mut unions, *group, before.as_slice())?;
        }
    }
    Ok(unions)
}

/// All unions of a group of the first list with one of the second.
pub fn bin(alloc: Global, first: &[u64], second: &[u64]) -> Result<Vec<u64>, AllocError> {
    let mut unions = Vec::new(alloc);
    for group in first {
        put_unions(&mut unions, *group, second)?;
    }
    Ok(unions)
}
