// The order of skeletons, their joins and their meets.
ghost use Rattle.std.specs.Prelude.{◌≡◌, IfOk, map, length};
ghost use Rattle.std.specs.Option.{option_map};
ghost use Rattle.plai_terms.specs.declared.skeleton.Skeleton.{Int, Atom};
ghost use Rattle.plai_depth_laws.specs.Skeletons.{same_functor, join, join_args, meet, meet_args};
ghost use Rattle.plai_depth_laws.specs.OrderTest.{is_under, are_under};

use plai_terms::{Listed, Name, Skeleton};
use std::alloc::{AllocError, Global};

/// Whether two compounds have one name and one number of arguments.
pub(crate) fn same_functor(name: &Name, count: usize, other: &Name, other_count: usize) -> bool
    ensures { result ≡ same_functor name.now count other.now other_count }
{
    name == other && count == other_count
}

/// Whether the first skeleton lies at or below the second.
#[cycle(order)]
pub(crate) fn is_under(first: &Skeleton, second: &Skeleton) -> bool
    ensures { result ≡ is_under first.now second.now }
{
    match (first, second) {
        (_, Skeleton::Any) => true,
        (Skeleton::Integer, Skeleton::Integer) => true,
        (Skeleton::Int(_), Skeleton::Integer) => true,
        (Skeleton::Int(value), Skeleton::Int(other)) => value == other,
        (Skeleton::Atom(name), Skeleton::Atom(other)) => name == other,
        (Skeleton::Compound(name, args), Skeleton::Compound(other, others)) => {
            same_functor(name, args.as_slice().len(), other, others.as_slice().len())
                && are_under(args.as_slice(), others.as_slice())
        }
        _ => false,
    }
}

/// Whether each of the first skeletons lies at or below its fellow among the second.
#[cycle(order)]
pub(crate) fn are_under(first: &[Skeleton], second: &[Skeleton]) -> bool
    ensures { result ≡ are_under (map is_under first.now) second.now }
{
    for (lower, upper) in first.iter().zip(second) {
        if !is_under(lower, upper) {
            return false;
        }
    }
    true
}

/// The least skeleton above both.
#[cycle(join)]
pub(crate) fn join(
    alloc: Global,
    first: &Skeleton,
    second: &Skeleton,
) -> Result<Skeleton, AllocError>
    ensures { IfOk result (λ s. s ≡ join first.now second.now) }
{
    match (first, second) {
        (Skeleton::Integer, Skeleton::Integer) => Ok(Skeleton::Integer),
        (Skeleton::Integer, Skeleton::Int(_)) => Ok(Skeleton::Integer),
        (Skeleton::Int(_), Skeleton::Integer) => Ok(Skeleton::Integer),
        (Skeleton::Int(value), Skeleton::Int(other)) => Ok(joined_integers(*value, *other)),
        (Skeleton::Atom(name), Skeleton::Atom(other)) => joined_atoms(alloc, name, other),
        (Skeleton::Compound(name, args), Skeleton::Compound(other, others)) => {
            let (args, others) = (args.as_slice(), others.as_slice());
            if !same_functor(name, args.len(), other, others.len()) {
                return Ok(Skeleton::Any);
            }
            let joined = join_all(alloc, args, others)?;
            Ok(Skeleton::Compound(name.copy(alloc)?, Listed::new(joined)))
        }
        _ => Ok(Skeleton::Any),
    }
}

/// The joins of skeletons with their fellows.
#[cycle(join)]
pub(crate) fn join_all(
    alloc: Global,
    first: &[Skeleton],
    second: &[Skeleton],
) -> Result<Vec<Skeleton>, AllocError>
    ensures { IfOk result (λ all. all.items ≡ join_args (map join first.now) second.now) }
{
    let mut all = Vec::new(alloc);
    for (one, other) in first.iter().zip(second) {
        all.push(join(alloc, one, other)?)?;
    }
    Ok(all)
}

fn joined_integers(value: i128, other: i128) -> Skeleton
    ensures { result ≡ join (Int value) (Int other) }
{
    if value == other {
        Skeleton::Int(value)
    } else {
        Skeleton::Integer
    }
}

fn joined_atoms(alloc: Global, name: &Name, other: &Name) -> Result<Skeleton, AllocError>
    ensures { IfOk result (λ s. s ≡ join (Atom name.now) (Atom other.now)) }
{
    if name == other {
        Ok(Skeleton::Atom(name.copy(alloc)?))
    } else {
        Ok(Skeleton::Any)
    }
}

/// The greatest skeleton below both, or none.
#[cycle(meet)]
pub(crate) fn meet(
    alloc: Global,
    first: &Skeleton,
    second: &Skeleton,
) -> Result<Option<Skeleton>, AllocError>
    ensures { IfOk result (λ m. m ≡ meet first.now second.now) }
{
    match (first, second) {
        (Skeleton::Any, _) => Ok(Some(second.copy(alloc)?)),
        (_, Skeleton::Any) => Ok(Some(first.copy(alloc)?)),
        (Skeleton::Integer, Skeleton::Integer) => Ok(Some(Skeleton::Integer)),
        (Skeleton::Integer, Skeleton::Int(value)) => Ok(Some(Skeleton::Int(*value))),
        (Skeleton::Int(value), Skeleton::Integer) => Ok(Some(Skeleton::Int(*value))),
        (Skeleton::Int(value), Skeleton::Int(other)) => Ok(met_integers(*value, *other)),
        (Skeleton::Atom(name), Skeleton::Atom(other)) => met_atoms(alloc, name, other),
        (Skeleton::Compound(name, args), Skeleton::Compound(other, others)) => {
            let (args, others) = (args.as_slice(), others.as_slice());
            if !same_functor(name, args.len(), other, others.len()) {
                return Ok(None);
            }
            match meet_all(alloc, args, others)? {
                None => Ok(None),
                Some(met) => Ok(Some(Skeleton::Compound(name.copy(alloc)?, Listed::new(met)))),
            }
        }
        _ => Ok(None),
    }
}

/// The meets of skeletons with their fellows, or none.
#[cycle(meet)]
pub(crate) fn meet_all(
    alloc: Global,
    first: &[Skeleton],
    second: &[Skeleton],
) -> Result<Option<Vec<Skeleton>>, AllocError>
    ensures { IfOk result (λ all. option_map (λ v. v.items) all ≡ meet_args (map meet first.now) second.now) }
{
    let mut all = Vec::new(alloc);
    for (one, other) in first.iter().zip(second) {
        match meet(alloc, one, other)? {
            None => return Ok(None),
            Some(met) => all.push(met)?,
        }
    }
    Ok(Some(all))
}

fn met_integers(value: i128, other: i128) -> Option<Skeleton>
    ensures { result ≡ meet (Int value) (Int other) }
{
    if value == other {
        Some(Skeleton::Int(value))
    } else {
        None
    }
}

fn met_atoms(alloc: Global, name: &Name, other: &Name) -> Result<Option<Skeleton>, AllocError>
    ensures { IfOk result (λ m. m ≡ meet (Atom name.now) (Atom other.now)) }
{
    if name == other {
        Ok(Some(Skeleton::Atom(name.copy(alloc)?)))
    } else {
        Ok(None)
    }
}
