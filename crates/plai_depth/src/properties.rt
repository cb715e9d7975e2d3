// What values say of properties.
ghost use Rattle.std.specs.Prelude.{◌≡◌, ◌≤◌, All, [], IfOk, length};
ghost use Rattle.plai_domain.specs.Instances.{speaks_within};
ghost use Rattle.plai_depth_laws.specs.Operations.{argument_of, describe_of, entails_of, excludes_of, has_any, is_any, is_integer};
ghost use Rattle.plai_depth.specs.Values.{with_property};

use plai_terms::{Prop, Skeleton};
use std::alloc::{AllocError, Global};

/// So many skeletons `any`.
pub(crate) fn all_any(alloc: Global, count: u32) -> Result<Vec<Skeleton>, AllocError>
    ensures { IfOk result (λ all. all.items ≡ describe_of count []) }
{
    let mut all = Vec::new(alloc);
    for _ in 0..count {
        all.push(Skeleton::Any)?;
    }
    Ok(all)
}

/// Makes the skeleton `int` where the property says that the argument is an integer.
fn set_property(skeletons: &mut Vec<Skeleton>, property: &Prop)
    requires { speaks_within (length skeletons.old.items) property.now }
    ensures { skeletons.new.items ≡ with_property property.now skeletons.old.items }
{
    match property {
        Prop::Int(number) => skeletons[*number as usize - 1] = Skeleton::Integer,
        Prop::Ground(_) => {}
        Prop::Var(_) => {}
        Prop::Nonvar(_) => {}
        Prop::Indep(_, _) => {}
    }
}

/// The skeletons of so many arguments with these properties: `int` where one says that the argument is an integer.
pub(crate) fn describe(
    alloc: Global,
    arity: u32,
    properties: &[Prop],
) -> Result<Vec<Skeleton>, AllocError>
    requires { All (speaks_within arity) properties.now }
    ensures { IfOk result (λ all. all.items ≡ describe_of arity properties.now) }
{
    let mut skeletons = all_any(alloc, arity)?;
    for property in properties {
        set_property(&mut skeletons, property);
    }
    Ok(skeletons)
}

pub(crate) fn is_any(skeleton: &Skeleton) -> bool
    ensures { result ≡ is_any skeleton.now }
{
    match skeleton {
        Skeleton::Any => true,
        _ => false,
    }
}

fn is_integer(skeleton: &Skeleton) -> bool
    ensures { result ≡ is_integer skeleton.now }
{
    match skeleton {
        Skeleton::Integer => true,
        Skeleton::Int(_) => true,
        _ => false,
    }
}

/// Whether some part is `any`.
fn has_any(skeleton: &Skeleton) -> bool
    ensures { result ≡ has_any skeleton.now }
{
    match skeleton {
        Skeleton::Any => true,
        Skeleton::Compound(_, args) => {
            for arg in args.as_slice() {
                if has_any(arg) {
                    return true;
                }
            }
            false
        }
        _ => false,
    }
}

/// The skeleton of an argument, numbered from 1.
fn argument(skeletons: &[Skeleton], number: u32) -> &Skeleton
    requires { (1 ≤ number) × (number ≤ length skeletons.now) }
    ensures { result.now ≡ argument_of skeletons.now number }
{
    &skeletons[number as usize - 1]
}

/// Whether each tuple that the skeletons describe has the property.
pub(crate) fn entails(skeletons: &[Skeleton], property: &Prop) -> bool
    requires { speaks_within (length skeletons.now) property.now }
    ensures { result ≡ entails_of skeletons.now property.now }
{
    match property {
        Prop::Ground(number) => !has_any(argument(skeletons, *number)),
        Prop::Var(_) => false,
        Prop::Nonvar(number) => !is_any(argument(skeletons, *number)),
        Prop::Int(number) => is_integer(argument(skeletons, *number)),
        Prop::Indep(first, second) => {
            !has_any(argument(skeletons, *first)) || !has_any(argument(skeletons, *second))
        }
    }
}

/// Whether no tuple that the skeletons describe has the property.
pub(crate) fn excludes(skeletons: &[Skeleton], property: &Prop) -> bool
    requires { speaks_within (length skeletons.now) property.now }
    ensures { result ≡ excludes_of skeletons.now property.now }
{
    match property {
        Prop::Var(number) => !is_any(argument(skeletons, *number)),
        Prop::Int(number) => {
            let skeleton = argument(skeletons, *number);
            !is_any(skeleton) && !is_integer(skeleton)
        }
        Prop::Ground(_) => false,
        Prop::Nonvar(_) => false,
        Prop::Indep(_, _) => false,
    }
}
