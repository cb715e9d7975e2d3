// What properties of arguments say of sharing and freeness (Muthukumar and Hermenegildo 1992).
ghost use Rattle.std.specs.Prelude.{◌≡◌, ◌<◌, ◌≤◌, ◌&&◌, All, filter, IfOk};
ghost use Rattle.plai_domain.specs.Instances.{speaks_within};
ghost use Rattle.plai_share_laws.specs.Properties.{anything, both, apart, any_both, with_property, describe, entails, excludes};
ghost use Rattle.plai_share.specs.Values.{shares};

use crate::filters::{any_meets, missing};
use crate::masks::meets;
use crate::sharing::Sharing;
use plai_base::Mask;
use plai_terms::Prop;
use std::alloc::{AllocError, Global};

/// All groups, no free slot.
fn anything(alloc: Global, slots: u32) -> Result<Sharing, AllocError>
    requires { slots ≤ 16 }
    ensures { IfOk result (λ next. shares next ≡ anything slots) }
{
    let mut groups = Vec::new(alloc);
    for bits in 1..1 << slots {
        groups.push(Mask::from_bits(bits))?;
    }
    Ok(Sharing {
        slots,
        groups,
        free: Mask::empty(),
    })
}

/// Whether the group has both slots.
fn has_both(group: Mask, left: u32, right: u32) -> bool
    requires left { left < 64 }
    requires right { right < 64 }
    ensures { result ≡ both left right group }
{
    meets(Mask::of(left), group) && meets(Mask::of(right), group)
}

/// The groups but those with both slots.
fn apart(alloc: Global, groups: &[Mask], left: u32, right: u32) -> Result<Vec<Mask>, AllocError>
    requires left { left < 64 }
    requires right { right < 64 }
    ensures { IfOk result (λ kept. kept.items ≡ filter (apart left right) groups.now) }
{
    groups
        .iter()
        .copied()
        .filter(|group| !has_both(*group, left, right))
        .collect(alloc)
}

/// What is described that has the property as well.
fn with_property(alloc: Global, state: Sharing, property: &Prop) -> Result<Sharing, AllocError>
    requires { speaks_within state.slots property.now }
    ensures { IfOk result (λ next. shares next ≡ with_property property.now (shares state)) }
{
    let Sharing {
        slots,
        groups,
        free,
    } = state;
    match property {
        Prop::Ground(argument) | Prop::Int(argument) => Ok(Sharing {
            slots,
            groups: missing(alloc, groups.as_slice(), Mask::of(*argument - 1))?,
            free,
        }),
        Prop::Var(argument) => Ok(Sharing {
            slots,
            groups,
            free: free.insert(*argument - 1),
        }),
        Prop::Nonvar(_) => Ok(Sharing {
            slots,
            groups,
            free,
        }),
        Prop::Indep(left, right) => Ok(Sharing {
            slots,
            groups: apart(alloc, groups.as_slice(), *left - 1, *right - 1)?,
            free,
        }),
    }
}

/// The sharing of so many arguments with these properties.
pub(crate) fn describe(
    alloc: Global,
    arity: u32,
    properties: &[Prop],
) -> Result<Sharing, AllocError>
    requires small { arity ≤ 16 }
    requires within { All (speaks_within arity) properties.now }
    ensures { IfOk result (λ next. shares next ≡ describe arity properties.now) }
{
    let mut sharing = anything(alloc, arity)?;
    for property in properties {
        sharing = with_property(alloc, sharing, property)?;
    }
    Ok(sharing)
}

/// Whether some group has both slots.
fn any_both(groups: &[Mask], left: u32, right: u32) -> bool
    requires left { left < 64 }
    requires right { right < 64 }
    ensures { result ≡ any_both left right groups.now }
{
    for group in groups {
        if has_both(*group, left, right) {
            return true;
        }
    }
    false
}

/// Whether each tuple that is described has the property.
pub(crate) fn entails(value: &Sharing, property: &Prop) -> bool
    requires { speaks_within value.now.slots property.now }
    ensures { result ≡ entails (shares value.now) property.now }
{
    let groups = value.groups.as_slice();
    match property {
        Prop::Ground(argument) | Prop::Nonvar(argument) => {
            !any_meets(groups, Mask::of(*argument - 1))
        }
        Prop::Var(argument) => value.free.contains(*argument - 1),
        Prop::Int(_) => false,
        Prop::Indep(left, right) => !any_both(groups, *left - 1, *right - 1),
    }
}

/// Whether none has it.
pub(crate) fn excludes(value: &Sharing, property: &Prop) -> bool
    requires { speaks_within value.now.slots property.now }
    ensures { result ≡ excludes (shares value.now) property.now }
{
    match property {
        Prop::Ground(argument) | Prop::Nonvar(argument) | Prop::Int(argument) => {
            value.free.contains(*argument - 1)
        }
        Prop::Var(argument) => !any_meets(value.groups.as_slice(), Mask::of(*argument - 1)),
        Prop::Indep(_, _) => false,
    }
}
