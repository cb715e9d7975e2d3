// The numbers of the sets that an operation forms.
ghost use Rattle.std.specs.Prelude.{◌≡◌, ◌+◌, ◌<◌, ◌^◌, ◌∷◌, [], ℕ, List, IfOk, OnOk};
ghost use Rattle.std.specs.Option.{option_map};
ghost use Rattle.plai_share_laws.specs.Groups.{normal, rel, star};
ghost use Rattle.plai_share.specs.Formed.{IsFormed, IsPart, IsSomeAs};

use crate::filters::related;
use crate::unions::{Unions, star};
use plai_base::Mask;
use plai_domain::DomFail;
use std::alloc::Global;

/// The operation's next set, or `Over` with its number where it is too large.
pub(crate) fn admitted(set: Option<Vec<Mask>>, sets: &mut u64) -> Result<Vec<Mask>, DomFail>
    requires { sets.old < 2 ^ 32 }
    ensures count { sets.new ≡ sets.old + 1 }
    ensures part { (masks : List ℕ) → IsFormed masks (option_map (λ set. set.items) set)
        → IsPart (λ set. set.items) sets.old (masks ∷ []) (normal masks) result }
{
    *sets += 1;
    match set {
        Some(set) => Ok(set),
        None => Err(DomFail::Over(*sets)),
    }
}

/// The unions of groups as the operation's next set, or `Over` with its number where it is too large.
pub(crate) fn admitted_unions(set: Option<Unions>, sets: &mut u64) -> Result<Unions, DomFail>
    requires { sets.old < 2 ^ 32 }
    ensures count { sets.new ≡ sets.old + 1 }
    ensures part { (masks : List ℕ) → IsFormed masks (option_map (λ set. set.all.items) set)
        → IsPart (λ set. set.all.items) sets.old (masks ∷ []) (normal masks) result }
    ensures base { (masks : List ℕ) → IsSomeAs masks (option_map (λ set. set.base.items) set)
        → IfOk result (λ set. normal (star set.base.items) ≡ normal masks) }
{
    *sets += 1;
    match set {
        Some(set) => Ok(set),
        None => Err(DomFail::Over(*sets)),
    }
}

/// The unions of the groups that meet a set, as the operation's next set.
pub(crate) fn touched_unions(
    alloc: Global,
    groups: &[Mask],
    set: Mask,
    sets: &mut u64,
) -> Result<Vec<Mask>, DomFail>
    requires { sets.old < 2 ^ 32 }
    ensures count { OnOk result (sets.new ≡ sets.old + 1) }
    ensures part { IsPart (λ set. set.items) sets.old (star (rel set groups.now) ∷ []) (normal (star (rel set groups.now))) result }
{
    let touched = related(alloc, groups, set)?;
    let made = star(alloc, touched.as_slice())?;
    let unions = admitted_unions(made, sets)?;
    let Unions { all, .. } = unions;
    Ok(all)
}
