// Ascending lists without repeats.
ghost use Rattle.std.specs.Prelude.{◌≡◌, ◌++◌, IfOk};
ghost use Rattle.std.specs.Option.{option_map};
ghost use Rattle.plai_base.specs.Sets.{has, has_all};
ghost use Rattle.plai_share_laws.specs.Groups.{normal};
ghost use Rattle.plai_share.specs.Formed.{IsFormed};

use plai_base::Mask;

/// The most groups of a set that an operation forms.
pub(crate) const MOST_GROUPS: usize = 65_536;

/// The masks in order, each once.
pub(crate) fn normal(masks: Vec<Mask>) -> Vec<Mask>
    ensures { result.items ≡ normal masks.items }
{
    let mut set = masks;
    set.sort_unstable_by_key(|mask| mask.bits());
    set.dedup();
    set
}

/// The masks in order, each once, or none where there are more than 65,536.
pub(crate) fn formed(masks: Vec<Mask>) -> Option<Vec<Mask>>
    ensures { IsFormed masks.items (option_map (λ set. set.items) result) }
{
    let set = normal(masks);
    if set.len() > MOST_GROUPS {
        None
    } else {
        Some(set)
    }
}

/// Whether the ascending list has the mask.
pub(crate) fn has(set: &[Mask], mask: Mask) -> bool
    requires { normal set.now ≡ set.now }
    ensures { result ≡ has set.now mask }
{
    set.binary_search_by_key(&mask.bits(), |member| member.bits())
        .is_ok()
}

/// Whether the second list, which is ascending, has all masks of the first.
pub(crate) fn is_within(masks: &[Mask], set: &[Mask]) -> bool
    requires { normal set.now ≡ set.now }
    ensures { result ≡ has_all masks.now (has set.now) }
{
    for mask in masks {
        if !has(set, *mask) {
            return false;
        }
    }
    true
}
