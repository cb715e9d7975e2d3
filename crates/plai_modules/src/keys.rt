//! Sets of keys: a name and a number of arguments.
ghost use Rattle.std.specs.Prelude.{◌≡◌, ◌||◌, ℕ, List, IfOk, OnOk};
ghost use Rattle.std.specs.List.{list_any};
ghost use Rattle.plai_modules.specs.Importing.{is_exported};
ghost use Rattle.plai_modules.specs.KeySets.{IsSetOf, same_key};

use indexmap::IndexSet;
use plai_terms::Name;
use std::alloc::{AllocError, Global};

/// Keys, each found at once.
pub(crate) type KeySet = IndexSet<(Name, u32)>;

/// Equal keys.
pub(crate) fn copy_keys(alloc: Global, keys: &[(Name, u32)]) -> Result<Vec<(Name, u32)>, AllocError>
    ensures { IfOk result (λ copies. copies.items ≡ keys.now) }
{
    let mut copies = Vec::new(alloc);
    for key in keys {
        copies.push((key.0.copy(alloc)?, key.1))?;
    }
    Ok(copies)
}

/// Puts an equal key into the set.
pub(crate) fn add_key(
    alloc: Global,
    set: &mut KeySet,
    name: &Name,
    arity: u32,
) -> Result<(), AllocError>
    ensures { OnOk result ((key : List ℕ × ℕ) → list_any (same_key key) set.new.keys ≡ (list_any (same_key key) set.old.keys || same_key key (name.now, arity))) }
{
    set.insert((name.copy(alloc)?, arity))?;
    Ok(())
}

/// The set of these keys.
pub(crate) fn key_set(alloc: Global, keys: &[(Name, u32)]) -> Result<KeySet, AllocError>
    ensures { IfOk result (λ set. IsSetOf (is_exported keys.now) set.keys) }
{
    let mut set = IndexSet::new(alloc);
    for key in keys {
        add_key(alloc, &mut set, &key.0, key.1)?;
    }
    Ok(set)
}
