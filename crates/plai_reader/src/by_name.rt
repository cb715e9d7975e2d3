//! Finite maps from names.
ghost use Rattle.std.specs.Prelude.{◌≡◌, OnOk, OnErr};
ghost use Rattle.std.specs.FinMap as finite;

use plai_terms::Name;
use std::alloc::{AllocError, Global};
use std::collections::BTreeMap;
use std::marker::Model;

/// A value for each of some names.
#[derive(Debug, Drop)]
pub struct ByName<V> {
    entries: BTreeMap<Name, V>,
}

impl<V> Model for ByName<V> {
    ghost use Rattle.std.specs.Ordering.{nat_cmp};
    ghost use Rattle.std.specs.Cmp.Lexicographic.{slice_cmp};
    ghost use Rattle.std.specs.Coded.{coded_list, coded_ℕ};
    ghost use Rattle.std.specs.FinMap as finite;

    ghost Value = { finite.FinMap (slice_cmp nat_cmp) V };

    ghost coded = { finite.code (coded_list coded_ℕ) V.code };

    ghost view = { λ m. finite.from_entries m.entries.entries };
}

impl<V: Copy> ByName<V> {
    /// No name has a value.
    pub fn new(alloc: Global) -> ByName<V>
        ensures { result ≡ finite.empty }
    {
        ByName {
            entries: BTreeMap::new(alloc),
        }
    }

    /// The value of a name.
    pub fn get(&self, name: &Name) -> Option<V>
        ensures { result ≡ finite.get self.now name.now }
    {
        self.entries.get(name).copied()
    }

    /// Gives the name this value, in the place of what it had.
    pub fn insert(&mut self, alloc: Global, name: &Name, value: V) -> Result<(), AllocError>
        ensures ok { OnOk result (self.new ≡ finite.insert self.old name.now value) }
        ensures err { OnErr result (self.new ≡ self.old) }
    {
        self.entries.insert(name.copy(alloc)?, value)?;
        Ok(())
    }

    /// Takes the name and its value away.
    pub fn remove(&mut self, name: &Name)
        ensures { self.new ≡ finite.remove self.old name.now }
    {
        self.entries.remove(name);
    }
}
