ghost use Rattle.std.specs.Prelude.{◌≡◌, IfOk};

use plai_terms::{Listed, Name, PredKey, Prop};
use std::alloc::{AllocError, Global};

/// An entry of a module: the calls of a predicate whose arguments have these properties. The numbers of the
/// properties are argument numbers from 1.
#[derive(Debug, Drop)]
pub struct Entry {
    pub module: Name,
    pub pred: PredKey,
    pub pre: Listed<Prop>,
}

impl Entry {
    /// An equal entry.
    pub fn copy(&self, alloc: Global) -> Result<Entry, AllocError>
        ensures { IfOk result (λ entry. entry ≡ self.now) }
    {
        Ok(Entry {
            module: self.module.copy(alloc)?,
            pred: self.pred.copy(alloc)?,
            pre: Listed::new(Vec::from_slice(alloc, self.pre.as_slice())?),
        })
    }
}
