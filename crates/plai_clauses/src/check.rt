ghost use Rattle.std.specs.Prelude.{◌≡◌, IfOk};

use plai_terms::{Listed, Name, PredKey, Prop};
use std::alloc::{AllocError, Global};

/// What a check speaks of.
#[derive(Clone, Copy, Debug, PartialEq, Eq)]
pub enum CheckKind {
    /// The calls of a predicate.
    Calls,
    /// Its answers.
    Success,
}

/// An assertion of a module: the calls of a predicate have the properties `pre`, or its answers to such calls have the
/// properties `post` (Hermenegildo, Puebla, Bueno and Lopez-Garcia 2005). The numbers of the properties are argument
/// numbers from 1.
#[derive(Debug, Drop)]
pub struct Check {
    pub module: Name,
    pub kind: CheckKind,
    pub pred: PredKey,
    pub pre: Listed<Prop>,
    pub post: Listed<Prop>,
}

impl Check {
    /// An equal check.
    pub fn copy(&self, alloc: Global) -> Result<Check, AllocError>
        ensures { IfOk result (λ check. check ≡ self.now) }
    {
        Ok(Check {
            module: self.module.copy(alloc)?,
            kind: self.kind,
            pred: self.pred.copy(alloc)?,
            pre: Listed::new(Vec::from_slice(alloc, self.pre.as_slice())?),
            post: Listed::new(Vec::from_slice(alloc, self.post.as_slice())?),
        })
    }
}
