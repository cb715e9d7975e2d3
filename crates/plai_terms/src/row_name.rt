ghost use Rattle.std.specs.Prelude.{◌≡◌, IfOk};

use crate::abs::Abs;
use crate::pred_key::PredKey;
use std::alloc::{AllocError, Global};

/// The name of a row of a table: a predicate, and what the arguments of its calls may be.
#[derive(Debug, PartialEq, Eq, Hash, Drop)]
pub struct RowName {
    /// The predicate.
    pub pred: PredKey,
    /// The pattern of the calls.
    pub call: Abs,
}

impl RowName {
    /// An equal row name.
    pub fn copy(&self, alloc: Global) -> Result<RowName, AllocError>
        ensures { IfOk result (λ name. name ≡ self.now) }
    {
        Ok(RowName {
            pred: self.pred.copy(alloc)?,
            call: self.call.copy(alloc)?,
        })
    }
}
