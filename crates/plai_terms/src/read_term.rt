ghost use Rattle.std.specs.Prelude.{◌≡◌, IfOk};

use crate::term::Term;
use std::alloc::{AllocError, Global};

/// A term as it was read, and how many variables it has. They are numbered from 0 in the order in which
/// they first stand there.
#[derive(Debug, PartialEq, Eq, Drop)]
pub struct ReadTerm {
    /// The term, whose variables are numbered below `variables`.
    pub term: Term,
    /// How many variables it has.
    pub variables: u32,
}

impl ReadTerm {
    /// An equal term, with as many variables.
    pub fn copy(&self, alloc: Global) -> Result<ReadTerm, AllocError>
        ensures { IfOk result (λ read. read ≡ self.now) }
    {
        Ok(ReadTerm {
            term: self.term.copy(alloc)?,
            variables: self.variables,
        })
    }
}
