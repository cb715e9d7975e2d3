ghost use Rattle.std.specs.Prelude.{◌≡◌, [], Some, true};

use crate::work::{Work, WorkEntry};
use std::alloc::{AllocError, Global};
use std::marker::Model;

/// Keeps each entry noted, in order. Contracts see the list.
#[derive(Debug, Drop)]
pub struct WorkLog {
    kept: Vec<WorkEntry>,
}

impl Model for WorkLog {
    ghost use Rattle.std.specs.Prelude.{List};
    ghost use Rattle.std.specs.Coded.{coded_list};
    ghost use Rattle.plai_domain.specs.declared.work.WorkEntry.{WorkEntry};
    ghost use Rattle.plai_domain.specs.contracts.work.WorkEntry as work_entry;

    ghost Value = { List WorkEntry };

    ghost coded = { coded_list work_entry.the_row.coded };

    ghost view = { λ log. log.kept.items };
}

impl WorkLog {
    /// The empty log. It takes no memory.
    pub fn new(alloc: Global) -> WorkLog
        ensures { result ≡ [] }
    {
        WorkLog {
            kept: Vec::new(alloc),
        }
    }

    /// The entries noted, in order. It takes no memory.
    pub fn entries(&self) -> &[WorkEntry]
        ensures { result.now ≡ self.now }
    {
        self.kept.as_slice()
    }
}

impl Work for WorkLog {
    ghost entries = { λ log. Some log };

    fn note(&mut self, alloc: Global, entry: &WorkEntry) -> Result<(), AllocError> {
        self.kept.push(entry.copy(alloc)?)?;
        Ok(())
    }
}
