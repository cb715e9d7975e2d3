//! Edits.
ghost use Rattle.std.specs.Prelude.{◌≡◌, IfOk};

use plai_terms::{Listed, Name, ReadTerm};
use std::alloc::{AllocError, Global};

/// An edit of a program. Numbers count from 1, and they close up when something is taken away. Each term has its own
/// variables, numbered from 0 by first appearance. An arity is one from 0 to 16 where the edit was read, and a number any
/// integer of 128 bits: one that names nothing is refused when the edit is carried out.
#[derive(Debug, Drop)]
pub enum Edit {
    /// The clause that the term says becomes the last one of its predicate in the module.
    Add {
        module: Name,
        clause: ReadTerm,
    },
    /// The clause of that number of the module's predicate is taken away.
    Del {
        module: Name,
        name: Name,
        arity: u32,
        number: i128,
    },
    /// All clauses of the module's predicate are taken away.
    Drop {
        module: Name,
        name: Name,
        arity: u32,
    },
    /// The entry that the term says becomes the module's last one.
    Entry {
        module: Name,
        entry: ReadTerm,
    },
    /// The module's entry of that number is taken away.
    Unentry {
        module: Name,
        number: i128,
    },
    /// The assertion that the term says becomes the module's last one.
    Check {
        module: Name,
        check: ReadTerm,
    },
    /// The module's assertion of that number is taken away.
    Uncheck {
        module: Name,
        number: i128,
    },
    /// The edits in order, all of them or none of them.
    All(Listed<Edit>),
}

impl Edit {
    #[cycle(copy)]
    fn copy_all(alloc: Global, edits: &[Edit]) -> Result<Vec<Edit>, AllocError>
        ensures { IfOk result (λ copies. copies.items ≡ edits.now) }
    {
        let mut copies = Vec::new(alloc);
        for edit in edits {
            copies.push(edit.copy(alloc)?)?;
        }
        Ok(copies)
    }

    /// An equal edit, or want of memory.
    #[cycle(copy)]
    pub fn copy(&self, alloc: Global) -> Result<Edit, AllocError>
        ensures { IfOk result (λ edit. edit ≡ self.now) }
    {
        Ok(match self {
            Edit::Add { module, clause } => Edit::Add {
                module: module.copy(alloc)?,
                clause: clause.copy(alloc)?,
            },
            Edit::Del {
                module,
                name,
                arity,
                number,
            } => Edit::Del {
                module: module.copy(alloc)?,
                name: name.copy(alloc)?,
                arity: *arity,
                number: *number,
            },
            Edit::Drop {
                module,
                name,
                arity,
            } => Edit::Drop {
                module: module.copy(alloc)?,
                name: name.copy(alloc)?,
                arity: *arity,
            },
            Edit::Entry { module, entry } => Edit::Entry {
                module: module.copy(alloc)?,
                entry: entry.copy(alloc)?,
            },
            Edit::Unentry { module, number } => Edit::Unentry {
                module: module.copy(alloc)?,
                number: *number,
            },
            Edit::Check { module, check } => Edit::Check {
                module: module.copy(alloc)?,
                check: check.copy(alloc)?,
            },
            Edit::Uncheck { module, number } => Edit::Uncheck {
                module: module.copy(alloc)?,
                number: *number,
            },
            Edit::All(edits) => Edit::All(Listed::new(Edit::copy_all(alloc, edits.as_slice())?)),
        })
    }
}
