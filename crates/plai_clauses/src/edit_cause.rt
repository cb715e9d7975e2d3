//! Why an edit of the script can't be carried out.
ghost use Rattle.std.specs.Prelude.{◌≡◌, IfOk};

use crate::cause::ClauseCause;
use std::alloc::{AllocError, Global};

/// Why an edit is refused. The program then stays as it was.
#[derive(Debug, Drop)]
pub enum EditCause {
    /// The tokens of the term are no term.
    Syntax,
    /// The term is deeper than 2,000.
    TooDeep,
    /// The term is no deeper, and a compound in it has more than 255 arguments.
    TermArity,
    /// The term is none of the edits.
    BadEdit,
    /// The program has no module of this name.
    UnknownModule,
    /// The term says no clause that a program takes.
    Clause(ClauseCause),
    /// The term is no entry or no check of a predicate.
    BadProperty,
    /// The predicate has fewer clauses than the number asked for, or the number is below 1.
    NoSuchClause { asked: i128, there: u64 },
    /// The module has fewer entries than the number asked for, or the number is below 1.
    NoSuchEntry { asked: i128, there: u64 },
    /// The module has fewer checks than the number asked for, or the number is below 1.
    NoSuchCheck { asked: i128, there: u64 },
    /// The module imports the predicate that the clause would define.
    ImportClash,
    /// The program has as many clauses, entries and checks as it may have.
    TooManyItems,
}

impl EditCause {
    /// An equal cause.
    pub fn copy(&self, alloc: Global) -> Result<EditCause, AllocError>
        ensures { IfOk result (λ cause. cause ≡ self.now) }
    {
        Ok(match self {
            EditCause::Syntax => EditCause::Syntax,
            EditCause::TooDeep => EditCause::TooDeep,
            EditCause::TermArity => EditCause::TermArity,
            EditCause::BadEdit => EditCause::BadEdit,
            EditCause::UnknownModule => EditCause::UnknownModule,
            EditCause::Clause(cause) => EditCause::Clause(cause.copy(alloc)?),
            EditCause::BadProperty => EditCause::BadProperty,
            EditCause::NoSuchClause { asked, there } => {
                EditCause::NoSuchClause {
                    asked: *asked,
                    there: *there,
                }
            }
            EditCause::NoSuchEntry { asked, there } => {
                EditCause::NoSuchEntry {
                    asked: *asked,
                    there: *there,
                }
            }
            EditCause::NoSuchCheck { asked, there } => {
                EditCause::NoSuchCheck {
                    asked: *asked,
                    there: *there,
                }
            }
            EditCause::ImportClash => EditCause::ImportClash,
            EditCause::TooManyItems => EditCause::TooManyItems,
        })
    }
}
