//! Clauses, literals and entries, and the keys that no clause may have.
#![tactic(auto)]

mod builtin;
mod cause;
mod check;
mod clause;
mod clause_list;
mod definition;
mod edit_cause;
mod entry;
mod from_term;
mod homes;
mod imports;
mod keys;
mod laws;
mod modules;
mod program;

pub use builtin::Builtin;
pub use cause::{ClauseCause, ClauseFail};
pub use check::{Check, CheckKind};
pub use clause::{Clause, Literal, Target};
pub use edit_cause::EditCause;
pub use entry::Entry;
pub use imports::{Imports, exporter, spoken_of};
pub use keys::{is_builtin, is_definable, is_refused_key};
pub use laws::{change_laws, clause_law, one_module_laws, order_laws};
pub use modules::Module;
pub use program::Program;
