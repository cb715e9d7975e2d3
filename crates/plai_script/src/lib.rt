//! Edits of a program: reads a script of edits, and carries one out (after Hermenegildo, Puebla, Marriott and Stuckey 2000).
#![tactic(auto)]

mod change;
mod edit;
mod fail;
mod numbered;
mod own_term;
mod said;
mod script;
mod shape;

pub use change::{apply, apply_noting};
pub use edit::Edit;
pub use fail::{EditFail, ScriptFail};
pub use plai_clauses::EditCause;
pub use script::read_script;
pub use shape::read_edit;
