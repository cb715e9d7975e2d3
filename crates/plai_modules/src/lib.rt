//! Loads the modules of several files: reads the files, resolves what each module imports, and makes the program.
#![tactic(auto)]

mod exporter;
mod fail;
mod import;
mod items;
mod keys;
mod laws;
mod link;
mod loading;
mod named_text;
mod own_items;

pub use fail::LoadFail;
pub use laws::{clauses_are_kept, imports_are_exported, named_keys_are_imported};
pub use loading::load;
pub use named_text::NamedText;
pub use plai_base::Text;
pub use plai_sources::LoadCause;
