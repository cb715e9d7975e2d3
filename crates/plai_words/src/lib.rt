//! The settings of the command line.
#![tactic(auto)]

mod bundle;
mod command;
mod domain;
mod fail;
mod files;
mod number;
mod read;
mod types;

pub use fail::WordsFail;
pub use files::Files;
pub use plai_base::Text;
pub use read::settings;
pub use types::{DomainName, Settings};
