//! What one file's text says, before the modules of all files are known: its module and its exports, imports, entries,
//! assertions and clauses (ISO/IEC 13211-1:1995, 6.2.1 and 7.4).
#![tactic(auto)]

mod cause;
mod directive;
mod items;
mod keys;
mod operators;
mod properties;
mod reading;
mod shape;
mod stop;
mod text;

pub use cause::{ItemsFail, LoadCause};
pub use items::{CheckItem, EntryItem, FileItems, Item, NumberedItem};
pub use properties::{check, entry};
pub use shape::{atom, list_items, number_up_to, one_argument, two_arguments, variable};
pub use stop::{Stop, TermFail};
pub use text::{next_term, read_items};
