//! Reads terms of a profile of ISO Prolog from their tokens, under a table of operators (ISO/IEC 13211-1:1995, 6.3).
#![tactic(auto)]

mod ahead;
mod build;
mod by_name;
mod climb;
mod decide;
mod fail;
mod level;
mod operator;
mod read;
mod state;
mod steps;
mod stop;
mod table;
mod tree;
mod variables;

pub use fail::{OpFail, ReadTermFail};
pub use operator::OpKind;
pub use plai_terms::ReadTerm;
pub use read::read_term;
pub use table::OpTable;
