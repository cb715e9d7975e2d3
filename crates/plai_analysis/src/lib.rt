//! The analysis of a program by legal work (Hermenegildo, Puebla, Marriott and Stuckey 2000): where work has ended, the rows that
//! calls reach from the entries are the least table.
#![tactic(auto)]

mod analysed;
mod analysis;
mod patterns;
mod rows;
mod table;

pub use analysed::Analysed;
pub use analysis::{analyse, analyse_again};
pub use table::rows_of_table;
