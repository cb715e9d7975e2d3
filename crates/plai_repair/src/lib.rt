//! How a table and its arcs are opened after an edit (Hermenegildo, Puebla, Marriott and Stuckey 2000): the rows that calls lead
//! from to a predicate that lost a clause are removed, and the others are kept, dormant, with the clauses that their predicates
//! gained dirty. At the end of an edit's work the rows are kept that calls reach from the entries'.
#![tactic(auto)]

mod comparing;
mod equal;
mod gaining;
mod gathering;
mod opening;
mod quiet;
mod reaching;
mod removal;
mod sleeping;
mod touching;

pub use equal::same_checks;
pub use gathering::lost_rows;
pub use opening::open_state;
pub use quiet::is_quiet;
pub use reaching::keep_reachable;
pub use removal::remove_rows;
