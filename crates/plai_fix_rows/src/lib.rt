//! Rows for the names that legal work demands (Hermenegildo, Puebla, Marriott and Stuckey 2000): a row is made for a name
//! that entries or an evaluation ask for, or a dormant one is woken and with it all that it calls. Beside it: what the rows
//! of a table and its arcs keep of a state of work, the log as it is told, marks, and the queue of rows that have dirty pairs.
#![tactic(auto)]

mod calling;
mod change;
mod closing;
mod entries;
mod marking;
mod meeting;
mod placing;
mod present;
mod queue;
mod task;
mod waking;

pub use calling::{callers_of, set_pair_calls};
pub use change::Change;
pub use closing::place_called;
pub use entries::{entry_keys, mark_entries, place_entries};
pub use marking::{mark_clauses, mark_pairs};
pub use present::has_live;
pub use queue::{next_pair, push_row, push_rows};
pub use task::Task;
