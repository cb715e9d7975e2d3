//! Legal work on a table and its arcs (Hermenegildo, Puebla, Marriott and Stuckey 2000): a program is worked on from the
//! dormant rows of a table, or from none, until its log ends, or stops at a limit. Beside it: the parts of a step, as
//! evaluations under the rows of a table, growths, and look-ups of what is called.
#![tactic(auto)]

mod evaluation;
mod growing;
mod joining;
mod looking;
mod pair_work;
mod present;
mod settling;
mod solve_fail;
mod solving;

pub use evaluation::{evaluate_clause, evaluate_pair};
pub use joining::growth;
pub use looking::{look_up, look_up_all};
pub use solve_fail::SolveFail;
pub use solving::solve;
