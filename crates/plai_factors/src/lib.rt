//! Boolean functions that are true together, kept as factors that are shared, and the relational product of them: Burch, Clarke and
//! Long, "Symbolic Model Checking with Partitioned Transition Relations", VLSI 1991.
#![tactic(auto)]

mod cost;
mod factor;
mod factors;
mod product;

pub use factor::Factor;
pub use factors::{share_all, with_function};
pub use product::and_exists;
