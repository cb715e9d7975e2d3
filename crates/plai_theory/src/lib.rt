//! The theory of stages, least tables, rounds, legal work and edits, over an abstract domain (Muthukumar and
//! Hermenegildo 1992; Hermenegildo, Puebla, Marriott and Stuckey 2000). Its functions have empty bodies: each clause is
//! a theorem.
#![tactic(auto)]

mod any_domain;
mod log_theorems;
mod measure_theorems;
mod repair_theorems;
mod round_theorems;
mod stage_theorems;
mod walk_theorems;

pub use any_domain::AnyDomain;
pub use log_theorems::log_laws;
pub use measure_theorems::measure_laws;
pub use repair_theorems::repair_laws;
pub use round_theorems::round_laws;
pub use stage_theorems::stage_laws;
pub use walk_theorems::walk_laws;
