//! Legal work (Hermenegildo, Puebla, Marriott and Stuckey 2000) whose state a table and its arcs keep, over any abstract
//! domain (no code): what they keep of it, what each step changes of them, and that work ends. The functions of laws have
//! empty bodies: each of their clauses is a theorem.
#![tactic(auto)]

mod laws;
mod work_laws;

pub use laws::{end_laws, step_laws, value_laws, wait_laws, waking_laws};
pub use work_laws::{fall_laws, pair_laws, placing_laws};
