//! The evaluation of clauses, stages, and the least table of a program (Muthukumar and Hermenegildo 1992). Theorems
//! stand as the clauses of functions with empty bodies.
#![tactic(auto)]

mod answers;
mod any_domain;
mod eval_fail;
mod evaluated;
mod evaluation;
mod laws;

pub use answers::Answers;
pub use any_domain::AnyPlainDomain;
pub use eval_fail::EvalFail;
pub use evaluated::Evaluated;
pub use evaluation::evaluate;
pub use laws::{
    facts_give_the_least_table, facts_of_a_module, first_sets_are_sets, laws_of_theory,
    least_table_is_one,
};
