//! What builtin predicates compute of terms without unification: the values of arithmetic expressions, and the standard
//! order of terms (ISO/IEC 13211-1:1995, 7.2, 8.4, 8.7 and 9).
#![tactic(auto)]

mod arithmetic;
mod comparison;
mod functor;
mod groundness;
mod integer;
mod laws;
mod order;

pub use arithmetic::value;
pub use comparison::Comparison;
pub use functor::{Binary, Unary};
pub use groundness::is_ground_term;
pub use laws::term_order_is_total;
pub use order::{compare, same_term};
