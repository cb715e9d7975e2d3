//! Groundness of arguments: the domain of Marriott and Sondergaard 1993, in which a value is a positive Boolean function,
//! kept as a canonical decision diagram (Armstrong, Marriott, Schachte and Sondergaard 1998).
#![tactic(auto)]

mod domain;
mod implementation;
mod literal;
mod properties;
mod refine;
mod slots;
mod value;

pub use domain::Ground;
pub use value::{State, Value};
