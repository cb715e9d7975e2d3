//! One edit after another: a session keeps a program, and its table where there is one (Hermenegildo, Puebla, Marriott and
//! Stuckey 2000).
#![tactic(auto)]

mod analysis;
mod answer;
mod session;

pub use answer::EditAnswer;
pub use session::Session;
