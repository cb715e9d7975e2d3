//! The top call: from the words of the command line to the printed table (Muthukumar and Hermenegildo 1992).
#![tactic(auto)]

mod analysis;
mod blocks;
mod command;
mod form;
mod input;
mod laws;
mod loading;
mod plan;
mod refusal;
mod render;
mod script;
mod stop;
mod task;
mod top;

pub use laws::printed_rows_describe_runs;
pub use stop::Stop;
pub use top::{outcome_is_one, run};
