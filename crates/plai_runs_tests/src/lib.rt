//! Random runs of programs, whose calls and answers are looked up in the rows of the programs' tables as texts, in a crate of their
//! own above the engine and the domains.
#![tactic(auto)]

#[cfg(test)]
mod cases;
#[cfg(test)]
mod choices;
#[cfg(test)]
mod programs;
#[cfg(test)]
mod runs;
#[cfg(test)]
mod skeletons;
#[cfg(test)]
mod tables;
#[cfg(test)]
mod texts;
#[cfg(test)]
mod tuples;
