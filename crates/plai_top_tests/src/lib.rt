//! Tests of the top call over objects in memory, in a crate of their own so that the call is proved once.
#![tactic(auto)]

#[cfg(test)]
mod depths;
#[cfg(test)]
mod edits;
#[cfg(test)]
mod faults;
#[cfg(test)]
mod made;
#[cfg(test)]
mod refusals;
#[cfg(test)]
mod sharing;
#[cfg(test)]
mod statuses;
#[cfg(test)]
mod tables;
#[cfg(test)]
mod verdicts;
#[cfg(test)]
mod world;
