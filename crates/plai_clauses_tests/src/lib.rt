//! Tests of clauses, imports and programs, in a crate of their own so that `plai_clauses` is proved once.
#![tactic(auto)]

#[cfg(test)]
mod clauses;
#[cfg(test)]
mod keys;
#[cfg(test)]
mod programs;
#[cfg(test)]
mod reading;
