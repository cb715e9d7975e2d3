//! Tests of `Ground`: beside a second program over lists of models, and of clauses that are evaluated under it.
#![tactic(auto)]

#[cfg(test)]
mod beside;
#[cfg(test)]
mod models;
#[cfg(test)]
mod second;
#[cfg(test)]
mod tests;
