//! Tests of terms, their texts and unification, in a crate of their own so that `plai_terms` is proved once.
#![tactic(auto)]

#[cfg(test)]
mod terms;
#[cfg(test)]
mod unification;
