//! Tests of the outside in memory and of the count of steps, in a crate of their own so that `plai_base` is proved once.
#![tactic(auto)]

#[cfg(test)]
mod base;
