//! Tests of values and of the order of terms, in a crate of their own so that `plai_values` is proved once.
#![tactic(auto)]

#[cfg(test)]
mod values;
