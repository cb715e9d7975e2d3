//! Tests of what builtins do and mean, in a crate of their own so that the crate of builtins is proved once.
#![tactic(auto)]

#[cfg(test)]
mod meanings;
#[cfg(test)]
mod tables;
