//! Tests of rows and of logs, in a crate of their own so that the crates of these are proved once.
#![tactic(auto)]

#[cfg(test)]
mod domain;
#[cfg(test)]
mod render;
