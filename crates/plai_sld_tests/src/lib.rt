//! Tests of runs, in a crate of their own so that `plai_sld` is proved once.
#![tactic(auto)]

#[cfg(test)]
mod runs;
