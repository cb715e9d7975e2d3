//! Tests of diagrams, factors and their relational product, in a crate of their own so that `plai_factors` is proved once.
#![tactic(auto)]

#[cfg(test)]
mod diagrams;
#[cfg(test)]
mod shapes;
