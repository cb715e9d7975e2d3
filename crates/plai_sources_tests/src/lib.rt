//! Tests of one file's items, in a crate of their own so that `plai_sources` is proved once.
#![tactic(auto)]

#[cfg(test)]
mod refusals;
#[cfg(test)]
mod shapes;
#[cfg(test)]
mod shown;
#[cfg(test)]
mod texts;
