//! Tests of scripts and edits, in a crate of their own so that `plai_script` is proved once.
#![tactic(auto)]

#[cfg(test)]
mod accepted;
#[cfg(test)]
mod full;
#[cfg(test)]
mod pairs;
#[cfg(test)]
mod refused;
#[cfg(test)]
mod shown;
#[cfg(test)]
mod texts;
