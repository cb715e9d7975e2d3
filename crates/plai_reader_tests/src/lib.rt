//! Tests of tokens and of trees, in a crate of their own so that the crates that read are proved once.
#![tactic(auto)]

#[cfg(test)]
mod lex;
#[cfg(test)]
mod reader;
