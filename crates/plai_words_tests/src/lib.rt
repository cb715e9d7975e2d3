//! Tests of the words of a command line, in a crate of their own so that `plai_words` is proved once.
#![tactic(auto)]

#[cfg(test)]
mod words;
