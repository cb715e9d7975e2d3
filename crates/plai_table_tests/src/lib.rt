//! Tests of tables against plain lists of rows, in a crate of their own so that `plai_table` is proved once.
#![tactic(auto)]

#[cfg(test)]
mod lists;
