//! Tests of dirty pairs and calls of rows, beside plain lists of them.
#![tactic(auto)]

#[cfg(test)]
mod arcs;
