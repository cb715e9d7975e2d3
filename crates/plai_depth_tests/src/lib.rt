//! Tests of `DepthK`: beside a second program over trees that are copied whole.
#![tactic(auto)]

#[cfg(test)]
mod second;
#[cfg(test)]
mod tests;
#[cfg(test)]
mod trees;
