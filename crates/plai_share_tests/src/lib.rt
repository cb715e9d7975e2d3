//! Tests of `ShareFree`: beside a second program over lists of groups in no order, and near the limit of groups.
#![tactic(auto)]

#[cfg(test)]
mod groups;
#[cfg(test)]
mod limits;
#[cfg(test)]
mod second;
#[cfg(test)]
mod shares;
#[cfg(test)]
mod tests;
