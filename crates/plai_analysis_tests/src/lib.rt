//! Tests of the analysis by legal work.
#![tactic(auto)]

#[cfg(test)]
mod analysed;
#[cfg(test)]
mod cases;
#[cfg(test)]
mod counts;
#[cfg(test)]
mod limits;
#[cfg(test)]
mod logs;
#[cfg(test)]
mod sessions;
