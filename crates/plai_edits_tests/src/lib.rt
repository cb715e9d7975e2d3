//! Tests of sessions: behind each edit of pseudo-random scripts the table is that of the program's analysis anew.
#![tactic(auto)]

#[cfg(test)]
mod domains;
#[cfg(test)]
mod draws;
#[cfg(test)]
mod edits;
#[cfg(test)]
mod quiet;
