// The settings.
use crate::files::Files;

/// A domain of analysis, by its name.
#[derive(Clone, Copy, Debug, PartialEq, Eq)]
pub enum DomainName {
    /// `ground`: which variables are ground together.
    Ground,
    /// `share`: which variables share, and which are free.
    Share,
    /// `depth`: terms to a depth.
    Depth,
}

/// The settings that a command comes to.
#[derive(Debug, Drop)]
pub struct Settings {
    /// The domain; `ground` where none is named.
    pub domain: DomainName,
    /// The depth of terms, 1 to 8; 3 where none is given. Only `depth` uses it.
    pub depth: u32,
    /// The most live rows, 1 to 200000; 20000 where none is given.
    pub rows: u64,
    /// The length of the program to be made, 1 to 2000, where one is to be made.
    pub make: Option<u32>,
    /// The files, in order: at least one where no program is to be made, and else none.
    pub files: Files,
}
