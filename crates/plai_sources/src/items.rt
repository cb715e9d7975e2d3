//! What a file has.
use plai_clauses::CheckKind;
use plai_terms::{Listed, Name, Prop, ReadTerm};

/// What the first term of a file says: the name of the module, and the names and numbers of arguments that it exports.
#[derive(Debug, Drop)]
pub struct Header {
    pub module: Name,
    pub exports: Listed<(Name, u32)>,
}

/// An entry of the predicate that the module speaks of by this name and number of arguments.
#[derive(Debug, Drop)]
pub struct EntryItem {
    pub name: Name,
    pub arity: u32,
    pub pre: Listed<Prop>,
}

/// An assertion on the predicate that the module speaks of by this name and number of arguments.
#[derive(Debug, Drop)]
pub struct CheckItem {
    pub kind: CheckKind,
    pub name: Name,
    pub arity: u32,
    pub pre: Listed<Prop>,
    pub post: Listed<Prop>,
}

/// What a term behind the first one says. A change of operators says nothing more.
#[derive(Debug, Drop)]
pub enum Item {
    /// An import from the module of that name, which isn't this one: of the names and numbers of arguments that are
    /// listed, or of all that it exports where there is no list.
    UseModule(Name, Option<Listed<(Name, u32)>>),
    /// An entry.
    Entry(EntryItem),
    /// An assertion.
    Check(CheckItem),
    /// A clause as it was read. What its goals call is settled once the imports of all files are known.
    Clause(ReadTerm),
}

/// An item and the number of its term in the file, from 1.
#[derive(Debug, Drop)]
pub struct NumberedItem {
    pub term: u64,
    pub item: Item,
}

/// A file: its module, what that exports, the items in order, and how many clauses, entries and checks the program has
/// with this file's.
#[derive(Debug, Drop)]
pub struct FileItems {
    pub module: Name,
    pub exports: Listed<(Name, u32)>,
    pub items: Listed<NumberedItem>,
    pub count: u64,
}
