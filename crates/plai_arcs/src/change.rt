//! Changes of a list whose items have marks.

/// A change of a list of items, each with a mark. A place is where an item may stand: it is looked at first.
#[derive(Clone, Copy)]
pub(crate) enum Change<T> {
    /// Puts an item with its mark at the end.
    Push(T, u64),
    /// Takes an item, which may stand at the place, and puts the last one there.
    Take(T, u64),
    /// Puts the second item where the first is, which may stand at the place.
    Rename(T, T, u64),
    /// Gives the item at the place a mark.
    Mark(u64, u64),
}
