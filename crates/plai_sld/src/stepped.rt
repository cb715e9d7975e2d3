/// What a step of a run answers.
#[derive(Clone, Copy, Debug, PartialEq, Eq)]
pub enum Stepped {
    /// The run is a step further.
    Moved,
    /// The choice is no number of a clause of the goal's predicate.
    NoClause,
    /// The goal and the renamed head don't unify, or the builtin's goal has no meaning.
    Clash,
    /// The numbers of variables have come to an end.
    Spent,
    /// Nothing is left.
    Done,
}
