use plai_terms::{PredKey, Term};

/// What stands at the front of a state of a run.
#[derive(Clone, Copy)]
pub enum Front<'a> {
    /// Nothing is left.
    Nothing,
    /// A goal of a builtin.
    Builtin,
    /// A goal of a predicate, with its arguments.
    Call(&'a PredKey, &'a [Term]),
    /// A mark: a predicate, the arguments of its call as they were, and as they are now.
    Mark(&'a PredKey, &'a [Term], &'a [Term]),
}
