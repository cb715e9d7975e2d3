use plai_terms::Abs;

/// A value of a domain, of so many arguments.
#[derive(Drop)]
pub struct Known<V: Drop> {
    /// The number of arguments.
    pub arity: u32,
    /// The value.
    pub value: V,
}

/// What a domain knows at a place of a clause of so many arguments and variables.
#[derive(Drop)]
pub struct Reached<S: Drop> {
    /// The number of the head's arguments.
    pub arity: u32,
    /// The number of variables.
    pub variables: u32,
    /// The state.
    pub state: S,
}

/// A value, and the pattern that the second program gives for it.
#[derive(Drop)]
pub(crate) struct Pair<V: Drop> {
    pub known: Known<V>,
    pub pattern: Abs,
}

/// A place as the domain and the second program know it.
#[derive(Drop)]
pub(crate) struct Place<S: Drop, P: Drop> {
    pub at: Reached<S>,
    pub second: P,
}
