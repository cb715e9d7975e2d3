use plai_domain::Action;
use plai_terms::{Abs, Prop, Term};
use std::alloc::{AllocError, Global};

/// A second program for the operations of a domain, as plain as can be: its values are the patterns themselves. No contract says
/// what it gives; a domain is compared with it.
pub trait SecondProgram {
    /// What is known at a place of a clause.
    type State: Drop;

    /// The pattern of so many arguments with these properties.
    fn describe(&self, alloc: Global, arity: u32, pre: &[Prop]) -> Result<Abs, AllocError>;

    /// The state in which a clause of so many variables begins, or none.
    fn enter(
        &self,
        alloc: Global,
        call: &Abs,
        head: &[Term],
        variables: u32,
    ) -> Result<Option<Self::State>, AllocError>;

    /// The call of a literal with these arguments.
    fn call(&self, alloc: Global, state: &Self::State, args: &[Term]) -> Result<Abs, AllocError>;

    /// The state behind a literal with these arguments and this answer, or none.
    fn back(
        &self,
        alloc: Global,
        state: &Self::State,
        args: &[Term],
        answer: &Abs,
    ) -> Result<Option<Self::State>, AllocError>;

    /// What an action leaves of the state at a literal with these arguments, or none.
    fn refine(
        &self,
        alloc: Global,
        state: &Self::State,
        args: &[Term],
        action: &Action,
    ) -> Result<Option<Self::State>, AllocError>;

    /// The answer of a clause with this head.
    fn exit(&self, alloc: Global, state: &Self::State, head: &[Term]) -> Result<Abs, AllocError>;

    /// The least pattern above two of one number of arguments.
    fn join(&self, alloc: Global, a: &Abs, b: &Abs) -> Result<Abs, AllocError>;

    /// Whether the first of two patterns of one number of arguments lies at or below the second.
    fn leq(&self, a: &Abs, b: &Abs) -> bool;

    /// Whether the pattern says that each tuple has the property.
    fn entails(&self, a: &Abs, property: &Prop) -> bool;

    /// Whether the pattern says that no tuple has the property.
    fn excludes(&self, a: &Abs, property: &Prop) -> bool;
}
