use plai_domain::DomFail;
use std::alloc::AllocError;

/// An operation of a domain.
#[derive(Clone, Copy, Debug, PartialEq, Eq)]
pub enum Operation {
    /// The value of some properties.
    Describe,
    /// The state in which a clause begins.
    Enter,
    /// The call of a literal.
    Call,
    /// The state behind an answer.
    Back,
    /// The state behind an action.
    Refine,
    /// The answer of a clause.
    Exit,
    /// The least value above two.
    Join,
    /// The order of two values.
    Leq,
    /// The equality of two values.
    Same,
    /// What a value says of all tuples.
    Entails,
    /// What a value says of no tuple.
    Excludes,
}

/// Why a comparison did not come to its end with equal answers.
#[derive(Clone, Copy, Debug, PartialEq, Eq)]
pub enum CompareFail {
    /// Memory is wanting.
    Memory,
    /// What was generated is nothing that the operation takes, or there was nothing to take.
    Unfit(Operation),
    /// The two programs give different answers.
    Differs(Operation),
    /// The domain names the set of this place as too large, which the second program never does.
    Over(Operation, u64),
}

impl From<AllocError> for CompareFail {
    fn from(_: AllocError) -> Self {
        CompareFail::Memory
    }
}

impl CompareFail {
    /// The failure of an operation.
    pub(crate) fn at(operation: Operation, fail: DomFail) -> CompareFail {
        match fail {
            DomFail::Memory => CompareFail::Memory,
            DomFail::Over(place) => CompareFail::Over(operation, place),
        }
    }
}
