use plai_domain::{Domain, Key};
use plai_terms::Listed;

/// What the evaluation of a clause gives.
#[derive(Drop)]
pub struct Evaluated<D: Domain> {
    /// The answer, or none.
    pub answer: Option<D::Value>,
    /// The names of the rows that it calls, in the order of the literals.
    pub calls: Listed<Key<D::Value>>,
}
