use plai_terms::PredKey;

/// The name of a row of a table over a domain's own values: a predicate, and what the arguments of its calls may be.
#[derive(PartialEq, Eq, Hash, Drop)]
pub struct Key<V> {
    /// The predicate.
    pub pred: PredKey,
    /// What is known of the calls' arguments.
    pub call: V,
}
