use plai_domain::Key;

/// A row of a table over a domain's own values.
#[derive(Clone, Copy)]
pub struct Row<'a, V> {
    /// Its name: a predicate, and what is known of the arguments of its calls.
    pub name: &'a Key<V>,
    /// What is known of them behind an answer, none where there is none.
    pub answer: Option<&'a V>,
}
