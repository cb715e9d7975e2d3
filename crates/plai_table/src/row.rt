use plai_domain::Key;

/// A row of a table.
#[derive(Clone, Copy)]
pub struct Row<'a, V> {
    /// Its name.
    pub name: &'a Key<V>,
    /// Its answer.
    pub answer: Option<&'a V>,
    /// Whether it is live, and not dormant.
    pub live: bool,
    /// Whether it is an entry's.
    pub entry: bool,
}
