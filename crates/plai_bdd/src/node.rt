/// A node of a decision diagram: a leaf with its answer, or a branch on a slot from 0 to 63, which names its children by their
/// places in the list of nodes, counted from 0 (Bryant 1986, definition 1).
#[derive(Clone, Copy, Debug, PartialEq, Eq, Hash)]
pub enum Node {
    Leaf(bool),
    Branch { slot: u32, low: usize, high: usize },
}
