//! What stands in a level: operands, and operators that wait for their right side.
use crate::operator::Operator;

/// A tree and the priority that it was read with.
#[derive(Debug, Drop)]
pub struct Operand<T> {
    pub tree: T,
    pub priority: u32,
}

/// An operator whose right side is being read, and what stands on its left: nothing before a prefix operator.
#[derive(Debug, Drop)]
pub struct Frame<T> {
    pub left: Option<Operand<T>>,
    pub operator: Operator,
}
