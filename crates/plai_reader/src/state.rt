//! What is open while tokens are read.
use crate::level::{Frame, Operand};
use crate::operator::Operator;
use crate::tree::Tree;
use crate::variables::Variables;
use plai_terms::Name;

/// What a level stands in.
#[derive(Debug, Drop)]
pub enum Bracket {
    /// A whole term.
    Whole,
    /// Round brackets.
    Round,
    /// The arguments of a compound of this name.
    Arguments(Name),
    /// A list, before its bar.
    Items,
    /// A list, behind its bar.
    Tail,
}

/// What the next token goes on with.
#[derive(Debug, Drop)]
pub enum Pending {
    Clear,
    /// The bracket begins the arguments of a compound of this name.
    Functor(Name),
    /// The integer is negative.
    Minus,
    /// The bracket closes the atom `[]`.
    EmptyList,
}

/// How the next token is to be taken.
#[derive(Debug, Drop)]
pub struct Mode {
    /// Whether an operand is wanted, and not an operator.
    pub wanted: bool,
    pub pending: Pending,
    /// Whether a bracket, a comma, a bar or nothing stands before it.
    pub at_edge: bool,
}

/// An operand of one token.
#[derive(Debug, Drop)]
pub enum Leaf {
    Variable(u32),
    Integer(i128),
    Atom(Name),
    /// The list of these codes.
    Text(Name),
}

/// What a token does.
#[derive(Debug, Drop)]
pub enum Action {
    /// It is an operand.
    Put(Leaf),
    /// It is an operator.
    Push(Operator),
    /// It is taken together with the next token.
    Wait(Pending),
    /// It begins a level.
    Begin(Bracket),
    /// It ends an item.
    Item,
    /// It ends the last item before a bar.
    Tail,
    /// It ends a level.
    End,
}

/// An open level.
#[derive(Debug, Drop)]
pub struct Level {
    pub bracket: Bracket,
    /// The items before this one.
    pub items: Vec<Tree>,
    /// The operators whose right side is being read, each with what stands on its left.
    pub frames: Vec<Frame<Tree>>,
    /// What stands behind the last operator.
    pub place: Option<Operand<Tree>>,
}

/// A reader between two tokens.
#[derive(Debug, Drop)]
pub struct Reader {
    pub inner: Level,
    /// The levels around it, the innermost last.
    pub outer: Vec<Level>,
    pub mode: Mode,
    pub variables: Variables,
}

/// What a reader gives at the end.
#[derive(Debug, Drop)]
pub struct Read {
    pub tree: Tree,
    /// How many variables there are.
    pub variables: u32,
}
