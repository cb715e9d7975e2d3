//! Kinds of operators, and what they take on their two sides.
ghost use Rattle.std.specs.Prelude.{◌≡◌};
ghost use Rattle.plai_reader.specs.Kinds.{left_of, right_of, leans_right, class_of, is_postfix};

use plai_terms::Name;

/// Where an operator stands and which priorities its arguments may have (ISO/IEC 13211-1:1995, 6.3.4.1). `X` stands for an
/// argument below the operator's priority, `Y` for one of at most that priority, and `F` for the operator.
#[derive(Clone, Copy, Debug, PartialEq, Eq)]
pub enum OpKind {
    /// Infix, with both arguments below.
    Xfx,
    /// Infix, with the right argument up to the priority.
    Xfy,
    /// Infix, with the left argument up to the priority.
    Yfx,
    /// Prefix, with the argument below.
    Fx,
    /// Prefix, with the argument up to the priority.
    Fy,
    /// Postfix, with the argument below.
    Xf,
    /// Postfix, with the argument up to the priority.
    Yf,
}

/// What an operator takes on one side.
#[derive(Clone, Copy, Debug, PartialEq, Eq)]
pub enum Side {
    Nothing,
    /// An argument below the operator's priority.
    Below,
    /// An argument of at most the operator's priority.
    UpTo,
}

/// The class of an operator: at most one operator of each class has a name.
#[derive(Clone, Copy, Debug, PartialEq, Eq)]
pub enum Class {
    Prefix,
    Infix,
    Postfix,
}

impl OpKind {
    /// What an operator of this kind takes on its left side.
    pub fn left(self) -> Side
        ensures { result ≡ left_of self }
    {
        match self {
            OpKind::Xfx | OpKind::Xfy | OpKind::Xf => Side::Below,
            OpKind::Yfx | OpKind::Yf => Side::UpTo,
            OpKind::Fx | OpKind::Fy => Side::Nothing,
        }
    }

    /// What it takes on its right side.
    pub fn right(self) -> Side
        ensures { result ≡ right_of self }
    {
        match self {
            OpKind::Xfx | OpKind::Yfx | OpKind::Fx => Side::Below,
            OpKind::Xfy | OpKind::Fy => Side::UpTo,
            OpKind::Xf | OpKind::Yf => Side::Nothing,
        }
    }

    /// Its class.
    pub fn class(self) -> Class
        ensures { result ≡ class_of self }
    {
        match self {
            OpKind::Fx | OpKind::Fy => Class::Prefix,
            OpKind::Xfx | OpKind::Xfy | OpKind::Yfx => Class::Infix,
            OpKind::Xf | OpKind::Yf => Class::Postfix,
        }
    }

    /// Whether it stands behind its operand.
    pub fn is_postfix(self) -> bool
        ensures { result ≡ is_postfix self }
    {
        matches!(self, OpKind::Xf | OpKind::Yf)
    }

    /// Whether its right side takes an operator of the same priority.
    pub fn leans_right(self) -> bool
        ensures { result ≡ leans_right self }
    {
        matches!(self, OpKind::Xfy | OpKind::Fy)
    }
}

/// The priority and the kind of an operator.
#[derive(Clone, Copy, Debug, PartialEq, Eq)]
pub struct Definition {
    pub priority: u32,
    pub kind: OpKind,
}

/// A name as an operator.
#[derive(Debug, Drop)]
pub struct Operator {
    pub name: Name,
    pub priority: u32,
    pub kind: OpKind,
}
