ghost use Rattle.std.specs.Prelude.{◌≡◌};
ghost use Rattle.plai_values.specs.Functors.{unary_named, binary_named};

/// An evaluable functor of one argument (ISO/IEC 13211-1:1995, 9.1 and 9.4).
#[derive(Clone, Copy, Debug, PartialEq, Eq)]
pub enum Unary {
    /// `-`: the negated value.
    Minus,
    /// `\`: each bit turned.
    Complement,
    /// `abs`: the value without its sign.
    Absolute,
    /// `sign`: -1, 0 or 1.
    Sign,
}

/// An evaluable functor of two arguments (ISO/IEC 13211-1:1995, 9.1, 9.3 and 9.4).
#[derive(Clone, Copy, Debug, PartialEq, Eq)]
pub enum Binary {
    /// `+`.
    Add,
    /// `-`.
    Subtract,
    /// `*`.
    Multiply,
    /// `//`: the quotient rounded towards zero.
    Quotient,
    /// `rem`: what `//` leaves, with the sign of the left.
    Remainder,
    /// `mod`: what the quotient rounded down leaves, with the sign of the right.
    Modulo,
    /// `/`: the quotient, where the right divides the left.
    Divide,
    /// `/\`: the bits of both.
    And,
    /// `\/`: the bits of either.
    Or,
    /// `<<`: the product with a power of two.
    ShiftLeft,
    /// `>>`: the quotient by a power of two, rounded down.
    ShiftRight,
    /// `min`.
    Least,
    /// `max`.
    Greatest,
    /// `^`: the power with an exponent of 0 or more.
    Power,
}

impl Unary {
    /// The functor of one argument with this name, if it is evaluable.
    pub fn named(name: &[u8]) -> Option<Unary>
        ensures { result ≡ unary_named name.now }
    {
        if name == b"-".as_slice() {
            Some(Unary::Minus)
        } else if name == b"\\".as_slice() {
            Some(Unary::Complement)
        } else if name == b"abs".as_slice() {
            Some(Unary::Absolute)
        } else if name == b"sign".as_slice() {
            Some(Unary::Sign)
        } else {
            None
        }
    }
}

impl Binary {
    /// The functor of two arguments with this name, if it is evaluable.
    pub fn named(name: &[u8]) -> Option<Binary>
        ensures { result ≡ binary_named name.now }
    {
        if name == b"+".as_slice() {
            Some(Binary::Add)
        } else if name == b"-".as_slice() {
            Some(Binary::Subtract)
        } else if name == b"*".as_slice() {
            Some(Binary::Multiply)
        } else if name == b"//".as_slice() {
            Some(Binary::Quotient)
        } else if name == b"rem".as_slice() {
            Some(Binary::Remainder)
        } else if name == b"mod".as_slice() {
            Some(Binary::Modulo)
        } else if name == b"/".as_slice() {
            Some(Binary::Divide)
        } else if name == b"/\\".as_slice() {
            Some(Binary::And)
        } else if name == b"\\/".as_slice() {
            Some(Binary::Or)
        } else if name == b"<<".as_slice() {
            Some(Binary::ShiftLeft)
        } else if name == b">>".as_slice() {
            Some(Binary::ShiftRight)
        } else if name == b"min".as_slice() {
            Some(Binary::Least)
        } else if name == b"max".as_slice() {
            Some(Binary::Greatest)
        } else if name == b"^".as_slice() {
            Some(Binary::Power)
        } else {
            None
        }
    }
}
