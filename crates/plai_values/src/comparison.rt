ghost use Rattle.std.specs.Prelude.{◌≡◌};
ghost use Rattle.plai_values.specs.Functors.{comparison_named, term_comparison_named};
ghost use Rattle.plai_values.specs.Values.{holds_of, compares};

use std::cmp::Ordering;

/// A comparison of two values or of two terms (ISO/IEC 13211-1:1995, 8.7 and 8.4).
#[derive(Clone, Copy, Debug, PartialEq, Eq)]
pub enum Comparison {
    /// `=:=`, and `==` of terms.
    Eq,
    /// `=\=`, and `\==` of terms.
    Ne,
    /// `<`, and `@<` of terms.
    Lt,
    /// `=<`, and `@=<` of terms.
    Le,
    /// `>`, and `@>` of terms.
    Gt,
    /// `>=`, and `@>=` of terms.
    Ge,
}

impl Comparison {
    /// The comparison of two values with this name.
    pub fn named(name: &[u8]) -> Option<Comparison>
        ensures { result ≡ comparison_named name.now }
    {
        if name == b"=:=".as_slice() {
            Some(Comparison::Eq)
        } else if name == b"=\\=".as_slice() {
            Some(Comparison::Ne)
        } else if name == b"<".as_slice() {
            Some(Comparison::Lt)
        } else if name == b"=<".as_slice() {
            Some(Comparison::Le)
        } else if name == b">".as_slice() {
            Some(Comparison::Gt)
        } else if name == b">=".as_slice() {
            Some(Comparison::Ge)
        } else {
            None
        }
    }

    /// The comparison of two terms with this name.
    pub fn of_terms_named(name: &[u8]) -> Option<Comparison>
        ensures { result ≡ term_comparison_named name.now }
    {
        if name == b"==".as_slice() {
            Some(Comparison::Eq)
        } else if name == b"\\==".as_slice() {
            Some(Comparison::Ne)
        } else if name == b"@<".as_slice() {
            Some(Comparison::Lt)
        } else if name == b"@=<".as_slice() {
            Some(Comparison::Le)
        } else if name == b"@>".as_slice() {
            Some(Comparison::Gt)
        } else if name == b"@>=".as_slice() {
            Some(Comparison::Ge)
        } else {
            None
        }
    }

    /// Whether the comparison holds of what stands in this order.
    pub fn holds_of(self, order: Ordering) -> bool
        ensures { result ≡ holds_of self order }
    {
        match self {
            Comparison::Eq => order.is_eq(),
            Comparison::Ne => order.is_ne(),
            Comparison::Lt => order.is_lt(),
            Comparison::Le => order.is_le(),
            Comparison::Gt => order.is_gt(),
            Comparison::Ge => order.is_ge(),
        }
    }

    /// Whether the comparison holds of two values.
    pub fn compares(self, left: i128, right: i128) -> bool
        ensures { result ≡ compares self left right }
    {
        self.holds_of(left.cmp(&right))
    }
}
