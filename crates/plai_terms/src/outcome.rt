use crate::subst::Subst;

/// What the unification of two lists of terms ends with (ISO/IEC 13211-1:1995, 7.3).
#[derive(Drop)]
pub enum Outcome {
    /// The bindings that make the terms equal.
    Unified(Subst),
    /// Two terms can't be made equal.
    Clash,
    /// A variable is to be a term that contains it.
    Occurs,
}
