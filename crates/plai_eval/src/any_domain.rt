ghost use Rattle.plai_domain.specs.Plain.{PlainDomain};

/// Any domains of patterns, one for each value of the type. A law of all domains is a clause over this trait.
pub trait AnyPlainDomain {
    /// What the domain means.
    ghost plain: { Self → PlainDomain };
}
