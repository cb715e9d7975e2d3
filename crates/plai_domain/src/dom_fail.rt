ghost use Rattle.std.specs.Prelude.{◌≡◌};
ghost use Rattle.plai_domain.specs.declared.dom_fail.DomFail.TheVariants.{Memory};

use std::alloc::AllocError;

/// Why an operation of a domain gave nothing.
#[derive(Clone, Copy, Debug, PartialEq, Eq)]
pub enum DomFail {
    /// Memory is wanting.
    Memory,
    /// The set of this number, from 1, among those that the operation forms has more than 65,536 groups.
    Over(u64),
}

impl From<AllocError> for DomFail {
    ghost from_gives = { λ _ fail. fail ≡ Memory };

    fn from(_: AllocError) -> Self {
        DomFail::Memory
    }
}
