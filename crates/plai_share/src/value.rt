use crate::masks::without;
use crate::sharing::Sharing;
use crate::sorted::{is_within, normal};
use plai_terms::{Abs, Listed};
use std::alloc::{AllocError, Global};

/// What is known of the arguments of a call or an answer: which of them may share a variable, and which are free variables.
/// Argument `i`, numbered from 1, is slot `i - 1`.
#[derive(PartialEq, Eq, Hash, Drop)]
pub struct Value {
    pub(crate) sharing: Sharing,
}

/// What is known of a clause's head arguments and variables, at a place of the clause. Argument `i` is slot `i - 1`, and
/// variable `v` of a clause of `n` arguments is slot `n + v`.
#[derive(Drop)]
pub struct State {
    pub(crate) arity: u32,
    pub(crate) variables: u32,
    pub(crate) sharing: Sharing,
}

impl Value {
    ghost use Rattle.std.specs.Prelude.{◌≡◌, IfOk};
    ghost use Rattle.plai_share_laws.specs.Groups.{normal};
    ghost use Rattle.plai_share_laws.specs.Shares.{join, leq};
    ghost use Rattle.plai_share_laws.specs.Sharing.{abs_of};
    ghost use Rattle.plai_share.specs.Values.{shares, value_of};

    /// The pattern of the value.
    pub(crate) fn pattern(&self, alloc: Global) -> Result<Abs, AllocError>
        ensures { IfOk result (λ abs. abs ≡ value_of self.now) }
    {
        let groups = Vec::from_slice(alloc, self.sharing.groups.as_slice())?;
        Ok(Abs::Groups(self.sharing.slots, Listed::new(groups), self.sharing.free))
    }

    /// The groups of either value, and the slots that are free in both.
    pub(crate) fn join(&self, alloc: Global, other: &Value) -> Result<Value, AllocError>
        ensures { IfOk result (λ value. value_of value ≡ abs_of (join (shares self.now.sharing) (shares other.now.sharing))) }
    {
        let mut groups = Vec::from_slice(alloc, self.sharing.groups.as_slice())?;
        groups.extend_from_slice(other.sharing.groups.as_slice())?;
        Ok(Value {
            sharing: Sharing {
                slots: self.sharing.slots,
                groups: normal(groups),
                free: self.sharing.free.project(other.sharing.free),
            },
        })
    }

    /// Whether this value has fewer groups and more free slots, or the same.
    pub(crate) fn leq(&self, other: &Value) -> bool
        requires { normal other.now.sharing.groups.items ≡ other.now.sharing.groups.items }
        ensures { result ≡ leq (shares self.now.sharing) (shares other.now.sharing) }
    {
        is_within(
            self.sharing.groups.as_slice(),
            other.sharing.groups.as_slice(),
        ) && without(other.sharing.free, self.sharing.free).is_empty()
    }
}
