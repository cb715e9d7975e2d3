ghost use Rattle.std.specs.Prelude.{◌≡◌};
ghost use Rattle.plai_eval.specs.declared.eval_fail.EvalFail.TheVariants.{Memory};
ghost use Rattle.plai_eval.specs.Answering.{fail_at};

use plai_domain::DomFail;
use std::alloc::AllocError;

/// Why an evaluation gave nothing.
#[derive(Clone, Copy, Debug, PartialEq, Eq)]
pub enum EvalFail {
    /// Memory is wanting.
    Memory,
    /// At the literal of this number, from 1, or at the head, which is 0, an operation formed a set of more than 65,536
    /// groups: the set of this place, from 1, among those of the operation.
    Over { literal: u64, place: u64 },
}

impl EvalFail {
    /// The failure of an operation, with the number of its literal.
    pub(crate) fn at(fail: DomFail, literal: u64) -> EvalFail
        ensures { result ≡ fail_at literal fail }
    {
        match fail {
            DomFail::Memory => EvalFail::Memory,
            DomFail::Over(place) => EvalFail::Over { literal, place },
        }
    }
}

impl From<AllocError> for EvalFail {
    ghost from_gives = { λ _ fail. fail ≡ Memory };

    fn from(_: AllocError) -> Self {
        EvalFail::Memory
    }
}
