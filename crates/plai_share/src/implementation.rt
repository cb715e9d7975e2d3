use crate::domain::ShareFree;
use crate::value::{State, Value};
use plai_base::Steps;
use plai_domain::{Action, DomFail, Domain};
use plai_terms::{Abs, Prop, Term};
use std::alloc::{AllocError, Global};
use std::sync::ledger::Ledger;

impl Domain for ShareFree {
    ghost use Rattle.std.specs.Prelude.{refl};
    ghost use Rattle.plai_share_laws.specs.Sharing.{sharing};
    ghost use Rattle.plai_share_laws.proofs.Lawful.{sharing_lawful};
    ghost use Rattle.plai_share_laws.proofs.Sound.{sharing_sound};
    ghost use Rattle.plai_share_laws.proofs.Printed.{sharing_printed};
    ghost use Rattle.plai_share.specs.Values.{value_of as pattern_of, state_of as view_of};
    ghost use Rattle.plai_share.specs.Equality.{same_value};

    type Value = Value;

    type State = State;

    ghost plain = { λ _. sharing };

    ghost value_of = { pattern_of };

    ghost state_of = { view_of };

    ghost equal = { λ a b. same_value a b _ refl };

    ghost lawful = { λ _. sharing_lawful };

    ghost sound = { λ _. sharing_sound };

    ghost printed = { λ _. sharing_printed };

    fn describe(&self, alloc: Global, arity: u32, pre: &[Prop]) -> Result<Value, AllocError> {
        ShareFree::describe(self, alloc, arity, pre)
    }

    fn enter<L: Ledger>(
        &self,
        alloc: Global,
        call: &Value,
        head: &[Term],
        variables: u32,
        steps: &mut Steps<L>,
    ) -> Result<Option<State>, DomFail> {
        steps.tick();
        ShareFree::enter(self, alloc, call, head, variables)
    }

    fn call<L: Ledger>(
        &self,
        alloc: Global,
        state: &State,
        args: &[Term],
        steps: &mut Steps<L>,
    ) -> Result<Value, DomFail> {
        steps.tick();
        ShareFree::call(self, alloc, state, args)
    }

    fn back<L: Ledger>(
        &self,
        alloc: Global,
        state: &State,
        args: &[Term],
        answer: &Value,
        steps: &mut Steps<L>,
    ) -> Result<Option<State>, DomFail> {
        steps.tick();
        ShareFree::back(self, alloc, state, args, answer)
    }

    fn refine<L: Ledger>(
        &self,
        alloc: Global,
        state: &State,
        args: &[Term],
        action: &Action,
        steps: &mut Steps<L>,
    ) -> Result<Option<State>, DomFail> {
        steps.tick();
        ShareFree::refine(self, alloc, state, args, action)
    }

    fn exit<L: Ledger>(
        &self,
        alloc: Global,
        state: &State,
        head: &[Term],
        steps: &mut Steps<L>,
    ) -> Result<Value, AllocError> {
        steps.tick();
        ShareFree::exit(self, alloc, state, head)
    }

    fn join<L: Ledger>(
        &self,
        alloc: Global,
        a: &Value,
        b: &Value,
        steps: &mut Steps<L>,
    ) -> Result<Value, AllocError> {
        steps.tick();
        ShareFree::join(self, alloc, a, b)
    }

    fn leq(&self, a: &Value, b: &Value) -> bool {
        ShareFree::leq(self, a, b)
    }

    fn same(&self, a: &Value, b: &Value) -> bool {
        ShareFree::same(self, a, b)
    }

    fn entails(&self, a: &Value, prop: &Prop) -> bool {
        ShareFree::entails(self, a, prop)
    }

    fn excludes(&self, a: &Value, prop: &Prop) -> bool {
        ShareFree::excludes(self, a, prop)
    }

    fn to_abs(&self, alloc: Global, a: &Value) -> Result<Abs, AllocError> {
        ShareFree::to_abs(self, alloc, a)
    }

    fn print(&self, alloc: Global, a: &Value, out: &mut Vec<u8>) -> Result<(), AllocError> {
        ShareFree::print(self, alloc, a, out)
    }
}
