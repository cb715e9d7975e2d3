use crate::domain::DepthK;
use crate::state::State;
use plai_base::Steps;
use plai_domain::{Action, DomFail, Domain};
use plai_terms::{Abs, Prop, Term, print_abs};
use std::alloc::{AllocError, Global};
use std::sync::ledger::Ledger;

impl Domain for DepthK {
    ghost use Rattle.plai_depth_laws.specs.DepthK.{depth_k};
    ghost use Rattle.plai_depth_laws.proofs.Laws.{lawful_from_one};
    ghost use Rattle.plai_depth_laws.proofs.Acts.{sound_from_one};
    ghost use Rattle.plai_depth_laws.proofs.Printed.{depth_k_printed};
    ghost use Rattle.plai_depth.specs.Values.{state_of as view_of};
    ghost use Rattle.plai_terms.proofs.SameNames.{abs-Decides};

    type Value = Abs;

    type State = State;

    ghost plain = { λ domain. depth_k domain.depth };

    ghost value_of = { λ value. value };

    ghost state_of = { view_of };

    ghost equal = { abs-Decides };

    ghost lawful = { λ domain. lawful_from_one domain.depth domain.some };

    ghost sound = { λ domain. sound_from_one domain.depth domain.some };

    ghost printed = { λ domain. depth_k_printed domain.depth };

    fn describe(&self, alloc: Global, arity: u32, pre: &[Prop]) -> Result<Abs, AllocError> {
        DepthK::describe(self, alloc, arity, pre)
    }

    fn enter<L: Ledger>(
        &self,
        alloc: Global,
        call: &Abs,
        head: &[Term],
        variables: u32,
        steps: &mut Steps<L>,
    ) -> Result<Option<State>, DomFail> {
        steps.tick();
        Ok(DepthK::enter(self, alloc, call, head, variables)?)
    }

    fn call<L: Ledger>(
        &self,
        alloc: Global,
        state: &State,
        args: &[Term],
        steps: &mut Steps<L>,
    ) -> Result<Abs, DomFail> {
        steps.tick();
        Ok(DepthK::call(self, alloc, state, args)?)
    }

    fn back<L: Ledger>(
        &self,
        alloc: Global,
        state: &State,
        args: &[Term],
        answer: &Abs,
        steps: &mut Steps<L>,
    ) -> Result<Option<State>, DomFail> {
        steps.tick();
        Ok(DepthK::back(self, alloc, state, args, answer)?)
    }

    fn refine<L: Ledger>(
        &self,
        alloc: Global,
        state: &State,
        args: &[Term],
        action: &Action,
        steps: &mut Steps<L>,
    ) -> Result<Option<State>, DomFail> {
        steps.tick();
        Ok(DepthK::refine(self, alloc, state, args, action)?)
    }

    fn exit<L: Ledger>(
        &self,
        alloc: Global,
        state: &State,
        head: &[Term],
        steps: &mut Steps<L>,
    ) -> Result<Abs, AllocError> {
        steps.tick();
        DepthK::exit(self, alloc, state, head)
    }

    fn join<L: Ledger>(
        &self,
        alloc: Global,
        a: &Abs,
        b: &Abs,
        steps: &mut Steps<L>,
    ) -> Result<Abs, AllocError> {
        steps.tick();
        DepthK::join(self, alloc, a, b)
    }

    fn leq(&self, a: &Abs, b: &Abs) -> bool {
        DepthK::leq(self, a, b)
    }

    fn same(&self, a: &Abs, b: &Abs) -> bool {
        DepthK::same(self, a, b)
    }

    fn entails(&self, a: &Abs, prop: &Prop) -> bool {
        DepthK::entails(self, a, prop)
    }

    fn excludes(&self, a: &Abs, prop: &Prop) -> bool {
        DepthK::excludes(self, a, prop)
    }

    fn to_abs(&self, alloc: Global, a: &Abs) -> Result<Abs, AllocError> {
        a.copy(alloc)
    }

    fn print(&self, alloc: Global, a: &Abs, out: &mut Vec<u8>) -> Result<(), AllocError> {
        print_abs(alloc, a, out)
    }
}
