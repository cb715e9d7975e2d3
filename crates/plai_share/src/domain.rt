ghost use Rattle.std.specs.Prelude.{◌≡◌, ◌≤◌, ◌↔◌, ◌++◌, ℕ, All, IsTrue, IfOk, OnOk, OnErr, length};
ghost use Rattle.std.specs.Option.{option_map};
ghost use Rattle.plai_terms.specs.Pattern.{pattern_text};
ghost use Rattle.plai_domain.specs.Instances.{speaks_within, acts_within};
ghost use Rattle.plai_domain.specs.Conditions.{most_arguments, IsHead, AreArguments, IsValue, IsSmallValue, IsState, AreAlike, SpeaksOf};
ghost use Rattle.plai_domain.specs.Outcomes.{IsOutcome};
ghost use Rattle.plai_share_laws.specs.Sharing.{sharing};
ghost use Rattle.plai_share.specs.Values.{value_of, state_of};

use crate::value::{State, Value};
use crate::{describing, literal, refine};
use plai_domain::{Action, DomFail};
use plai_terms::{Abs, Prop, Term, print_abs};
use std::alloc::{AllocError, Global};

/// The domain of sharing and freeness (Jacobs and Langen 1992; Muthukumar and Hermenegildo 1992). Each call gives what the
/// plain domain gives.
#[derive(Debug, Default, Drop)]
pub struct ShareFree {}

impl ShareFree {
    /// The domain, which has no settings.
    pub fn new() -> ShareFree {
        ShareFree {}
    }

    /// The value of so many arguments with these properties.
    pub(crate) fn describe(
        &self,
        alloc: Global,
        arity: u32,
        pre: &[Prop],
    ) -> Result<Value, AllocError>
        requires few { arity ≤ most_arguments }
        requires within { All (speaks_within arity) pre.now }
        ensures { IfOk result (λ value. value_of value ≡ sharing.describe arity pre.now) }
    {
        let sharing = describing::describe(alloc, arity, pre)?;
        Ok(Value { sharing })
    }

    /// The state in which a clause begins.
    pub(crate) fn enter(
        &self,
        alloc: Global,
        call: &Value,
        head: &[Term],
        variables: u32,
    ) -> Result<Option<State>, DomFail>
        requires call { IsValue sharing (length head.now) (value_of call.now) }
        requires head { IsHead (length head.now) variables head.now }
        ensures { IsOutcome (option_map state_of) (sharing.enter (value_of call.now) head.now variables) result }
    {
        literal::enter(alloc, call, head, variables)
    }

    /// The call of a literal with these arguments.
    pub(crate) fn call(&self, alloc: Global, state: &State, args: &[Term]) -> Result<Value, DomFail>
        requires state { IsState sharing (state_of state.now) }
        requires args { AreArguments (state_of state.now).arity (state_of state.now).variables args.now }
        ensures { IsOutcome value_of (sharing.call (state_of state.now) args.now) result }
    {
        literal::call(alloc, state, args)
    }

    /// The state behind a literal with these arguments and this answer.
    pub(crate) fn back(
        &self,
        alloc: Global,
        state: &State,
        args: &[Term],
        answer: &Value,
    ) -> Result<Option<State>, DomFail>
        requires state { IsState sharing (state_of state.now) }
        requires args { AreArguments (state_of state.now).arity (state_of state.now).variables args.now }
        requires answer { IsValue sharing (length args.now) (value_of answer.now) }
        ensures { IsOutcome (option_map state_of) (sharing.back (state_of state.now) args.now (value_of answer.now)) result }
    {
        literal::back(alloc, state, args, answer)
    }

    /// What an action of a builtin leaves of the state at a literal with these arguments, or none.
    pub(crate) fn refine(
        &self,
        alloc: Global,
        state: &State,
        args: &[Term],
        action: &Action,
    ) -> Result<Option<State>, DomFail>
        requires state { IsState sharing (state_of state.now) }
        requires args { AreArguments (state_of state.now).arity (state_of state.now).variables args.now }
        requires action { acts_within (length args.now) action.now }
        ensures { IsOutcome (option_map state_of) (sharing.refine (state_of state.now) args.now action.now) result }
    {
        refine::refine(alloc, state, args, action)
    }

    /// The answer of a clause with this head, of the state behind its body.
    pub(crate) fn exit(
        &self,
        alloc: Global,
        state: &State,
        head: &[Term],
    ) -> Result<Value, AllocError>
        requires state { IsState sharing (state_of state.now) }
        requires head { IsHead (state_of state.now).arity (state_of state.now).variables head.now }
        ensures { IfOk result (λ value. value_of value ≡ sharing.exit (state_of state.now) head.now) }
    {
        literal::exit(alloc, state)
    }

    /// The least value above two values of one number of arguments.
    pub(crate) fn join(&self, alloc: Global, a: &Value, b: &Value) -> Result<Value, AllocError>
        requires { AreAlike sharing (value_of a.now) (value_of b.now) }
        ensures { IfOk result (λ value. value_of value ≡ sharing.join (value_of a.now) (value_of b.now)) }
    {
        a.join(alloc, b)
    }

    /// Whether the first of two values of one number of arguments lies at or below the second.
    pub(crate) fn leq(&self, a: &Value, b: &Value) -> bool
        requires { AreAlike sharing (value_of a.now) (value_of b.now) }
        ensures { (n : ℕ) → IsValue sharing n (value_of a.now) → IsValue sharing n (value_of b.now)
            → IsTrue result ↔ sharing.Leq n (value_of a.now) (value_of b.now) }
    {
        a.leq(b)
    }

    /// Whether two values are equal.
    pub(crate) fn same(&self, a: &Value, b: &Value) -> bool
        ensures { IsTrue result ↔ (value_of a.now ≡ value_of b.now) }
    {
        *a == *b
    }

    /// Whether the value says that each tuple has the property.
    pub(crate) fn entails(&self, a: &Value, prop: &Prop) -> bool
        requires { SpeaksOf sharing (value_of a.now) prop.now }
        ensures { result ≡ sharing.entails (value_of a.now) prop.now }
    {
        describing::entails(&a.sharing, prop)
    }

    /// Whether the value says that no tuple has the property.
    pub(crate) fn excludes(&self, a: &Value, prop: &Prop) -> bool
        requires { SpeaksOf sharing (value_of a.now) prop.now }
        ensures { result ≡ sharing.excludes (value_of a.now) prop.now }
    {
        describing::excludes(&a.sharing, prop)
    }

    /// The pattern of the value.
    pub(crate) fn to_abs(&self, alloc: Global, a: &Value) -> Result<Abs, AllocError>
        ensures { IfOk result (λ abs. abs ≡ value_of a.now) }
    {
        a.pattern(alloc)
    }

    /// Appends the text of the value's pattern. After want of memory `out` is as before.
    pub(crate) fn print(
        &self,
        alloc: Global,
        a: &Value,
        out: &mut Vec<u8>,
    ) -> Result<(), AllocError>
        requires { IsSmallValue sharing (value_of a.now) }
        ensures ok { OnOk result (out.new.items ≡ out.old.items ++ pattern_text (value_of a.now)) }
        ensures err { OnErr result (out.new.items ≡ out.old.items) }
    {
        let pattern = a.pattern(alloc)?;
        print_abs(alloc, &pattern, out)
    }
}
