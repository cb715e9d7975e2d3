ghost use Rattle.std.specs.Prelude.{◌≡◌, ◌+◌, ◌≤◌, ◌↔◌, ◌++◌, true, All, IsTrue, IfOk, OnOk, OnErr, length};
ghost use Rattle.std.specs.Option.{option_map};
ghost use Rattle.plai_terms.specs.Pattern.{pattern_text};
ghost use Rattle.plai_domain.specs.Instances.{speaks_within, all_below, acts_within};
ghost use Rattle.plai_pos_laws.specs.Groundness.{arity_of, groundness};
ghost use Rattle.plai_pos.specs.Values.{value_of, state_of};

use crate::value::{State, Value};
use crate::{literal, properties, refine};
use plai_domain::Action;
use plai_terms::{Abs, Listed, Prop, Term};
use std::alloc::{AllocError, Global};

/// The domain of groundness (Marriott and Sondergaard 1993). Each call gives what the plain domain gives.
#[derive(Debug, Default, Drop)]
pub struct Ground {}

impl Ground {
    /// The domain, which has no settings.
    pub fn new() -> Ground {
        Ground {}
    }

    /// The pattern of the arguments with these properties, whose argument numbers are from 1 to the arity.
    pub(crate) fn describe(
        &self,
        alloc: Global,
        arity: u32,
        pre: &[Prop],
    ) -> Result<Value, AllocError>
        requires small { arity ≤ 16 }
        requires within { All (speaks_within arity) pre.now }
        ensures { IfOk result (λ value. value_of value ≡ groundness.describe arity pre.now) }
    {
        let diagram = properties::describe(alloc, arity, pre)?;
        Ok(Value { arity, diagram })
    }

    /// The state in which a clause of so many variables begins, for a call of as many arguments as its head has.
    pub(crate) fn enter(
        &self,
        alloc: Global,
        call: &Value,
        head: &[Term],
        variables: u32,
    ) -> Result<Option<State>, AllocError>
        requires arity { arity_of (value_of call.now) ≡ length head.now }
        requires slots { length head.now + variables ≤ 64 }
        requires below { all_below variables head.now ≡ true }
        ensures { IfOk result (λ state. option_map state_of state
            ≡ (groundness.enter (value_of call.now) head.now variables).value) }
    {
        Ok(Some(literal::enter(alloc, call, head, variables)?))
    }

    /// The call of a literal with these arguments.
    pub(crate) fn call(
        &self,
        alloc: Global,
        state: &State,
        args: &[Term],
    ) -> Result<Value, AllocError>
        requires small { length args.now ≤ 16 }
        requires slots { (state_of state.now).arity + (state_of state.now).variables + length args.now ≤ 64 }
        requires below { all_below (state_of state.now).variables args.now ≡ true }
        ensures { IfOk result (λ value. value_of value
            ≡ (groundness.call (state_of state.now) args.now).value) }
    {
        let diagram = literal::call(alloc, state, args)?;
        Ok(Value {
            arity: args.len() as u32,
            diagram,
        })
    }

    /// The state behind a literal with these arguments and this answer.
    pub(crate) fn back(
        &self,
        alloc: Global,
        state: &State,
        args: &[Term],
        answer: &Value,
    ) -> Result<Option<State>, AllocError>
        requires small { length args.now ≤ 16 }
        requires slots { (state_of state.now).arity + (state_of state.now).variables + length args.now ≤ 64 }
        requires below { all_below (state_of state.now).variables args.now ≡ true }
        requires answer { arity_of (value_of answer.now) ≡ length args.now }
        ensures { IfOk result (λ next. option_map state_of next
            ≡ (groundness.back (state_of state.now) args.now (value_of answer.now)).value) }
    {
        Ok(Some(literal::back(alloc, state, args, answer)?))
    }

    /// What an action of a builtin leaves of the state at a literal with these arguments, or none.
    pub(crate) fn refine(
        &self,
        alloc: Global,
        state: &State,
        args: &[Term],
        action: &Action,
    ) -> Result<Option<State>, AllocError>
        requires below { all_below (state_of state.now).variables args.now ≡ true }
        requires within { acts_within (length args.now) action.now }
        ensures { IfOk result (λ next. option_map state_of next
            ≡ (groundness.refine (state_of state.now) args.now action.now).value) }
    {
        refine::refine(alloc, state, args, action)
    }

    /// The answer of a clause with this head, from the state at its end.
    pub(crate) fn exit(
        &self,
        alloc: Global,
        state: &State,
        head: &[Term],
    ) -> Result<Value, AllocError>
        ensures { IfOk result (λ value. value_of value ≡ groundness.exit (state_of state.now) head.now) }
    {
        let diagram = literal::exit(alloc, state)?;
        Ok(Value {
            arity: state.arity,
            diagram,
        })
    }

    /// The least value above two values of one arity.
    pub(crate) fn join(&self, alloc: Global, a: &Value, b: &Value) -> Result<Value, AllocError>
        requires { arity_of (value_of a.now) ≡ arity_of (value_of b.now) }
        ensures { IfOk result (λ value. value_of value
            ≡ groundness.join (value_of a.now) (value_of b.now)) }
    {
        let diagram = a.diagram.or(alloc, &b.diagram)?;
        Ok(Value {
            arity: a.arity,
            diagram,
        })
    }

    /// Whether the first of two values of one arity lies at or below the second.
    pub(crate) fn leq(&self, a: &Value, b: &Value) -> bool
        requires { arity_of (value_of a.now) ≡ arity_of (value_of b.now) }
        ensures { IsTrue result
            ↔ groundness.Leq (arity_of (value_of a.now)) (value_of a.now) (value_of b.now) }
    {
        a.diagram.implies(&b.diagram)
    }

    /// Whether two values are equal.
    pub(crate) fn same(&self, a: &Value, b: &Value) -> bool
        ensures { IsTrue result ↔ (value_of a.now ≡ value_of b.now) }
    {
        *a == *b
    }

    /// Whether each tuple that the value describes has the property.
    pub(crate) fn entails(&self, a: &Value, prop: &Prop) -> bool
        requires { speaks_within (arity_of (value_of a.now)) prop.now }
        ensures { result ≡ groundness.entails (value_of a.now) prop.now }
    {
        properties::entails(a, prop)
    }

    /// Whether no tuple that the value describes has the property.
    pub(crate) fn excludes(&self, a: &Value, prop: &Prop) -> bool
        requires { speaks_within (arity_of (value_of a.now)) prop.now }
        ensures { result ≡ groundness.excludes (value_of a.now) prop.now }
    {
        properties::excludes(a, prop)
    }

    /// The pattern of the value.
    pub(crate) fn to_abs(&self, alloc: Global, a: &Value) -> Result<Abs, AllocError>
        ensures { IfOk result (λ abs. abs ≡ value_of a.now) }
    {
        let masks = properties::models(alloc, a)?;
        Ok(Abs::Pos(a.arity, Listed::new(masks)))
    }

    /// Appends the text of the value's pattern, in time linear in the text. After want of memory `out` is as before.
    pub(crate) fn print(
        &self,
        alloc: Global,
        value: &Value,
        out: &mut Vec<u8>,
    ) -> Result<(), AllocError>
        ensures ok { OnOk result (out.new.items ≡ out.old.items ++ pattern_text (value_of value.now)) }
        ensures err { OnErr result (out.new.items ≡ out.old.items) }
    {
        value.diagram.print(alloc, out)
    }
}
