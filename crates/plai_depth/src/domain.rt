ghost use Rattle.std.specs.Prelude.{◌≡◌, ◌≤◌, ◌↔◌, ◌++◌, ℕ, All, IsTrue, IfOk, OnOk, OnErr, length};
ghost use Rattle.std.specs.Option.{option_map};
ghost use Rattle.plai_terms.specs.declared.abs.Abs.TheVariants.{Terms};
ghost use Rattle.plai_terms.specs.Pattern.{pattern_text, arity_of};
ghost use Rattle.plai_domain.specs.Instances.{speaks_within, acts_within};
ghost use Rattle.plai_domain.specs.Conditions.{IsHead, IsValue};
ghost use Rattle.plai_depth_laws.specs.DepthK.{depth_k, skeletons_of};

use crate::lattice::{are_under, join_all};
use crate::pulls::cut_pulls;
use crate::pushes::push_all;
use crate::shared::Shared;
use crate::state::{State, share_all};
use crate::{properties, refine};
use plai_domain::Action;
use plai_terms::{Abs, Listed, Prop, Skeleton, Term, print_abs};
use std::alloc::{AllocError, Global};

/// The domain of terms cut at a depth (Sato and Tamaki 1984). Each call gives what the plain domain of that depth gives.
///
/// A value is the pattern itself, a skeleton for each argument. A call reads its terms once, no deeper than it has to, and the
/// skeleton of a variable once for each place where the variable stands.
#[derive(Debug, Drop)]
pub struct DepthK {
    pub(crate) depth: u32,
    pub ghost some: { 1 ≤ depth },
    pub ghost few: { depth ≤ 8 },
}

/// The skeletons of a pattern of terms, and of another none.
fn skeletons_of(pattern: &Abs) -> &[Skeleton]
    ensures { result.now ≡ skeletons_of pattern.now }
{
    match pattern {
        Abs::Terms(skeletons) => skeletons.as_slice(),
        _ => &[],
    }
}

impl DepthK {
    ghost use Rattle.plai_depth.specs.Values.{depth_of, state_of};

    /// The domain of terms cut at a depth from 1 to 8. The whole term is at depth 1.
    pub fn new(k: u32) -> DepthK
        requires some { 1 ≤ k }
        requires few { k ≤ 8 }
        ensures { depth_of result ≡ k }
    {
        DepthK { depth: k }
    }

    /// The pattern of the arguments with these properties, whose argument numbers are from 1 to the arity.
    pub(crate) fn describe(
        &self,
        alloc: Global,
        arity: u32,
        pre: &[Prop],
    ) -> Result<Abs, AllocError>
        requires { All (speaks_within arity) pre.now }
        ensures { IfOk result (λ value. value ≡ (depth_k (depth_of self.now)).describe arity pre.now) }
    {
        let skeletons = properties::describe(alloc, arity, pre)?;
        Ok(Abs::Terms(Listed::new(skeletons)))
    }

    /// The state in which a clause of so many variables begins, for a call of its head's arguments, or none.
    pub(crate) fn enter(
        &self,
        alloc: Global,
        call: &Abs,
        head: &[Term],
        variables: u32,
    ) -> Result<Option<State>, AllocError>
        requires { length head.now ≤ 16 }
        ensures { IfOk result (λ state. option_map state_of state
            ≡ ((depth_k (depth_of self.now)).enter call.now head.now variables).value) }
    {
        let mut skeletons = State::any(alloc, variables)?;
        if !push_all(alloc, head, &mut skeletons, skeletons_of(call))? {
            return Ok(None);
        }
        Ok(Some(State {
            arity: head.len() as u32,
            variables,
            skeletons,
        }))
    }

    /// The call of a literal with these arguments.
    pub(crate) fn call(
        &self,
        alloc: Global,
        state: &State,
        args: &[Term],
    ) -> Result<Abs, AllocError>
        ensures { IfOk result (λ value. value
            ≡ ((depth_k (depth_of self.now)).call (state_of state.now) args.now).value) }
    {
        let skeletons = cut_pulls(alloc, self.depth, state.skeletons.as_slice(), args)?;
        Ok(Abs::Terms(Listed::new(skeletons)))
    }

    /// The state behind a literal with these arguments and this answer, or none.
    pub(crate) fn back(
        &self,
        alloc: Global,
        state: &State,
        args: &[Term],
        answer: &Abs,
    ) -> Result<Option<State>, AllocError>
        ensures { IfOk result (λ next. option_map state_of next
            ≡ ((depth_k (depth_of self.now)).back (state_of state.now) args.now answer.now).value) }
    {
        let mut skeletons = share_all(alloc, state.skeletons.as_slice())?;
        if !push_all(alloc, args, &mut skeletons, skeletons_of(answer))? {
            return Ok(None);
        }
        Ok(Some(state.with_skeletons(skeletons)))
    }

    /// What an action of a builtin leaves of the state at a literal with these arguments, or none.
    pub(crate) fn refine(
        &self,
        alloc: Global,
        state: &State,
        args: &[Term],
        action: &Action,
    ) -> Result<Option<State>, AllocError>
        requires { acts_within (length args.now) action.now }
        ensures { IfOk result (λ next. option_map state_of next
            ≡ ((depth_k (depth_of self.now)).refine (state_of state.now) args.now action.now).value) }
    {
        let known = state.skeletons.as_slice();
        match refine::refine(alloc, self.depth, args, action, known)? {
            None => Ok(None),
            Some(skeletons) => Ok(Some(state.with_skeletons(skeletons))),
        }
    }

    /// The answer of a clause with this head, from the state at its end.
    pub(crate) fn exit(
        &self,
        alloc: Global,
        state: &State,
        head: &[Term],
    ) -> Result<Abs, AllocError>
        ensures { IfOk result (λ value. value ≡ (depth_k (depth_of self.now)).exit (state_of state.now) head.now) }
    {
        let skeletons = cut_pulls(alloc, self.depth, state.skeletons.as_slice(), head)?;
        Ok(Abs::Terms(Listed::new(skeletons)))
    }

    /// The least value above two values of one arity.
    pub(crate) fn join(&self, alloc: Global, a: &Abs, b: &Abs) -> Result<Abs, AllocError>
        ensures { IfOk result (λ value. value ≡ (depth_k (depth_of self.now)).join a.now b.now) }
    {
        let skeletons = join_all(alloc, skeletons_of(a), skeletons_of(b))?;
        Ok(Abs::Terms(Listed::new(skeletons)))
    }

    /// Whether the first of two values of one arity lies at or below the second.
    pub(crate) fn leq(&self, a: &Abs, b: &Abs) -> bool
        ensures { (n : ℕ) → IsValue (depth_k (depth_of self.now)) n a.now → IsValue (depth_k (depth_of self.now)) n b.now
            → IsTrue result ↔ (depth_k (depth_of self.now)).Leq n a.now b.now }
    {
        are_under(skeletons_of(a), skeletons_of(b))
    }

    /// Whether two values are equal.
    pub(crate) fn same(&self, a: &Abs, b: &Abs) -> bool
        ensures { IsTrue result ↔ (a.now ≡ b.now) }
    {
        *a == *b
    }

    /// Whether each tuple that the value describes has the property.
    pub(crate) fn entails(&self, a: &Abs, prop: &Prop) -> bool
        requires { speaks_within (length (skeletons_of a.now)) prop.now }
        ensures { result ≡ (depth_k (depth_of self.now)).entails a.now prop.now }
    {
        properties::entails(skeletons_of(a), prop)
    }

    /// Whether no tuple that the value describes has the property.
    pub(crate) fn excludes(&self, a: &Abs, prop: &Prop) -> bool
        requires { speaks_within (length (skeletons_of a.now)) prop.now }
        ensures { result ≡ (depth_k (depth_of self.now)).excludes a.now prop.now }
    {
        properties::excludes(skeletons_of(a), prop)
    }
}
