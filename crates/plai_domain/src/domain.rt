ghost use Rattle.std.specs.Prelude.{◌≡◌, ◌↔◌, ◌+◌, ◌++◌, ◌≤◌, ℕ, All, IsTrue, true, IfOk, OnOk, OnErr, length};
ghost use Rattle.std.specs.Option.{option_map};
ghost use Rattle.plai_terms.specs.declared.abs.Abs.{Abs};
ghost use Rattle.plai_terms.specs.Pattern.{pattern_text};
ghost use Rattle.plai_domain.specs.Plain.{StateView, PlainDomain};
ghost use Rattle.plai_domain.specs.Instances.{speaks_within, acts_within};
ghost use Rattle.plai_domain.specs.Conditions.{most_arguments, IsHead, AreArguments, IsValue, IsSmallValue, IsState, AreAlike, SpeaksOf};
ghost use Rattle.plai_domain.specs.Outcomes.{IsOutcome};
ghost use Rattle.plai_domain.specs.Laws.{IsLawful};
ghost use Rattle.plai_domain.specs.Soundness.{IsSound};
ghost use Rattle.plai_domain.specs.Printed.{IsPrinted};

use crate::action::Action;
use crate::dom_fail::DomFail;
use plai_base::Steps;
use plai_terms::{Abs, Prop, Term, print_abs};
use std::alloc::{AllocError, Global};
use std::hash::Hash;
use std::sync::ledger::Ledger;

/// An abstract domain (Muthukumar and Hermenegildo 1992): what may be known of the arguments of a call or an answer,
/// and what is known at a place of a clause.
///
/// Each operation gives what the plain domain gives. Arguments are numbered from 1, variables of a clause from 0. A
/// predicate has at most 16 arguments, and a clause at most 64 slots: for its head's arguments, its variables and the
/// arguments of a literal.
pub trait Domain: Drop {
    /// What is known of the arguments of a call or an answer. Values are compared by what contracts see of them.
    type Value: Eq + Hash + Drop;

    /// What is known at a place of a clause.
    type State: Drop;

    /// What the domain means.
    ghost plain: { Self → PlainDomain };

    /// What contracts see of a value: what [`Domain::to_abs`] gives.
    ghost value_of: { Self.Value → Abs };

    /// What contracts see of a state: the clause's number of arguments, its number of variables, and a pattern.
    ghost state_of: { Self.State → StateView };

    /// The value of so many arguments with these properties.
    fn describe(&self, alloc: Global, arity: u32, pre: &[Prop]) -> Result<Self::Value, AllocError>
        requires few { arity ≤ most_arguments }
        requires within { All (speaks_within arity) pre.now }
        ensures { IfOk result (λ value. value_of value ≡ (plain self.now).describe arity pre.now) };

    /// The state in which a clause begins, for a call of as many arguments as its head has; none where the plain domain
    /// gives none. `Over` exactly where a set that is formed has more than 65,536 groups.
    fn enter<L: Ledger>(
        &self,
        alloc: Global,
        call: &Self::Value,
        head: &[Term],
        variables: u32,
        steps: &mut Steps<L>,
    ) -> Result<Option<Self::State>, DomFail>
        requires call { IsValue (plain self.now) (length head.now) (value_of call.now) }
        requires head { IsHead (length head.now) variables head.now }
        ensures outcome { IsOutcome (option_map state_of)
            ((plain self.now).enter (value_of call.now) head.now variables) result }
        ensures step { steps.new ≡ steps.old + 1 };

    /// The call of a literal with these arguments. `Over` as for [`Domain::enter`].
    fn call<L: Ledger>(
        &self,
        alloc: Global,
        state: &Self::State,
        args: &[Term],
        steps: &mut Steps<L>,
    ) -> Result<Self::Value, DomFail>
        requires state { IsState (plain self.now) (state_of state.now) }
        requires args { AreArguments (state_of state.now).arity (state_of state.now).variables args.now }
        ensures outcome { IsOutcome value_of ((plain self.now).call (state_of state.now) args.now) result }
        ensures step { steps.new ≡ steps.old + 1 };

    /// The state behind a literal with these arguments and this answer of as many arguments, or none. `Over` as for
    /// [`Domain::enter`].
    fn back<L: Ledger>(
        &self,
        alloc: Global,
        state: &Self::State,
        args: &[Term],
        answer: &Self::Value,
        steps: &mut Steps<L>,
    ) -> Result<Option<Self::State>, DomFail>
        requires state { IsState (plain self.now) (state_of state.now) }
        requires args { AreArguments (state_of state.now).arity (state_of state.now).variables args.now }
        requires answer { IsValue (plain self.now) (length args.now) (value_of answer.now) }
        ensures outcome { IsOutcome (option_map state_of)
            ((plain self.now).back (state_of state.now) args.now (value_of answer.now)) result }
        ensures step { steps.new ≡ steps.old + 1 };

    /// What an action of a builtin leaves of the state at a literal with these arguments, or none. `Over` as for
    /// [`Domain::enter`].
    fn refine<L: Ledger>(
        &self,
        alloc: Global,
        state: &Self::State,
        args: &[Term],
        action: &Action,
        steps: &mut Steps<L>,
    ) -> Result<Option<Self::State>, DomFail>
        requires state { IsState (plain self.now) (state_of state.now) }
        requires args { AreArguments (state_of state.now).arity (state_of state.now).variables args.now }
        requires action { acts_within (length args.now) action.now }
        ensures outcome { IsOutcome (option_map state_of)
            ((plain self.now).refine (state_of state.now) args.now action.now) result }
        ensures step { steps.new ≡ steps.old + 1 };

    /// The answer of a clause with this head, of the state behind its body.
    fn exit<L: Ledger>(
        &self,
        alloc: Global,
        state: &Self::State,
        head: &[Term],
        steps: &mut Steps<L>,
    ) -> Result<Self::Value, AllocError>
        requires state { IsState (plain self.now) (state_of state.now) }
        requires head { IsHead (state_of state.now).arity (state_of state.now).variables head.now }
        ensures answer { IfOk result (λ value. value_of value ≡ (plain self.now).exit (state_of state.now) head.now) }
        ensures step { steps.new ≡ steps.old + 1 };

    /// The least value above two values of one number of arguments.
    fn join<L: Ledger>(
        &self,
        alloc: Global,
        a: &Self::Value,
        b: &Self::Value,
        steps: &mut Steps<L>,
    ) -> Result<Self::Value, AllocError>
        requires { AreAlike (plain self.now) (value_of a.now) (value_of b.now) }
        ensures join { IfOk result (λ value. value_of value
            ≡ (plain self.now).join (value_of a.now) (value_of b.now)) }
        ensures step { steps.new ≡ steps.old + 1 };

    /// Whether the first of two values of one number of arguments lies at or below the second. It takes no memory.
    fn leq(&self, a: &Self::Value, b: &Self::Value) -> bool
        requires { AreAlike (plain self.now) (value_of a.now) (value_of b.now) }
        ensures { (n : ℕ) → IsValue (plain self.now) n (value_of a.now) → IsValue (plain self.now) n (value_of b.now)
            → IsTrue result ↔ (plain self.now).Leq n (value_of a.now) (value_of b.now) };

    /// Whether two values are equal. It takes no memory.
    fn same(&self, a: &Self::Value, b: &Self::Value) -> bool
        ensures { IsTrue result ↔ (value_of a.now ≡ value_of b.now) };

    /// Whether the value says that each tuple has the property. It takes no memory.
    fn entails(&self, a: &Self::Value, prop: &Prop) -> bool
        requires { SpeaksOf (plain self.now) (value_of a.now) prop.now }
        ensures { result ≡ (plain self.now).entails (value_of a.now) prop.now };

    /// Whether the value says that no tuple has the property. It takes no memory.
    fn excludes(&self, a: &Self::Value, prop: &Prop) -> bool
        requires { SpeaksOf (plain self.now) (value_of a.now) prop.now }
        ensures { result ≡ (plain self.now).excludes (value_of a.now) prop.now };

    /// The pattern of the value.
    fn to_abs(&self, alloc: Global, a: &Self::Value) -> Result<Abs, AllocError>
        ensures { IfOk result (λ abs. abs ≡ value_of a.now) };

    /// Appends the text of the value's pattern, as `print_abs` writes it. The value has at most 16 arguments.
    ///
    /// After want of memory `out` is as before.
    fn print(&self, alloc: Global, a: &Self::Value, out: &mut Vec<u8>) -> Result<(), AllocError>
        requires { IsSmallValue (plain self.now) (value_of a.now) }
        ensures ok { OnOk result (out.new.items ≡ out.old.items ++ pattern_text (value_of a.now)) }
        ensures err { OnErr result (out.new.items ≡ out.old.items) }
    {
        let pattern = self.to_abs(alloc, a)?;
        print_abs(alloc, &pattern, out)
    }

    /// `==` is equality of what contracts see.
    ghost equal: { (a b : Self.Value) → (Self.Value.eq a b ≡ true) ↔ (value_of a ≡ value_of b) };

    /// The laws of an abstract domain.
    ghost lawful: { (domain : Self) → IsLawful (plain domain) };

    /// What is described goes on to be described, by the properties and by each operation.
    ghost sound: { (domain : Self) → IsSound (plain domain) };

    /// A value's text tells which value it is.
    ghost printed: { (domain : Self) → IsPrinted (plain domain) };
}
