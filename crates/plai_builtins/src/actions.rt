ghost use Rattle.std.specs.Prelude.{◌≡◌, [], ◌∷◌, Some, None, if◌then◌else◌};
ghost use Rattle.plai_domain.specs.declared.action.Action.TheVariants.{Ground};
ghost use Rattle.plai_clauses.specs.Builtins.{is_builtin_key};
ghost use Rattle.plai_builtins.specs.Actions as specs;
ghost use Rattle.plai_builtins.specs.Listed.{listed, small};

use plai_base::Mask;
use plai_clauses::Builtin;
use plai_domain::Action;
use plai_terms::Name;

/// A list of at most three actions: the first `count` of the items. The others are [`Action::Fail`].
#[derive(Clone, Copy, Debug, PartialEq, Eq)]
pub struct Actions {
    /// How many of the items count.
    pub count: u32,
    /// The actions in turn, and behind them `Action::Fail`.
    pub items: [Action; 3],
}

impl Actions {
    /// The actions in turn.
    pub fn as_slice(&self) -> &[Action]
        ensures { result.now ≡ listed self.now }
    {
        if self.count < 3 {
            &self.items[..self.count as usize]
        } else {
            &self.items
        }
    }
}

fn none() -> Actions
    ensures { result ≡ small [] }
{
    Actions {
        count: 0,
        items: [Action::Fail, Action::Fail, Action::Fail],
    }
}

fn one(action: Action) -> Actions
    ensures { result ≡ small (action ∷ []) }
{
    Actions {
        count: 1,
        items: [action, Action::Fail, Action::Fail],
    }
}

fn two(first: Action, second: Action) -> Actions
    ensures { result ≡ small (first ∷ second ∷ []) }
{
    Actions {
        count: 2,
        items: [first, second, Action::Fail],
    }
}

fn both_ground() -> Actions
    ensures { result ≡ small (Ground 1 ∷ Ground 2 ∷ []) }
{
    two(Action::Ground(1), Action::Ground(2))
}

fn three(first: Action, second: Action, third: Action) -> Actions
    ensures { result ≡ small (first ∷ second ∷ third ∷ []) }
{
    Actions {
        count: 3,
        items: [first, second, third],
    }
}

/// What a builtin does to a state: its actions in turn.
fn builtin_actions(builtin: Builtin) -> Actions
    ensures { result ≡ small (specs.builtin_actions builtin) }
{
    match builtin {
        Builtin::True | Builtin::Cut | Builtin::NewLine | Builtin::Write => none(),
        Builtin::Fail => one(Action::Fail),
        Builtin::Unify => one(Action::Unify(1, 2)),
        Builtin::Same => one(Action::Same(1, 2)),
        Builtin::NotUnify | Builtin::NotSame => none(),
        Builtin::TermLess | Builtin::TermLessOrSame => none(),
        Builtin::TermGreater | Builtin::TermGreaterOrSame => none(),
        Builtin::Var => one(Action::Var(1)),
        Builtin::Nonvar | Builtin::Compound => one(Action::Nonvar(1)),
        Builtin::Atom | Builtin::Atomic | Builtin::Ground => one(Action::Ground(1)),
        Builtin::Integer => one(Action::BindInt(1)),
        Builtin::Is => two(Action::Ground(2), Action::BindInt(1)),
        Builtin::ValuesEqual | Builtin::ValuesDiffer => both_ground(),
        Builtin::ValueLess | Builtin::ValueLessOrEqual => both_ground(),
        Builtin::ValueGreater | Builtin::ValueGreaterOrEqual => both_ground(),
        Builtin::Functor => three(
            Action::Ground(2),
            Action::BindInt(3),
            Action::Havoc(Mask::from_bits(1)),
        ),
        Builtin::Arg => two(Action::BindInt(1), Action::Havoc(Mask::from_bits(6))),
        Builtin::Univ => one(Action::Havoc(Mask::from_bits(3))),
        Builtin::CopyTerm => one(Action::Havoc(Mask::from_bits(2))),
    }
}

/// What a builtin does to a state: its actions in turn, none where the name with that number of arguments is no builtin.
/// It takes no memory.
#[tactic(auto, using(crate::proofs::Tables::listed_actions), unfolding(crate::specs::Actions::actions_of))]
pub fn actions_of(name: &Name, arity: u32) -> Actions
    ensures exact { result ≡ small (specs.actions_of name.now arity) }
    ensures actions { listed result ≡ specs.actions_of name.now arity }
{
    match Builtin::named(name, arity) {
        Some(builtin) => builtin_actions(builtin),
        None => none(),
    }
}

/// What a builtin does to a state: its actions in turn. `None` exactly where the name with that number of arguments is no
/// builtin. It takes no memory.
#[tactic(auto, unfolding(crate::specs::Actions::actions_of))]
pub fn table(name: &Name, arity: u32) -> Option<Actions>
    ensures { result ≡ (if is_builtin_key name.now arity then Some (small (specs.actions_of name.now arity)) else None) }
{
    match Builtin::named(name, arity) {
        Some(builtin) => Some(builtin_actions(builtin)),
        None => None,
    }
}
