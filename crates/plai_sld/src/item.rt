ghost use Rattle.std.specs.Prelude.{◌≡◌, List, ◌∷◌, ◌++◌, IfOk};
ghost use Rattle.plai_terms.specs.Subst.{bound_to};
ghost use Rattle.plai_terms.specs.Substitution.{then_also};
ghost use Rattle.plai_sld.specs.declared.item.Item.{Item};
ghost use Rattle.plai_sld.specs.Fronts.{IsFront};
ghost use Rattle.plai_sld.specs.Stacks.{limited};
ghost use Rattle.plai_sld.specs.Runs.{item_under, items_under, goal_of, goals_of};

use crate::front::Front;
use crate::pending::Pending;
use crate::stack::Waiting;
use crate::terms::{copy_terms, terms_under};
use plai_clauses::{Literal, Target};
use plai_terms::{Listed, Name, PredKey, Subst, Term};
use std::alloc::{AllocError, Global};

/// What stands in the list of a run: a goal, or a mark behind the body of a clause.
#[derive(Drop)]
pub enum Item {
    /// A goal of a predicate.
    Call(PredKey, Listed<Term>),
    /// A goal of the builtin of that name and number of arguments.
    Builtin(Name, Listed<Term>),
    /// A mark: a predicate, the arguments of its call as they were, and as they are now.
    Mark(PredKey, Listed<Term>, Listed<Term>),
}

impl Item {
    // The item under a substitution; a mark's arguments as they were stay.
    pub(crate) fn under(&self, alloc: Global, bindings: &Subst) -> Result<Item, AllocError>
        ensures { IfOk result (λ item. item ≡ item_under (bound_to bindings.now) self.now) }
    {
        match self {
            Item::Call(pred, args) => Ok(Item::Call(
                pred.copy(alloc)?,
                Listed::new(terms_under(alloc, args.as_slice(), bindings)?),
            )),
            Item::Builtin(name, args) => Ok(Item::Builtin(
                name.copy(alloc)?,
                Listed::new(terms_under(alloc, args.as_slice(), bindings)?),
            )),
            Item::Mark(pred, was, now) => Ok(Item::Mark(
                pred.copy(alloc)?,
                Listed::new(copy_terms(alloc, was.as_slice())?),
                Listed::new(terms_under(alloc, now.as_slice(), bindings)?),
            )),
        }
    }

    // The goal that a literal is under a substitution.
    fn of_literal(alloc: Global, literal: &Literal, bindings: &Subst) -> Result<Item, AllocError>
        ensures { IfOk result (λ item. item ≡ goal_of (bound_to bindings.now) literal.now) }
    {
        let args = Listed::new(terms_under(alloc, literal.args.as_slice(), bindings)?);
        match &literal.target {
            Target::Pred(pred) => Ok(Item::Call(pred.copy(alloc)?, args)),
            Target::Builtin => Ok(Item::Builtin(literal.name.copy(alloc)?, args)),
        }
    }
}

// What a list is said to begin with that begins with the item.
pub(crate) fn front_of(item: &Item) -> Front<'_>
    ensures { (rest : List Item) → IsFront (item.now ∷ rest) result }
{
    match item {
        Item::Call(pred, args) => Front::Call(pred, args.as_slice()),
        Item::Builtin(_, _) => Front::Builtin,
        Item::Mark(pred, was, now) => Front::Mark(pred, was.as_slice(), now.as_slice()),
    }
}

// Puts the goals of a body under two substitutions, one after the other, behind the items, with this limit.
pub(crate) fn push_goals(
    alloc: Global,
    body: &[Literal],
    first: &Subst,
    second: &Subst,
    limit: u64,
    items: &mut Vec<Waiting>,
) -> Result<(), AllocError>
    ensures { IfOk result (λ _. items.new.items
        ≡ items.old.items ++ limited limit (items_under (bound_to second.now) (goals_of (bound_to first.now) body.now))) }
{
    for literal in body {
        let goal = Item::of_literal(alloc, literal, first)?;
        let item = goal.under(alloc, second)?;
        let below = Pending::nothing(alloc, limit);
        items.push(Waiting { item, below })?;
    }
    Ok(())
}
