//! The second program for groundness: lists of models.
ghost use Rattle.std.specs.Prelude.{◌<◌};

use crate::models::{self, Place};
use plai_base::Mask;
use plai_compare::SecondProgram;
use plai_domain::Action;
use plai_terms::{Abs, Listed, Prop, Term};
use std::alloc::{AllocError, Global};

/// The second program, which has no settings.
#[derive(Drop)]
pub struct Models {}

/// The number of terms, at most 31.
fn count(terms: &[Term]) -> u32
    ensures { result < 32 }
{
    u32::try_from(terms.len()).unwrap_or(31).min(31)
}

/// The pattern of these models.
fn pattern(alloc: Global, arity: u32, models: &[u64]) -> Result<Abs, AllocError> {
    let mut masks = Vec::new(alloc);
    for model in models {
        masks.push(Mask::from_bits(*model))?;
    }
    Ok(Abs::Pos(arity, Listed::new(masks)))
}

/// The models of a pattern.
fn models_of(alloc: Global, pattern: &Abs) -> Result<Vec<u64>, AllocError> {
    let mut models = Vec::new(alloc);
    if let Abs::Pos(_, masks) = pattern {
        for mask in masks.as_slice() {
            models.push(mask.bits())?;
        }
    }
    Ok(models)
}

/// The masks of a pattern.
fn masks(pattern: &Abs) -> &[Mask] {
    match pattern {
        Abs::Pos(_, masks) => masks.as_slice(),
        _ => &[],
    }
}

impl SecondProgram for Models {
    type State = Place;

    fn describe(&self, alloc: Global, arity: u32, pre: &[Prop]) -> Result<Abs, AllocError> {
        let models = models::describe(alloc, arity.min(31), pre)?;
        pattern(alloc, arity, models.as_slice())
    }

    fn enter(
        &self,
        alloc: Global,
        call: &Abs,
        head: &[Term],
        variables: u32,
    ) -> Result<Option<Place>, AllocError> {
        let called = models_of(alloc, call)?;
        let place = models::enter(
            alloc,
            called.as_slice(),
            head,
            count(head),
            variables.min(31),
        )?;
        Ok(Some(place))
    }

    fn call(&self, alloc: Global, state: &Place, args: &[Term]) -> Result<Abs, AllocError> {
        let models = state.call(alloc, args)?;
        pattern(alloc, count(args), models.as_slice())
    }

    fn back(
        &self,
        alloc: Global,
        state: &Place,
        args: &[Term],
        answer: &Abs,
    ) -> Result<Option<Place>, AllocError> {
        let answered = models_of(alloc, answer)?;
        Ok(Some(state.back(alloc, args, answered.as_slice())?))
    }

    fn refine(
        &self,
        alloc: Global,
        state: &Place,
        args: &[Term],
        action: &Action,
    ) -> Result<Option<Place>, AllocError> {
        state.refine(alloc, args, action)
    }

    fn exit(&self, alloc: Global, state: &Place, head: &[Term]) -> Result<Abs, AllocError> {
        let models = state.exit(alloc)?;
        pattern(alloc, count(head), models.as_slice())
    }

    fn join(&self, alloc: Global, a: &Abs, b: &Abs) -> Result<Abs, AllocError> {
        let first = models_of(alloc, a)?;
        let second = models_of(alloc, b)?;
        let both = models::join(alloc, first.as_slice(), second.as_slice())?;
        match a {
            Abs::Pos(arity, _) => pattern(alloc, *arity, both.as_slice()),
            _ => Ok(Abs::Nothing),
        }
    }

    fn leq(&self, a: &Abs, b: &Abs) -> bool {
        masks(a).iter().all(|model| masks(b).contains(model))
    }

    fn entails(&self, a: &Abs, property: &Prop) -> bool {
        masks(a)
            .iter()
            .all(|model| models::entails(model.bits(), property))
    }

    fn excludes(&self, a: &Abs, property: &Prop) -> bool {
        masks(a)
            .iter()
            .all(|model| models::excludes(model.bits(), property))
    }
}
