ghost use Rattle.std.specs.Prelude.{◌≡◌, ◌≤◌, ◌||◌, ◌&&◌, ℕ, All, IfOk};
ghost use Rattle.plai_base.specs.Sets.{has_all};
ghost use Rattle.plai_domain.specs.Instances.{speaks_within};
ghost use Rattle.plai_pos_laws.specs.Assignments.{argument_in, describe_of, entails_of, excludes_of};
ghost use Rattle.plai_bdd.specs.Assignment.{Assignment};
ghost use Rattle.plai_bdd.specs.Slots.{conjunction};
ghost use Rattle.plai_pos.specs.Values.{models_of, IsDiagramOf};
ghost use Rattle.plai_pos.specs.TermSlots.{allowed};

use crate::value::Value;
use plai_base::Mask;
use plai_bdd::Bdd;
use plai_terms::Prop;
use std::alloc::{AllocError, Global};

/// The set with the slot of the argument that the property says is ground, if any.
fn with_property(slots: Mask, property: &Prop, arity: u32) -> Mask
    requires small { arity ≤ 16 }
    requires within { speaks_within arity property.now }
    ensures { (at : Assignment) → conjunction result at ≡ (conjunction slots at && allowed property.now at) }
{
    match property {
        Prop::Ground(argument) | Prop::Int(argument) => slots.insert(*argument - 1),
        Prop::Var(_) | Prop::Nonvar(_) | Prop::Indep(_, _) => slots,
    }
}

/// The function that the arguments are true of which the properties ask it.
pub(crate) fn describe(alloc: Global, arity: u32, properties: &[Prop]) -> Result<Bdd, AllocError>
    requires small { arity ≤ 16 }
    requires within { All (speaks_within arity) properties.now }
    ensures { IfOk result (λ b. IsDiagramOf arity (describe_of arity properties.now) b) }
{
    let mut slots = Mask::empty();
    for property in properties {
        slots = with_property(slots, property, arity);
    }
    Bdd::all_of(alloc, slots)
}

/// Whether one of two arguments, numbered from 1, is true in each model.
fn forces(value: &Value, first: u32, second: u32) -> bool
    requires first { (1 ≤ first) × (first ≤ value.now.arity) }
    requires second { (1 ≤ second) × (second ≤ value.now.arity) }
    ensures { result ≡ has_all (models_of value.now.arity value.now.diagram) (λ x. argument_in x first || argument_in x second) }
{
    value.diagram.forces(first - 1, second - 1)
}

pub(crate) fn entails(value: &Value, property: &Prop) -> bool
    requires { speaks_within value.now.arity property.now }
    ensures { result ≡ entails_of (models_of value.now.arity value.now.diagram) property.now }
{
    match property {
        Prop::Ground(argument) | Prop::Nonvar(argument) => forces(value, *argument, *argument),
        Prop::Var(_) | Prop::Int(_) => false,
        Prop::Indep(first, second) => forces(value, *first, *second),
    }
}

pub(crate) fn excludes(value: &Value, property: &Prop) -> bool
    requires { speaks_within value.now.arity property.now }
    ensures { result ≡ excludes_of (models_of value.now.arity value.now.diagram) property.now }
{
    match property {
        Prop::Var(argument) => forces(value, *argument, *argument),
        Prop::Ground(_) | Prop::Nonvar(_) | Prop::Int(_) | Prop::Indep(_, _) => false,
    }
}

/// The models, in order.
#[tactic(auto, using(plai_base::proofs::Sets::kept_none, plai_base::proofs::Sets::kept_with, plai_base::proofs::Sets::kept_without))]
pub(crate) fn models(alloc: Global, value: &Value) -> Result<Vec<Mask>, AllocError>
    ensures { IfOk result (λ masks. masks.items ≡ models_of value.now.arity value.now.diagram) }
{
    let mut masks = Vec::new(alloc);
    for bits in 0..1 << value.arity {
        let mask = Mask::from_bits(bits);
        if value.diagram.is_model(mask) {
            masks.push(mask)?;
        }
    }
    Ok(masks)
}
