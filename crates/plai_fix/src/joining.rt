//! Answers of rows joined with those of evaluations.
ghost use Rattle.std.specs.Prelude.{◌≡◌, ◌≢◌, ◌≤◌, ◌+◌, Some, IfOk, IfSome, IfNone, Option};
ghost use Rattle.std.specs.Option.{option_map, option_copied};
ghost use Rattle.plai_theory.specs.Evaluation.{join_of};
ghost use Rattle.plai_terms.specs.declared.abs.Abs.{Abs};
ghost use Rattle.plai_domain.specs.Conditions.{AreAlike};
ghost use Rattle.plai_eval.specs.Meaning.{as_domain};

use plai_base::Steps;
use plai_domain::Domain;
use std::alloc::{AllocError, Global};
use std::sync::ledger::Ledger;

/// The join of two values, where it is not the first. It takes one step.
fn joined<D: Domain, L: Ledger>(
    alloc: Global,
    domain: &D,
    had: &D::Value,
    answer: &D::Value,
    steps: &mut Steps<L>,
) -> Result<Option<D::Value>, AllocError>
    requires { AreAlike (D.plain domain.now) (D.value_of had.now) (D.value_of answer.now) }
    ensures grown { IfOk result (λ next. IfSome next (λ value. (D.value_of value ≡ (D.plain domain.now).join (D.value_of had.now) (D.value_of answer.now))
        × (D.value_of value ≢ D.value_of had.now))) }
    ensures kept { IfOk result (λ next. IfNone next ((D.plain domain.now).join (D.value_of had.now) (D.value_of answer.now) ≡ D.value_of had.now)) }
    ensures cost { steps.new ≤ steps.old + 1 }
{
    let next = domain.join(alloc, had, answer, steps)?;
    if domain.same(had, &next) {
        return Ok(None);
    }
    Ok(Some(next))
}

/// The join of a row's answer with that of an evaluation, where it is not the row's: the growth that is due. It takes at
/// most one step.
pub fn growth<D: Domain, L: Ledger>(
    alloc: Global,
    domain: &D,
    had: Option<&D::Value>,
    answer: Option<D::Value>,
    steps: &mut Steps<L>,
) -> Result<Option<D::Value>, AllocError>
    requires { (a b : D.Value) → option_copied had ≡ Some a → answer ≡ Some b → AreAlike (D.plain domain.now) (D.value_of a) (D.value_of b) }
    ensures grown { IfOk result (λ next. IfSome next (λ value.
        (Some (D.value_of value) ≡ join_of (as_domain (D.plain domain.now)) (option_map D.value_of (option_copied had.entry)) (option_map D.value_of answer))
        × (Some (D.value_of value) ≢ option_map D.value_of (option_copied had.entry)))) }
    ensures kept { IfOk result (λ next. IfNone next
        (join_of (as_domain (D.plain domain.now)) (option_map D.value_of (option_copied had.entry)) (option_map D.value_of answer) ≡ option_map D.value_of (option_copied had.entry))) }
    ensures cost { steps.new ≤ steps.old + 1 }
{
    match (had, answer) {
        (_, None) => Ok(None),
        (None, Some(value)) => Ok(Some(value)),
        (Some(had), Some(value)) => joined(alloc, domain, had, &value, steps),
    }
}
