ghost use Rattle.std.specs.Prelude.{◌≡◌, ◌+◌, ◌≤◌, ◌<◌, ◌↔◌, true, length, IsTrue, IfOk};
ghost use Rattle.plai_domain.specs.Instances.{all_below};
ghost use Rattle.plai_pos_laws.specs.Assignments.{enter_of, call_of, back_of, exit_of};
ghost use Rattle.plai_pos_laws.specs.Groundness.{state_with};
ghost use Rattle.plai_bdd.specs.Assignment.{Assignment};
ghost use Rattle.plai_factors.specs.Product.{together};
ghost use Rattle.plai_pos.specs.Values.{models_of, models_in, image, preimage, assignments_of, state_of, IsDiagram, IsDiagramOf, IsPositiveBelow};
ghost use Rattle.plai_pos.specs.TermSlots.{AreBelow, AreUnified};

use crate::slots::{slots_from, slots_of};
use crate::value::{State, Value};
use plai_base::Mask;
use plai_bdd::Bdd;
use plai_factors::{Factor, and_exists, share_all, with_function};
use plai_terms::Term;
use std::alloc::{AllocError, Global};

/// The functions, and for each set that the term's slot, the slots from `end` on in turn, is true exactly where all slots of
/// the set are.
fn with_terms(
    alloc: Global,
    functions: Vec<Factor>,
    sets: &[Mask],
    end: u32,
) -> Result<Vec<Factor>, AllocError>
    requires { end + length sets.now ≤ 64 }
    ensures { IfOk result (λ all. (at : Assignment) → IsTrue (together all.items at)
        ↔ (IsTrue (together functions.items at) × AreUnified end sets.now at)) }
{
    let mut all = functions;
    for (place, set) in sets.iter().enumerate() {
        let unified = Bdd::iff_all(alloc, end + place as u32, *set)?;
        all.push(Factor::new(alloc, unified)?)?;
    }
    Ok(all)
}

/// What is known of terms, where the functions say what is known of their variables, the slots before `end`, and each set has
/// the slots of a term's variables. The variables go one by one, and only the functions with a variable that goes are joined.
fn image(alloc: Global, functions: Vec<Factor>, sets: &[Mask], end: u32) -> Result<Bdd, AllocError>
    requires slots { end + length sets.now ≤ 64 }
    requires below { AreBelow end sets.now }
    requires functions { IsPositiveBelow end (together functions.items) }
    ensures { IfOk result (λ b. IsDiagramOf (length sets.now) (image sets.now (models_in end (together functions.items))) b) }
{
    let unified = with_terms(alloc, functions, sets, end)?;
    let known = and_exists(alloc, unified, slots_from(0, end))?;
    known.shift_down(alloc, end)
}

/// What is known of variables, the slots before `end`, where the function says what is known of terms, and each set has
/// the slots of a term's variables: what the variables give stands in place of the terms.
fn preimage(alloc: Global, function: &Bdd, sets: &[Mask], end: u32) -> Result<Bdd, AllocError>
    requires slots { end + length sets.now ≤ 64 }
    requires below { AreBelow end sets.now }
    requires function { IsDiagram (length sets.now) function.now }
    ensures { IfOk result (λ b. IsDiagramOf end (preimage end sets.now (models_of (length sets.now) function.now)) b) }
{
    function.replaced(alloc, sets)
}

/// What is known of a clause's arguments and variables as it begins: the call, and each argument unified with the head's.
pub(crate) fn enter(
    alloc: Global,
    call: &Value,
    head: &[Term],
    variables: u32,
) -> Result<State, AllocError>
    requires arity { length head.now ≡ call.now.arity }
    requires slots { call.now.arity + variables ≤ 64 }
    requires below { all_below variables head.now ≡ true }
    ensures { IfOk result (λ state. state_of state ≡ state_with call.now.arity variables
        (enter_of call.now.arity variables head.now (models_of call.now.arity call.now.diagram))) }
{
    let sets = slots_of(alloc, head, variables)?;
    let diagram = preimage(alloc, &call.diagram, sets.as_slice(), variables)?;
    let factors = with_function(alloc, Vec::new(alloc), diagram)?;
    Ok(State {
        arity: call.arity,
        variables,
        sets,
        factors,
    })
}

/// What is known of a literal's arguments.
pub(crate) fn call(alloc: Global, state: &State, args: &[Term]) -> Result<Bdd, AllocError>
    requires slots { state.now.arity + state.now.variables + length args.now ≤ 64 }
    requires below { all_below state.now.variables args.now ≡ true }
    ensures { IfOk result (λ b. IsDiagramOf (length args.now)
        (call_of state.now.arity state.now.variables args.now (assignments_of state.now)) b) }
{
    let sets = slots_of(alloc, args, state.variables)?;
    let factors = share_all(alloc, state.factors.as_slice())?;
    image(alloc, factors, sets.as_slice(), state.variables)
}

/// What is known of the clause's arguments and variables behind a literal with this answer: the state, and the answer with
/// what is known of the literal's variables in place of its arguments.
pub(crate) fn back(
    alloc: Global,
    state: &State,
    args: &[Term],
    answer: &Value,
) -> Result<State, AllocError>
    requires slots { state.now.arity + state.now.variables + length args.now ≤ 64 }
    requires below { all_below state.now.variables args.now ≡ true }
    requires answer { answer.now.arity ≡ length args.now }
    ensures { IfOk result (λ next. state_of next ≡ state_with state.now.arity state.now.variables
        (back_of state.now.arity state.now.variables args.now (models_of answer.now.arity answer.now.diagram)
        (assignments_of state.now))) }
{
    let sets = slots_of(alloc, args, state.variables)?;
    let known = preimage(alloc, &answer.diagram, sets.as_slice(), state.variables)?;
    state.with_function(alloc, known)
}

/// What is known of the head's arguments.
pub(crate) fn exit(alloc: Global, state: &State) -> Result<Bdd, AllocError>
    ensures { IfOk result (λ b. IsDiagramOf state.now.arity (exit_of state.now.arity (assignments_of state.now)) b) }
{
    let factors = share_all(alloc, state.factors.as_slice())?;
    image(alloc, factors, state.sets.as_slice(), state.variables)
}
