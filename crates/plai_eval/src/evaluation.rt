ghost use Rattle.std.specs.Prelude.{◌≡◌, ◌+◌, ◌≤◌, ◌++◌, true, All, map, sum_by, length, Some, None, IfOk, IfErr, OnOk, OnErr};
ghost use Rattle.std.specs.Option.{option_map};
ghost use Rattle.plai_domain.specs.declared.work.WorkEntry.TheVariants as entries;
ghost use Rattle.plai_domain.specs.Conditions.{IsValue, IsState, IsHead, AreArguments};
ghost use Rattle.plai_domain.specs.Instances.{acts_within};
ghost use Rattle.plai_domain.specs.Names.{name_of};
ghost use Rattle.plai_domain.specs.Noted.{noted};
ghost use Rattle.plai_clauses.specs.WellFormed.{IsLiteral, IsWellFormedClause};
ghost use Rattle.plai_eval.specs.Evaluation.{evaluation};
ghost use Rattle.plai_eval.specs.Walk.{act, call_of, step, walk, through};
ghost use Rattle.plai_eval.specs.Cost.{literal_cost, cost_of};
ghost use Rattle.plai_eval.specs.Answering.{AnswersFit, TellsOver};

use crate::answers::Answers;
use crate::eval_fail::EvalFail;
use crate::evaluated::Evaluated;
use plai_base::Steps;
use plai_builtins::actions_of;
use plai_clauses::{Clause, Literal, Target};
use plai_domain::{Action, Domain, Key, Work};
use plai_terms::{Listed, PredKey, Term};
use std::alloc::Global;
use std::sync::ledger::Ledger;

/// The actions of a builtin in turn. After none nothing more is done.
#[tactic(auto, using(std::proofs::lemmas::Grind::common_steps, crate::proofs::Walk::act_none))]
fn act_all<D: Domain, L: Ledger>(
    alloc: Global,
    domain: &D,
    state: D::State,
    args: &[Term],
    actions: &[Action],
    number: u64,
    steps: &mut Steps<L>,
) -> Result<Option<D::State>, EvalFail>
    requires state { IsState (D.plain domain.now) (D.state_of state) }
    requires args { AreArguments (D.state_of state).arity (D.state_of state).variables args.now }
    requires within { All (acts_within (length args.now)) actions.now }
    ensures state { IfOk result (λ next. option_map D.state_of next
        ≡ (act (D.plain domain.now) number args.now actions.now (Some (D.state_of state))).state) }
    ensures within { OnOk result ((act (D.plain domain.now) number args.now actions.now
        (Some (D.state_of state))).over ≡ None) }
    ensures over { IfErr result (TellsOver (act (D.plain domain.now) number args.now actions.now
        (Some (D.state_of state))).over) }
    ensures cost { steps.new ≤ steps.old + length actions.now }
{
    let mut state = state;
    for action in actions {
        match domain.refine(alloc, &state, args, action, steps) {
            Ok(Some(next)) => state = next,
            Ok(None) => return Ok(None),
            Err(fail) => return Err(EvalFail::at(fail, number)),
        }
    }
    Ok(Some(state))
}

/// A literal of a predicate: the state behind it. The name that it calls is put behind `calls`.
fn call_literal<D: Domain, A: Answers<D>, L: Ledger>(
    alloc: Global,
    domain: &D,
    state: &D::State,
    pred: &PredKey,
    args: &[Term],
    number: u64,
    answers: &A,
    calls: &mut Vec<Key<D::Value>>,
    steps: &mut Steps<L>,
) -> Result<Option<D::State>, EvalFail>
    requires state { IsState (D.plain domain.now) (D.state_of state.now) }
    requires args { AreArguments (D.state_of state.now).arity (D.state_of state.now).variables args.now }
    requires arity { pred.now.arity ≡ length args.now }
    requires answers { AnswersFit (D.plain domain.now) (A.source answers.now) }
    ensures state { IfOk result (λ next. option_map D.state_of next
        ≡ (call_of (D.plain domain.now) (A.source answers.now) number pred.now args.now (D.state_of state.now)).state) }
    ensures calls { OnOk result (map (name_of D.value_of) calls.new.items
        ≡ map (name_of D.value_of) calls.old.items
        ++ (call_of (D.plain domain.now) (A.source answers.now) number pred.now args.now (D.state_of state.now)).calls) }
    ensures within { OnOk result ((call_of (D.plain domain.now) (A.source answers.now) number pred.now args.now
        (D.state_of state.now)).over ≡ None) }
    ensures over { IfErr result (TellsOver (call_of (D.plain domain.now) (A.source answers.now) number pred.now args.now
        (D.state_of state.now)).over) }
    ensures cost { steps.new ≤ steps.old + 2 }
{
    let pred = pred.copy(alloc)?;
    let call = match domain.call(alloc, state, args, steps) {
        Ok(call) => call,
        Err(fail) => return Err(EvalFail::at(fail, number)),
    };
    let key = Key { pred, call };
    let next = match answers.answer(&key) {
        None => None,
        Some(answer) => match domain.back(alloc, state, args, answer, steps) {
            Ok(next) => next,
            Err(fail) => return Err(EvalFail::at(fail, number)),
        },
    };
    if calls.push(key).is_err() {
        return Err(EvalFail::Memory);
    }
    Ok(next)
}

/// A literal: the state behind it. The name that it calls, if any, is put behind `calls`.
fn step_literal<D: Domain, A: Answers<D>, L: Ledger>(
    alloc: Global,
    domain: &D,
    state: D::State,
    literal: &Literal,
    number: u64,
    answers: &A,
    calls: &mut Vec<Key<D::Value>>,
    steps: &mut Steps<L>,
) -> Result<Option<D::State>, EvalFail>
    requires state { IsState (D.plain domain.now) (D.state_of state) }
    requires literal { IsLiteral (D.state_of state).arity (D.state_of state).variables literal.now }
    requires answers { AnswersFit (D.plain domain.now) (A.source answers.now) }
    ensures state { IfOk result (λ next. option_map D.state_of next
        ≡ (step (D.plain domain.now) (A.source answers.now) number literal.now (D.state_of state)).state) }
    ensures calls { OnOk result (map (name_of D.value_of) calls.new.items
        ≡ map (name_of D.value_of) calls.old.items
        ++ (step (D.plain domain.now) (A.source answers.now) number literal.now (D.state_of state)).calls) }
    ensures within { OnOk result ((step (D.plain domain.now) (A.source answers.now) number literal.now
        (D.state_of state)).over ≡ None) }
    ensures over { IfErr result (TellsOver (step (D.plain domain.now) (A.source answers.now) number literal.now
        (D.state_of state)).over) }
    ensures cost { steps.new ≤ steps.old + literal_cost literal.now }
{
    let args = literal.args.as_slice();
    match &literal.target {
        Target::Pred(pred) => call_literal(
            alloc, domain, &state, pred, args, number, answers, calls, steps,
        ),
        Target::Builtin => {
            let actions = actions_of(&literal.name, args.len() as u32);
            act_all(
                alloc,
                domain,
                state,
                args,
                actions.as_slice(),
                number,
                steps,
            )
        }
    }
}

/// The literals in turn, and the answer behind them. The names called are put behind `calls`.
#[tactic(auto, using(std::proofs::lemmas::Grind::common_steps, crate::proofs::Walk::walk_none))]
fn walk_body<D: Domain, A: Answers<D>, L: Ledger>(
    alloc: Global,
    domain: &D,
    state: D::State,
    head: &[Term],
    body: &[Literal],
    answers: &A,
    calls: &mut Vec<Key<D::Value>>,
    steps: &mut Steps<L>,
) -> Result<Option<D::Value>, EvalFail>
    requires state { IsState (D.plain domain.now) (D.state_of state) }
    requires head { IsHead (D.state_of state).arity (D.state_of state).variables head.now }
    requires body { All (IsLiteral (D.state_of state).arity (D.state_of state).variables) body.now }
    requires answers { AnswersFit (D.plain domain.now) (A.source answers.now) }
    ensures answer { IfOk result (λ answer. option_map D.value_of answer
        ≡ (walk (D.plain domain.now) (A.source answers.now) head.now 1 body.now (Some (D.state_of state))).answer) }
    ensures calls { OnOk result (map (name_of D.value_of) calls.new.items
        ≡ map (name_of D.value_of) calls.old.items
        ++ (walk (D.plain domain.now) (A.source answers.now) head.now 1 body.now (Some (D.state_of state))).calls) }
    ensures within { OnOk result ((walk (D.plain domain.now) (A.source answers.now) head.now 1 body.now
        (Some (D.state_of state))).over ≡ None) }
    ensures over { IfErr result (TellsOver (walk (D.plain domain.now) (A.source answers.now) head.now 1 body.now
        (Some (D.state_of state))).over) }
    ensures cost { steps.new ≤ steps.old + 1 + sum_by literal_cost body.now }
{
    let mut state = state;
    let mut number: u64 = 0;
    for literal in body {
        number += 1;
        match step_literal(alloc, domain, state, literal, number, answers, calls, steps)? {
            Some(next) => state = next,
            None => return Ok(None),
        }
    }
    Ok(Some(domain.exit(alloc, &state, head, steps)?))
}

/// What the evaluation of a clause at a call gives.
#[tactic(auto, using(std::proofs::lemmas::Grind::common_steps, crate::proofs::Walk::walk_none))]
fn evaluate_at<D: Domain, A: Answers<D>, L: Ledger>(
    alloc: Global,
    domain: &D,
    call: &D::Value,
    clause: &Clause,
    answers: &A,
    steps: &mut Steps<L>,
) -> Result<Evaluated<D>, EvalFail>
    requires clause { IsWellFormedClause clause.now }
    requires call { IsValue (D.plain domain.now) (length clause.now.head) (D.value_of call.now) }
    requires answers { AnswersFit (D.plain domain.now) (A.source answers.now) }
    ensures answer { IfOk result (λ e. option_map D.value_of e.answer
        ≡ (through (D.plain domain.now) (A.source answers.now) clause.now (D.value_of call.now)).answer) }
    ensures calls { IfOk result (λ e. map (name_of D.value_of) e.calls
        ≡ (through (D.plain domain.now) (A.source answers.now) clause.now (D.value_of call.now)).calls) }
    ensures within { OnOk result ((through (D.plain domain.now) (A.source answers.now) clause.now
        (D.value_of call.now)).over ≡ None) }
    ensures over { IfErr result (TellsOver (through (D.plain domain.now) (A.source answers.now) clause.now
        (D.value_of call.now)).over) }
    ensures cost { steps.new ≤ steps.old + cost_of clause.now }
{
    let mut calls = Vec::new(alloc);
    let head = clause.head.as_slice();
    let entered = match domain.enter(alloc, call, head, clause.variables, steps) {
        Ok(entered) => entered,
        Err(fail) => return Err(EvalFail::at(fail, 0)),
    };
    let answer = match entered {
        None => None,
        Some(state) => walk_body(
            alloc,
            domain,
            state,
            head,
            clause.body.as_slice(),
            answers,
            &mut calls,
            steps,
        )?,
    };
    Ok(Evaluated {
        answer,
        calls: Listed::new(calls),
    })
}

/// Evaluates a clause, of this number from 1, for a row's name, and notes it.
///
/// The clause's head has the arity of the name's predicate. It equals the evaluation under the answers (Muthukumar and
/// Hermenegildo 1992). `Over` exactly where an operation of the evaluation forms a set that is too large, with the literal,
/// 0 for the head, and the place in that operation. A refusal notes nothing. It takes at most the clause's cost in steps.
pub fn evaluate<D: Domain, A: Answers<D>, W: Work, L: Ledger>(
    alloc: Global,
    domain: &D,
    name: &Key<D::Value>,
    clause: &Clause,
    number: u64,
    answers: &A,
    work: &mut W,
    steps: &mut Steps<L>,
) -> Result<Evaluated<D>, EvalFail>
    requires clause { IsWellFormedClause clause.now }
    requires arity { length clause.now.head ≡ name.now.pred.arity }
    requires call { IsValue (D.plain domain.now) name.now.pred.arity (D.value_of name.now.call) }
    requires answers { AnswersFit (D.plain domain.now) (A.source answers.now) }
    ensures answer { IfOk result (λ e. option_map D.value_of e.answer
        ≡ (evaluation (D.plain domain.now) (A.source answers.now) clause.now (D.value_of name.now.call)).answer) }
    ensures calls { IfOk result (λ e. map (name_of D.value_of) e.calls
        ≡ (evaluation (D.plain domain.now) (A.source answers.now) clause.now (D.value_of name.now.call)).calls) }
    ensures within { OnOk result ((evaluation (D.plain domain.now) (A.source answers.now) clause.now
        (D.value_of name.now.call)).over ≡ None) }
    ensures over { IfErr result (TellsOver (evaluation (D.plain domain.now) (A.source answers.now) clause.now
        (D.value_of name.now.call)).over) }
    ensures noted { OnOk result (W.entries work.new
        ≡ noted (entries.Evaluated (name_of D.value_of name.now) number) (W.entries work.old)) }
    ensures nothing { OnErr result (W.entries work.new ≡ W.entries work.old) }
    ensures cost { steps.new ≤ steps.old + cost_of clause.now }
{
    let evaluated = evaluate_at(alloc, domain, &name.call, clause, answers, steps)?;
    work.note_evaluated(alloc, domain, name, number)?;
    Ok(evaluated)
}
