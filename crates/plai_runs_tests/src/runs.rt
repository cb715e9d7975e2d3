// Runs by random choices, each call and each answer of which is looked up in rows.
ghost use Rattle.std.specs.Prelude.{◌≡◌, ◌-◌, ◌^◌, length};
ghost use Rattle.plai_terms.specs.Substitution.{AreBelow};

use crate::choices::Choices;
use crate::texts::{Pattern, describes};
use crate::tuples::Tuple;
use plai_clauses::Program;
use plai_render::TextRow;
use plai_sld::{Front, Run, Stepped};
use plai_terms::{Name, PredKey, Term};
use std::alloc::{AllocError, Global};
use std::test::Fail;

/// How many steps a run takes at most.
const STEPS: u32 = 60;

/// How many runs begin with each goal.
const RUNS: u64 = 20;

/// What was found in runs: whether a row describes each call and each answer, and how many answers there were.
#[derive(Clone, Copy)]
pub(crate) struct Outcome {
    pub(crate) described: bool,
    pub(crate) answers: u64,
}

/// Rows, and how their patterns are written.
#[derive(Clone, Copy)]
pub(crate) struct Table<'a> {
    pub(crate) rows: &'a [TextRow],
    pub(crate) pattern: Pattern,
}

impl Table<'_> {
    fn has_call(&self, alloc: Global, pred: &PredKey, args: &[Term]) -> Result<bool, AllocError> {
        let tuple = Tuple::of(alloc, args)?;
        for row in self.rows {
            if row.pred == *pred && describes(alloc, self.pattern, row.call.as_slice(), &tuple)? {
                return Ok(true);
            }
        }
        Ok(false)
    }

    fn has_answer(
        &self,
        alloc: Global,
        pred: &PredKey,
        was: &[Term],
        now: &[Term],
    ) -> Result<bool, AllocError> {
        let was = Tuple::of(alloc, was)?;
        let now = Tuple::of(alloc, now)?;
        for row in self.rows {
            if row.pred == *pred
                && describes(alloc, self.pattern, row.call.as_slice(), &was)?
                && describes(alloc, self.pattern, row.answer.as_slice(), &now)?
            {
                return Ok(true);
            }
        }
        Ok(false)
    }
}

/// How many choices there are at the front.
fn ways(program: &Program, run: &Run) -> u64 {
    match run.front() {
        Front::Nothing => 0,
        Front::Call(pred, _) => program.clauses_of(pred).len() as u64,
        Front::Builtin | Front::Mark(_, _, _) => 1,
    }
}

/// Takes a step by a random choice, or where that one leads nowhere by the next that leads on. It answers whether there was one.
fn goes_on(
    alloc: Global,
    program: &Program,
    run: &mut Run,
    choices: &mut Choices,
) -> Result<bool, AllocError> {
    let ways = ways(program, run);
    let first = choices.next();
    for next in 0..ways {
        let choice = first.wrapping_add(next) % ways;
        if run.step(alloc, program, choice.wrapping_add(1))? == Stepped::Moved {
            return Ok(true);
        }
    }
    Ok(false)
}

/// Looks up what stands at the front.
fn look_up(alloc: Global, run: &Run, table: &Table, found: &mut Outcome) -> Result<(), AllocError> {
    match run.front() {
        Front::Nothing | Front::Builtin => {}
        Front::Call(pred, args) => {
            found.described = found.described && table.has_call(alloc, pred, args)?;
        }
        Front::Mark(pred, was, now) => {
            found.described = found.described && table.has_answer(alloc, pred, was, now)?;
            found.answers = found.answers.saturating_add(1);
        }
    }
    Ok(())
}

/// Makes a run from the goal.
fn follow(
    alloc: Global,
    program: &Program,
    table: &Table,
    mut run: Run,
    seed: u64,
    found: &mut Outcome,
) -> Result<(), AllocError> {
    let mut choices = Choices::new(seed);
    for _ in 0..STEPS {
        look_up(alloc, &run, table, found)?;
        if !goes_on(alloc, program, &mut run, &mut choices)? {
            return Ok(());
        }
    }
    Ok(())
}

fn follow_all(
    alloc: Global,
    program: &Program,
    table: &Table,
    pred: &PredKey,
    args: &[Term],
    found: &mut Outcome,
) -> Result<(), AllocError>
    requires arity { length args.now ≡ pred.now.arity }
    requires below { AreBelow (2 ^ 31 - 1) args.now }
{
    for seed in 0..RUNS {
        let run = Run::start(alloc, program, pred, args)?;
        follow(alloc, program, table, run, seed, found)?;
    }
    Ok(())
}

/// Makes runs from the goal, if it is one of the predicate.
fn follow_goal(
    alloc: Global,
    program: &Program,
    table: &Table,
    pred: &PredKey,
    goal: &Term,
    found: &mut Outcome,
) -> Result<(), AllocError> {
    let Term::Compound(name, args) = goal else {
        return Ok(());
    };
    let args = args.as_slice();
    if *name != pred.name || args.len() != pred.arity as usize {
        return Ok(());
    }
    if !goal.has_variables_below(alloc, 2_147_483_647)? {
        return Ok(());
    }
    follow_all(alloc, program, table, pred, args, found)
}

/// The predicate whose facts have the goals.
fn goals(alloc: Global) -> Result<PredKey, AllocError> {
    Ok(PredKey {
        module: Name::new(Vec::from_slice(alloc, b"goals")?),
        name: Name::new(Vec::from_slice(alloc, b"goal")?),
        arity: 1,
    })
}

fn follow_goals(
    alloc: Global,
    program: &Program,
    table: &Table,
    pred: &PredKey,
    found: &mut Outcome,
) -> Result<(), AllocError> {
    for fact in program.clauses_of(&goals(alloc)?) {
        if let Some(goal) = fact.head.as_slice().first() {
            follow_goal(alloc, program, table, pred, goal, found)?;
        }
    }
    Ok(())
}

/// What is found in runs from the program's goals for each of its entries.
pub(crate) fn followed(alloc: Global, program: &Program, table: &Table) -> Result<Outcome, Fail> {
    let mut found = Outcome {
        described: true,
        answers: 0,
    };
    for entry in program.entries() {
        follow_goals(alloc, program, table, &entry.pred, &mut found)?;
    }
    Ok(found)
}
