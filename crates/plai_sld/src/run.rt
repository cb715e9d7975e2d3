//! Runs, state by state.
ghost use Rattle.std.specs.Prelude.{◌≡◌, ◌<◌, ◌≤◌, ◌+◌, ◌-◌, ◌^◌, [], ◌∷◌, IfOk, OnErr, length, reverse};
ghost use Rattle.std.specs.Option.{option_copied};
ghost use Rattle.plai_terms.specs.Substitution.{AreBelow};
ghost use Rattle.plai_clauses.specs.WellFormed.{IsWellFormedClause};
ghost use Rattle.plai_sld.specs.Runs.{start_of, numbered_clause};
ghost use Rattle.plai_sld.specs.Stacks.{items_of, AreLimited};
ghost use Rattle.plai_sld.specs.States.{IsItem, AreItems};
ghost use Rattle.plai_sld.specs.Steps.{greatest_number, Answers};
ghost use Rattle.plai_sld.specs.declared.item.Item.TheVariants.{Call, Builtin};
ghost use Rattle.plai_sld.specs.Fronts.{IsFront};
ghost use Rattle.plai_sld.specs.Nexts.{waiting_under, IsNextAtClause, IsNextAtCall, IsNextAtBuiltin, IsNext};

use crate::front::Front;
use crate::item::{Item, front_of, push_goals};
use crate::limits::{limit_in, past};
use crate::pending::Pending;
use crate::stack::{Waiting, brought, replace_top};
use crate::stepped::Stepped;
use crate::terms::{copy_terms, raising, terms_under};
use plai_builtins::meaning;
use plai_clauses::{Clause, Program};
use plai_terms::{Listed, Name, Outcome, PredKey, Term, unify};
use std::alloc::{AllocError, Global};
use std::marker::Model;

/// A run of a program: what is left of it, goals and marks, and the number from which on variables are new. Contracts see
/// these two. They are kept as a stack, with the front at its end. What a step binds waits behind the front for the items
/// below, and is put on one when it comes to the front itself, so that a step changes two items at the end and no more.
#[derive(Drop)]
pub struct Run {
    stack: Vec<Waiting>,
    next: u64,
}

impl Model for Run {
    ghost use Rattle.std.specs.Prelude.{reverse};
    ghost use Rattle.plai_sld.specs.Runs.{RunState};
    ghost use Rattle.plai_sld.specs.States.{IsState};
    ghost use Rattle.plai_sld.specs.Stacks.{items_of, AreLimited};
    ghost use Rattle.plai_sld.specs.Codes.{state_code};

    ghost Value = { RunState };

    ghost coded = { state_code };

    ghost view = { λ r. record { items = items_of r.stack.items; next = r.next } };

    ghost invariant = { λ r. IsState (record { items = items_of r.stack.items; next = r.next }) × AreLimited (reverse r.stack.items) };
}

// What a step comes to: an answer that leaves the run as it is; or so many items from the bottom that stay, those that come on
// them, the first of which is to be the front, and the number from which on variables are new.
#[derive(Drop)]
enum Next {
    Stays(Stepped),
    Goes(usize, Listed<Waiting>, u64),
}

// The clause of that number, from 1.
fn numbered_clause(clauses: &[Clause], number: u64) -> Option<&Clause>
    ensures { option_copied result ≡ numbered_clause clauses.entry.now number }
{
    if number == 0 || number > clauses.len() as u64 {
        return None;
    }
    Some(&clauses[number as usize - 1])
}

// At a clause of the goal's predicate.
fn next_at_clause(
    alloc: Global,
    clause: &Clause,
    pred: &PredKey,
    args: &[Term],
    below: &Pending,
    stack: &[Waiting],
    number: u32,
) -> Result<Next, AllocError>
    requires clause { IsWellFormedClause clause.now }
    requires arity { length clause.now.head ≡ pred.now.arity }
    requires goal { IsItem number (Call pred.now args.now) }
    requires below { AreItems below.now.limit (items_of stack.now) }
    requires stack { AreLimited (reverse stack.now) }
    requires few { number ≤ greatest_number }
    ensures { IfOk result (λ next. IsNextAtClause clause.now pred.now args.now below.now.bindings stack.now number next) }
{
    let renaming = raising(alloc, number, clause.variables)?;
    let head = terms_under(alloc, clause.head.as_slice(), &renaming)?;
    match unify(alloc, &head, args)? {
        Outcome::Unified(bindings) => {
            let next = number as u64 + clause.variables as u64;
            let body = clause.body.as_slice();
            let mut top = Vec::new(alloc);
            push_goals(alloc, body, &renaming, &bindings, next, &mut top)?;
            let item = Item::Mark(
                pred.copy(alloc)?,
                Listed::new(copy_terms(alloc, args)?),
                Listed::new(terms_under(alloc, args, &bindings)?),
            );
            let below = below.then(alloc, &bindings)?;
            top.push(Waiting { item, below })?;
            Ok(Next::Goes(stack.len(), Listed::new(top), next))
        }
        Outcome::Clash | Outcome::Occurs => Ok(Next::Stays(Stepped::Clash)),
    }
}

// At a goal of a predicate.
fn next_at_call(
    alloc: Global,
    program: &Program,
    pred: &PredKey,
    args: &[Term],
    below: &Pending,
    stack: &[Waiting],
    number: u32,
    choice: u64,
) -> Result<Next, AllocError>
    requires goal { IsItem number (Call pred.now args.now) }
    requires below { AreItems below.now.limit (items_of stack.now) }
    requires stack { AreLimited (reverse stack.now) }
    requires few { number ≤ greatest_number }
    ensures { IfOk result (λ next. IsNextAtCall program.now pred.now args.now below.now.bindings stack.now number choice next) }
{
    program.is_program();
    match numbered_clause(program.clauses_of(pred), choice) {
        None => Ok(Next::Stays(Stepped::NoClause)),
        Some(clause) => next_at_clause(alloc, clause, pred, args, below, stack, number),
    }
}

// At a goal of a builtin.
fn next_at_builtin(
    alloc: Global,
    name: &Name,
    args: &[Term],
    below: &Pending,
    stack: &[Waiting],
    number: u32,
) -> Result<Next, AllocError>
    requires goal { IsItem number (Builtin name.now args.now) }
    requires below { AreItems below.now.limit (items_of stack.now) }
    requires stack { AreLimited (reverse stack.now) }
    requires few { number ≤ greatest_number }
    ensures { IfOk result (λ next. IsNextAtBuiltin name.now args.now below.now.bindings stack.now number next) }
{
    match meaning(alloc, name, args, number)? {
        None => Ok(Next::Stays(Stepped::Clash)),
        Some(bindings) => {
            let below = below.then(alloc, &bindings)?;
            let (count, top) = brought(alloc, stack, &below.bindings)?;
            let next = past(alloc, number as u64, bindings.as_slice())?;
            Ok(Next::Goes(count, top, next))
        }
    }
}

// At a list of items, the first of which is given apart.
fn next_at_front(
    alloc: Global,
    program: &Program,
    front: &Waiting,
    stack: &[Waiting],
    number: u64,
    choice: u64,
) -> Result<Next, AllocError>
    requires front { IsItem number front.now.item }
    requires below { AreItems front.now.below.limit (items_of stack.now) }
    requires stack { AreLimited (reverse stack.now) }
    ensures { IfOk result (λ next. IsNext program.now (front.now.item ∷ waiting_under front.now.below.bindings stack.now) stack.now number choice next) }
{
    let below = &front.below;
    match &front.item {
        Item::Mark(_, _, _) => {
            let (count, top) = brought(alloc, stack, &below.bindings)?;
            Ok(Next::Goes(count, top, number))
        }
        Item::Call(pred, args) => {
            if number > GREATEST_NUMBER {
                return Ok(Next::Stays(Stepped::Spent));
            }
            let args = args.as_slice();
            next_at_call(
                alloc,
                program,
                pred,
                args,
                below,
                stack,
                number as u32,
                choice,
            )
        }
        Item::Builtin(name, args) => {
            if number > GREATEST_NUMBER {
                return Ok(Next::Stays(Stepped::Spent));
            }
            next_at_builtin(alloc, name, args.as_slice(), below, stack, number as u32)
        }
    }
}

// At a list of items with this number.
fn next_at(
    alloc: Global,
    program: &Program,
    stack: &[Waiting],
    number: u64,
    choice: u64,
) -> Result<Next, AllocError>
    requires items { AreItems number (items_of stack.now) }
    requires limits { AreLimited (reverse stack.now) }
    ensures { IfOk result (λ next. IsNext program.now (items_of stack.now) stack.now number choice next) }
{
    match stack.split_last() {
        None => Ok(Next::Stays(Stepped::Done)),
        Some((front, rest)) => next_at_front(alloc, program, front, rest, number, choice),
    }
}

// The greatest number of a state whose goals still take a step.
const GREATEST_NUMBER: u64 = 2_147_483_647;

impl Run {
    /// The run whose first state is the goal alone. There are as many arguments as the predicate has, and their variables are
    /// below 2,147,483,647; they may be of any depth.
    pub fn start(
        alloc: Global,
        program: &Program,
        pred: &PredKey,
        args: &[Term],
    ) -> Result<Run, AllocError>
        requires arity { length args.now ≡ pred.now.arity }
        requires below { AreBelow (2 ^ 31 - 1) args.now }
        ensures { IfOk result (λ run. run ≡ start_of pred.now args.now) }
    {
        let _ = program;
        let next = limit_in(alloc, args)?;
        let item = Item::Call(pred.copy(alloc)?, Listed::new(copy_terms(alloc, args)?));
        let below = Pending::nothing(alloc, 0);
        let stack = vec![in alloc; Waiting { item, below }]?;
        Ok(Run { stack, next })
    }

    /// What stands at the front: nothing exactly where nothing is left, a goal, or a mark. It takes no memory.
    pub fn front(&self) -> Front<'_>
        ensures { IsFront self.now.items result }
    {
        match self.stack.split_last() {
            None => Front::Nothing,
            Some((first, _)) => front_of(&first.item),
        }
    }

    /// Takes a step. Where nothing is left, it answers `Done`. A mark at the front is taken away. A goal at the front takes no
    /// step, `Spent`, where the state's number is over 2,147,483,647. A predicate's goal is unified with the head of the
    /// predicate's clause of the chosen number, from 1, renamed apart: `NoClause` exactly where there is no such clause, `Clash`
    /// exactly where they don't unify. A builtin's goal gives way to its meaning: `Clash` exactly where that is none. After any
    /// answer but `Moved`, and after want of memory, the run is as before.
    pub fn step(
        &mut self,
        alloc: Global,
        program: &Program,
        choice: u64,
    ) -> Result<Stepped, AllocError>
        ensures ok { IfOk result (λ stepped. Answers program.now self.old choice stepped self.new) }
        ensures err { OnErr result (self.new ≡ self.old) }
    {
        program.is_program();
        match next_at(alloc, program, &self.stack, self.next, choice)? {
            Next::Stays(stepped) => Ok(stepped),
            Next::Goes(count, top, next) => {
                replace_top(&mut self.stack, count, top.into_vec())?;
                self.next = next;
                Ok(Stepped::Moved)
            }
        }
    }
}
