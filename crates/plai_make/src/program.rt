//! The program.
ghost use Rattle.std.specs.Prelude.{◌≡◌, ◌<◌, ◌^◌, OnOk, IfOk};
ghost use Rattle.plai_make.specs.Programs.{HasHome, beginning, with_fact, with_rule, with_clauses, made_program};

use crate::clauses::{entry, fact, home, home_name, rule};
use crate::draws::{chosen, following};
use plai_clauses::Program;
use std::alloc::{AllocError, Global};

/// The module and its entry.
fn beginning(alloc: Global) -> Result<Program, AllocError>
    ensures { IfOk result (λ program. program ≡ beginning) }
{
    let mut program = Program::new(alloc);
    program.add_module(alloc, home(alloc)?)?;
    program.add_entry(alloc, entry(alloc)?)?;
    Ok(program)
}

fn add_fact(alloc: Global, number: u32, program: &mut Program) -> Result<(), AllocError>
    requires { HasHome program.old }
    ensures { OnOk result (program.new ≡ with_fact program.old number) }
{
    program.add_clause(alloc, &home_name(alloc)?, fact(alloc, number)?)
}

fn add_rule(
    alloc: Global,
    number: u32,
    first: u32,
    second: u32,
    program: &mut Program,
) -> Result<(), AllocError>
    requires { HasHome program.old }
    ensures { OnOk result (program.new ≡ with_rule program.old number first second) }
{
    program.add_clause(
        alloc,
        &home_name(alloc)?,
        rule(alloc, number, first, second)?,
    )
}

/// Puts the clauses of a predicate last, whose rule has goals of these predicates.
fn add_pred(
    alloc: Global,
    number: u32,
    first: u32,
    second: u32,
    program: &mut Program,
) -> Result<(), AllocError>
    requires { HasHome program.old }
    ensures { OnOk result (program.new ≡ with_clauses program.old number first second) }
{
    add_fact(alloc, number, program)?;
    add_rule(alloc, number, first, second, program)
}

/// A program of the module `g`, with so many predicates `p0`, `p1`, .. of two arguments, from 1 to 2,147,483,647. Each has a
/// fact and a rule with two goals, whose predicates are drawn. The entry is `p0(X,Y)`, X ground.
pub fn made_program(alloc: Global, count: u32) -> Result<Program, AllocError>
    requires some { 0 < count }
    requires few { count < 2 ^ 31 }
    ensures { IfOk result (λ program. program ≡ made_program count) }
{
    let mut program = beginning(alloc)?;
    let mut state = count;
    for number in 0..count {
        let first = following(state);
        let second = following(first);
        add_pred(
            alloc,
            number,
            chosen(first, count),
            chosen(second, count),
            &mut program,
        )?;
        state = second;
    }
    Ok(program)
}
