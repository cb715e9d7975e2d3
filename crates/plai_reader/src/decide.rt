//! What each token does, from the left.
ghost use Rattle.std.specs.Prelude.{◌≡◌};
ghost use Rattle.std.specs.Int.{IsNonNegative};
ghost use Rattle.plai_reader.specs.Climb.{Gives};
ghost use Rattle.plai_reader.specs.Roles.{signed, bracketed, operator, named, functor_or_name, at_nil, where_wanted, operating, at_comma, at_bar, at_close, at_close_list, where_operating, decided};
ghost use Rattle.plai_lex.specs.Tokens.{IsWritten};
ghost use Rattle.plai_reader.specs.States.{Makes};

use crate::ahead::{
    can_start_next, is_close_list_next, is_edge_next, is_infix_or_postfix, is_minus,
    is_tight_open_next,
};
use crate::operator::{Class, Definition, Operator};
use crate::state::{Action, Bracket, Leaf, Mode, Pending};
use crate::stop::Stop;
use crate::table::OpTable;
use plai_lex::{Token, TokenKind};
use plai_terms::Name;
use std::alloc::Global;

fn operator(alloc: Global, name: &Name, definition: Definition) -> Result<Operator, Stop>
    ensures { Makes (operator name.now definition) result }
{
    Ok(Operator {
        name: name.copy(alloc)?,
        priority: definition.priority,
        kind: definition.kind,
    })
}

fn atom(alloc: Global, name: &Name) -> Result<Action, Stop>
    ensures { Makes (Action.Put (Leaf.Atom name.now)) result }
{
    Ok(Action::Put(Leaf::Atom(name.copy(alloc)?)))
}

/// A name where an operand is wanted, without arguments.
fn decide_name(
    alloc: Global,
    ops: &OpTable,
    at_edge: bool,
    name: &Name,
    rest: &[Token],
) -> Result<Action, Stop>
    ensures { Gives (named ops.now at_edge name.now rest.now) result }
{
    if let Some(definition) = ops.find(Class::Prefix, name) {
        if can_start_next(ops, rest) {
            return Ok(Action::Push(operator(alloc, name, definition)?));
        }
        return atom(alloc, name);
    }
    if is_infix_or_postfix(ops, name) && !(at_edge && is_edge_next(rest)) {
        return Err(Stop::Syntax);
    }
    atom(alloc, name)
}

/// What a round bracket begins.
fn bracket(alloc: Global, pending: &Pending) -> Result<Bracket, Stop>
    ensures { Makes (bracketed pending.now) result }
{
    match pending {
        Pending::Functor(name) => Ok(Bracket::Arguments(name.copy(alloc)?)),
        _ => Ok(Bracket::Round),
    }
}

fn sign(pending: &Pending, value: i128) -> i128
    requires { IsNonNegative value }
    ensures { result ≡ signed pending.now value }
{
    match pending {
        Pending::Minus => -value,
        _ => value,
    }
}

fn decide_nil(alloc: Global, pending: &Pending) -> Result<Action, Stop>
    ensures { Gives (at_nil pending.now) result }
{
    match pending {
        Pending::EmptyList => Ok(Action::Put(Leaf::Atom(Name::new(Vec::from_slice(
            alloc, b"[]",
        )?)))),
        _ => Err(Stop::Syntax),
    }
}

fn decide_functor(
    alloc: Global,
    ops: &OpTable,
    at_edge: bool,
    name: &Name,
    rest: &[Token],
) -> Result<Action, Stop>
    ensures { Gives (functor_or_name ops.now at_edge name.now rest.now) result }
{
    if is_tight_open_next(rest) {
        Ok(Action::Wait(Pending::Functor(name.copy(alloc)?)))
    } else {
        decide_name(alloc, ops, at_edge, name, rest)
    }
}

/// Where an operand is wanted.
fn decide_operand(
    alloc: Global,
    ops: &OpTable,
    number: u32,
    mode: &Mode,
    kind: &TokenKind,
    rest: &[Token],
) -> Result<Action, Stop>
    requires { IsWritten kind.now }
    ensures { Gives (where_wanted ops.now number mode.now kind.now rest.now) result }
{
    match kind {
        TokenKind::Var(_) => Ok(Action::Put(Leaf::Variable(number))),
        TokenKind::Int(value) => Ok(Action::Put(Leaf::Integer(sign(&mode.pending, *value)))),
        TokenKind::Text(text) => Ok(Action::Put(Leaf::Text(text.copy(alloc)?))),
        TokenKind::Open => Ok(Action::Begin(bracket(alloc, &mode.pending)?)),
        TokenKind::OpenList => {
            if is_close_list_next(rest) {
                Ok(Action::Wait(Pending::EmptyList))
            } else {
                Ok(Action::Begin(Bracket::Items))
            }
        }
        TokenKind::CloseList => decide_nil(alloc, &mode.pending),
        TokenKind::Name(name) => {
            if is_minus(name, rest) {
                Ok(Action::Wait(Pending::Minus))
            } else {
                decide_functor(alloc, ops, mode.at_edge, name, rest)
            }
        }
        TokenKind::Quoted(name) => decide_functor(alloc, ops, mode.at_edge, name, rest),
        _ => Err(Stop::Syntax),
    }
}

/// An operator, where one is wanted.
fn decide_infix(alloc: Global, ops: &OpTable, name: &Name) -> Result<Action, Stop>
    ensures { Gives (operating ops.now name.now) result }
{
    if let Some(definition) = ops.find(Class::Infix, name) {
        return Ok(Action::Push(operator(alloc, name, definition)?));
    }
    match ops.find(Class::Postfix, name) {
        Some(definition) => Ok(Action::Push(operator(alloc, name, definition)?)),
        None => Err(Stop::Syntax),
    }
}

fn decide_comma(alloc: Global, ops: &OpTable, bracket: &Bracket) -> Result<Action, Stop>
    ensures { Gives (at_comma ops.now bracket.now) result }
{
    match bracket {
        Bracket::Whole | Bracket::Round => {
            let comma = Name::new(Vec::from_slice(alloc, b",")?);
            decide_infix(alloc, ops, &comma)
        }
        Bracket::Arguments(_) | Bracket::Items => Ok(Action::Item),
        Bracket::Tail => Err(Stop::Syntax),
    }
}

fn decide_bar(bracket: &Bracket) -> Result<Action, Stop>
    ensures { Gives (at_bar bracket.now) result }
{
    match bracket {
        Bracket::Items => Ok(Action::Tail),
        _ => Err(Stop::Syntax),
    }
}

fn decide_close(bracket: &Bracket) -> Result<Action, Stop>
    ensures { Gives (at_close bracket.now) result }
{
    match bracket {
        Bracket::Round | Bracket::Arguments(_) => Ok(Action::End),
        _ => Err(Stop::Syntax),
    }
}

fn decide_close_list(bracket: &Bracket) -> Result<Action, Stop>
    ensures { Gives (at_close_list bracket.now) result }
{
    match bracket {
        Bracket::Items | Bracket::Tail => Ok(Action::End),
        _ => Err(Stop::Syntax),
    }
}

/// Where an operator is wanted.
fn decide_operator(
    alloc: Global,
    ops: &OpTable,
    bracket: &Bracket,
    kind: &TokenKind,
) -> Result<Action, Stop>
    ensures { Gives (where_operating ops.now bracket.now kind.now) result }
{
    match kind {
        TokenKind::Name(name) | TokenKind::Quoted(name) => decide_infix(alloc, ops, name),
        TokenKind::Comma => decide_comma(alloc, ops, bracket),
        TokenKind::Bar => decide_bar(bracket),
        TokenKind::Close => decide_close(bracket),
        TokenKind::CloseList => decide_close_list(bracket),
        _ => Err(Stop::Syntax),
    }
}

/// What a token does, by what was read, what the innermost level stands in, and the tokens behind it. A variable has the number.
pub fn decide(
    alloc: Global,
    ops: &OpTable,
    number: u32,
    mode: &Mode,
    bracket: &Bracket,
    kind: &TokenKind,
    rest: &[Token],
) -> Result<Action, Stop>
    requires { IsWritten kind.now }
    ensures { Gives (decided ops.now number mode.now bracket.now kind.now rest.now) result }
{
    if mode.wanted {
        decide_operand(alloc, ops, number, mode, kind, rest)
    } else {
        decide_operator(alloc, ops, bracket, kind)
    }
}
