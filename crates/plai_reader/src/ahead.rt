//! What a token is, and what the tokens behind it begin with.
ghost use Rattle.std.specs.Prelude.{◌≡◌};
ghost use Rattle.plai_reader.specs.Roles.{is_open, is_close_list, is_integer, is_end, is_edge, next_is, tight_next, is_infix_or_postfix, name_starts, starts, starts_next, is_minus};

use crate::operator::Class;
use crate::table::OpTable;
use plai_lex::{Token, TokenKind};
use plai_terms::Name;

/// Whether the token ends a term.
pub fn is_end(kind: &TokenKind) -> bool
    ensures { result ≡ is_end kind.now }
{
    matches!(kind, TokenKind::End)
}

/// Whether a token is a bracket, a comma, a bar or the end.
pub fn is_edge(kind: &TokenKind) -> bool
    ensures { result ≡ is_edge kind.now }
{
    matches!(
        kind,
        TokenKind::Open
            | TokenKind::Close
            | TokenKind::OpenList
            | TokenKind::CloseList
            | TokenKind::Comma
            | TokenKind::Bar
            | TokenKind::End
    )
}

/// Whether the next token is a bracket, a comma, a bar or the end.
pub fn is_edge_next(rest: &[Token]) -> bool
    ensures { result ≡ next_is is_edge rest.now }
{
    match rest.first() {
        None => false,
        Some(next) => is_edge(&next.kind),
    }
}

/// Whether the next token closes a list.
pub fn is_close_list_next(rest: &[Token]) -> bool
    ensures { result ≡ next_is is_close_list rest.now }
{
    match rest.first() {
        None => false,
        Some(next) => matches!(next.kind, TokenKind::CloseList),
    }
}

/// Whether a bracket opens right behind, with nothing between.
pub fn is_tight_open_next(rest: &[Token]) -> bool
    ensures { result ≡ tight_next is_open rest.now }
{
    match rest.first() {
        None => false,
        Some(next) => matches!(next.kind, TokenKind::Open) && next.tight,
    }
}

fn is_tight_integer_next(rest: &[Token]) -> bool
    ensures { result ≡ tight_next is_integer rest.now }
{
    match rest.first() {
        None => false,
        Some(next) => matches!(next.kind, TokenKind::Int(_)) && next.tight,
    }
}

/// Whether a name is an infix or a postfix operator.
pub fn is_infix_or_postfix(ops: &OpTable, name: &Name) -> bool
    ensures { result ≡ is_infix_or_postfix ops.now name.now }
{
    ops.find(Class::Infix, name).is_some() || ops.find(Class::Postfix, name).is_some()
}

/// Whether a name can start an operand.
fn can_name_start(ops: &OpTable, name: &Name, rest: &[Token]) -> bool
    ensures { result ≡ name_starts ops.now name.now rest.now }
{
    !is_infix_or_postfix(ops, name)
        || ops.find(Class::Prefix, name).is_some()
        || is_tight_open_next(rest)
}

/// Whether a token can start an operand.
fn can_start(ops: &OpTable, kind: &TokenKind, rest: &[Token]) -> bool
    ensures { result ≡ starts ops.now kind.now rest.now }
{
    match kind {
        TokenKind::Name(name) | TokenKind::Quoted(name) => can_name_start(ops, name, rest),
        TokenKind::Var(_)
        | TokenKind::Int(_)
        | TokenKind::Text(_)
        | TokenKind::Open
        | TokenKind::OpenList => true,
        _ => false,
    }
}

/// Whether the next token can start an operand.
pub fn can_start_next(ops: &OpTable, rest: &[Token]) -> bool
    ensures { result ≡ starts_next ops.now rest.now }
{
    match rest.split_first() {
        None => false,
        Some((next, after)) => can_start(ops, &next.kind, after),
    }
}

/// Whether a name is the sign of the integer right behind it.
pub fn is_minus(name: &Name, rest: &[Token]) -> bool
    ensures { result ≡ is_minus name.now rest.now }
{
    name.as_slice() == b"-".as_slice() && is_tight_integer_next(rest)
}
