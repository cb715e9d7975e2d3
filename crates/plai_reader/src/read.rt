//! Reads a term from its tokens in one pass.
ghost use Rattle.std.specs.Prelude.{◌≡◌, ◌<◌, ◌-◌, ◌^◌, length, All, IfOk};
ghost use Rattle.plai_reader.specs.Climb.{climbing, Gives};
ghost use Rattle.plai_terms.specs.Readable.{IsReadable};
ghost use Rattle.plai_reader.specs.Limits.{kept_trees, answer_of};
ghost use Rattle.plai_reader.specs.Reading.{start, behind, stepped, last, read_of};
ghost use Rattle.plai_lex.specs.Tokens.{IsWritten};
ghost use Rattle.plai_reader.specs.States.{state_of, Steps, Reads, IsAnswer};
ghost use Rattle.plai_reader.specs.Variables.{variables_of};

use crate::ahead::{is_edge, is_end};
use crate::build::{limit, take_item};
use crate::decide::decide;
use crate::fail::ReadTermFail;
use crate::state::{Bracket, Level, Mode, Pending, Read, Reader};
use crate::steps::{open, perform};
use crate::stop::Stop;
use crate::table::OpTable;
use crate::tree::Tree;
use crate::variables::Variables;
use plai_lex::Token;
use plai_terms::ReadTerm;
use std::alloc::Global;

fn begin_reader(alloc: Global) -> Reader
    ensures { state_of result ≡ start }
{
    Reader {
        inner: open(alloc, Bracket::Whole, Vec::new(alloc)),
        outer: Vec::new(alloc),
        mode: Mode {
            wanted: true,
            pending: Pending::Clear,
            at_edge: true,
        },
        variables: Variables::new(alloc),
    }
}

fn leave(reader: Reader, token: &Token) -> Reader
    ensures { state_of result ≡ behind token.now (state_of reader) }
{
    let Reader {
        inner,
        outer,
        mode,
        variables,
    } = reader;
    let Mode {
        wanted,
        pending,
        at_edge: _,
    } = mode;
    Reader {
        inner,
        outer,
        mode: Mode {
            wanted,
            pending,
            at_edge: is_edge(&token.kind),
        },
        variables,
    }
}

/// Takes one token.
fn step(
    alloc: Global,
    ops: &OpTable,
    reader: Reader,
    token: &Token,
    rest: &[Token],
) -> Result<Reader, Stop>
    requires written { IsWritten token.now.kind }
    requires few { reader.variables.count < 2 ^ 32 - 1 }
    ensures { Steps (stepped kept_trees (climbing kept_trees) ops.now (state_of reader) token.now rest.now) result }
{
    let mut reader = reader;
    let number = reader.variables.take(alloc, &token.kind)?;
    let action = decide(
        alloc,
        ops,
        number,
        &reader.mode,
        &reader.inner.bracket,
        &token.kind,
        rest,
    )?;
    Ok(leave(perform(alloc, action, reader)?, token))
}

/// The tree at the end, where all brackets are closed and an operator is wanted.
fn finish_reader(alloc: Global, reader: Reader, rest: &[Token]) -> Result<Tree, Stop>
    ensures { Gives (last (climbing kept_trees) (state_of reader) rest.now) result }
{
    let Reader {
        inner,
        outer,
        mode,
        variables: _,
    } = reader;
    if !rest.is_empty() || !outer.is_empty() || mode.wanted {
        return Err(Stop::Syntax);
    }
    let Level {
        bracket,
        items: _,
        frames,
        place,
    } = inner;
    take_item(alloc, frames, place, limit(&bracket))
}

fn read(alloc: Global, ops: &OpTable, tokens: &[Token]) -> Result<Read, Stop>
    requires few { length tokens.now < 2 ^ 31 }
    requires written { All (λ token. IsWritten token.kind) tokens.now }
    ensures { Reads (read_of kept_trees ops.now tokens.now) (variables_of tokens.now) result }
{
    let mut reader = begin_reader(alloc);
    let mut rest = tokens;
    while let Some((token, after)) = rest.split_first() {
        if is_end(&token.kind) {
            let variables = reader.variables.count;
            let tree = finish_reader(alloc, reader, after)?;
            return Ok(Read { tree, variables });
        }
        reader = step(alloc, ops, reader, token, after)?;
        rest = after;
    }
    Err(Stop::Syntax)
}

/// The term of these tokens, which are those of one term with its End (ISO/IEC 13211-1:1995, 6.2.2). Its variables are numbered
/// from 0 by first appearance.
pub fn read_term(alloc: Global, ops: &OpTable, tokens: &[Token]) -> Result<ReadTerm, ReadTermFail>
    requires few { length tokens.now < 2 ^ 31 }
    requires written { All (λ token. IsWritten token.kind) tokens.now }
    ensures answer { IsAnswer (answer_of ops.now tokens.now) result }
    ensures readable { IfOk result IsReadable }
{
    match read(alloc, ops, tokens) {
        Ok(Read { tree, variables }) => match tree {
            Tree::Whole(term, _) => Ok(ReadTerm { term, variables }),
            Tree::Wide(_) => Err(ReadTermFail::ArityTooLarge),
            Tree::Deep => Err(ReadTermFail::TooDeep),
        },
        Err(Stop::Syntax) => Err(ReadTermFail::Syntax),
        Err(Stop::Memory) => Err(ReadTermFail::Memory),
    }
}
