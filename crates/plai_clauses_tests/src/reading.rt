// Terms from texts, and what is made of them.
ghost use Rattle.std.specs.Prelude.{◌≡◌, ◌≤◌, All, IfOk, length};
ghost use Rattle.plai_lex.specs.Tokens.{IsWritten};
ghost use Rattle.plai_terms.specs.Readable.{IsReadable};

use plai_clauses::Imports;
use plai_lex::{Lexer, Token};
use plai_reader::{OpTable, read_term};
use plai_terms::{Name, PredKey, ReadTerm};
use std::alloc::{AllocError, Global};
use std::test::Fail;

pub(crate) fn name(alloc: Global, text: &str) -> Result<Name, AllocError> {
    Ok(Name::new(Vec::from_slice(alloc, text.as_bytes())?))
}

pub(crate) fn key(alloc: Global, home: &str, text: &str, arity: u32) -> Result<PredKey, AllocError>
    ensures { IfOk result (λ pred. pred.arity ≡ arity) }
{
    Ok(PredKey {
        module: name(alloc, home)?,
        name: name(alloc, text)?,
        arity,
    })
}

/// The import of `q/0` from the module n.
pub(crate) fn imports(alloc: Global) -> Result<Imports, AllocError> {
    Ok(Imports::new(vec![in alloc; (name(alloc, "q")?, 0, name(alloc, "n")?)]?))
}

fn tokens_of(alloc: Global, text: &[u8]) -> Result<Vec<Token>, Fail>
    ensures written { IfOk result (λ tokens. All (λ token. IsWritten token.kind) tokens.items) }
    ensures few { IfOk result (λ tokens. length tokens.items ≤ 300000) }
{
    let mut lexer = Lexer::new(text);
    let mut tokens = Vec::new(alloc);
    for count in 0..300_000u32 {
        match lexer.next(alloc)? {
            Some(token) => tokens.push(token)?,
            None => break,
        }
    }
    Ok(tokens)
}

/// The term of a text.
pub(crate) fn term(alloc: Global, text: &str) -> Result<ReadTerm, Fail>
    ensures { IfOk result IsReadable }
{
    let ops = OpTable::standard(alloc)?;
    let tokens = tokens_of(alloc, text.as_bytes())?;
    match read_term(alloc, &ops, tokens.as_slice()) {
        Ok(read) => Ok(read),
        Err(_) => Err(Fail::new("no term")),
    }
}

/// So many times the item, with commas between.
pub(crate) fn many(alloc: Global, item: &str, count: u32) -> Result<String, AllocError> {
    let mut text = String::new(alloc);
    for place in 0..count {
        if place > 0 {
            text.push_str(",")?;
        }
        text.push_str(item)?;
    }
    Ok(text)
}
