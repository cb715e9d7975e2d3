//! Reads scripts.
ghost use Rattle.std.specs.Prelude.{◌≡◌, ◌<◌, ◌^◌, length, All, Ok, IfOk, IfSome};
ghost use Rattle.plai_lex.specs.Tokens.{IsWritten};
ghost use Rattle.plai_terms.specs.Readable.{IsReadable};
ghost use Rattle.plai_reader.specs.Operators.{standard};
ghost use Rattle.plai_script.specs.Scripts.{item_from, item_of, script_of};
ghost use Rattle.plai_script.specs.Readable.{IsReadableEdit};
ghost use Rattle.plai_script.specs.Answering.{AnswersScript, TakesTerm, Stops};

use crate::edit::Edit;
use crate::fail::{EditFail, ScriptFail};
use crate::shape::read_edit;
use plai_clauses::EditCause;
use plai_lex::{Lexer, Token};
use plai_reader::{OpTable, ReadTermFail, read_term};
use plai_sources::{LoadCause, TermFail, next_term};
use plai_terms::ReadTerm;
use std::alloc::{AllocError, Global};

/// The edit of a term, or why it is none.
fn edit_or_cause(alloc: Global, read: &ReadTerm) -> Result<Result<Edit, EditCause>, AllocError>
    requires readable { IsReadable read.now }
    ensures item { IfOk result (λ item. item ≡ item_from (Ok read.now)) }
    ensures readable { IfOk result (λ item. IfOk item IsReadableEdit) }
{
    match read_edit(alloc, read) {
        Ok(edit) => Ok(Ok(edit)),
        Err(EditFail::Memory) => Err(AllocError),
        Err(EditFail::Refused(cause)) => Ok(Err(cause)),
    }
}

/// The edit of a term's tokens, or why they are none.
fn item(
    alloc: Global,
    operators: &OpTable,
    tokens: &[Token],
) -> Result<Result<Edit, EditCause>, AllocError>
    requires standard { operators.now ≡ standard }
    requires few { length tokens.now < 2 ^ 31 }
    requires written { All (λ token. IsWritten token.kind) tokens.now }
    ensures item { IfOk result (λ item. item ≡ item_of tokens.now) }
    ensures readable { IfOk result (λ item. IfOk item IsReadableEdit) }
{
    match read_term(alloc, operators, tokens) {
        Ok(read) => edit_or_cause(alloc, &read),
        Err(ReadTermFail::Memory) => Err(AllocError),
        Err(ReadTermFail::Syntax) => Ok(Err(EditCause::Syntax)),
        Err(ReadTermFail::TooDeep) => Ok(Err(EditCause::TooDeep)),
        Err(ReadTermFail::ArityTooLarge) => Ok(Err(EditCause::TermArity)),
    }
}

/// Puts a last term that is cut off behind the items, or refuses a place without a token.
fn stop(
    number: u64,
    cause: LoadCause,
    items: &mut Vec<Result<Edit, EditCause>>,
) -> Result<Option<Vec<Token>>, ScriptFail>
    ensures stops { Stops number cause items.old.items items.new.items result }
    ensures readable { All (λ item. IfOk item IsReadableEdit) items.old.items → All (λ item. IfOk item IsReadableEdit) items.new.items }
{
    match cause {
        LoadCause::Lex(cause, at) => Err(ScriptFail::Lex {
            term: number,
            cause,
            at,
        }),
        _ => {
            items.push(Err(EditCause::Syntax))?;
            Ok(None)
        }
    }
}

/// The tokens of the next term, which has that number, or none at the end of the script.
fn take(
    alloc: Global,
    lexer: &mut Lexer,
    number: u64,
    items: &mut Vec<Result<Edit, EditCause>>,
) -> Result<Option<Vec<Token>>, ScriptFail>
    ensures takes { TakesTerm number lexer.old lexer.new items.old.items items.new.items result }
    ensures written { IfOk result (λ found. IfSome found (λ tokens. All (λ token. IsWritten token.kind) tokens.items)) }
    ensures readable { All (λ item. IfOk item IsReadableEdit) items.old.items → All (λ item. IfOk item IsReadableEdit) items.new.items }
{
    match next_term(alloc, lexer) {
        Ok(found) => Ok(found),
        Err(TermFail::Memory) => Err(ScriptFail::Memory),
        Err(TermFail::Refused(cause)) => stop(number, cause, items),
    }
}

/// The edits of a script, in order, each or the cause why it is none: `Syntax`, `TooDeep` and `TermArity` exactly where the
/// term can't be read with the standard operators, `BadEdit` exactly where it can and is no edit. The text has fewer than
/// 2^31 bytes.
///
/// `Lex` comes exactly where the text has a place without a token, with the first one; `Memory` may come at any text.
pub fn read_script(alloc: Global, text: &[u8]) -> Result<Vec<Result<Edit, EditCause>>, ScriptFail>
    requires short { length text.now < 2 ^ 31 }
    ensures answer { AnswersScript (script_of text.now) result }
    ensures readable { IfOk result (λ items. All (λ item. IfOk item IsReadableEdit) items.items) }
{
    let operators = OpTable::standard(alloc)?;
    let mut lexer = Lexer::new(text);
    let mut items = Vec::new(alloc);
    let mut number: u64 = 1;
    while let Some(tokens) = take(alloc, &mut lexer, number, &mut items)? {
        items.push(item(alloc, &operators, tokens.as_slice())?)?;
        number += 1;
    }
    Ok(items)
}
