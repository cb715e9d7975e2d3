//! Reads the terms of a text one after the other.
ghost use Rattle.std.specs.Prelude.{◌≡◌, ℕ, ◌+◌, ◌<◌, ◌≤◌, ◌^◌, length, count_by, ok_or, All, IfOk, IfSome};
ghost use Rattle.plai_lex.specs.Tokens.{IsWritten};
ghost use Rattle.plai_terms.specs.Readable.{IsReadable};
ghost use Rattle.plai_reader.specs.Roles.{is_end};
ghost use Rattle.plai_sources.specs.Directives.{header_of};
ghost use Rattle.plai_sources.specs.Items.{begun, is_counted, with_item, with_item_if, with_term, with_tokens, finished, items_of};
ghost use Rattle.plai_sources.specs.Answering.{Answers, AnswersFile, TakesToken, Takes, Ends, Numbers};
ghost use Rattle.plai_sources.specs.WellFormed.{IsGood, AreWellFormedItems};

use crate::cause::{ItemsFail, LoadCause};
use crate::directive::{header, or_refuse, say};
use crate::items::{FileItems, Header, Item, NumberedItem};
use crate::reading::Reading;
use crate::stop::TermFail;
use plai_lex::{LexFail, Lexer, Token, TokenKind};
use plai_reader::{OpTable, ReadTermFail, read_term};
use plai_terms::{Listed, ReadTerm, Term};
use std::alloc::{AllocError, Global};

/// The greatest number of clauses, entries and checks of a program.
const MOST_ITEMS: u64 = 65536;

/// What the first term of a file says.
fn first_term(alloc: Global, term: &Term) -> Result<Header, TermFail>
    ensures { Answers (ok_or (header_of term.now) LoadCause.NoModule) result }
{
    or_refuse(header(alloc, term), LoadCause::NoModule)
}

fn begin(alloc: Global, there: u64) -> Result<Reading, AllocError>
    ensures { IfOk result (λ reading. reading ≡ begun there) }
{
    Ok(Reading {
        operators: OpTable::standard(alloc)?,
        header: None,
        items: Listed::new(Vec::new(alloc)),
        count: there,
    })
}

fn is_counted(item: &Item) -> bool
    ensures { result ≡ is_counted item.now }
{
    !matches!(item, Item::UseModule(_, _))
}

/// Puts the item of a term of that number behind the others.
fn place(reading: Reading, term: u64, item: Item) -> Result<Reading, TermFail>
    ensures { Answers (with_item reading term item) result }
{
    let Reading {
        operators,
        header,
        items,
        count,
    } = reading;
    let counted = is_counted(&item);
    if counted && count >= MOST_ITEMS {
        return Err(TermFail::Refused(LoadCause::TooManyItems));
    }
    let mut items = items.into_vec();
    items.push(NumberedItem { term, item })?;
    Ok(Reading {
        operators,
        header,
        items: Listed::new(items),
        count: if counted { count + 1 } else { count },
    })
}

fn place_if(reading: Reading, term: u64, item: Option<Item>) -> Result<Reading, TermFail>
    ensures { Answers (with_item_if reading term item) result }
{
    match item {
        Some(item) => place(reading, term, item),
        None => Ok(reading),
    }
}

/// The file with what the term of that number says.
fn add_term(
    alloc: Global,
    reading: Reading,
    number: u64,
    read: ReadTerm,
) -> Result<Reading, TermFail>
    requires { IsReadable read }
    ensures term { Answers (with_term reading number read) result }
{
    let Reading {
        operators,
        header,
        items,
        count,
    } = reading;
    match header {
        None => {
            let header = first_term(alloc, &read.term)?;
            Ok(Reading {
                operators,
                header: Some(header),
                items,
                count,
            })
        }
        Some(header) => {
            let mut operators = operators;
            let item = say(alloc, &mut operators, &header.module, read)?;
            let reading = Reading {
                operators,
                header: Some(header),
                items,
                count,
            };
            place_if(reading, number, item)
        }
    }
}

/// The file with the term of that number, which these are the tokens of.
fn add_tokens(
    alloc: Global,
    reading: Reading,
    number: u64,
    tokens: &[Token],
) -> Result<Reading, TermFail>
    requires few { length tokens.now < 2 ^ 31 }
    requires written { All (λ token. IsWritten token.kind) tokens.now }
    ensures tokens { Answers (with_tokens reading number tokens.now) result }
    ensures good { (there : ℕ) → IsGood there reading → IfOk result (IsGood there) }
{
    match read_term(alloc, &reading.operators, tokens) {
        Ok(read) => add_term(alloc, reading, number, read),
        Err(ReadTermFail::Memory) => Err(TermFail::Memory),
        Err(ReadTermFail::Syntax) => Err(TermFail::Refused(LoadCause::Syntax)),
        Err(ReadTermFail::TooDeep) => Err(TermFail::Refused(LoadCause::TooDeep)),
        Err(ReadTermFail::ArityTooLarge) => Err(TermFail::Refused(LoadCause::TermArity)),
    }
}

/// The next token, or none at the end of the text.
fn next_token(alloc: Global, lexer: &mut Lexer) -> Result<Option<Token>, TermFail>
    ensures takes { TakesToken lexer.old lexer.new result }
    ensures written { IfOk result (λ found. IfSome found (λ token. IsWritten token.kind)) }
{
    match lexer.next(alloc) {
        Ok(found) => Ok(found),
        Err(LexFail::Memory) => Err(TermFail::Memory),
        Err(LexFail::At { cause, at }) => Err(TermFail::Refused(LoadCause::Lex(cause, at))),
    }
}

fn is_end(token: &Token) -> bool
    ensures { result ≡ is_end token.now.kind }
{
    matches!(token.kind, TokenKind::End)
}

/// What is left at the end of a text: nothing, or a term without a full stop.
fn unended(tokens: Vec<Token>) -> Result<Option<Vec<Token>>, TermFail>
    ensures { Ends tokens.items result }
{
    if tokens.is_empty() {
        Ok(None)
    } else {
        Err(TermFail::Refused(LoadCause::Syntax))
    }
}

/// The tokens of the next term, up to and with its full stop, or none at the end of the text. Refused with `Lex` at the
/// first place without a token, with `Syntax` where the text ends within the term.
pub fn next_term(alloc: Global, lexer: &mut Lexer) -> Result<Option<Vec<Token>>, TermFail>
    ensures takes { Takes lexer.old lexer.new result }
    ensures written { IfOk result (λ found. IfSome found (λ tokens. All (λ token. IsWritten token.kind) tokens.items)) }
{
    let mut tokens = Vec::new(alloc);
    while let Some(token) = next_token(alloc, lexer)? {
        let is_last = is_end(&token);
        tokens.push(token)?;
        if is_last {
            return Ok(Some(tokens));
        }
    }
    unended(tokens)
}

/// A term's answer, with its number.
fn numbered<T>(number: u64, given: Result<T, TermFail>) -> Result<T, ItemsFail>
    ensures { Numbers number given result }
{
    match given {
        Ok(value) => Ok(value),
        Err(TermFail::Memory) => Err(ItemsFail::Memory),
        Err(TermFail::Refused(cause)) => Err(ItemsFail::Refused {
            term: number,
            cause,
        }),
    }
}

fn finish(reading: Reading) -> Result<FileItems, ItemsFail>
    ensures { AnswersFile (finished reading) result }
{
    let Reading {
        operators: _,
        header,
        items,
        count,
    } = reading;
    match header {
        Some(header) => {
            let Header { module, exports } = header;
            Ok(FileItems {
                module,
                exports,
                items,
                count,
            })
        }
        None => Err(ItemsFail::Refused {
            term: 1,
            cause: LoadCause::NoModule,
        }),
    }
}

/// What the text of a file, of fewer than 2^31 bytes, says, where the program has `there` clauses, entries and checks of
/// earlier files (ISO/IEC 13211-1:1995, 6.2.1 and 7.4). Terms are numbered from 1. A refusal is the first of the file: for
/// one term the text comes before its form, and that before the number of items.
pub fn read_items(alloc: Global, text: &[u8], there: u64) -> Result<FileItems, ItemsFail>
    requires { length text.now < 2 ^ 31 }
    ensures answer { AnswersFile (items_of text.now there) result }
    ensures well_formed { IfOk result AreWellFormedItems }
    ensures counted { IfOk result (λ file. file.count ≡ there + count_by (λ numbered. is_counted numbered.item) file.items) }
    ensures few { there ≤ 65536 → IfOk result (λ file. file.count ≤ 65536) }
{
    let mut lexer = Lexer::new(text);
    let mut reading = begin(alloc, there)?;
    let mut number: u64 = 1;
    while let Some(tokens) = numbered(number, next_term(alloc, &mut lexer))? {
        let next = add_tokens(alloc, reading, number, tokens.as_slice());
        reading = numbered(number, next)?;
        number += 1;
    }
    finish(reading)
}
