// The lines of terms that refuse the files or the script.
ghost use Rattle.std.specs.Prelude.{◌≡◌, ◌++◌, IfOk, OnOk, decimal};
ghost use Rattle.plai_top.specs.Refusal.{lexical_text, cause_text, refusal_text, script_refusal_text};

use itoa::Buffer;
use plai_lex::LexCause;
use plai_modules::LoadCause;
use plai_render::write_clause_cause;
use plai_terms::{Name, print_quoted};
use std::alloc::{AllocError, Global};

// A part of the text may have been appended after want of memory in the calls that begin with `write_`.

fn write_number(number: u64, out: &mut Vec<u8>) -> Result<(), AllocError>
    ensures { OnOk result (out.new.items ≡ out.old.items ++ decimal number) }
{
    let mut buffer = Buffer::new();
    out.extend_from_slice(buffer.format(number).as_bytes())
}

/// Appends a word and a number.
fn write_numbered(word: &[u8], number: u64, out: &mut Vec<u8>) -> Result<(), AllocError>
    ensures { OnOk result (out.new.items ≡ out.old.items ++ (word.now ++ decimal number)) }
{
    out.extend_from_slice(word)?;
    write_number(number, out)
}

fn write_lexical(cause: LexCause, at: u64, out: &mut Vec<u8>) -> Result<(), AllocError>
    ensures { OnOk result (out.new.items ≡ out.old.items ++ (lexical_text cause ++ decimal at)) }
{
    match cause {
        LexCause::BadCharacter => write_numbered(b"bad_character ", at, out),
        LexCause::OpenQuote => write_numbered(b"open_quote ", at, out),
        LexCause::OpenComment => write_numbered(b"open_comment ", at, out),
        LexCause::BadEscape => write_numbered(b"bad_escape ", at, out),
        LexCause::NumberTooLarge => write_numbered(b"number_too_large ", at, out),
    }
}

fn write_cause(alloc: Global, cause: &LoadCause, out: &mut Vec<u8>) -> Result<(), AllocError>
    ensures { OnOk result (out.new.items ≡ out.old.items ++ cause_text cause.now) }
{
    match cause {
        LoadCause::Lex(cause, at) => write_lexical(*cause, *at, out),
        LoadCause::Syntax => out.extend_from_slice(b"syntax"),
        LoadCause::TooDeep => out.extend_from_slice(b"too_deep"),
        LoadCause::TermArity => out.extend_from_slice(b"term_arity"),
        LoadCause::Clause(cause) => write_clause_cause(alloc, cause, out),
        LoadCause::BadDirective => out.extend_from_slice(b"bad_directive"),
        LoadCause::BadOperator => out.extend_from_slice(b"bad_operator"),
        LoadCause::NoModule => out.extend_from_slice(b"no_module"),
        LoadCause::DuplicateModule => out.extend_from_slice(b"duplicate_module"),
        LoadCause::UnknownModule => out.extend_from_slice(b"unknown_module"),
        LoadCause::NotExported => out.extend_from_slice(b"not_exported"),
        LoadCause::ImportClash => out.extend_from_slice(b"import_clash"),
        LoadCause::BadProperty => out.extend_from_slice(b"bad_property"),
        LoadCause::TooManyItems => out.extend_from_slice(b"too_many_items"),
    }
}

/// The line `refused F T CAUSE`: the file's name, always in quotes, the term's number from 1, and the cause.
pub fn refusal_line(
    alloc: Global,
    name: &Name,
    term: u64,
    cause: &LoadCause,
) -> Result<Vec<u8>, AllocError>
    ensures { IfOk result (λ line. line.items ≡ refusal_text name.now term cause.now) }
{
    let mut line = Vec::new(alloc);
    line.extend_from_slice(b"refused ")?;
    print_quoted(alloc, name, &mut line)?;
    line.extend_from_slice(b" ")?;
    write_number(term, &mut line)?;
    line.extend_from_slice(b" ")?;
    write_cause(alloc, cause, &mut line)?;
    line.push(b'\n')?;
    Ok(line)
}

/// The line `refused script T CAUSE`: the number, from 1, of the script's term in which a place has no token, the cause, and
/// the place, in bytes from 0.
pub fn script_refusal_line(
    alloc: Global,
    term: u64,
    cause: LexCause,
    at: u64,
) -> Result<Vec<u8>, AllocError>
    ensures { IfOk result (λ line. line.items ≡ script_refusal_text (record { term = term; cause = cause; at = at })) }
{
    let mut line = Vec::new(alloc);
    line.extend_from_slice(b"refused script ")?;
    write_number(term, &mut line)?;
    line.extend_from_slice(b" ")?;
    write_lexical(cause, at, &mut line)?;
    line.push(b'\n')?;
    Ok(line)
}
