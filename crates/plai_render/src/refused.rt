ghost use Rattle.std.specs.Prelude.{◌≡◌, ◌++◌, OnOk, OnErr, codes, decimal};
ghost use Rattle.std.specs.Fmt.{signed_decimal};
ghost use Rattle.plai_render.specs.Refused.{key_text, clause_cause_text, missing_text, edit_cause_text, refused_text};

use crate::block::write_head;
use itoa::Buffer;
use plai_clauses::{ClauseCause, EditCause};
use plai_terms::{Name, print_atom};
use std::alloc::{AllocError, Global};

// A part of the text may have been appended after want of memory in the calls that begin with `write_`.

pub(crate) fn write_number(number: u64, out: &mut Vec<u8>) -> Result<(), AllocError>
    ensures { OnOk result (out.new.items ≡ out.old.items ++ decimal number) }
{
    let mut buffer = Buffer::new();
    out.extend_from_slice(buffer.format(number).as_bytes())
}

fn write_integer(value: i128, out: &mut Vec<u8>) -> Result<(), AllocError>
    ensures { OnOk result (out.new.items ≡ out.old.items ++ signed_decimal value) }
{
    let mut buffer = Buffer::new();
    out.extend_from_slice(buffer.format(value).as_bytes())
}

/// Appends a word and a number.
fn write_numbered(word: &[u8], number: u32, out: &mut Vec<u8>) -> Result<(), AllocError>
    ensures { OnOk result (out.new.items ≡ out.old.items ++ (word.now ++ decimal number)) }
{
    out.extend_from_slice(word)?;
    write_number(u64::from(number), out)
}

/// Appends a key: a name and a number of arguments.
#[tactic(auto, unfolding(crate::specs::Refused::key_text))]
fn write_key(alloc: Global, name: &Name, arity: u32, out: &mut Vec<u8>) -> Result<(), AllocError>
    ensures { OnOk result (out.new.items ≡ out.old.items ++ key_text name.now arity) }
{
    print_atom(alloc, name, out)?;
    out.push(b'/')?;
    let mut buffer = Buffer::new();
    out.extend_from_slice(buffer.format(arity).as_bytes())
}

/// Appends a word and a key.
fn write_keyed(
    alloc: Global,
    word: &[u8],
    name: &Name,
    arity: u32,
    out: &mut Vec<u8>,
) -> Result<(), AllocError>
    ensures { OnOk result (out.new.items ≡ out.old.items ++ (word.now ++ key_text name.now arity)) }
{
    out.extend_from_slice(word)?;
    write_key(alloc, name, arity, out)
}

/// Appends the text of a cause why a term says no clause. A part may have been appended after want of memory.
pub fn write_clause_cause(
    alloc: Global,
    cause: &ClauseCause,
    out: &mut Vec<u8>,
) -> Result<(), AllocError>
    ensures { OnOk result (out.new.items ≡ out.old.items ++ clause_cause_text cause.now) }
{
    match cause {
        ClauseCause::NotAClause => out.extend_from_slice(b"not_a_clause"),
        ClauseCause::Unsupported(name, arity) => {
            write_keyed(alloc, b"unsupported ", name, *arity, out)
        }
        ClauseCause::ArityTooLarge(arity) => write_numbered(b"pred_arity ", *arity, out),
        ClauseCause::TooManySlots(count) => write_numbered(b"too_many_slots ", *count, out),
    }
}

/// Appends a word, the number that is asked for, and how many there are.
fn write_missing(word: &[u8], asked: i128, there: u64, out: &mut Vec<u8>) -> Result<(), AllocError>
    ensures { OnOk result (out.new.items ≡ out.old.items ++ (word.now ++ missing_text asked there)) }
{
    out.extend_from_slice(word)?;
    write_integer(asked, out)?;
    out.push(b' ')?;
    write_number(there, out)
}

pub(crate) fn write_edit_cause(
    alloc: Global,
    cause: &EditCause,
    out: &mut Vec<u8>,
) -> Result<(), AllocError>
    ensures { OnOk result (out.new.items ≡ out.old.items ++ edit_cause_text cause.now) }
{
    match cause {
        EditCause::Syntax => out.extend_from_slice(b"syntax"),
        EditCause::TooDeep => out.extend_from_slice(b"too_deep"),
        EditCause::TermArity => out.extend_from_slice(b"term_arity"),
        EditCause::BadEdit => out.extend_from_slice(b"bad_edit"),
        EditCause::UnknownModule => out.extend_from_slice(b"unknown_module"),
        EditCause::Clause(cause) => write_clause_cause(alloc, cause, out),
        EditCause::BadProperty => out.extend_from_slice(b"bad_property"),
        EditCause::NoSuchClause { asked, there } => {
            write_missing(b"no_such_clause ", *asked, *there, out)
        }
        EditCause::NoSuchEntry { asked, there } => {
            write_missing(b"no_such_entry ", *asked, *there, out)
        }
        EditCause::NoSuchCheck { asked, there } => {
            write_missing(b"no_such_check ", *asked, *there, out)
        }
        EditCause::ImportClash => out.extend_from_slice(b"import_clash"),
        EditCause::TooManyItems => out.extend_from_slice(b"too_many_items"),
    }
}

/// Appends the block of an edit that is refused: the line `edit K` with the number K, the line `refused CAUSE`, and the
/// line `end`. Where an item of a number isn't there, the cause names the number that is asked for and how many there are.
///
/// After want of memory `out` is as before.
pub fn render_refused(
    alloc: Global,
    number: u64,
    cause: &EditCause,
    out: &mut Vec<u8>,
) -> Result<(), AllocError>
    ensures ok { OnOk result (out.new.items ≡ out.old.items ++ refused_text number cause.now) }
    ensures err { OnErr result (out.new.items ≡ out.old.items) }
{
    let mut text = Vec::new(alloc);
    write_head(number, &mut text)?;
    text.extend_from_slice(b"refused ")?;
    write_edit_cause(alloc, cause, &mut text)?;
    text.extend_from_slice(b"\nend\n")?;
    out.extend_from_slice(&text)
}
