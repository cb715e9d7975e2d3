// Files and refusals as one line each.
use plai_clauses::{CheckKind, ClauseCause};
use plai_lex::LexCause;
use plai_sources::{CheckItem, EntryItem, FileItems, Item, ItemsFail, LoadCause, read_items};
use plai_terms::{Name, Prop, print_term};
use std::alloc::{AllocError, Global};
use std::test::Fail;

fn push_number(alloc: Global, number: u64, out: &mut Vec<u8>) -> Result<(), AllocError> {
    let text = format!(in alloc; "{number}")?;
    out.extend_from_slice(text.as_bytes())
}

fn push_key(alloc: Global, name: &Name, arity: u32, out: &mut Vec<u8>) -> Result<(), AllocError> {
    out.extend_from_slice(name.as_slice())?;
    out.extend_from_slice(b"/")?;
    push_number(alloc, arity as u64, out)
}

fn push_keys(alloc: Global, keys: &[(Name, u32)], out: &mut Vec<u8>) -> Result<(), AllocError> {
    out.extend_from_slice(b"[")?;
    for (place, key) in keys.iter().enumerate() {
        if place > 0 {
            out.extend_from_slice(b",")?;
        }
        push_key(alloc, &key.0, key.1, out)?;
    }
    out.extend_from_slice(b"]")
}

fn letter(prop: Prop) -> (&'static str, u32) {
    match prop {
        Prop::Ground(place) => (" g", place),
        Prop::Var(place) => (" v", place),
        Prop::Nonvar(place) => (" n", place),
        Prop::Int(place) => (" i", place),
        Prop::Indep(place, _) => (" d", place),
    }
}

fn push_props(alloc: Global, props: &[Prop], out: &mut Vec<u8>) -> Result<(), AllocError> {
    for prop in props {
        let (text, place) = letter(*prop);
        out.extend_from_slice(text.as_bytes())?;
        push_number(alloc, place as u64, out)?;
        if let Prop::Indep(_, second) = *prop {
            out.extend_from_slice(b"-")?;
            push_number(alloc, second as u64, out)?;
        }
    }
    Ok(())
}

fn push_entry(alloc: Global, entry: &EntryItem, out: &mut Vec<u8>) -> Result<(), AllocError> {
    out.extend_from_slice(b"entry ")?;
    push_key(alloc, &entry.name, entry.arity, out)?;
    push_props(alloc, entry.pre.as_slice(), out)
}

fn push_check(alloc: Global, check: &CheckItem, out: &mut Vec<u8>) -> Result<(), AllocError> {
    let kind = match check.kind {
        CheckKind::Calls => "calls ",
        CheckKind::Success => "success ",
    };
    out.extend_from_slice(kind.as_bytes())?;
    push_key(alloc, &check.name, check.arity, out)?;
    push_props(alloc, check.pre.as_slice(), out)?;
    out.extend_from_slice(b" =>")?;
    push_props(alloc, check.post.as_slice(), out)
}

fn push_item(alloc: Global, item: &Item, out: &mut Vec<u8>) -> Result<(), AllocError> {
    match item {
        Item::UseModule(name, keys) => {
            out.extend_from_slice(b"use ")?;
            out.extend_from_slice(name.as_slice())?;
            match keys {
                Some(keys) => push_keys(alloc, keys.as_slice(), out),
                None => Ok(()),
            }
        }
        Item::Entry(entry) => push_entry(alloc, entry, out),
        Item::Check(check) => push_check(alloc, check, out),
        Item::Clause(read) => print_term(alloc, &read.term, out),
    }
}

fn push_file(alloc: Global, file: &FileItems, out: &mut Vec<u8>) -> Result<(), AllocError> {
    out.extend_from_slice(file.module.as_slice())?;
    push_keys(alloc, file.exports.as_slice(), out)?;
    for item in file.items.as_slice() {
        out.extend_from_slice(b"; ")?;
        push_number(alloc, item.term, out)?;
        out.extend_from_slice(b":")?;
        push_item(alloc, &item.item, out)?;
    }
    out.extend_from_slice(b" #")?;
    push_number(alloc, file.count, out)
}

fn lexical(cause: LexCause) -> &'static str {
    match cause {
        LexCause::BadCharacter => "bad_character",
        LexCause::OpenQuote => "open_quote",
        LexCause::OpenComment => "open_comment",
        LexCause::BadEscape => "bad_escape",
        LexCause::NumberTooLarge => "number_too_large",
    }
}

fn word(cause: &LoadCause) -> &'static str {
    match cause {
        LoadCause::Lex(cause, _) => lexical(*cause),
        LoadCause::Syntax => "syntax",
        LoadCause::TooDeep => "too_deep",
        LoadCause::TermArity => "term_arity",
        LoadCause::Clause(ClauseCause::NotAClause) => "not_a_clause",
        LoadCause::Clause(ClauseCause::Unsupported(_, _)) => "unsupported ",
        LoadCause::Clause(ClauseCause::ArityTooLarge(_)) => "pred_arity",
        LoadCause::Clause(ClauseCause::TooManySlots(_)) => "too_many_slots",
        LoadCause::BadDirective => "bad_directive",
        LoadCause::BadOperator => "bad_operator",
        LoadCause::NoModule => "no_module",
        LoadCause::DuplicateModule => "duplicate_module",
        LoadCause::UnknownModule => "unknown_module",
        LoadCause::NotExported => "not_exported",
        LoadCause::ImportClash => "import_clash",
        LoadCause::BadProperty => "bad_property",
        LoadCause::TooManyItems => "too_many_items",
    }
}

fn number(cause: &LoadCause) -> Option<u64> {
    match cause {
        LoadCause::Lex(_, at) => Some(*at),
        LoadCause::Clause(ClauseCause::Unsupported(_, arity)) => Some(*arity as u64),
        LoadCause::Clause(ClauseCause::ArityTooLarge(arity)) => Some(*arity as u64),
        LoadCause::Clause(ClauseCause::TooManySlots(slots)) => Some(*slots as u64),
        _ => None,
    }
}

fn push_refusal(
    alloc: Global,
    term: u64,
    cause: &LoadCause,
    out: &mut Vec<u8>,
) -> Result<(), AllocError> {
    push_number(alloc, term, out)?;
    out.extend_from_slice(b" ")?;
    out.extend_from_slice(word(cause).as_bytes())?;
    if let LoadCause::Clause(ClauseCause::Unsupported(name, _)) = cause {
        out.extend_from_slice(name.as_slice())?;
    }
    if let Some(number) = number(cause) {
        out.extend_from_slice(b" ")?;
        push_number(alloc, number, out)?;
    }
    Ok(())
}

/// What a text of at most a million bytes says, as one line.
pub(crate) fn answer(alloc: Global, text: &[u8], there: u64) -> Result<Vec<u8>, Fail> {
    if text.len() > 1_000_000 {
        return Err(Fail::new("a long text"));
    }
    let mut out = Vec::new(alloc);
    match read_items(alloc, text, there) {
        Ok(file) => push_file(alloc, &file, &mut out)?,
        Err(ItemsFail::Memory) => out.extend_from_slice(b"memory")?,
        Err(ItemsFail::Refused { term, cause }) => push_refusal(alloc, term, &cause, &mut out)?,
    }
    Ok(out)
}
