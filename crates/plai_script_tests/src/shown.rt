// What a script makes of a program, as one line.
ghost use Rattle.std.specs.Prelude.{◌≡◌, ◌≤◌, All, IfOk, length};
ghost use Rattle.plai_script.specs.Readable.{IsReadableEdit};

use crate::texts::script_of;
use plai_clauses::{CheckKind, Clause, ClauseCause, EditCause, Program, Target};
use plai_lex::LexCause;
use plai_modules::{NamedText, Text, load};
use plai_script::{Edit, EditFail, ScriptFail, apply, read_script};
use plai_terms::{Listed, PredKey, print_atom, print_term};
use std::alloc::{AllocError, Global};
use std::test::Fail;

fn put(out: &mut Vec<u8>, text: &str) -> Result<(), AllocError> {
    out.extend_from_slice(text.as_bytes())
}

fn put_number(alloc: Global, out: &mut Vec<u8>, number: i128) -> Result<(), AllocError> {
    put(out, format!(in alloc; "{number}")?.as_str())
}

fn put_pred(alloc: Global, out: &mut Vec<u8>, pred: &PredKey) -> Result<(), AllocError> {
    out.extend_from_slice(pred.module.as_slice())?;
    put(out, ":")?;
    out.extend_from_slice(pred.name.as_slice())?;
    put(out, "/")?;
    put_number(alloc, out, i128::from(pred.arity))
}

/// The head's arguments, and the predicate of each literal, `#` for a builtin.
fn put_clause(alloc: Global, out: &mut Vec<u8>, clause: &Clause) -> Result<(), AllocError> {
    for (i, term) in clause.head.as_slice().iter().enumerate() {
        if i > 0 {
            put(out, ",")?;
        }
        print_term(alloc, term, out)?;
    }
    for literal in clause.body.as_slice() {
        put(out, " ")?;
        match &literal.target {
            Target::Pred(pred) => put_pred(alloc, out, pred)?,
            Target::Builtin => put(out, "#")?,
        }
    }
    put(out, ";")
}

/// The number of items, each entry with the clauses of its predicate, and each check.
fn put_program(alloc: Global, out: &mut Vec<u8>, program: &Program) -> Result<(), AllocError> {
    put(out, "ok ")?;
    put_number(alloc, out, i128::from(program.items()))?;
    for entry in program.entries() {
        put(out, " ")?;
        out.extend_from_slice(entry.module.as_slice())?;
        put(out, ">")?;
        put_pred(alloc, out, &entry.pred)?;
        put(out, "[")?;
        for clause in program.clauses_of(&entry.pred) {
            put_clause(alloc, out, clause)?;
        }
        put(out, "]")?;
    }
    for check in program.checks() {
        put(out, " ")?;
        out.extend_from_slice(check.module.as_slice())?;
        put(
            out,
            if check.kind == CheckKind::Calls {
                "?"
            } else {
                "!"
            },
        )?;
        put_pred(alloc, out, &check.pred)?;
    }
    Ok(())
}

fn shown(alloc: Global, program: &Program) -> Result<Vec<u8>, AllocError> {
    let mut out = Vec::new(alloc);
    put_program(alloc, &mut out, program)?;
    Ok(out)
}

fn put_clause_cause(
    alloc: Global,
    out: &mut Vec<u8>,
    cause: &ClauseCause,
) -> Result<(), AllocError> {
    match cause {
        ClauseCause::NotAClause => put(out, "not_a_clause"),
        ClauseCause::Unsupported(name, arity) => {
            put(out, "unsupported ")?;
            print_atom(alloc, name, out)?;
            put(out, "/")?;
            put_number(alloc, out, i128::from(*arity))
        }
        ClauseCause::ArityTooLarge(arity) => {
            put(out, "pred_arity ")?;
            put_number(alloc, out, i128::from(*arity))
        }
        ClauseCause::TooManySlots(count) => {
            put(out, "too_many_slots ")?;
            put_number(alloc, out, i128::from(*count))
        }
    }
}

/// A word and two numbers: that asked for, and how many there are.
fn put_asked(
    alloc: Global,
    out: &mut Vec<u8>,
    word: &str,
    asked: i128,
    there: u64,
) -> Result<(), AllocError> {
    put(out, word)?;
    put(out, " ")?;
    put_number(alloc, out, asked)?;
    put(out, " ")?;
    put_number(alloc, out, i128::from(there))
}

fn put_cause(alloc: Global, out: &mut Vec<u8>, cause: &EditCause) -> Result<(), AllocError> {
    match cause {
        EditCause::Syntax => put(out, "syntax"),
        EditCause::TooDeep => put(out, "too_deep"),
        EditCause::TermArity => put(out, "term_arity"),
        EditCause::BadEdit => put(out, "bad_edit"),
        EditCause::UnknownModule => put(out, "unknown_module"),
        EditCause::Clause(cause) => put_clause_cause(alloc, out, cause),
        EditCause::BadProperty => put(out, "bad_property"),
        EditCause::NoSuchClause { asked, there } => {
            put_asked(alloc, out, "no_such_clause", *asked, *there)
        }
        EditCause::NoSuchEntry { asked, there } => {
            put_asked(alloc, out, "no_such_entry", *asked, *there)
        }
        EditCause::NoSuchCheck { asked, there } => {
            put_asked(alloc, out, "no_such_check", *asked, *there)
        }
        EditCause::ImportClash => put(out, "import_clash"),
        EditCause::TooManyItems => put(out, "too_many_items"),
    }
}

fn word(cause: LexCause) -> &'static str {
    match cause {
        LexCause::BadCharacter => "bad_character",
        LexCause::OpenQuote => "open_quote",
        LexCause::OpenComment => "open_comment",
        LexCause::BadEscape => "bad_escape",
        LexCause::NumberTooLarge => "number_too_large",
    }
}

/// The program after an edit, which is shown, or the same one, with the cause. A copy of the edit is carried out, and the
/// program before it must show as before.
fn edited(alloc: Global, program: Program, edit: &Edit, out: &mut Vec<u8>) -> Result<Program, Fail>
    requires { IsReadableEdit edit.now }
{
    let before = shown(alloc, &program)?;
    let answer = apply(alloc, &program, &edit.copy(alloc)?);
    if shown(alloc, &program)?.as_slice() != before.as_slice() {
        return Err(Fail::new("the program before the edit has changed"));
    }
    match answer {
        Ok(after) => {
            put_program(alloc, out, &after)?;
            Ok(after)
        }
        Err(EditFail::Refused(cause)) => {
            put_cause(alloc, out, &cause)?;
            Ok(program)
        }
        Err(EditFail::Memory) => Err(Fail::new("memory")),
    }
}

/// The program after a term of a script. Of a cause a copy is shown.
fn behind(
    alloc: Global,
    program: Program,
    item: &Result<Edit, EditCause>,
    out: &mut Vec<u8>,
) -> Result<Program, Fail>
    requires { IfOk item.now IsReadableEdit }
{
    match item {
        Ok(edit) => edited(alloc, program, edit, out),
        Err(cause) => {
            put_cause(alloc, out, &cause.copy(alloc)?)?;
            Ok(program)
        }
    }
}

fn put_items(
    alloc: Global,
    program: Program,
    items: &[Result<Edit, EditCause>],
    out: &mut Vec<u8>,
) -> Result<(), Fail>
    requires { All (λ item. IfOk item IsReadableEdit) items.now }
{
    let mut program = program;
    let mut between = "";
    for item in items {
        put(out, between)?;
        program = behind(alloc, program, item, out)?;
        between = "\n";
    }
    Ok(())
}

/// What the terms of a script make of a program, each a line: the program, or why the term is refused. Of a script that isn't
/// read, the number of the term, the cause and the place.
pub(crate) fn answer(alloc: Global, program: Program, case: &str) -> Result<Vec<u8>, Fail> {
    let mut out = Vec::new(alloc);
    let script = script_of(alloc, case)?;
    let text = script.as_bytes();
    if text.len() > 10_000_000 {
        return Err(Fail::new("a long script"));
    }
    match read_script(alloc, text) {
        Ok(items) => put_items(alloc, program, items.as_slice(), &mut out)?,
        Err(ScriptFail::Memory) => return Err(Fail::new("memory")),
        Err(ScriptFail::Lex { term, cause, at }) => {
            put_number(alloc, &mut out, i128::from(term))?;
            put(&mut out, " ")?;
            put(&mut out, word(cause))?;
            put(&mut out, " ")?;
            put_number(alloc, &mut out, i128::from(at))?;
        }
    }
    Ok(out)
}

fn file(alloc: Global, text: &str) -> Result<NamedText, Fail>
    ensures { IfOk result (λ file. length file.text ≤ 1000000) }
{
    if text.as_bytes().len() > 1_000_000 {
        return Err(Fail::new("a long file"));
    }
    Ok(NamedText {
        name: Text::new(String::from_str(alloc, "a.pl")?),
        text: Listed::new(Vec::from_slice(alloc, text.as_bytes())?),
    })
}

/// The program of two files.
pub(crate) fn program_of(alloc: Global, first: &str, second: &str) -> Result<Program, Fail> {
    let files = vec![in alloc; file(alloc, first)?, file(alloc, second)?]?;
    match load(alloc, files.as_slice()) {
        Ok(program) => Ok(program),
        Err(_) => Err(Fail::new("no program")),
    }
}
