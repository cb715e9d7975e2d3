// What files give, as one line.
ghost use Rattle.std.specs.Prelude.{◌≡◌, ◌<◌, ◌≤◌, ◌^◌, All, IfOk, length};

use plai_clauses::{ClauseCause, Literal, Program, Target};
use plai_lex::LexCause;
use plai_modules::{LoadCause, LoadFail, NamedText, Text, load};
use plai_terms::{Listed, PredKey};
use std::alloc::{AllocError, Global};
use std::test::Fail;

/// What stands between two files of a case.
const BETWEEN: &str = "----";

fn put(out: &mut Vec<u8>, text: &str) -> Result<(), AllocError> {
    out.extend_from_slice(text.as_bytes())
}

fn put_pred(alloc: Global, out: &mut Vec<u8>, pred: &PredKey) -> Result<(), AllocError> {
    out.extend_from_slice(pred.module.as_slice())?;
    put(out, ":")?;
    out.extend_from_slice(pred.name.as_slice())?;
    put(out, "/")?;
    put(out, format!(in alloc; "{}", pred.arity)?.as_str())
}

fn put_body(alloc: Global, out: &mut Vec<u8>, body: &[Literal]) -> Result<(), AllocError> {
    for (i, literal) in body.iter().enumerate() {
        if i > 0 {
            put(out, ",")?;
        }
        match &literal.target {
            Target::Pred(pred) => put_pred(alloc, out, pred)?,
            Target::Builtin => put(out, "#")?,
        }
    }
    put(out, ";")
}

fn put_program(alloc: Global, out: &mut Vec<u8>, program: &Program) -> Result<(), AllocError> {
    put(out, format!(in alloc; "ok {}", program.items())?.as_str())?;
    for entry in program.entries() {
        put(out, " ")?;
        out.extend_from_slice(entry.module.as_slice())?;
        put(out, ">")?;
        put_pred(alloc, out, &entry.pred)?;
        put(out, "[")?;
        for clause in program.clauses_of(&entry.pred) {
            put_body(alloc, out, clause.body.as_slice())?;
        }
        put(out, "]")?;
    }
    for check in program.checks() {
        put(out, " ")?;
        out.extend_from_slice(check.module.as_slice())?;
        put(out, "?")?;
        put_pred(alloc, out, &check.pred)?;
    }
    Ok(())
}

fn word(cause: &LoadCause) -> &'static str {
    match cause {
        LoadCause::Lex(LexCause::BadCharacter, _) => "bad_character",
        LoadCause::Lex(LexCause::OpenQuote, _) => "open_quote",
        LoadCause::Lex(LexCause::OpenComment, _) => "open_comment",
        LoadCause::Lex(LexCause::BadEscape, _) => "bad_escape",
        LoadCause::Lex(LexCause::NumberTooLarge, _) => "number_too_large",
        LoadCause::Syntax => "syntax",
        LoadCause::TooDeep => "too_deep",
        LoadCause::TermArity => "term_arity",
        LoadCause::Clause(ClauseCause::NotAClause) => "not_a_clause",
        LoadCause::Clause(ClauseCause::Unsupported(_, _)) => "unsupported",
        LoadCause::Clause(ClauseCause::ArityTooLarge(_)) => "pred_arity",
        LoadCause::Clause(ClauseCause::TooManySlots(_)) => "too_many_slots",
        LoadCause::BadDirective => "bad_directive",
        LoadCause::BadOperator => "bad_operator",
        LoadCause::NoModule => "no_module",
        LoadCause::DuplicateModule => "duplicate_module",
        LoadCause::UnknownModule => "unknown_module",
        LoadCause::NotExported => "not_exported",
        LoadCause::ImportClash => "import_clash",
        LoadCause::BadProperty => "bad_property",
        LoadCause::TooManyItems => "too_many_items",
    }
}

/// A file of at most a million bytes.
fn file(alloc: Global, text: &[u8]) -> Result<NamedText, Fail>
    ensures { IfOk result (λ file. length file.text ≤ 1000000) }
{
    if text.len() > 1_000_000 {
        return Err(Fail::new("a long file"));
    }
    Ok(NamedText {
        name: Text::new(String::from_str(alloc, "a.pl")?),
        text: Listed::new(Vec::from_slice(alloc, text)?),
    })
}

/// The files of a case, ten at most.
fn files_of(alloc: Global, case: &str) -> Result<Vec<NamedText>, Fail>
    ensures few { IfOk result (λ files. length files.items ≤ 10) }
    ensures short { IfOk result (λ files. All (λ file. length file.text ≤ 1000000) files.items) }
{
    let mut files = Vec::new(alloc);
    for text in case.split(BETWEEN) {
        if files.len() >= 10 {
            return Err(Fail::new("many files"));
        }
        files.push(file(alloc, text.as_bytes())?)?;
    }
    Ok(files)
}

/// What the files of a case give: the program, or the first refused term.
pub(crate) fn answer(alloc: Global, case: &str) -> Result<Vec<u8>, Fail> {
    let files = files_of(alloc, case)?;
    let mut out = Vec::new(alloc);
    match load(alloc, files.as_slice()) {
        Ok(program) => put_program(alloc, &mut out, &program)?,
        Err(LoadFail::Memory) => put(&mut out, "memory")?,
        Err(LoadFail::Refused { file, term, cause }) => {
            let place = format!(in alloc; "{file} {term} {}", word(&cause))?;
            put(&mut out, place.as_str())?;
        }
    }
    Ok(out)
}
