ghost use Rattle.std.specs.Prelude.{◌≡◌, true, IfOk};
ghost use Rattle.plai_terms.specs.Substitution.{AreBelow};

use plai_builtins::{meaning, meanings_are_allowed};
use plai_terms::{Args, Name, Subst, Term, print_term};
use std::alloc::{AllocError, Global};
use std::test::Fail;

// A number above the variables of each case.
const FRESH: u32 = 10;

fn named(alloc: Global, name: &[u8]) -> Result<Name, AllocError> {
    Ok(Name::new(Vec::from_slice(alloc, name)?))
}

// A compound of the last terms.
fn compound(
    alloc: Global,
    name: &[u8],
    count: u8,
    terms: &mut Vec<Term>,
) -> Result<Term, AllocError> {
    let mut args = Vec::new(alloc);
    for _ in 0..count {
        if let Some(arg) = terms.pop() {
            args.insert(0, arg)?;
        }
    }
    let name = named(alloc, name)?;
    if args.is_empty() {
        Ok(Term::Atom(name))
    } else {
        Ok(Term::Compound(name, Args::new(args)))
    }
}

// A variable as `_2`, an integer, a compound of the last terms as `f/2`, or an atom.
fn term(alloc: Global, word: &str, terms: &mut Vec<Term>) -> Result<Term, AllocError> {
    if let Ok(number) = word.parse::<i32>() {
        return Ok(Term::Int(number as i128));
    }
    match word.as_bytes() {
        [b'_', digit] => Ok(Term::Var(digit.saturating_sub(b'0') as u32)),
        [name, b'/', digit] => compound(alloc, &[*name], digit.saturating_sub(b'0'), terms),
        name => Ok(Term::Atom(named(alloc, name)?)),
    }
}

fn terms(alloc: Global, words: &[&str]) -> Result<Vec<Term>, AllocError> {
    let mut terms = Vec::new(alloc);
    for word in words {
        let next = term(alloc, word, &mut terms)?;
        terms.push(next)?;
    }
    Ok(terms)
}

// Whether each variable is below the number.
fn are_below(alloc: Global, limit: u32, terms: &[Term]) -> Result<bool, AllocError>
    ensures { IfOk result (λ below. below ≡ true → AreBelow limit terms.now) }
{
    for term in terms {
        if !term.has_variables_below(alloc, limit)? {
            return Ok(false);
        }
    }
    Ok(true)
}

// `no`, or the bindings, each with a space behind it.
fn shown(alloc: Global, found: &Option<Subst>) -> Result<Vec<u8>, AllocError> {
    let mut out = Vec::new(alloc);
    match found {
        None => out.extend_from_slice(b"no")?,
        Some(bindings) => {
            for binding in bindings.as_slice() {
                print_term(alloc, &Term::Var(binding.0), &mut out)?;
                out.push(b'=')?;
                print_term(alloc, &binding.1, &mut out)?;
                out.push(b' ')?;
            }
        }
    }
    Ok(out)
}

// What the builtin means at these arguments.
fn meant(alloc: Global, name: &str, words: &[&str]) -> Result<Vec<u8>, AllocError> {
    let args = terms(alloc, words)?;
    if are_below(alloc, FRESH, &args)? {
        let found = meaning(alloc, &named(alloc, name.as_bytes())?, &args, FRESH)?;
        shown(alloc, &found)
    } else {
        Ok(Vec::new(alloc))
    }
}

// The substitutions of this table and the next are those of an implementation in Python; what comparisons answer at numbers
// and atoms is told by the standard.
#[test]
fn tests_bind_nothing(rt: HostRuntime) -> Result<(), Fail> {
    meanings_are_allowed();
    let alloc = rt.alloc();
    for name in ["true", "!", "nl"] {
        assert_eq!(rt;
            meant(alloc, name, &[])?.as_slice(),
            b"".as_slice(),
            "{name}"
        );
    }
    assert_eq!(rt; meant(alloc, "fail", &[])?.as_slice(), b"no".as_slice());
    for (name, words, wanted) in [
        ("write", ["_0"].as_slice(), ""),
        ("\\=", &["a", "b"], ""),
        ("\\=", &["_0", "b"], "no"),
        ("==", &["_0", "_0"], ""),
        ("==", &["_0", "_1"], "no"),
        ("\\==", &["_0", "_1"], ""),
        ("@<", &["_0", "1"], ""),
        ("@=<", &["a", "a"], ""),
        ("@=<", &["b", "a"], "no"),
        ("@>", &["a", "1"], ""),
        ("@>", &["a", "a"], "no"),
        ("@>=", &["a", "b"], "no"),
        ("var", &["_0"], ""),
        ("nonvar", &["_0"], "no"),
        ("atom", &["1"], "no"),
        ("atomic", &["1"], ""),
        ("ground", &["a", "f/1"], ""),
        ("ground", &["_0", "f/1"], "no"),
        ("integer", &["1"], ""),
        ("compound", &["_0", "f/1"], ""),
        ("=:=", &["2", "1", "1", "+/2"], ""),
        ("=\\=", &["1", "2"], ""),
        ("=\\=", &["2", "1", "1", "+/2"], "no"),
        ("<", &["1", "2"], ""),
        ("<", &["2", "1", "1", "+/2"], "no"),
        ("=<", &["2", "1", "1", "+/2"], ""),
        ("=<", &["2", "1"], "no"),
        (">", &["2", "1"], ""),
        (">", &["2", "1", "1", "+/2"], "no"),
        (">=", &["_0", "1"], "no"),
        ("p", &["_0"], "no"),
    ] {
        assert_eq!(rt;
            meant(alloc, name, words)?.as_slice(),
            wanted.as_bytes(),
            "{name}"
        );
    }
    Ok(())
}

#[test]
fn equations_bind_variables(rt: HostRuntime) -> Result<(), Fail> {
    let alloc = rt.alloc();
    for (name, words, wanted) in [
        (
            "=",
            ["_0", "b", "f/2", "a", "_1", "f/2"].as_slice(),
            "_0=a _1=b ",
        ),
        ("=", &["_0", "_0", "f/1"], "no"),
        ("is", &["_0", "1", "2", "+/2"], "_0=3 "),
        ("is", &["_0", "_1"], "no"),
        ("functor", &["_0", "b", "f/2", "_1", "_2"], "_1=f _2=2 "),
        ("functor", &["7", "_1", "_2"], "_1=7 _2=0 "),
        ("functor", &["_0", "f", "2"], "_0=f(_10,_11) "),
        ("functor", &["_0", "7", "0"], "_0=7 "),
        ("functor", &["_0", "7", "1"], "no"),
        ("functor", &["_0", "f", "256"], "no"),
        ("arg", &["2", "a", "b", "f/2", "_0"], "_0=b "),
        ("arg", &["0", "a", "f/1", "_0"], "no"),
        ("arg", &["3", "a", "b", "f/2", "_0"], "no"),
        (
            "=..",
            &["_0", "b", "f/2", "_1"],
            "_1='.'(f,'.'(_0,'.'(b,[]))) ",
        ),
        ("=..", &["f", "_1"], "_1='.'(f,[]) "),
        ("=..", &["_0", "f", "_1", "[]", "./2", "./2"], "_0=f(_1) "),
        ("=..", &["_0", "7", "[]", "./2"], "_0=7 "),
        ("=..", &["_0", "[]"], "no"),
        ("=..", &["_0", "7", "a", "[]", "./2", "./2"], "no"),
        (
            "copy_term",
            &["_1", "_0", "_1", "f/3", "_2"],
            "_2=f(_10,_11,_10) ",
        ),
        (
            "copy_term",
            &["_1", "_0", "f/2", "a", "_3", "f/2"],
            "_3=_11 ",
        ),
    ] {
        assert_eq!(rt;
            meant(alloc, name, words)?.as_slice(),
            wanted.as_bytes(),
            "{name}"
        );
    }
    Ok(())
}

// A list of the atom `f` and so many variables.
fn list_of(alloc: Global, count: u32) -> Result<Term, AllocError> {
    let mut list = Term::Atom(named(alloc, b"[]")?);
    for i in 0..count {
        let args = vec![in alloc; Term::Var(i + 1), list]?;
        list = Term::Compound(named(alloc, b".")?, Args::new(args));
    }
    let args = vec![in alloc; Term::Atom(named(alloc, b"f")?), list]?;
    Ok(Term::Compound(named(alloc, b".")?, Args::new(args)))
}

// Compounds have at most 255 arguments.
#[test]
fn the_widest_compounds_are_made(rt: HostRuntime) -> Result<(), Fail> {
    let alloc = rt.alloc();
    for (count, wanted) in [(255, 1), (256, 0)] {
        let functor = vec![in alloc;
            Term::Var(0),
            Term::Atom(named(alloc, b"f")?),
            Term::Int(count as i128),
        ]?;
        assert_eq!(rt; bindings_of(alloc, "functor", &functor)?, wanted);
        let univ = vec![in alloc; Term::Var(0), list_of(alloc, count)?]?;
        assert_eq!(rt; bindings_of(alloc, "=..", &univ)?, wanted);
    }
    Ok(())
}

// How many variables the builtin binds, 0 where it fails.
fn bindings_of(alloc: Global, name: &str, args: &[Term]) -> Result<usize, AllocError> {
    if !are_below(alloc, 1_000, args)? {
        return Ok(0);
    }
    match meaning(alloc, &named(alloc, name.as_bytes())?, args, 1_000)? {
        Some(bindings) => Ok(bindings.as_slice().len()),
        None => Ok(0),
    }
}
