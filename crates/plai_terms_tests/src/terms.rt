// Names, terms and patterns: their texts, their copies and their order.
ghost use Rattle.std.specs.Prelude.{◌≤◌, IfOk};
ghost use Rattle.plai_terms.specs.Pattern.{arity_of};

use plai_base::Mask;
use plai_terms::{
    Abs, Args, Listed, Name, NonEmpty, PredKey, Prop, ReadTerm, RowName, Skeleton, Subst, Term,
    equality_is_exact, print_abs, print_atom, print_name, print_quoted, print_term,
    rows_are_ordered, term_texts_differ, texts_differ,
};
use std::alloc::{AllocError, Global};
use std::test::Fail;

pub(crate) fn name(alloc: Global, text: &[u8]) -> Result<Name, AllocError> {
    Ok(Name::new(Vec::from_slice(alloc, text)?))
}

/// As what a name prints.
enum As {
    Atom,
    RowName,
    Quoted,
}

const NAMES: [(As, &[u8], &[u8]); 29] = [
    (As::Atom, b"abC_1", b"abC_1"),
    (As::Atom, b":-", b":-"),
    (As::Atom, b"[]", b"[]"),
    (As::Atom, b"!", b"!"),
    (As::Atom, b";", b";"),
    (As::Atom, b".", b"'.'"),
    (As::Atom, b"..", b".."),
    (As::Atom, b"/*", b"'/*'"),
    (As::Atom, b"*/", b"*/"),
    (As::Atom, b"/", b"/"),
    (As::Atom, b"", b"''"),
    (As::Atom, b"Ab", b"'Ab'"),
    (As::Atom, b"_a", b"'_a'"),
    (As::Atom, b"1", b"'1'"),
    (As::Atom, b"a b", b"'a b'"),
    (As::Atom, b"it's", b"'it''s'"),
    (As::Atom, b"a\\", b"'a\\\\'"),
    (As::Atom, b"a\nb", b"'a\\nb'"),
    (
        As::Atom,
        b"\t\x00\x1f\x7f",
        b"'\\x09\\\\x00\\\\x1f\\\\x7f\\'",
    ),
    (As::Atom, b"\xc3\xa4", b"'\xc3\xa4'"),
    (As::Atom, b",", b"','"),
    (As::Atom, b"|", b"'|'"),
    (As::Atom, b"{}", b"'{}'"),
    (As::RowName, b"app", b"app"),
    (As::RowName, b":", b"':'"),
    (As::RowName, b"/*", b"'/*'"),
    (As::RowName, b"[]", b"[]"),
    (As::RowName, b"a b", b"'a b'"),
    (As::Quoted, b"a.pl", b"'a.pl'"),
];

fn name_text(alloc: Global, way: &As, text: &[u8]) -> Result<Vec<u8>, AllocError> {
    let name = name(alloc, text)?;
    let mut out = Vec::new(alloc);
    match way {
        As::Atom => print_atom(alloc, &name, &mut out)?,
        As::RowName => print_name(alloc, &name, &mut out)?,
        As::Quoted => print_quoted(alloc, &name, &mut out)?,
    }
    Ok(out)
}

#[test]
fn names_print_bare_or_quoted(rt: HostRuntime) -> Result<(), Fail> {
    for (way, text, wanted) in &NAMES {
        let found = name_text(rt.alloc(), way, text)?;
        assert!(rt; found.as_slice() == *wanted, "{text:?}");
    }
    Ok(())
}

// f('X','it''s'(_3,-7))
fn sample(alloc: Global) -> Result<Term, AllocError> {
    let inner = Args::new(vec![in alloc; Term::Var(3), Term::Int(-7)]?);
    let quoted = Term::Compound(name(alloc, b"it's")?, inner);
    let items = vec![in alloc; Term::Atom(name(alloc, b"X")?), quoted]?;
    Ok(Term::Compound(name(alloc, b"f")?, Args::new(items)))
}

fn is_copied(alloc: Global, term: &Term) -> Result<bool, AllocError> {
    if let Term::Compound(_, args) = term {
        if args.copy(alloc)? != *args {
            return Ok(false);
        }
    }
    Ok(term.copy(alloc)? == *term)
}

/// The text of the term behind what stands there, where all its variables are below the first number and not the second.
fn term_text(alloc: Global, term: &Term, below: u32, not: u32) -> Result<Vec<u8>, AllocError> {
    let mut out = Vec::from_slice(alloc, b"> ")?;
    if term.has_variables_below(alloc, below)? && !term.has_variables_below(alloc, not)? {
        print_term(alloc, term, &mut out)?;
    }
    Ok(out)
}

#[test]
fn terms_print_and_copy(rt: HostRuntime) -> Result<(), Fail> {
    let term = sample(rt.alloc())?;
    let is_copied = is_copied(rt.alloc(), &term)?;
    let text = term_text(rt.alloc(), &term, 4, 3)?;
    assert!(rt; is_copied && text.as_slice() == b"> f('X','it''s'(_3,-7))".as_slice());
    Ok(())
}

/// How many pairs are left where these variables are kept.
fn kept(alloc: Global, subst: &Subst, variables: &[u32]) -> Result<usize, AllocError> {
    Ok(subst.restrict(alloc, variables)?.as_slice().len())
}

fn applied(alloc: Global, subst: &Subst) -> Result<Vec<u8>, AllocError> {
    let term = subst.apply(alloc, &sample(alloc)?)?;
    let mut out = Vec::new(alloc);
    print_term(alloc, &term, &mut out)?;
    Ok(out)
}

#[test]
fn substitutions_replace_variables(rt: HostRuntime) -> Result<(), Fail> {
    let subst = Subst::single(rt.alloc(), 3, Term::Atom(name(rt.alloc(), b"a")?))?;
    let kept = (
        kept(rt.alloc(), &subst, &[2, 3])?,
        kept(rt.alloc(), &subst, &[2])?,
    );
    let text = applied(rt.alloc(), &subst)?;
    assert!(rt; kept == (1, 0) && text.as_slice() == b"f('X','it''s'(a,-7))".as_slice());
    Ok(())
}

fn masks(alloc: Global, bits: &[u64]) -> Result<Listed<Mask>, AllocError> {
    let mut masks = Vec::new(alloc);
    for mask in bits {
        masks.push(Mask::from_bits(*mask))?;
    }
    Ok(Listed::new(masks))
}

/// What a pattern is of: assignments of so many slots, or groups of ten and free slots.
enum Of {
    Assignments(u32),
    Groups(u64),
}

const PATTERNS: [(Of, &[u64], &[u8]); 17] = [
    (Of::Assignments(0), &[0], b"t"),
    (Of::Assignments(0), &[], b"f"),
    (Of::Assignments(1), &[0, 1], b"t"),
    (Of::Assignments(1), &[1], b"(1 t f)"),
    (Of::Assignments(1), &[0], b"(1 f t)"),
    (Of::Assignments(2), &[3], b"(1 (2 t f) f)"),
    (Of::Assignments(2), &[2, 3], b"(2 t f)"),
    (Of::Assignments(3), &[3, 7], b"(1 (2 t f) f)"),
    (Of::Assignments(3), &[7], b"(1 (2 (3 t f) f) f)"),
    (
        Of::Assignments(3),
        &[0, 6, 7],
        b"(1 (2 (3 t f) f) (2 (3 t f) (3 f t)))",
    ),
    (Of::Assignments(2), &[0, 3], b"(1 (2 t f) (2 f t))"),
    (Of::Groups(3), &[1, 2], b"sh={1,2} fr={1,2}"),
    (Of::Groups(3), &[3], b"sh={1.2} fr={1,2}"),
    (Of::Groups(0), &[3, 5, 7], b"sh={1.2,1.2.3,1.3} fr={}"),
    (Of::Groups(0), &[3, 5], b"sh={1.2,1.3} fr={}"),
    (Of::Groups(0), &[], b"sh={} fr={}"),
    (Of::Groups(512), &[1, 2, 3, 512], b"sh={1,1.2,2,10} fr={10}"),
];

fn pattern(alloc: Global, of: &Of, bits: &[u64]) -> Result<Abs, AllocError>
    ensures { IfOk result (λ abs. arity_of abs ≤ 16) }
{
    match of {
        Of::Assignments(arity) if *arity <= 16 => Ok(Abs::Pos(*arity, masks(alloc, bits)?)),
        Of::Assignments(_) => Ok(Abs::Nothing),
        Of::Groups(free) => Ok(Abs::Groups(10, masks(alloc, bits)?, Mask::from_bits(*free))),
    }
}

/// The text of a copy of the pattern.
fn pattern_text(alloc: Global, abs: &Abs) -> Result<Vec<u8>, AllocError>
    requires { arity_of abs.now ≤ 16 }
{
    let mut out = Vec::new(alloc);
    print_abs(alloc, &abs.copy(alloc)?, &mut out)?;
    Ok(out)
}

#[test]
fn patterns_print(rt: HostRuntime) -> Result<(), Fail> {
    for (of, bits, wanted) in &PATTERNS {
        let found = pattern_text(rt.alloc(), &pattern(rt.alloc(), of, bits)?)?;
        assert!(rt; found.as_slice() == *wanted, "{bits:?}");
    }
    Ok(())
}

fn cut(alloc: Global, functor: &[u8]) -> Result<Skeleton, AllocError> {
    let args = vec![in alloc; Skeleton::Any, Skeleton::Integer]?;
    Ok(Skeleton::Compound(name(alloc, functor)?, Listed::new(args)))
}

fn skeletons(alloc: Global) -> Result<Vec<Skeleton>, AllocError> {
    let any = Skeleton::Atom(name(alloc, b"any")?);
    let other = Skeleton::Atom(name(alloc, b"a")?);
    Ok(vec![in alloc; cut(alloc, b"any")?, any, other, Skeleton::Int(-3)]?)
}

fn cut_text(alloc: Global, skeletons: Vec<Skeleton>) -> Result<Vec<u8>, AllocError> {
    if skeletons.len() > 16 {
        return Ok(Vec::new(alloc));
    }
    pattern_text(alloc, &Abs::Terms(Listed::new(skeletons)))
}

#[test]
fn terms_cut_at_a_depth_print(rt: HostRuntime) -> Result<(), Fail> {
    let found = cut_text(rt.alloc(), skeletons(rt.alloc())?)?;
    assert!(rt; found.as_slice() == b"(any(any,int),'any',a,-3)".as_slice());
    let found = cut_text(rt.alloc(), Vec::new(rt.alloc()))?;
    assert!(rt; found.as_slice() == b"()".as_slice());
    let found = pattern_text(rt.alloc(), &Abs::Nothing)?;
    assert!(rt; found.as_slice() == b"none".as_slice());
    Ok(())
}

fn key(alloc: Global, predicate: &[u8], arity: u32) -> Result<PredKey, AllocError> {
    Ok(PredKey {
        module: name(alloc, b"m")?,
        name: name(alloc, predicate)?,
        arity,
    })
}

/// The row of `p/1` at a term cut at a depth.
fn row(alloc: Global) -> Result<RowName, AllocError> {
    Ok(RowName {
        pred: key(alloc, b"p", 1)?,
        call: Abs::Terms(Listed::new(vec![in alloc; cut(alloc, b"g")?]?)),
    })
}

fn are_copied(alloc: Global, row: &RowName) -> Result<bool, AllocError> {
    if row.copy(alloc)? != *row || row.call.copy(alloc)? != row.call {
        return Ok(false);
    }
    Ok(row.pred.copy(alloc)? == row.pred && row.pred.name.copy(alloc)? == row.pred.name)
}

fn others_are_copied(alloc: Global, read: &ReadTerm) -> Result<bool, AllocError> {
    let skeleton = cut(alloc, b"g")?;
    Ok(read.copy(alloc)? == *read && skeleton.copy(alloc)? == skeleton)
}

#[test]
fn copies_are_equal(rt: HostRuntime) -> Result<(), Fail> {
    let are_copied = are_copied(rt.alloc(), &row(rt.alloc())?)?;
    let term = sample(rt.alloc())?;
    let others = others_are_copied(rt.alloc(), &ReadTerm { term, variables: 4 })?;
    assert!(rt; are_copied && others);
    Ok(())
}

/// Whether the key of `p/2` is less than another.
fn is_less(alloc: Global, predicate: &[u8], arity: u32) -> Result<bool, AllocError> {
    Ok(key(alloc, b"p", 2)? < key(alloc, predicate, arity)?)
}

/// How many items are given back of a name, of a list and of arguments.
fn lengths(alloc: Global) -> Result<(usize, usize, usize), AllocError> {
    let bytes = name(alloc, b"abc")?.into_vec().len();
    let masks = masks(alloc, &[5])?.into_vec().len();
    let args = NonEmpty::new(vec![in alloc; 7, 8]?);
    Ok((bytes, masks, args.into_vec().len()))
}

#[test]
fn names_compare(rt: HostRuntime) -> Result<(), Fail> {
    equality_is_exact();
    rows_are_ordered();
    term_texts_differ();
    texts_differ();
    let less = (
        is_less(rt.alloc(), b"pp", 1)?,
        is_less(rt.alloc(), b"p", 1)?,
    );
    let lengths = lengths(rt.alloc())?;
    assert!(rt; less == (true, false) && lengths == (3, 1, 2) && Prop::Ground(1) != Prop::Var(1));
    Ok(())
}
