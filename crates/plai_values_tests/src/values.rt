use plai_terms::{Args, Name, Term};
use plai_values::{Comparison, compare, is_ground_term, same_term, term_order_is_total, value};
use std::alloc::{AllocError, Global};
use std::cmp::Ordering;
use std::test::Fail;

const MIN: i128 = i128::MIN;

const MAX: i128 = i128::MAX;

fn name(alloc: Global, text: &[u8]) -> Result<Name, AllocError> {
    Ok(Name::new(Vec::from_slice(alloc, text)?))
}

fn atom(alloc: Global, text: &[u8]) -> Result<Term, AllocError> {
    Ok(Term::Atom(name(alloc, text)?))
}

fn of_one(alloc: Global, text: &[u8], arg: Term) -> Result<Term, AllocError> {
    Ok(Term::Compound(name(alloc, text)?, Args::new(vec![in alloc; arg]?)))
}

fn of_two(alloc: Global, text: &[u8], left: Term, right: Term) -> Result<Term, AllocError> {
    Ok(Term::Compound(name(alloc, text)?, Args::new(vec![in alloc; left, right]?)))
}

// The values of the next two tables are those that Python computes.
#[test]
fn values_of_one(rt: HostRuntime) -> Result<(), Fail> {
    let alloc = rt.alloc();
    for (text, arg, wanted) in [
        (
            b"-".as_slice(),
            MAX,
            Some(-170141183460469231731687303715884105727),
        ),
        (b"-", MIN, None),
        (b"-", 0, Some(0)),
        (b"\\", 0, Some(-1)),
        (b"\\", MIN, Some(MAX)),
        (b"\\", -6, Some(5)),
        (b"abs", -7, Some(7)),
        (b"abs", MIN, None),
        (b"abs", MAX, Some(MAX)),
        (b"sign", MIN, Some(-1)),
        (b"sign", 0, Some(0)),
        (b"sign", MAX, Some(1)),
    ] {
        let term = of_one(alloc, text, Term::Int(arg))?;
        assert_eq!(rt; value(alloc, &term)?, wanted);
    }
    Ok(())
}

#[test]
fn values_of_two(rt: HostRuntime) -> Result<(), Fail> {
    let alloc = rt.alloc();
    for (text, left, right, wanted) in [
        (b"+".as_slice(), MAX, 0, Some(MAX)),
        (b"+", MAX, 1, None),
        (b"+", MIN, -1, None),
        (b"+", MAX, MIN, Some(-1)),
        (b"-", MIN, 1, None),
        (b"-", -1, MAX, Some(MIN)),
        (b"-", 0, MIN, None),
        (b"-", -1, MIN, Some(MAX)),
        (
            b"*",
            MAX,
            -1,
            Some(-170141183460469231731687303715884105727),
        ),
        (b"*", MIN, -1, None),
        (b"*", MIN, 1, Some(MIN)),
        (b"*", 18446744073709551616, 9223372036854775808, None),
        (b"*", -18446744073709551616, 9223372036854775808, Some(MIN)),
        (b"//", 7, 2, Some(3)),
        (b"//", -7, 2, Some(-3)),
        (b"//", 7, -2, Some(-3)),
        (b"//", -7, -2, Some(3)),
        (b"//", MIN, -1, None),
        (b"//", MIN, MAX, Some(-1)),
        (b"//", 1, 0, None),
        (b"rem", 7, 2, Some(1)),
        (b"rem", -7, 2, Some(-1)),
        (b"rem", 7, -2, Some(1)),
        (b"rem", -7, -2, Some(-1)),
        (b"rem", MIN, -1, Some(0)),
        (b"rem", MIN, MAX, Some(-1)),
        (b"rem", 1, 0, None),
        (b"mod", 7, 2, Some(1)),
        (b"mod", -7, 2, Some(1)),
        (b"mod", 7, -2, Some(-1)),
        (b"mod", -7, -2, Some(-1)),
        (b"mod", 6, -2, Some(0)),
        (b"mod", MIN, -1, Some(0)),
        (
            b"mod",
            MIN,
            MAX,
            Some(170141183460469231731687303715884105726),
        ),
        (b"mod", MAX, MIN, Some(-1)),
        (b"mod", 1, 0, None),
        (b"/", 6, -2, Some(-3)),
        (b"/", 7, 2, None),
        (b"/", MIN, -1, None),
        (b"/", MIN, 2, Some(-85070591730234615865843651857942052864)),
        (b"/", 0, 0, None),
        (b"/\\", -2, 7, Some(6)),
        (b"/\\", MIN, MAX, Some(0)),
        (b"/\\", MIN, -1, Some(MIN)),
        (b"\\/", -8, 5, Some(-3)),
        (b"\\/", MIN, MAX, Some(-1)),
        (b"\\/", 6, 1, Some(7)),
        (b"<<", 1, 126, Some(85070591730234615865843651857942052864)),
        (b"<<", 1, 127, None),
        (b"<<", -1, 127, Some(MIN)),
        (b"<<", -1, 128, None),
        (b"<<", 0, 127, Some(0)),
        (b"<<", -2, 127, None),
        (b"<<", MAX, 0, Some(MAX)),
        (b"<<", 1, -1, None),
        (b">>", MAX, 126, Some(1)),
        (b">>", MIN, 127, Some(-1)),
        (b">>", -5, 1, Some(-3)),
        (b">>", 5, 127, Some(0)),
        (b">>", 5, 128, None),
        (b">>", 5, -1, None),
        (b">>", 5, 0, Some(5)),
        (b"min", MIN, MAX, Some(MIN)),
        (b"max", MIN, MAX, Some(MAX)),
        (b"min", -1, -2, Some(-2)),
        (b"max", -1, -2, Some(-1)),
        (b"^", 0, 0, Some(1)),
        (b"^", MIN, 0, Some(1)),
        (b"^", 2, 126, Some(85070591730234615865843651857942052864)),
        (b"^", 2, 127, None),
        (b"^", -2, 127, Some(MIN)),
        (b"^", -2, 128, None),
        (b"^", 3, 80, Some(147808829414345923316083210206383297601)),
        (b"^", 3, 81, None),
        (b"^", 2, -1, None),
        (b"^", 1, -1, None),
        (b"^", -1, MAX, Some(-1)),
        (b"^", -1, 170141183460469231731687303715884105726, Some(1)),
        (b"^", 1, MAX, Some(1)),
        (b"^", 0, MAX, Some(0)),
        (b"^", 2, MAX, None),
        (b"^", MIN, 1, Some(MIN)),
        (b"^", MIN, 2, None),
    ] {
        let term = of_two(alloc, text, Term::Int(left), Term::Int(right))?;
        assert_eq!(rt; value(alloc, &term)?, wanted);
    }
    Ok(())
}

#[test]
fn values_of_other_terms(rt: HostRuntime) -> Result<(), Fail> {
    let alloc = rt.alloc();
    assert_eq!(rt; value(alloc, &Term::Int(-3))?, Some(-3));
    assert_eq!(rt; value(alloc, &Term::Var(0))?, None);
    assert_eq!(rt; value(alloc, &atom(alloc, b"e")?)?, None);
    let unknown = of_two(alloc, b"gcd", Term::Int(4), Term::Int(6))?;
    assert_eq!(rt; value(alloc, &unknown)?, None);
    let open = of_two(alloc, b"+", Term::Int(1), Term::Var(0))?;
    assert_eq!(rt; value(alloc, &open)?, None);
    // 10 - (2 + 3) * 4
    let sum = of_two(alloc, b"+", Term::Int(2), Term::Int(3))?;
    let product = of_two(alloc, b"*", sum, Term::Int(4))?;
    let nested = of_two(alloc, b"-", Term::Int(10), product)?;
    assert_eq!(rt; value(alloc, &nested)?, Some(-10));
    Ok(())
}

// Each term stands before the next.
fn rising(alloc: Global) -> Result<Vec<Term>, AllocError> {
    Ok(vec![in alloc;
        Term::Var(2),
        Term::Var(10),
        Term::Int(MIN),
        Term::Int(-1),
        Term::Int(9),
        Term::Int(10),
        atom(alloc, b"")?,
        atom(alloc, b"Z")?,
        atom(alloc, b"a")?,
        atom(alloc, b"ab")?,
        of_one(alloc, b"z", Term::Int(9))?,
        of_two(alloc, b"a", Term::Var(0), Term::Int(9))?,
        of_two(alloc, b"f", Term::Int(1), Term::Int(3))?,
        of_two(alloc, b"f", Term::Int(2), Term::Int(1))?,
        of_two(alloc, b"f", Term::Int(2), atom(alloc, b"a")?)?,
        of_two(
            alloc,
            b"f",
            of_one(alloc, b"g", Term::Int(1))?,
            Term::Int(0)
        )?,
        of_two(
            alloc,
            b"f",
            of_one(alloc, b"g", Term::Int(1))?,
            Term::Int(7)
        )?,
    ]?)
}

#[test]
fn terms_stand_in_order(rt: HostRuntime) -> Result<(), Fail> {
    term_order_is_total();
    let alloc = rt.alloc();
    let terms = rising(alloc)?;
    for (i, left) in terms.iter().enumerate() {
        for (j, right) in terms.iter().enumerate() {
            assert_eq!(rt; compare(alloc, left, right)?, i.cmp(&j));
            assert_eq!(rt; same_term(alloc, left, right)?, i == j);
        }
    }
    Ok(())
}

#[test]
fn comparisons_by_name(rt: HostRuntime) {
    for (text, term_text, of_less, of_equal, of_greater) in [
        (b"=:=".as_slice(), b"==".as_slice(), false, true, false),
        (b"=\\=", b"\\==", true, false, true),
        (b"<", b"@<", true, false, false),
        (b"=<", b"@=<", true, true, false),
        (b">", b"@>", false, false, true),
        (b">=", b"@>=", false, true, true),
    ] {
        assert_eq!(rt;
            Comparison::named(text),
            Comparison::of_terms_named(term_text)
        );
        let comparison = Comparison::named(text).unwrap_or(Comparison::Eq);
        assert_eq!(rt; comparison.compares(MIN, MAX), of_less);
        assert_eq!(rt; comparison.compares(-1, -1), of_equal);
        assert_eq!(rt; comparison.holds_of(Ordering::Greater), of_greater);
    }
    assert_eq!(rt; Comparison::named(b"=="), None);
}

#[test]
fn variables_are_not_ground(rt: HostRuntime) -> Result<(), Fail> {
    let alloc = rt.alloc();
    assert!(rt; !is_ground_term(alloc, &of_two(alloc, b"f", Term::Int(1), Term::Var(0))?)?);
    assert!(rt;
        is_ground_term(
            alloc,
            &of_two(alloc, b"f", Term::Int(1), atom(alloc, b"a")?)?
        )?
    );
    Ok(())
}
