ghost use Rattle.std.specs.Prelude.{◌≤◌, All, IfOk};
ghost use Rattle.plai_terms.specs.Pattern.{arity_of};
ghost use Rattle.plai_render.specs.Order.{IsNarrow};

use plai_assert::Verdict;
use plai_base::Mask;
use plai_clauses::{Check, CheckKind};
use plai_render::{
    PlainRow, TextRow, distinct_names_are_apart, names_have_different_texts, render_stopped,
    render_table, render_texts, sort_rows, sort_texts,
};
use plai_terms::{Abs, Listed, Name, PredKey, RowName};
use std::alloc::{AllocError, Global};
use std::test::Fail;

fn set(alloc: Global, bits: &[u64]) -> Result<Abs, AllocError>
    ensures { IfOk result (λ abs. arity_of abs ≤ 16) }
{
    let mut masks = Vec::new(alloc);
    for mask in bits {
        masks.push(Mask::from_bits(*mask))?;
    }
    Ok(Abs::Pos(1, Listed::new(masks)))
}

fn row(
    alloc: Global,
    module: &[u8],
    name: &[u8],
    call: &[u64],
    answer: Abs,
) -> Result<PlainRow, AllocError>
    requires { arity_of answer ≤ 16 }
    ensures { IfOk result IsNarrow }
{
    let pred = PredKey {
        module: Name::new(Vec::from_slice(alloc, module)?),
        name: Name::new(Vec::from_slice(alloc, name)?),
        arity: 1,
    };
    let call = set(alloc, call)?;
    Ok(PlainRow {
        name: RowName { pred, call },
        answer,
    })
}

fn sample(alloc: Global) -> Result<Vec<PlainRow>, AllocError>
    ensures { IfOk result (λ rows. All IsNarrow rows.items) }
{
    let ground = set(alloc, &[1])?;
    let mut rows = Vec::new(alloc);
    rows.push(row(alloc, b"m", b"u", &[0, 1], set(alloc, &[])?)?)?;
    rows.push(row(alloc, b"m", b"p", &[0, 1], ground)?)?;
    rows.push(row(alloc, b"k", b"=", &[0, 1], Abs::Nothing)?)?;
    rows.push(row(alloc, b"m", b"u", &[1], Abs::Nothing)?)?;
    Ok(rows)
}

#[test]
fn empty_tables_print(rt: HostRuntime) -> Result<(), Fail> {
    let alloc = rt.alloc();
    distinct_names_are_apart();
    names_have_different_texts();
    let mut out = Vec::from_slice(alloc, b"> ")?;
    render_table(alloc, 18446744073709551615, &[], &[], &[], &mut out)?;
    let printed = b"> edit 18446744073709551615\nend\n";
    assert_eq!(rt; out.as_slice(), printed.as_slice());
    Ok(())
}

#[test]
fn rows_are_sorted(rt: HostRuntime) -> Result<(), Fail> {
    let alloc = rt.alloc();
    let mut rows = sample(alloc)?;
    sort_rows(alloc, &mut rows)?;
    let mut out = Vec::new(alloc);
    render_table(alloc, 7, &rows, &[], &[], &mut out)?;
    let printed = b"edit 7
row k:'='/1 call t answer none
row m:p/1 call t answer (1 t f)
row m:u/1 call (1 t f) answer none
row m:u/1 call t answer f
end
";
    assert_eq!(rt; out.as_slice(), printed.as_slice());
    Ok(())
}

fn text(alloc: Global, name: &[u8], call: &[u8], answer: &[u8]) -> Result<TextRow, AllocError> {
    let pred = PredKey {
        module: Name::new(Vec::from_slice(alloc, b"m")?),
        name: Name::new(Vec::from_slice(alloc, name)?),
        arity: 1,
    };
    Ok(TextRow {
        pred,
        call: Listed::new(Vec::from_slice(alloc, call)?),
        answer: Listed::new(Vec::from_slice(alloc, answer)?),
    })
}

/// An assertion of the module `+`, and two of the module `m`.
fn checks(alloc: Global) -> Result<Vec<Check>, AllocError> {
    let mut checks = Vec::new(alloc);
    for module in [b'+', b'm', b'm'] {
        let pred = PredKey {
            module: Name::new(vec![in alloc; module]?),
            name: Name::new(Vec::new(alloc)),
            arity: 0,
        };
        checks.push(Check {
            module: pred.module.copy(alloc)?,
            kind: CheckKind::Calls,
            pred,
            pre: Listed::new(Vec::new(alloc)),
            post: Listed::new(Vec::new(alloc)),
        })?;
    }
    Ok(checks)
}

#[test]
fn texts_are_sorted(rt: HostRuntime) -> Result<(), Fail> {
    let alloc = rt.alloc();
    let mut rows = Vec::new(alloc);
    rows.push(text(alloc, b"u", b"t", b"f")?)?;
    rows.push(text(alloc, b"p", b"t", b"(1 t f)")?)?;
    rows.push(text(alloc, b"u", b"(1 t f)", b"none")?)?;
    sort_texts(&mut rows);
    let mut out = Vec::new(alloc);
    let checks = checks(alloc)?;
    let verdicts = [Verdict::Check, Verdict::False, Verdict::Checked];
    render_texts(alloc, 3, &rows, &checks, &verdicts, &mut out)?;
    let printed = b"edit 3
row m:p/1 call t answer (1 t f)
row m:u/1 call (1 t f) answer none
row m:u/1 call t answer f
check + 1 check
check m 1 false
check m 2 checked
end
";
    assert_eq!(rt; out.as_slice(), printed.as_slice());
    Ok(())
}

#[test]
fn stopped_blocks_print(rt: HostRuntime) -> Result<(), Fail> {
    let alloc = rt.alloc();
    let mut out = Vec::new(alloc);
    render_stopped(alloc, 0, Some(1), &mut out)?;
    render_stopped(alloc, 12, None, &mut out)?;
    let printed = b"edit 0\nstopped rows 1\nend\nedit 12\nstopped groups 65536\nend\n";
    assert_eq!(rt; out.as_slice(), printed.as_slice());
    Ok(())
}
