//! The verdicts on the assertions of a program.
ghost use Rattle.std.specs.Prelude.{◌≡◌, cond, map, All, IfOk};
ghost use Rattle.plai_theory.specs.Words.{IsIn};
ghost use Rattle.plai_clauses.specs.declared.check.Check.{Check};
ghost use Rattle.plai_clauses.specs.WellFormed.{IsWellFormedCheck};
ghost use Rattle.plai_assert.specs.declared.verdict.Verdict.TheVariants.{Checked, False, Check as Unknown};
ghost use Rattle.plai_assert.specs.Groups.{group_of, verdict_among};
ghost use Rattle.plai_assert.specs.Rows.{plain, IsRowOf, IsFit};
ghost use Rattle.plai_assert.specs.Sides.{all_tell};
ghost use Rattle.plai_assert.specs.Verdicts.{verdict_of_kind, verdicts_of};

use crate::groups::{Groups, grouped};
use crate::row::Row;
use crate::sides::{Side, all_answers, all_calls};
use crate::verdict::Verdict;
use plai_clauses::{Check, CheckKind, Program};
use plai_domain::Domain;
use std::alloc::{AllocError, Global};

fn all_rows<D: Domain>(domain: &D, side: Side, check: &Check, rows: &[Row<'_, D::Value>]) -> bool
    requires rows { All (IsRowOf D.value_of (D.plain domain.now) check.now.pred.arity) rows.now }
    requires check { IsWellFormedCheck check.now }
    ensures { result ≡ all_tell check.now.kind side (D.plain domain.now) check.now (map (plain D.value_of) rows.now) }
{
    match check.kind {
        CheckKind::Calls => all_calls(domain, side, check, rows),
        CheckKind::Success => all_answers(domain, side, check, rows),
    }
}

/// The verdict where an assertion holds of all, or fails of all.
fn verdict_by(holds: bool, fails: bool) -> Verdict
    ensures { result ≡ cond holds Checked (cond fails False Unknown) }
{
    if holds {
        Verdict::Checked
    } else if fails {
        Verdict::False
    } else {
        Verdict::Check
    }
}

/// The verdict on an assertion by the rows of its predicate.
fn verdict_at<D: Domain>(domain: &D, check: &Check, rows: &[Row<'_, D::Value>]) -> Verdict
    requires rows { All (IsRowOf D.value_of (D.plain domain.now) check.now.pred.arity) rows.now }
    requires check { IsWellFormedCheck check.now }
    ensures { result ≡ verdict_of_kind check.now.kind (D.plain domain.now) check.now (map (plain D.value_of) rows.now) }
{
    let holds = all_rows(domain, Side::Holds, check, rows);
    let fails = all_rows(domain, Side::Fails, check, rows);
    verdict_by(holds, fails)
}

/// The verdict on an assertion by the rows that are found by its predicate.
fn verdict_in<D: Domain>(domain: &D, groups: &Groups<'_, D::Value>, check: &Check) -> Verdict
    requires rows { All (IsRowOf D.value_of (D.plain domain.now) check.now.pred.arity) (group_of groups.now.entries check.now.pred) }
    requires check { IsWellFormedCheck check.now }
    ensures { result ≡ verdict_among D.value_of (D.plain domain.now) groups.now.entries check.now }
{
    match groups.get(&check.pred) {
        Some(rows) => verdict_at(domain, check, rows.as_slice()),
        None => Verdict::Checked,
    }
}

/// The verdicts on assertions.
fn all_verdicts<D: Domain>(
    alloc: Global,
    domain: &D,
    groups: &Groups<'_, D::Value>,
    checks: &[Check],
) -> Result<Vec<Verdict>, AllocError>
    requires rows { (check : Check) → IsIn check checks.now → All (IsRowOf D.value_of (D.plain domain.now) check.pred.arity) (group_of groups.now.entries check.pred) }
    requires checks { (check : Check) → IsIn check checks.now → IsWellFormedCheck check }
    ensures { IfOk result (λ verdicts. verdicts.items ≡ map (verdict_among D.value_of (D.plain domain.now) groups.now.entries) checks.now) }
{
    let mut verdicts = Vec::new(alloc);
    for check in checks {
        verdicts.push(verdict_in(domain, groups, check))?;
    }
    Ok(verdicts)
}

/// The verdicts on the assertions of a program by the rows of a table: one for each, in the order of [`Program::checks`].
/// Calls and answers are values of as many arguments as the row's predicate has.
pub fn verdicts<D: Domain>(
    alloc: Global,
    domain: &D,
    program: &Program,
    rows: &[Row<'_, D::Value>],
) -> Result<Vec<Verdict>, AllocError>
    requires { All (IsFit D.value_of (D.plain domain.now)) rows.now }
    ensures { IfOk result (λ verdicts. verdicts.items ≡ verdicts_of (D.plain domain.now) (map (plain D.value_of) rows.now) program.now.checks) }
{
    program.is_program();
    let groups = grouped(alloc, rows)?;
    let found = all_verdicts(alloc, domain, &groups, program.checks())?;
    Ok(found)
}
