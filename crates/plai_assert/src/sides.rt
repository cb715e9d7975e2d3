//! What is tested of rows.
ghost use Rattle.std.specs.Prelude.{◌≡◌, unwrap_or, All, IfSome};
ghost use Rattle.std.specs.List.{list_all};
ghost use Rattle.std.specs.Option.{option_map};
ghost use Rattle.plai_terms.specs.declared.abs.Abs.TheVariants.{Nothing};
ghost use Rattle.plai_clauses.specs.WellFormed.{IsWellFormedCheck};
ghost use Rattle.plai_assert.specs.Rows.{plain, IsRowOf, SpeakOf};
ghost use Rattle.plai_assert.specs.Sides.{tells, holds_of_call, holds_of_answer, answer_tells};
ghost use Rattle.plai_assert.specs.Verdicts.{entails_all, excludes_one};

use crate::row::Row;
use plai_clauses::Check;
use plai_domain::Domain;
use plai_terms::Prop;

/// Which side of an assertion is tested.
#[derive(Clone, Copy, Debug, PartialEq, Eq)]
pub(crate) enum Side {
    /// That all properties hold.
    Holds,
    /// That one of them fails.
    Fails,
}

fn entails_all<D: Domain>(domain: &D, value: &D::Value, props: &[Prop]) -> bool
    requires { SpeakOf (D.plain domain.now) props.now (D.value_of value.now) }
    ensures { result ≡ entails_all (D.plain domain.now) props.now (D.value_of value.now) }
{
    for prop in props {
        if !domain.entails(value, prop) {
            return false;
        }
    }
    true
}

fn excludes_one<D: Domain>(domain: &D, value: &D::Value, props: &[Prop]) -> bool
    requires { SpeakOf (D.plain domain.now) props.now (D.value_of value.now) }
    ensures { result ≡ excludes_one (D.plain domain.now) props.now (D.value_of value.now) }
{
    for prop in props {
        if domain.excludes(value, prop) {
            return true;
        }
    }
    false
}

/// Whether the value tells that side of the properties.
fn tells<D: Domain>(domain: &D, side: Side, value: &D::Value, props: &[Prop]) -> bool
    requires { SpeakOf (D.plain domain.now) props.now (D.value_of value.now) }
    ensures { result ≡ tells side (D.plain domain.now) props.now (D.value_of value.now) }
{
    match side {
        Side::Holds => entails_all(domain, value, props),
        Side::Fails => excludes_one(domain, value, props),
    }
}

/// Whether an answer tells that side of the properties. Where there is none, both sides are told.
fn answer_tells<D: Domain>(
    domain: &D,
    side: Side,
    answer: Option<&D::Value>,
    props: &[Prop],
) -> bool
    requires { IfSome answer (λ v. SpeakOf (D.plain domain.now) props.now (D.value_of v.now)) }
    ensures { result ≡ answer_tells side (D.plain domain.now) props.now (unwrap_or (option_map (λ v. D.value_of v.now) answer.entry) Nothing) }
{
    match answer {
        Some(value) => tells(domain, side, value, props),
        None => true,
    }
}

/// Whether the answer of a row tells that side of what is demanded of answers, or its call excludes what is demanded of calls.
fn row_tells<D: Domain>(domain: &D, side: Side, check: &Check, row: &Row<'_, D::Value>) -> bool
    requires row { IsRowOf D.value_of (D.plain domain.now) check.now.pred.arity row.now }
    requires check { IsWellFormedCheck check.now }
    ensures { result ≡ holds_of_answer side (D.plain domain.now) check.now (plain D.value_of row.now) }
{
    excludes_one(domain, &row.name.call, check.pre.as_slice())
        || answer_tells(domain, side, row.answer, check.post.as_slice())
}

/// Whether the call of each row tells that side of what is demanded of calls.
pub(crate) fn all_calls<D: Domain>(
    domain: &D,
    side: Side,
    check: &Check,
    rows: &[Row<'_, D::Value>],
) -> bool
    requires rows { All (IsRowOf D.value_of (D.plain domain.now) check.now.pred.arity) rows.now }
    requires check { IsWellFormedCheck check.now }
    ensures { result ≡ list_all (λ row. holds_of_call side (D.plain domain.now) check.now (plain D.value_of row)) rows.now }
{
    for row in rows {
        if !tells(domain, side, &row.name.call, check.pre.as_slice()) {
            return false;
        }
    }
    true
}

/// Whether the answer of each row whose call may have what is demanded of calls tells that side of what is demanded of
/// answers.
pub(crate) fn all_answers<D: Domain>(
    domain: &D,
    side: Side,
    check: &Check,
    rows: &[Row<'_, D::Value>],
) -> bool
    requires rows { All (IsRowOf D.value_of (D.plain domain.now) check.now.pred.arity) rows.now }
    requires check { IsWellFormedCheck check.now }
    ensures { result ≡ list_all (λ row. holds_of_answer side (D.plain domain.now) check.now (plain D.value_of row)) rows.now }
{
    for row in rows {
        if !row_tells(domain, side, check, row) {
            return false;
        }
    }
    true
}
