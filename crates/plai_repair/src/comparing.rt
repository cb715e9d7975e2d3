//! Whether a list of clauses begins another one.
ghost use Rattle.std.specs.Prelude.{◌≡◌, ◌↔◌, true, false};
ghost use Rattle.plai_clauses.specs.declared.clause.Target.TheVariants as aim;
ghost use Rattle.plai_repair.specs.Lost.{IsPrefix};

use plai_clauses::{Clause, Literal, Target};
use plai_terms::PredKey;

/// Whether the target is this predicate.
fn is_target(pred: &PredKey, target: &Target) -> bool
    ensures { (result ≡ true) ↔ (target.now ≡ aim.Pred pred.now) }
{
    match target {
        Target::Pred(other) => pred == other,
        Target::Builtin => false,
    }
}

/// Whether the target is the builtin.
fn is_builtin(target: &Target) -> bool
    ensures { (result ≡ true) ↔ (target.now ≡ aim.Builtin) }
{
    match target {
        Target::Pred(_) => false,
        Target::Builtin => true,
    }
}

/// Whether these are equal.
fn same_target(one: &Target, two: &Target) -> bool
    ensures { (result ≡ true) ↔ (one.now ≡ two.now) }
{
    match one {
        Target::Pred(pred) => is_target(pred, two),
        Target::Builtin => is_builtin(two),
    }
}

/// Whether these are equal.
fn same_literal(one: &Literal, two: &Literal) -> bool
    ensures { (result ≡ true) ↔ (one.now ≡ two.now) }
{
    let names = one.name == two.name;
    let args = one.args == two.args;
    let targets = same_target(&one.target, &two.target);
    names & args & targets
}

/// Whether the literals are equal one by one.
fn same_literals(one: &[Literal], two: &[Literal]) -> bool
    ensures { (result ≡ true) ↔ (one.now ≡ two.now) }
{
    if one.len() != two.len() {
        return false;
    }
    let mut place: usize = 0;
    while place < one.len() {
        if !same_literal(&one[place], &two[place]) {
            return false;
        }
        place += 1;
    }
    true
}

/// Whether these are equal.
fn same_clause(one: &Clause, two: &Clause) -> bool
    ensures { (result ≡ true) ↔ (one.now ≡ two.now) }
{
    let names = one.name == two.name;
    let heads = one.head == two.head;
    let bodies = same_literals(one.body.as_slice(), two.body.as_slice());
    names & heads & (one.variables == two.variables) & bodies
}

/// Whether the clauses are equal one by one.
pub(crate) fn same_clauses(one: &[Clause], two: &[Clause]) -> bool
    ensures { (result ≡ true) ↔ (one.now ≡ two.now) }
{
    if one.len() != two.len() {
        return false;
    }
    let mut place: usize = 0;
    while place < one.len() {
        if !same_clause(&one[place], &two[place]) {
            return false;
        }
        place += 1;
    }
    true
}

/// Whether the old list of clauses is no prefix of the new one.
pub(crate) fn lost_clauses(old: &[Clause], new: &[Clause]) -> bool
    ensures { (result ≡ false) ↔ IsPrefix old.now new.now }
{
    if new.len() < old.len() {
        return true;
    }
    let mut place: usize = 0;
    while place < old.len() {
        if !same_clause(&old[place], &new[place]) {
            return true;
        }
        place += 1;
    }
    false
}
