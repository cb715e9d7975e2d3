//! The clauses of a predicate before an edit and after it, which are looked at where the edit touches the predicate.
ghost use Rattle.std.specs.Prelude.{◌≡◌, ◌↔◌, true, false};
ghost use Rattle.plai_clauses.specs.Program.{clauses_of};
ghost use Rattle.plai_repair.specs.Lost.{AreTouched, IsPrefix};

use crate::comparing::{lost_clauses, same_clauses};
use indexmap::IndexSet;
use plai_clauses::Program;
use plai_terms::PredKey;

/// Whether the predicate has the clauses that it had.
pub(crate) fn keeps(
    before: &Program,
    after: &Program,
    touched: &IndexSet<PredKey>,
    pred: &PredKey,
) -> bool
    requires { AreTouched before.now after.now touched.now.keys }
    ensures { (result ≡ true) ↔ (clauses_of after.now pred.now ≡ clauses_of before.now pred.now) }
{
    if !touched.contains(pred) {
        return true;
    }
    same_clauses(after.clauses_of(pred), before.clauses_of(pred))
}

/// Whether the predicate lost a clause.
pub(crate) fn loses(
    before: &Program,
    after: &Program,
    touched: &IndexSet<PredKey>,
    pred: &PredKey,
) -> bool
    requires { AreTouched before.now after.now touched.now.keys }
    ensures { (result ≡ false) ↔ IsPrefix (clauses_of before.now pred.now) (clauses_of after.now pred.now) }
{
    if !touched.contains(pred) {
        return false;
    }
    lost_clauses(before.clauses_of(pred), after.clauses_of(pred))
}
