// Laws of the definitions, as the contracts of functions that do nothing.
ghost use Rattle.std.specs.Prelude.{◌≡◌, List, IsPermutation};
ghost use Rattle.plai_terms.specs.declared.plain_row.PlainRow.{PlainRow};
ghost use Rattle.plai_clauses.specs.declared.check.Check.{Check};
ghost use Rattle.plai_assert.specs.Verdicts.{verdicts_of};

use plai_domain::Domain;

/// Verdicts don't depend on the order of the rows.
pub fn verdicts_need_no_order<D: Domain>()
    ensures { (domain : D) (rows others : List PlainRow) (checks : List Check) → IsPermutation rows others
        → verdicts_of (D.plain domain) rows checks ≡ verdicts_of (D.plain domain) others checks }
{}
