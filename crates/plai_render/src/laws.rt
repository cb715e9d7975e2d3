// Laws of the definitions, as the contracts of functions that do nothing.
ghost use Rattle.std.specs.Prelude.{◌≡◌, ◌<◌, ◌^◌, ◌++◌, All, List, codes};
ghost use Rattle.plai_terms.specs.Pattern.{pattern_text};
ghost use Rattle.plai_terms.specs.declared.plain_row.PlainRow.{PlainRow};
ghost use Rattle.plai_terms.specs.declared.pred_key.PredKey.{PredKey};
ghost use Rattle.plai_render.specs.Block.{pred_text};
ghost use Rattle.plai_render.specs.Order.{AreApart, HaveDistinctNames, HasGroundnessCall};

/// Rows of groundness with distinct names are told apart by their predicates and the texts of their
/// calls: so `sort_rows` puts each strictly before the next.
pub fn distinct_names_are_apart()
    ensures { (rows : List PlainRow) → All HasGroundnessCall rows → HaveDistinctNames rows → AreApart rows }
{}

/// Different predicates have different texts `M:P/A`, and rows of groundness with different names have
/// different texts up to the answer.
pub fn names_have_different_texts()
    ensures predicates { (p q : PredKey) → p.arity < 2 ^ 32 → q.arity < 2 ^ 32 → pred_text p ≡ pred_text q → p ≡ q }
    ensures rows { (r s : PlainRow) → HasGroundnessCall r → HasGroundnessCall s → pred_text r.name.pred ++ codes " call " ++ pattern_text r.name.call ≡ pred_text s.name.pred ++ codes " call " ++ pattern_text s.name.call → r.name ≡ s.name }
{}
