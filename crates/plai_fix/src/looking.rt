//! Names looked up in a table.
ghost use Rattle.std.specs.Prelude.{◌≡◌, ◌++◌, [], ◌∷◌, List, map, OnOk};
ghost use Rattle.plai_theory.specs.Domain.{Name};
ghost use Rattle.plai_terms.specs.declared.abs.Abs.{Abs};
ghost use Rattle.plai_terms.specs.declared.pred_key.PredKey.{PredKey};
ghost use Rattle.plai_eval.specs.Meaning.{as_domain};
ghost use Rattle.plai_fix_rows.specs.Tables.{key_name, kept_rows};
ghost use Rattle.plai_fix_laws.specs.LookUps.{Looks};

use plai_domain::{Domain, Key};
use plai_table::Table;
use std::alloc::AllocError;

/// Puts the row of the name behind `rows`, or the name behind `missing` where it has no row.
pub fn look_up<D: Domain>(
    _domain: &D,
    table: &Table<D::Value>,
    name: Key<D::Value>,
    rows: &mut Vec<u64>,
    missing: &mut Vec<Key<D::Value>>,
) -> Result<(), AllocError>
    ensures { OnOk result ((names : List (Name PredKey Abs))
        → Looks (as_domain (D.plain _domain.now)) (kept_rows D.value_of (D.plain _domain.now) table.now.rows) names rows.old.items (map (key_name D.value_of) missing.old.items)
        → Looks (as_domain (D.plain _domain.now)) (kept_rows D.value_of (D.plain _domain.now) table.now.rows) (names ++ key_name D.value_of name ∷ []) rows.new.items (map (key_name D.value_of) missing.new.items)) }
{
    match table.find(&name) {
        Some(row) => rows.push(row)?,
        None => missing.push(name)?,
    }
    Ok(())
}

/// Looks the names up in turn.
pub fn look_up_all<D: Domain>(
    domain: &D,
    table: &Table<D::Value>,
    names: Vec<Key<D::Value>>,
    rows: &mut Vec<u64>,
    missing: &mut Vec<Key<D::Value>>,
) -> Result<(), AllocError>
    requires rows { rows.old.items ≡ [] }
    requires missing { missing.old.items ≡ [] }
    ensures { OnOk result (Looks (as_domain (D.plain domain.now)) (kept_rows D.value_of (D.plain domain.now) table.now.rows)
        (map (key_name D.value_of) names.items) rows.new.items (map (key_name D.value_of) missing.new.items)) }
{
    for name in names {
        look_up(domain, table, name, rows, missing)?;
    }
    Ok(())
}
