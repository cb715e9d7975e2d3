//! Rows of a table as they are live or dormant.
ghost use Rattle.std.specs.Prelude.{◌≡◌, ◌<◌, true, false, length};
ghost use Rattle.plai_eval.specs.Meaning.{as_domain};
ghost use Rattle.plai_fix_laws.specs.WorkStates.{is_live};
ghost use Rattle.plai_fix_rows.specs.Tables.{kept_rows};

use plai_domain::Domain;
use plai_table::Table;

/// Whether the row is one of the table, and live.
pub fn has_live<D: Domain>(_domain: &D, table: &Table<D::Value>, row: u64) -> bool
    ensures { result ≡ is_live (as_domain (D.plain _domain.now)) (kept_rows D.value_of (D.plain _domain.now) table.now.rows) row }
{
    if row < table.len() {
        table.row(row).live
    } else {
        false
    }
}

/// Whether the row is one of the table, and dormant.
pub(crate) fn is_dormant<D: Domain>(_domain: &D, table: &Table<D::Value>, row: u64) -> bool
    ensures there { result ≡ true → row < length table.now.rows }
    ensures dormant { result ≡ true → is_live (as_domain (D.plain _domain.now)) (kept_rows D.value_of (D.plain _domain.now) table.now.rows) row ≡ false }
    ensures awake { result ≡ false → row < length table.now.rows
        → is_live (as_domain (D.plain _domain.now)) (kept_rows D.value_of (D.plain _domain.now) table.now.rows) row ≡ true }
{
    if row < table.len() {
        !table.row(row).live
    } else {
        false
    }
}
