//! A table as a source of answers.
use plai_domain::{Domain, Key};
use plai_eval::Answers;
use plai_table::Table;

/// The rows of a table, as they are; dormant ones answer too.
#[derive(Drop)]
pub(crate) struct Present<'a, D: Domain> {
    pub(crate) domain: &'a D,
    pub(crate) table: &'a Table<D::Value>,
}

impl<D: Domain> Answers<D> for Present<'_, D> {
    ghost use Rattle.plai_fix_rows.specs.Tables.{kept_rows, answers_of};

    ghost source = { λ s. answers_of (D.plain s.domain.now) (kept_rows D.value_of (D.plain s.domain.now) s.table.now.rows) };

    fn answer(&self, name: &Key<D::Value>) -> Option<&D::Value> {
        let row = self.table.find(name)?;
        self.table.row(row).answer
    }
}
