use plai_terms::{Listed, PlainRow, PredKey, print_abs};
use std::alloc::{AllocError, Global};
use std::cmp::Ordering;

/// A row of a table as text.
#[derive(Debug, Drop)]
pub struct TextRow {
    /// The predicate.
    pub pred: PredKey,
    /// The text of the pattern of its calls.
    pub call: Listed<u8>,
    /// The text of the pattern of the answers to these calls, `none` where there is none.
    pub answer: Listed<u8>,
}

impl TextRow {
    ghost use Rattle.std.specs.Prelude.{◌≡◌, IfOk};
    ghost use Rattle.plai_render.specs.Order.{IsNarrow};
    ghost use Rattle.plai_render.specs.Texts.{text_of, text_row_order};

    /// The text of a row.
    pub(crate) fn of(alloc: Global, row: &PlainRow) -> Result<TextRow, AllocError>
        requires { IsNarrow row.now }
        ensures { IfOk result (λ text. text ≡ text_of row.now) }
    {
        let mut call = Vec::new(alloc);
        print_abs(alloc, &row.name.call, &mut call)?;
        let mut answer = Vec::new(alloc);
        print_abs(alloc, &row.answer, &mut answer)?;
        Ok(TextRow {
            pred: row.name.pred.copy(alloc)?,
            call: Listed::new(call),
            answer: Listed::new(answer),
        })
    }

    /// The order of rows: by predicate and the text of the call.
    pub(crate) fn order(&self, other: &TextRow) -> Ordering
        ensures { result ≡ text_row_order self.now other.now }
    {
        let texts = self.call.as_slice().cmp(other.call.as_slice());
        self.pred.order(&other.pred).then(texts)
    }
}
