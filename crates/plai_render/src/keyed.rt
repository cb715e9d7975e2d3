ghost use Rattle.std.specs.Prelude.{◌≡◌};
ghost use Rattle.plai_render.specs.Texts.{text_of};

use crate::text_row::TextRow;
use plai_terms::PlainRow;

/// A row with its text.
#[derive(Drop)]
pub struct Keyed {
    pub row: PlainRow,
    pub text: TextRow,
    pub ghost printed: { text ≡ text_of row },
}

impl Keyed {
    /// The row, given up.
    pub fn into_row(self) -> PlainRow
        ensures { result ≡ self.row }
    {
        let Keyed { row, text: _ } = self;
        row
    }
}
