ghost use Rattle.std.specs.Prelude.{◌≡◌, Option};
ghost use Rattle.std.specs.Option.{option_map};
ghost use Rattle.plai_terms.specs.declared.abs.Abs.{Abs};
ghost use Rattle.plai_terms.specs.declared.row_name.RowName.{RowName};
ghost use Rattle.plai_domain.specs.Names.{name_of};

use plai_domain::{Domain, Key};

/// Where the answers of rows come from.
pub trait Answers<D: Domain> {
    /// The answer of the row of each name, or none; a row that isn't there has none.
    ghost source: { Self → RowName → Option Abs };

    /// The answer of the row of this name. It takes no memory.
    fn answer(&self, name: &Key<D::Value>) -> Option<&D::Value>
        ensures { option_map (λ value. D.value_of value.now) result ≡ source self.now (name_of D.value_of name.now) };
}
