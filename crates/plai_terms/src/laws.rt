// Laws of the definitions, as the contracts of functions that do nothing.
ghost use Rattle.std.specs.Prelude.{◌≡◌, ◌≤◌, ◌⊎◌, ◌↔◌, ℕ, List, true};
ghost use Rattle.plai_terms.specs.declared.abs.Abs.{Abs};
ghost use Rattle.plai_terms.specs.declared.pred_key.PredKey.{PredKey};
ghost use Rattle.plai_terms.specs.declared.read_term.ReadTerm.{ReadTerm};
ghost use Rattle.plai_terms.specs.declared.row_name.RowName.{RowName};
ghost use Rattle.plai_terms.specs.declared.term.Term.{Term};
ghost use Rattle.plai_terms.specs.Atom.{atom_text, name_text};
ghost use Rattle.plai_terms.specs.Print.{text_of};
ghost use Rattle.plai_terms.specs.Term.{numbers_fit};
ghost use Rattle.plai_terms.specs.Pattern.{pattern_text, IsGroundness};
ghost use Rattle.plai_terms.specs.RowOrder.{IsBefore, HaveSameText};

use crate::abs::Abs;
use crate::name::Name;
use crate::pred_key::PredKey;
use crate::read_term::ReadTerm;
use crate::row_name::RowName;
use crate::term::Term;

/// Different patterns of groundness for as many arguments have different texts, and none of them has
/// that of `none`.
pub fn texts_differ()
    ensures { (n : ℕ) (a b : Abs) → n ≤ 64 → IsGroundness n a → IsGroundness n b → pattern_text a ≡ pattern_text b → a ≡ b }
{}

/// The order of rows is strict, and it puts one of two names before the other unless they are of one
/// predicate and their calls have one text.
pub fn rows_are_ordered()
    ensures irreflexive { (x : RowName) → ¬ (IsBefore x x) }
    ensures transitive { (x y z : RowName) → IsBefore x y → IsBefore y z → IsBefore x z }
    ensures total { (x y : RowName) → ¬ (HaveSameText x y) → IsBefore x y ⊎ IsBefore y x }
{}

/// `==` answers true exactly at equal values.
pub fn equality_is_exact()
    ensures names { (a b : List ℕ) → (⟦<Name as PartialEq>⟧.eq a b ≡ true) ↔ (a ≡ b) }
    ensures predicates { (a b : PredKey) → (⟦<PredKey as PartialEq>⟧.eq a b ≡ true) ↔ (a ≡ b) }
    ensures terms { (a b : Term) → (⟦<Term as PartialEq>⟧.eq a b ≡ true) ↔ (a ≡ b) }
    ensures read_terms { (a b : ReadTerm) → (⟦<ReadTerm as PartialEq>⟧.eq a b ≡ true) ↔ (a ≡ b) }
    ensures patterns { (a b : Abs) → (⟦<Abs as PartialEq>⟧.eq a b ≡ true) ↔ (a ≡ b) }
    ensures row_names { (a b : RowName) → (⟦<RowName as PartialEq>⟧.eq a b ≡ true) ↔ (a ≡ b) }
{}

/// Different atoms have different texts, and so have different names as they stand before `:` or `/`, and
/// different terms whose numbers are within their types.
pub fn term_texts_differ()
    ensures atoms { (a b : List ℕ) → atom_text a ≡ atom_text b → a ≡ b }
    ensures names { (a b : List ℕ) → name_text a ≡ name_text b → a ≡ b }
    ensures terms { (a b : Term) → numbers_fit a ≡ true → numbers_fit b ≡ true → text_of a ≡ text_of b → a ≡ b }
{}
