ghost use Rattle.std.specs.Prelude.{◌≡◌, ◌↔◌, ℕ, true, List, filter, Ok};
ghost use Rattle.plai_theory.specs.Words.{IsIn};
ghost use Rattle.plai_terms.specs.declared.pred_key.PredKey.{PredKey};
ghost use Rattle.plai_terms.specs.declared.read_term.ReadTerm.{ReadTerm};
ghost use Rattle.plai_clauses.specs.declared.clause.Clause.{Clause};
ghost use Rattle.plai_clauses.specs.declared.entry.Entry.{Entry};
ghost use Rattle.plai_clauses.specs.declared.check.Check.{Check};
ghost use Rattle.plai_clauses.specs.declared.modules.Module.{Module};
ghost use Rattle.plai_clauses.specs.Program.{ProgramView, empty, same_pred, clauses_of, entries_of, pred_of, one_module, with_module, with_clause_of, without_clause, without_clauses, with_entry, without_entry, with_check, without_check};
ghost use Rattle.plai_clauses.specs.WellFormed.{IsWellFormedClause, IsWellFormedEntry, IsWellFormedCheck, IsWellFormed};
ghost use Rattle.plai_clauses.specs.ByModule.{AreByModule};
ghost use Rattle.plai_clauses.specs.ClauseOf.{clause_of};
ghost use Rattle.plai_terms.specs.Readable.{IsReadable};

/// What a program of one module has: of each predicate the clauses that belong to it, in order, and the module's
/// entries.
pub fn one_module_laws()
    ensures same { (a b : PredKey) → (same_pred a b ≡ true) ↔ (a ≡ b) }
    ensures clauses { (name : List ℕ) (clauses : List Clause) (entries : List Entry) (pred : PredKey)
        → clauses_of (one_module name clauses entries) pred ≡ filter (λ clause. same_pred (pred_of name clause) pred) clauses }
    ensures entries { (name : List ℕ) (clauses : List Clause) (entries : List Entry) → entries_of (one_module name clauses entries) ≡ entries }
    ensures well_formed { (name : List ℕ) (clauses : List Clause) (entries : List Entry)
        → ((clause : Clause) → IsIn clause clauses → IsWellFormedClause clause) → ((entry : Entry) → IsIn entry entries → IsWellFormedEntry entry)
        → IsWellFormed (one_module name clauses entries) }
{}

/// A program stays well formed when what is added to it is well formed, and when something is taken away.
pub fn change_laws()
    ensures added_module { (program : ProgramView) (added : Module) → IsWellFormed program → IsWellFormed (with_module program added) }
    ensures added_clause { (program : ProgramView) (name : List ℕ) (clause : Clause) → IsWellFormed program → IsWellFormedClause clause → IsWellFormed (with_clause_of program name clause) }
    ensures removed_clause { (program : ProgramView) (pred : PredKey) (number : ℕ) → IsWellFormed program → IsWellFormed (without_clause program pred number) }
    ensures cleared { (program : ProgramView) (pred : PredKey) → IsWellFormed program → IsWellFormed (without_clauses program pred) }
    ensures added_entry { (program : ProgramView) (entry : Entry) → IsWellFormed program → IsWellFormedEntry entry → IsWellFormed (with_entry program entry) }
    ensures removed_entry { (program : ProgramView) (name : List ℕ) (number : ℕ) → IsWellFormed program → IsWellFormed (without_entry program name number) }
    ensures added_check { (program : ProgramView) (check : Check) → IsWellFormed program → IsWellFormedCheck check → IsWellFormed (with_check program check) }
    ensures removed_check { (program : ProgramView) (name : List ℕ) (number : ℕ) → IsWellFormed program → IsWellFormed (without_check program name number) }
{}

/// The clause that a term says is well formed.
pub fn clause_law()
    ensures { (module_name : List ℕ) (imports : List (List ℕ × ℕ × List ℕ)) (read : ReadTerm) (clause : Clause)
        → IsReadable read → clause_of module_name imports read ≡ Ok clause → IsWellFormedClause clause }
{}

/// Entries and checks stand by module name in every program that is built by the changes.
pub fn order_laws()
    ensures empty { AreByModule empty }
    ensures added_module { (program : ProgramView) (added : Module) → AreByModule program → AreByModule (with_module program added) }
    ensures added_clause { (program : ProgramView) (name : List ℕ) (clause : Clause) → AreByModule program → AreByModule (with_clause_of program name clause) }
    ensures removed_clause { (program : ProgramView) (pred : PredKey) (number : ℕ) → AreByModule program → AreByModule (without_clause program pred number) }
    ensures cleared { (program : ProgramView) (pred : PredKey) → AreByModule program → AreByModule (without_clauses program pred) }
    ensures added_entry { (program : ProgramView) (entry : Entry) → AreByModule program → AreByModule (with_entry program entry) }
    ensures removed_entry { (program : ProgramView) (name : List ℕ) (number : ℕ) → AreByModule program → AreByModule (without_entry program name number) }
    ensures added_check { (program : ProgramView) (check : Check) → AreByModule program → AreByModule (with_check program check) }
    ensures removed_check { (program : ProgramView) (name : List ℕ) (number : ℕ) → AreByModule program → AreByModule (without_check program name number) }
{}
