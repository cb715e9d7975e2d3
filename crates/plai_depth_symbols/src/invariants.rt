//! Invariants of evaluations, over any abstract domain.
ghost use Rattle.std.specs.Prelude.{◌≡◌, ℕ, List, Some};
ghost use Rattle.plai_theory.specs.Words.{IsIn};
ghost use Rattle.plai_theory.specs.Domain.{Domain, Program};
ghost use Rattle.plai_theory.specs.Evaluation.{Source, NameOf, answer_of, calls_of};
ghost use Rattle.plai_theory.specs.Stages.{stage, Reaches};
ghost use Rattle.plai_theory.specs.LeastTable.{Row};
ghost use Rattle.plai_theory.specs.Rounds.{IsAsked, IsMade};
ghost use Rattle.plai_depth_symbols.specs.Kept.{OfValues, OfStates, IsKept, AnswersSo, AreKeptRows, TellsNames};

/// Any abstract domain, with a property of calls, of states and of answers.
pub trait AnyInvariant {
    /// Its values, states, clauses and operations.
    ghost domain: { Domain };

    /// The property of calls.
    ghost of_call: { OfValues domain };

    /// That of states.
    ghost of_state: { OfStates domain };

    /// That of answers.
    ghost of_answer: { OfValues domain };
}

/// Properties that a program's operations keep.
pub fn kept_properties_hold<T: AnyInvariant>()
    // Under a source whose answers have the property, a clause's answer has it at a call that has that of calls, and the names
    // that the clause calls have that of calls.
    ensures answers { (g : Program T.domain) → IsKept T.domain g T.of_call T.of_state T.of_answer → (s : Source T.domain)
        → AnswersSo T.domain T.of_call T.of_answer s → (p : T.domain.Pred) (c : T.domain.Clause) → IsIn c (g.clauses p) → (v a : T.domain.Value)
        → T.of_call p v → answer_of T.domain s c v ≡ Some a → T.of_answer p a }
    ensures calls { (g : Program T.domain) → IsKept T.domain g T.of_call T.of_state T.of_answer → (s : Source T.domain)
        → AnswersSo T.domain T.of_call T.of_answer s → (p : T.domain.Pred) (c : T.domain.Clause) → IsIn c (g.clauses p) → (v : T.domain.Value)
        → T.of_call p v → (x : NameOf T.domain) → IsIn x (calls_of T.domain s c v) → T.of_call x.pred x.call }

    // The rows that rounds make have them, and so have the names that are asked for under such rows.
    ensures rows { (g : Program T.domain) → IsKept T.domain g T.of_call T.of_state T.of_answer → TellsNames T.domain
        → (rows : List (Row T.domain)) → IsMade T.domain g rows → AreKeptRows T.domain T.of_call T.of_answer rows }
    ensures asked { (g : Program T.domain) → IsKept T.domain g T.of_call T.of_state T.of_answer → TellsNames T.domain
        → (rows : List (Row T.domain)) → IsMade T.domain g rows → (x : NameOf T.domain) → IsAsked T.domain g rows x → T.of_call x.pred x.call }

    // Each stage answers so, and a name that is reached under a source that answers so has the property of calls.
    ensures stages { (g : Program T.domain) → IsKept T.domain g T.of_call T.of_state T.of_answer → (n : ℕ)
        → AnswersSo T.domain T.of_call T.of_answer (stage T.domain g n) }
    ensures reached { (g : Program T.domain) → IsKept T.domain g T.of_call T.of_state T.of_answer → (s : Source T.domain)
        → AnswersSo T.domain T.of_call T.of_answer s → (n : ℕ) (x : NameOf T.domain) → Reaches T.domain g s n x → T.of_call x.pred x.call }
{}
