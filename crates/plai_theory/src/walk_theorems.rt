ghost use Rattle.std.specs.Prelude.{◌≡◌, ℕ, List, [], ◌∷◌, ◌++◌, Option, None};
ghost use Rattle.plai_theory.specs.Words.{given};
ghost use Rattle.plai_theory.specs.Domain.{Step, Program};
ghost use Rattle.plai_theory.specs.Evaluation.{Source, state_behind, calls_along};
ghost use Rattle.plai_theory.specs.LegalWork.{Work, LogEntry, after, after_all, IsLegal, IsLegalLog};

use crate::any_domain::AnyDomain;

/// A walk over a clause's steps in two parts, and a log with one more entry.
pub fn walk_laws<T: AnyDomain>()
    ensures state_in_parts { (s : Source T.domain) (xs ys : List (Step T.domain.Literal T.domain.Action)) (st : T.domain.State)
        → state_behind T.domain s (xs ++ ys) st ≡ given None (λ next. state_behind T.domain s ys next) (state_behind T.domain s xs st) }
    ensures calls_in_parts { (s : Source T.domain) (xs ys : List (Step T.domain.Literal T.domain.Action)) (st : T.domain.State)
        → calls_along T.domain s (xs ++ ys) st ≡ calls_along T.domain s xs st ++ given [] (λ next. calls_along T.domain s ys next) (state_behind T.domain s xs st) }
    ensures after_one_more { (g : Program T.domain) (w : Work T.domain) (log : List (LogEntry T.domain)) (e : LogEntry T.domain)
        → after_all T.domain g w (log ++ e ∷ []) ≡ after T.domain g (after_all T.domain g w log) e }
    ensures legal_with_one_more { (g : Program T.domain) (limit : ℕ) (w : Work T.domain) (log : List (LogEntry T.domain)) (e : LogEntry T.domain)
        → IsLegalLog T.domain g limit w log → IsLegal T.domain g limit (after_all T.domain g w log) e → IsLegalLog T.domain g limit w (log ++ e ∷ []) }
{}
