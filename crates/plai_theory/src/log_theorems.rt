ghost use Rattle.std.specs.Prelude.{◌≡◌, ℕ, suc, ◌≤◌, true, List, length, Option, Some};
ghost use Rattle.plai_theory.specs.Words.{IsIn};
ghost use Rattle.plai_theory.specs.Domain.{Program, IsLawful};
ghost use Rattle.plai_theory.specs.Evaluation.{NameOf};
ghost use Rattle.plai_theory.specs.LeastTable.{Row, IsStrictOrder, IsLeastTable};
ghost use Rattle.plai_theory.specs.LegalWork.{WorkRow, LogEntry, find, present_source, no_work, after_all, live_count, IsLegalLog, IsLogResult};
ghost use Rattle.plai_theory.specs.Limits.{AreUpwardClosed, IsOverAt, IsOver, AllFit};
ghost use Rattle.plai_theory.specs.Claims.{IsWholeLog, IsStoppedLog, HaveBelow};

use crate::any_domain::AnyDomain;

/// Legal work that opens with no rows.
pub fn log_laws<T: AnyDomain>()
    // A legal log that ends has the least table as its result, in any order of steps.
    ensures logs_give_it { (g : Program T.domain) → IsLawful T.domain g → (limit : ℕ) (log : List (LogEntry T.domain))
        → IsWholeLog T.domain g limit (no_work T.domain) log
        → (result : List (Row T.domain)) → IsLogResult T.domain g T.before (after_all T.domain g (no_work T.domain) log) result
        → IsLeastTable T.domain g T.before result }

    // A log ends only where the least table is within the limit.
    ensures end_is_within { (g : Program T.domain) → IsLawful T.domain g → IsStrictOrder T.domain T.before → (rows : List (Row T.domain))
        → IsLeastTable T.domain g T.before rows → (limit : ℕ) (log : List (LogEntry T.domain))
        → IsWholeLog T.domain g limit (no_work T.domain) log → length rows ≤ limit }

    // Where a demanded name is no live row, it and the live rows are so many names at or below rows of the least table.
    ensures stop_has_cause { (g : Program T.domain) → IsLawful T.domain g → IsStrictOrder T.domain T.before → (rows : List (Row T.domain))
        → IsLeastTable T.domain g T.before rows → (limit : ℕ) (log : List (LogEntry T.domain)) (x : NameOf T.domain)
        → IsStoppedLog T.domain g limit (no_work T.domain) log x
        → HaveBelow T.domain rows (suc (live_count T.domain (after_all T.domain g (no_work T.domain) log).rows)) }

    // An evaluation of a live row is over the limit of sets only where the program is.
    ensures over_has_cause { (g : Program T.domain) → IsLawful T.domain g → AreUpwardClosed T.domain g T.limits
        → (limit : ℕ) (log : List (LogEntry T.domain)) → IsLegalLog T.domain g limit (no_work T.domain) log
        → (x : NameOf T.domain) (r : WorkRow T.domain) → find T.domain (after_all T.domain g (no_work T.domain) log).rows x ≡ Some r → r.live ≡ true
        → (c : T.domain.Clause) → IsIn c (g.clauses x.pred)
        → IsOverAt T.domain T.limits (present_source T.domain (after_all T.domain g (no_work T.domain) log).rows) c x.call
        → IsOver T.domain g T.limits }
    ensures end_is_not_over { (g : Program T.domain) → IsLawful T.domain g → AreUpwardClosed T.domain g T.limits
        → (limit : ℕ) (log : List (LogEntry T.domain)) → IsWholeLog T.domain g limit (no_work T.domain) log
        → AllFit T.domain g T.limits (no_work T.domain) log → IsOver T.domain g T.limits → ⊥ }
{}
