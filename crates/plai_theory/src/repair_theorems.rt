ghost use Rattle.std.specs.Prelude.{◌≡◌, ℕ, suc, ◌≤◌, true, List, [], length, Option, Some};
ghost use Rattle.plai_theory.specs.Words.{IsIn};
ghost use Rattle.plai_theory.specs.Domain.{Program, IsLawful};
ghost use Rattle.plai_theory.specs.Evaluation.{NameOf};
ghost use Rattle.plai_theory.specs.LeastTable.{Row, IsStrictOrder, IsLeastTable};
ghost use Rattle.plai_theory.specs.LegalWork.{WorkRow, LogEntry, find, present_source, work_with, after_all, live_count, IsLegalLog, IsLogResult};
ghost use Rattle.plai_theory.specs.Limits.{AreUpwardClosed, IsOverAt, IsOver, AllFit};
ghost use Rattle.plai_theory.specs.Edits.{IsKept, IsOpening, IsQuiet, IsCaused, grown_back};
ghost use Rattle.plai_theory.specs.Claims.{IsWholeLog, IsStoppedLog, IsRepair, HaveBelow};

use crate::any_domain::AnyDomain;

/// Legal work that opens with the rows that an edit keeps.
pub fn repair_laws<T: AnyDomain>()
    // A legal log that ends has the new program's least table as its result, in any order of steps.
    ensures repair_gives_it { (old new : Program T.domain) (table : List (Row T.domain)) (opened : List (WorkRow T.domain))
        → IsRepair T.domain T.before old new table opened
        → (limit : ℕ) (log : List (LogEntry T.domain)) → IsWholeLog T.domain new limit (work_with T.domain opened) log
        → (result : List (Row T.domain)) → IsLogResult T.domain new T.before (after_all T.domain new (work_with T.domain opened) log) result
        → IsLeastTable T.domain new T.before result }

    // A clause of a kept row is dirty only where its predicate gained it, or a name that it calls grew in this edit.
    ensures repair_has_causes { (old new : Program T.domain) → IsLawful T.domain new → (table : List (Row T.domain)) (opened : List (WorkRow T.domain))
        → IsOpening T.domain old new table opened
        → (limit : ℕ) (log : List (LogEntry T.domain)) → IsLegalLog T.domain new limit (work_with T.domain opened) log
        → (x : NameOf T.domain) (r : WorkRow T.domain) → find T.domain (after_all T.domain new (work_with T.domain opened) log).rows x ≡ Some r
        → IsKept T.domain old new table x → (i : ℕ) → r.dirty i ≡ true → IsCaused T.domain old (grown_back T.domain [] log) x i (r.calls i) }

    // An edit that changes the clauses of no row's predicate, and not the entries, leaves the least table.
    ensures quiet_keeps_it { (old new : Program T.domain) → IsLawful T.domain old → IsLawful T.domain new → IsStrictOrder T.domain T.before
        → (rows : List (Row T.domain)) → IsLeastTable T.domain old T.before rows → IsQuiet T.domain old new rows
        → IsLeastTable T.domain new T.before rows }

    // The limits, as without an opening.
    ensures repair_is_within { (old new : Program T.domain) (table : List (Row T.domain)) (opened : List (WorkRow T.domain))
        → IsRepair T.domain T.before old new table opened
        → (limit : ℕ) (log : List (LogEntry T.domain)) → IsWholeLog T.domain new limit (work_with T.domain opened) log
        → (rows : List (Row T.domain)) → IsLeastTable T.domain new T.before rows → length rows ≤ limit }
    ensures repair_stop_has_cause { (old new : Program T.domain) (table : List (Row T.domain)) (opened : List (WorkRow T.domain))
        → IsRepair T.domain T.before old new table opened → (rows : List (Row T.domain)) → IsLeastTable T.domain new T.before rows
        → (limit : ℕ) (log : List (LogEntry T.domain)) (x : NameOf T.domain) → IsStoppedLog T.domain new limit (work_with T.domain opened) log x
        → HaveBelow T.domain rows (suc (live_count T.domain (after_all T.domain new (work_with T.domain opened) log).rows)) }
    ensures repair_over_has_cause { (old new : Program T.domain) (table : List (Row T.domain)) (opened : List (WorkRow T.domain))
        → IsRepair T.domain T.before old new table opened → AreUpwardClosed T.domain new T.limits
        → (limit : ℕ) (log : List (LogEntry T.domain)) → IsLegalLog T.domain new limit (work_with T.domain opened) log
        → (x : NameOf T.domain) (r : WorkRow T.domain) → find T.domain (after_all T.domain new (work_with T.domain opened) log).rows x ≡ Some r → r.live ≡ true
        → (c : T.domain.Clause) → IsIn c (new.clauses x.pred)
        → IsOverAt T.domain T.limits (present_source T.domain (after_all T.domain new (work_with T.domain opened) log).rows) c x.call
        → IsOver T.domain new T.limits }
    ensures repair_is_not_over { (old new : Program T.domain) (table : List (Row T.domain)) (opened : List (WorkRow T.domain))
        → IsRepair T.domain T.before old new table opened → AreUpwardClosed T.domain old T.limits → AreUpwardClosed T.domain new T.limits
        → (IsOver T.domain old T.limits → ⊥)
        → (limit : ℕ) (log : List (LogEntry T.domain)) → IsWholeLog T.domain new limit (work_with T.domain opened) log
        → AllFit T.domain new T.limits (work_with T.domain opened) log → IsOver T.domain new T.limits → ⊥ }
{}
