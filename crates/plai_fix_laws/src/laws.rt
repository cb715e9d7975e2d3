ghost use Rattle.std.specs.Prelude.{◌≡◌, ◌≢◌, ◌↔◌, ℕ, suc, ◌≤◌, ◌<◌, Bool, true, false, not, ◌&&◌, ◌||◌, nat_eq, List, [], ◌∷◌, ◌++◌, Option, Some, None, IsSome, length};
ghost use Rattle.plai_theory.specs.Words.{IsIn, item};
ghost use Rattle.plai_theory.specs.Domain.{Program, IsLawful};
ghost use Rattle.plai_theory.specs.Evaluation.{NameOf, answer_of, calls_of};
ghost use Rattle.plai_theory.specs.LegalWork.{WorkRow, Work, LogEntry, find, present_source, next_answer, IsDemanded, live_count, no_work, after_all, IsEnd};
ghost use Rattle.plai_theory.specs.LegalWork.{Made, Woke, Evaluated, Grew};
ghost use Rattle.plai_theory.specs.Limits.{IsOverAt};
ghost use Rattle.plai_theory.specs.Claims.{IsStoppedLog};
ghost use Rattle.plai_fix_laws.specs.WorkStates.{Keeping, kept_source, clause_at, IsNamed, IsMet, IsMetBut, IsFull, IsClean, is_live, kept_live, no_pair, with_pair};
ghost use Rattle.plai_fix_laws.specs.Changes.{Clears, SetsCalls, Answers, Makes, Wakes};
ghost use Rattle.plai_fix_laws.specs.Logs.{Opens, IsLogged, IsWorking, IsWaking, IsEvaluated};
ghost use Rattle.plai_fix_laws.specs.Queues.{Awaits};

use plai_theory::AnyDomain;

/// The steps of a legal log, each at the end of a log: what a table and its arcs keep before it, and after.
pub fn step_laws<T: AnyDomain>()
    // A dirty pair of a live row is evaluated, is dirty no more, and its calls are open.
    ensures evaluated { (g : Program T.domain) → IsLawful T.domain g → (limit : ℕ) (start : Work T.domain) (log : List (LogEntry T.domain))
        → (k new : Keeping T.domain) (unmet left : ℕ → ℕ → Bool) → IsWorking T.domain g T.limits limit start log k None None unmet
        → (n i : ℕ) (r : WorkRow T.domain) → item (after_all T.domain g start log).rows n ≡ Some r
        → r.live ≡ true → (c : T.domain.Clause) → item (g.clauses r.name.pred) i ≡ Some c → k.dirty n (suc i) ≡ true
        → (IsOverAt T.domain T.limits (present_source T.domain (after_all T.domain g start log).rows) c r.name.call → ⊥) → Clears T.domain k new n i
        → ((a m : ℕ) → (a ≡ n → m ≡ suc i → ⊥) → left a m ≡ unmet a m) → left n (suc i) ≡ false
        → IsEvaluated T.domain g T.limits limit start (log ++ Evaluated r.name i ∷ []) new (Some (n, i)) n i r.name left }

    // The growth that is due is done, and the pairs that call the row are dirty.
    ensures grew { (g : Program T.domain) → IsLawful T.domain g → (limit : ℕ) (start : Work T.domain) (log : List (LogEntry T.domain))
        → (k new : Keeping T.domain) (n i : ℕ) (r : WorkRow T.domain) (unmet : ℕ → ℕ → Bool) → IsEvaluated T.domain g T.limits limit start log k None n i r.name unmet
        → item (after_all T.domain g start log).rows n ≡ Some r → (a : Option T.domain.Value) → a ≡ next_answer T.domain g (after_all T.domain g start log).rows r.name i
        → a ≢ present_source T.domain (after_all T.domain g start log).rows r.name.pred r.name.call → Answers T.domain k new n a
        → IsWorking T.domain g T.limits limit start (log ++ Grew r.name a ∷ []) new None (Some (n, i)) unmet }

    // Where the join is the row's answer, no growth is due.
    ensures settled { (g : Program T.domain) → (limit : ℕ) (start : Work T.domain) (log : List (LogEntry T.domain))
        → (k : Keeping T.domain) (open_pair : Option (ℕ × ℕ)) (n i : ℕ) (x : NameOf T.domain) (unmet : ℕ → ℕ → Bool)
        → IsLawful T.domain g → IsEvaluated T.domain g T.limits limit start log k open_pair n i x unmet
        → next_answer T.domain g (after_all T.domain g start log).rows x i ≡ present_source T.domain (after_all T.domain g start log).rows x.pred x.call
        → IsWorking T.domain g T.limits limit start log k open_pair (Some (n, i)) unmet }

    // A demanded name without a row gets one, whose clauses are dirty.
    ensures made { (g : Program T.domain) → IsLawful T.domain g → (limit : ℕ) (start : Work T.domain) (log : List (LogEntry T.domain))
        → (k new : Keeping T.domain) (open_pair waiting : Option (ℕ × ℕ)) (unmet : ℕ → ℕ → Bool) → IsWorking T.domain g T.limits limit start log k open_pair waiting unmet
        → ((p : ℕ × ℕ) → waiting ≡ Some p → open_pair ≡ Some p) → (x : NameOf T.domain) → IsDemanded T.domain g (after_all T.domain g start log).rows x
        → find T.domain (after_all T.domain g start log).rows x ≡ None → live_count T.domain (after_all T.domain g start log).rows < limit → Makes T.domain g k new x
        → IsWorking T.domain g T.limits limit start (log ++ Made x ∷ []) new open_pair waiting unmet }
{}

/// The calls of the pair that was evaluated are set, and it waits for its rows no more.
pub fn wait_laws<T: AnyDomain>()
    // Where its calls are the rows of the names that it called, it is open no more.
    ensures closed { (g : Program T.domain) → IsLawful T.domain g → (limit : ℕ) (start : Work T.domain) (log : List (LogEntry T.domain))
        → (k new : Keeping T.domain) (n i : ℕ) → IsLogged T.domain g T.limits limit start log k (Some (n, i))
        → (r : WorkRow T.domain) → item (after_all T.domain g start log).rows n ≡ Some r → (c : T.domain.Clause) → item (g.clauses r.name.pred) i ≡ Some c
        → (called : ℕ → Bool) → SetsCalls T.domain k new n i called → ((j : ℕ) → called j ≡ true → IsSome (item k.rows j))
        → ((j : ℕ) (y : NameOf T.domain) → IsNamed T.domain k.rows j y → (called j ≡ true) ↔ IsIn y (r.calls i)) → IsLogged T.domain g T.limits limit start log new None }
    ensures opened { (g : Program T.domain) → IsLawful T.domain g → (limit : ℕ) (start : Work T.domain) (log : List (LogEntry T.domain)) (k : Keeping T.domain)
        → (open_pair : Option (ℕ × ℕ)) → IsLogged T.domain g T.limits limit start log k None → IsLogged T.domain g T.limits limit start log k open_pair }

    // Where each name that it called has a row, it waits no more, but that the row may be dormant.
    ensures met { (g : Program T.domain) → IsLawful T.domain g → (rows : List (WorkRow T.domain)) (n i : ℕ) (unmet : ℕ → ℕ → Bool)
        → IsMet T.domain g (Some (n, i)) unmet rows → (r : WorkRow T.domain) → item rows n ≡ Some r
        → ((y : NameOf T.domain) → IsIn y (r.calls i) → (q : WorkRow T.domain) × (find T.domain rows y ≡ Some q))
        → IsMetBut T.domain g (with_pair n (suc i) no_pair) unmet rows }

    // Where the limit is met and such a name has none, it is marked as unmet.
    ensures unmet { (g : Program T.domain) → IsLawful T.domain g → (limit : ℕ) (rows : List (WorkRow T.domain)) (n i : ℕ) (unmet marked : ℕ → ℕ → Bool)
        → IsMet T.domain g (Some (n, i)) unmet rows → IsFull T.domain g limit unmet rows
        → ((a m : ℕ) → marked a m ≡ ((nat_eq a n && nat_eq m (suc i)) || unmet a m)) → (r : WorkRow T.domain) → item rows n ≡ Some r
        → r.live ≡ true → IsSome (clause_at T.domain g r.name.pred (suc i)) → limit ≤ live_count T.domain rows → (y : NameOf T.domain) → IsIn y (r.calls i)
        → ((q : WorkRow T.domain) → find T.domain rows y ≡ Some q → q.live ≡ false) → IsMet T.domain g None marked rows × IsFull T.domain g limit marked rows }
{}

/// Dormant rows that are woken, and with them all that they call.
pub fn waking_laws<T: AnyDomain>()
    // A demanded name's dormant row is woken, and its pairs are pending.
    ensures woke { (g : Program T.domain) → IsLawful T.domain g → (limit : ℕ) (start : Work T.domain) (log : List (LogEntry T.domain))
        → (k new : Keeping T.domain) (pending more unmet : ℕ → ℕ → Bool) → IsWaking T.domain g T.limits limit start log k pending unmet
        → (n : ℕ) (r : WorkRow T.domain) → item (after_all T.domain g start log).rows n ≡ Some r → r.live ≡ false
        → IsDemanded T.domain g (after_all T.domain g start log).rows r.name → live_count T.domain (after_all T.domain g start log).rows < limit
        → Wakes T.domain k new n → Awaits n (length (g.clauses r.name.pred)) pending more
        → IsWaking T.domain g T.limits limit start (log ++ Woke r.name ∷ []) new more unmet }

    // Where a pending pair's called rows are live, or it is dirty, it is pending no more; nor where one is not live and the limit
    // is met: then it is unmet.
    ensures met { (g : Program T.domain) → IsLawful T.domain g → (limit : ℕ) (start : Work T.domain) (log : List (LogEntry T.domain)) (k : Keeping T.domain)
        → (pending unmet : ℕ → ℕ → Bool) (n m : ℕ) → IsWaking T.domain g T.limits limit start log k (with_pair n m pending) unmet
        → ((j : ℕ) → k.calls n m j ≡ true → is_live T.domain k.rows j ≡ true) → IsWaking T.domain g T.limits limit start log k pending unmet }
    ensures dropped { (g : Program T.domain) → IsLawful T.domain g → (limit : ℕ) (start : Work T.domain) (log : List (LogEntry T.domain)) (k : Keeping T.domain)
        → (pending unmet : ℕ → ℕ → Bool) (n m : ℕ) → IsWaking T.domain g T.limits limit start log k (with_pair n m pending) unmet
        → k.dirty n m ≡ true → IsWaking T.domain g T.limits limit start log k pending unmet }
    ensures left { (g : Program T.domain) → IsLawful T.domain g → (limit : ℕ) (start : Work T.domain) (log : List (LogEntry T.domain)) (k : Keeping T.domain)
        → (pending unmet marked : ℕ → ℕ → Bool) (n m : ℕ) → IsWaking T.domain g T.limits limit start log k (with_pair n m pending) unmet
        → limit ≤ kept_live T.domain k.rows → (j : ℕ) → k.calls n m j ≡ true → is_live T.domain k.rows j ≡ false
        → ((a b : ℕ) → marked a b ≡ ((nat_eq a n && nat_eq b m) || unmet a b)) → IsWaking T.domain g T.limits limit start log k pending marked }

    // Where no pair is pending, all rows that live rows call are live.
    ensures begun { (g : Program T.domain) (limit : ℕ) (start : Work T.domain) (log : List (LogEntry T.domain)) (k : Keeping T.domain) (unmet : ℕ → ℕ → Bool)
        → IsWorking T.domain g T.limits limit start log k None None unmet → IsWaking T.domain g T.limits limit start log k no_pair unmet }
    ensures done { (g : Program T.domain) (limit : ℕ) (start : Work T.domain) (log : List (LogEntry T.domain)) (k : Keeping T.domain) (unmet : ℕ → ℕ → Bool)
        → IsWaking T.domain g T.limits limit start log k no_pair unmet → IsWorking T.domain g T.limits limit start log k None None unmet }
{}

/// Where work begins, where it ends, and where it stops at the limit.
pub fn end_laws<T: AnyDomain>()
    // No rows are an opening, and work begins at each.
    ensures nothing { (g : Program T.domain) (k : Keeping T.domain) → k.rows ≡ [] → ((n m : ℕ) → k.dirty n m ≡ false)
        → ((n m j : ℕ) → k.calls n m j ≡ false) → Opens T.domain g (no_work T.domain) k }
    ensures begins { (g : Program T.domain) → IsLawful T.domain g → (limit : ℕ) (start : Work T.domain) (k : Keeping T.domain) (unmet : ℕ → ℕ → Bool)
        → Opens T.domain g start k → ((n m : ℕ) → unmet n m ≡ false) → IsWorking T.domain g T.limits limit start [] k None None unmet }

    // Where no pair of a live row is dirty and none is unmet, and each entry has a live row, the log ends.
    ensures ends { (g : Program T.domain) → IsLawful T.domain g → (limit : ℕ) (start : Work T.domain) (log : List (LogEntry T.domain))
        → (k : Keeping T.domain) (unmet : ℕ → ℕ → Bool) → IsWorking T.domain g T.limits limit start log k None None unmet → IsClean T.domain k
        → ((n m : ℕ) → unmet n m ≡ false)
        → ((x : NameOf T.domain) → IsIn x g.entries → (q : WorkRow T.domain) × (find T.domain (after_all T.domain g start log).rows x ≡ Some q) × (q.live ≡ true))
        → IsEnd T.domain g (after_all T.domain g start log) }

    // Where no pair of a live row is dirty and one is unmet, as many rows are live as the limit says, and the log stops at a demanded name
    // that is no live row.
    ensures stops { (g : Program T.domain) → IsLawful T.domain g → (limit : ℕ) (start : Work T.domain) (log : List (LogEntry T.domain))
        → (k : Keeping T.domain) (unmet : ℕ → ℕ → Bool) → IsWorking T.domain g T.limits limit start log k None None unmet → IsClean T.domain k
        → (n m : ℕ) → unmet n m ≡ true
        → (x : NameOf T.domain) × IsStoppedLog T.domain g limit start log x × (live_count T.domain (after_all T.domain g start log).rows ≡ limit) }
    ensures stops_at_entry { (g : Program T.domain) → IsLawful T.domain g → (limit : ℕ) (start : Work T.domain) (log : List (LogEntry T.domain))
        → (k : Keeping T.domain) (unmet : ℕ → ℕ → Bool) → IsWorking T.domain g T.limits limit start log k None None unmet → IsClean T.domain k
        → (x : NameOf T.domain) → IsIn x g.entries → limit ≤ live_count T.domain (after_all T.domain g start log).rows
        → ((q : WorkRow T.domain) → find T.domain (after_all T.domain g start log).rows x ≡ Some q → q.live ≡ false)
        → IsStoppedLog T.domain g limit start log x × (live_count T.domain (after_all T.domain g start log).rows ≡ limit) }
{}

/// What is kept of work.
pub fn value_laws<T: AnyDomain>()
    // Names and answers are values, and no name has two rows.
    ensures names { (g : Program T.domain) → IsLawful T.domain g → (limit : ℕ) (start : Work T.domain) (log : List (LogEntry T.domain)) (k : Keeping T.domain)
        → (open_pair : Option (ℕ × ℕ)) → IsLogged T.domain g T.limits limit start log k open_pair → (n : ℕ) (x : NameOf T.domain) → IsNamed T.domain k.rows n x → T.domain.leq x.pred x.call x.call }
    ensures answers { (g : Program T.domain) → IsLawful T.domain g → (limit : ℕ) (start : Work T.domain) (log : List (LogEntry T.domain)) (k : Keeping T.domain)
        → (open_pair : Option (ℕ × ℕ)) → IsLogged T.domain g T.limits limit start log k open_pair → (p : T.domain.Pred) (v a : T.domain.Value) → T.domain.leq p v v
        → kept_source T.domain k.rows p v ≡ Some a → T.domain.leq p a a }
    ensures one_row { (g : Program T.domain) → IsLawful T.domain g → (limit : ℕ) (start : Work T.domain) (log : List (LogEntry T.domain)) (k : Keeping T.domain)
        → (open_pair : Option (ℕ × ℕ)) → IsLogged T.domain g T.limits limit start log k open_pair → (i j : ℕ) (y : NameOf T.domain) → IsNamed T.domain k.rows i y → IsNamed T.domain k.rows j y → i ≡ j }

    // Evaluations under what is kept are those under the rows of the work.
    ensures same_answer { (g : Program T.domain) → IsLawful T.domain g → (limit : ℕ) (start : Work T.domain) (log : List (LogEntry T.domain)) (k : Keeping T.domain)
        → (open_pair : Option (ℕ × ℕ)) → IsLogged T.domain g T.limits limit start log k open_pair → (c : T.domain.Clause) (v : T.domain.Value)
        → answer_of T.domain (kept_source T.domain k.rows) c v ≡ answer_of T.domain (present_source T.domain (after_all T.domain g start log).rows) c v }
    ensures same_calls { (g : Program T.domain) → IsLawful T.domain g → (limit : ℕ) (start : Work T.domain) (log : List (LogEntry T.domain)) (k : Keeping T.domain)
        → (open_pair : Option (ℕ × ℕ)) → IsLogged T.domain g T.limits limit start log k open_pair → (c : T.domain.Clause) (v : T.domain.Value)
        → calls_of T.domain (kept_source T.domain k.rows) c v ≡ calls_of T.domain (present_source T.domain (after_all T.domain g start log).rows) c v }
{}
