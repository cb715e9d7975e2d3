ghost use Rattle.std.specs.Prelude.{◌≡◌, ◌≢◌, ℕ, suc, ◌≤◌, ◌<◌, Bool, true, false, ◌&&◌, ◌||◌, nat_eq, List, [], ◌∷◌, ◌++◌, map, Option, Some, None};
ghost use Rattle.plai_theory.specs.Words.{IsIn, item};
ghost use Rattle.plai_theory.specs.Domain.{Program, IsLawful};
ghost use Rattle.plai_theory.specs.Evaluation.{NameOf, answer_of, calls_of, join_of};
ghost use Rattle.plai_theory.specs.LegalWork.{WorkRow, Work, LogEntry, Made, Evaluated, Grew, present_source};
ghost use Rattle.plai_theory.specs.LegalWork.{new_row, after_evaluating, after_growing, live_count, after_all, IsEnd};
ghost use Rattle.plai_theory.specs.Limits.{IsOverAt};
ghost use Rattle.plai_theory.specs.Claims.{IsStoppedLog};
ghost use Rattle.plai_theory.specs.Measure.{IsRank};
ghost use Rattle.plai_fix_laws.specs.WorkStates.{KeptRow, Keeping, Keeps, IsNamed, IsClean, is_live, kept_source, kept_live, no_pair, with_pair, HasLiveRow};
ghost use Rattle.plai_fix_laws.specs.Changes.{Clears, SetsCalls, Answers, Makes, Wakes};
ghost use Rattle.plai_fix_laws.specs.Logs.{IsWorking, IsWaking};
ghost use Rattle.plai_fix_laws.specs.Pairs.{Links, HasEvaluated, IsWaiting};
ghost use Rattle.plai_fix_laws.specs.Measures.{kept_room, kept_ranks, kept_dirties};

use plai_theory::AnyDomain;

/// A dirty pair of a live row, worked in part by part: it is evaluated, its calls are set, and its growth is done.
pub fn pair_laws<T: AnyDomain>()
    // A dirty pair is evaluated under what the table keeps.
    ensures evaluates { (g : Program T.domain) → IsLawful T.domain g → (limit : ℕ) (start : Work T.domain) (log : List (LogEntry T.domain)) (k new : Keeping T.domain)
        → (unmet left : ℕ → ℕ → Bool) → IsWorking T.domain g T.limits limit start log k None None unmet → (n i : ℕ) (r : WorkRow T.domain)
        → item (after_all T.domain g start log).rows n ≡ Some r → (c : T.domain.Clause) → item (g.clauses r.name.pred) i ≡ Some c
        → r.live ≡ true → k.dirty n (suc i) ≡ true → (IsOverAt T.domain T.limits (kept_source T.domain k.rows) c r.name.call → ⊥) → Clears T.domain k new n i
        → ((a m : ℕ) → (a ≡ n → m ≡ suc i → ⊥) → left a m ≡ unmet a m) → left n (suc i) ≡ false
        → (answer : Option T.domain.Value) (called : List (NameOf T.domain))
        → answer ≡ answer_of T.domain (kept_source T.domain k.rows) c r.name.call → called ≡ calls_of T.domain (kept_source T.domain k.rows) c r.name.call
        → HasEvaluated T.domain g T.limits limit start (log ++ Evaluated r.name i ∷ []) new (Some (n, i)) left n i called answer }

    // Its calls are the rows of the names that it called; the others have none.
    ensures linked { (g : Program T.domain) → IsLawful T.domain g → (limit : ℕ) (start : Work T.domain) (log : List (LogEntry T.domain)) (k new : Keeping T.domain) (unmet : ℕ
        → ℕ → Bool)
        → (n i : ℕ) (called left : List (NameOf T.domain)) (answer : Option T.domain.Value) (found : ℕ → Bool)
        → HasEvaluated T.domain g T.limits limit start log k (Some (n, i)) unmet n i called answer → SetsCalls T.domain k new n i found
        → Links T.domain k.rows called found left false → ((y : NameOf T.domain) → IsIn y left → (j : ℕ) → IsNamed T.domain k.rows j y → ⊥)
        → HasEvaluated T.domain g T.limits limit start log new None unmet n i called answer }

    // Where the join with its answer is the row's answer, no growth is due; else it is done.
    ensures settles { (g : Program T.domain) → IsLawful T.domain g
        → (limit : ℕ) (start : Work T.domain) (log : List (LogEntry T.domain)) (k : Keeping T.domain) (open_pair : Option (ℕ × ℕ))
        → (unmet : ℕ → ℕ → Bool) (n i : ℕ) (called : List (NameOf T.domain)) (answer : Option T.domain.Value)
        → (has : HasEvaluated T.domain g T.limits limit start log k open_pair unmet n i called answer)
        → join_of T.domain (present_source T.domain (after_all T.domain g start log).rows has.pair.row.name.pred has.pair.row.name.call) answer
        ≡ present_source T.domain (after_all T.domain g start log).rows has.pair.row.name.pred has.pair.row.name.call
        → IsWaiting T.domain g T.limits limit start log k open_pair unmet n i called }
    ensures grows { (g : Program T.domain) → IsLawful T.domain g → (limit : ℕ) (start : Work T.domain) (log : List (LogEntry T.domain)) (k new : Keeping T.domain) (unmet : ℕ → ℕ
        → Bool)
        → (n i : ℕ) (called : List (NameOf T.domain)) (answer a : Option T.domain.Value)
        → (has : HasEvaluated T.domain g T.limits limit start log k None unmet n i called answer)
        → a ≡ join_of T.domain (present_source T.domain (after_all T.domain g start log).rows has.pair.row.name.pred has.pair.row.name.call) answer
        → a ≢ present_source T.domain (after_all T.domain g start log).rows has.pair.row.name.pred has.pair.row.name.call
        → Answers T.domain k new n a → IsWaiting T.domain g T.limits limit start (log ++ Grew has.pair.row.name a ∷ []) new None unmet n i called }
{}

/// Rows for the names that such a pair called, and for entries, and where the pair is closed, and the work ends or stops.
pub fn placing_laws<T: AnyDomain>()
    // A called name without a row gets one, while the pair is open, and an entry's name does.
    ensures reopens { (g : Program T.domain) → IsLawful T.domain g → (limit : ℕ) (start : Work T.domain) (log : List (LogEntry T.domain)) (k : Keeping T.domain) (unmet : ℕ → ℕ
        → Bool)
        → (n i : ℕ) (called : List (NameOf T.domain)) → IsWaiting T.domain g T.limits limit start log k None unmet n i called
        → IsWaiting T.domain g T.limits limit start log k (Some (n, i)) unmet n i called }
    ensures makes_called { (g : Program T.domain) → IsLawful T.domain g
        → (limit : ℕ) (start : Work T.domain) (log : List (LogEntry T.domain)) (k new : Keeping T.domain) (unmet : ℕ → ℕ → Bool)
        → (n i : ℕ) (called : List (NameOf T.domain)) → IsWaiting T.domain g T.limits limit start log k (Some (n, i)) unmet n i called → (y : NameOf T.domain)
        → IsIn y called
        → ((j : ℕ) → IsNamed T.domain k.rows j y → ⊥) → kept_live T.domain k.rows < limit → Makes T.domain g k new y
        → IsWaiting T.domain g T.limits limit start (log ++ Made y ∷ []) new (Some (n, i)) unmet n i called }
    ensures makes_entry { (g : Program T.domain) → IsLawful T.domain g
        → (limit : ℕ) (start : Work T.domain) (log : List (LogEntry T.domain)) (k new : Keeping T.domain) (unmet : ℕ → ℕ → Bool)
        → IsWorking T.domain g T.limits limit start log k None None unmet → (y : NameOf T.domain) → IsIn y g.entries
        → ((j : ℕ) → IsNamed T.domain k.rows j y → ⊥) → kept_live T.domain k.rows < limit → Makes T.domain g k new y
        → IsWorking T.domain g T.limits limit start (log ++ Made y ∷ []) new None None unmet }

    // Where each called name has a row the pair waits no more, but that the row may be dormant; where one has none and the limit
    // is met, it is unmet.
    ensures ends_met { (g : Program T.domain) → IsLawful T.domain g
        → (limit : ℕ) (start : Work T.domain) (log : List (LogEntry T.domain)) (k : Keeping T.domain) (unmet : ℕ → ℕ → Bool)
        → (n i : ℕ) (called : List (NameOf T.domain)) (found : ℕ → Bool) → IsWaiting T.domain g T.limits limit start log k None unmet n i called
        → Links T.domain k.rows called found [] false → IsWaking T.domain g T.limits limit start log k (with_pair n (suc i) no_pair) unmet }
    ensures closes_met { (g : Program T.domain) → IsLawful T.domain g
        → (limit : ℕ) (start : Work T.domain) (log : List (LogEntry T.domain)) (k new : Keeping T.domain) (unmet : ℕ → ℕ → Bool)
        → (n i : ℕ) (called : List (NameOf T.domain)) (found : ℕ → Bool) → IsWaiting T.domain g T.limits limit start log k (Some (n, i)) unmet n i called
        → SetsCalls T.domain k new n i found → Links T.domain k.rows called found [] false
        → IsWaking T.domain g T.limits limit start log new (with_pair n (suc i) no_pair) unmet }
    ensures closes_unmet { (g : Program T.domain) → IsLawful T.domain g
        → (limit : ℕ) (start : Work T.domain) (log : List (LogEntry T.domain)) (k new : Keeping T.domain)
        → (unmet marked : ℕ → ℕ → Bool) (n i : ℕ) (called : List (NameOf T.domain)) (found : ℕ → Bool)
        → IsWaiting T.domain g T.limits limit start log k (Some (n, i)) unmet n i called → SetsCalls T.domain k new n i found
        → Links T.domain k.rows called found [] true
        → limit ≤ kept_live T.domain k.rows → ((a m : ℕ) → marked a m ≡ ((nat_eq a n && nat_eq m (suc i)) || unmet a m))
        → IsWaking T.domain g T.limits limit start log new (with_pair n (suc i) no_pair) marked }

    // Where no pair of a live row is dirty: the log ends where none is unmet and each entry has a live row, and stops at an entry
    // without one.
    ensures ends { (g : Program T.domain) → IsLawful T.domain g
        → (limit : ℕ) (start : Work T.domain) (log : List (LogEntry T.domain)) (k : Keeping T.domain) (unmet : ℕ → ℕ → Bool)
        → IsWorking T.domain g T.limits limit start log k None None unmet → IsClean T.domain k → ((n m : ℕ) → unmet n m ≡ false)
        → ((x : NameOf T.domain) → IsIn x g.entries → HasLiveRow T.domain k.rows x)
        → IsEnd T.domain g (after_all T.domain g start log) }
    ensures stops { (g : Program T.domain) → IsLawful T.domain g
        → (limit : ℕ) (start : Work T.domain) (log : List (LogEntry T.domain)) (k : Keeping T.domain) (unmet : ℕ → ℕ → Bool)
        → IsWorking T.domain g T.limits limit start log k None None unmet → IsClean T.domain k → (x : NameOf T.domain)
        → IsIn x g.entries → (HasLiveRow T.domain k.rows x → ⊥) → limit ≤ kept_live T.domain k.rows
        → IsStoppedLog T.domain g limit start log x × (live_count T.domain (after_all T.domain g start log).rows ≡ limit) }
{}

/// Three numbers of what a table and its arcs keep, which show that work ends: each step lowers one of them and leaves those
/// before it. They are the room for rows and first answers, the ranks of the answers, and the dirty clauses.
pub fn fall_laws<T: AnyDomain>()
    // A made row lowers the room.
    ensures made { (g : Program T.domain) → IsLawful T.domain g
        → (k new : Keeping T.domain) (open_pair next : Option (ℕ × ℕ)) (rows : List (WorkRow T.domain))
        → Keeps T.domain g k open_pair rows → (limit : ℕ) (x : NameOf T.domain) → Keeps T.domain g new next (rows ++ new_row T.domain x ∷ [])
        → kept_live T.domain k.rows < limit → kept_room T.domain limit new.rows < kept_room T.domain limit k.rows }

    // A woken row lowers it too.
    ensures woken { (g : Program T.domain) (limit : ℕ) (k new : Keeping T.domain) (n : ℕ) (kept : KeptRow T.domain) → item k.rows n ≡ Some kept
        → is_live T.domain k.rows n ≡ false → kept_live T.domain k.rows < limit → Wakes T.domain k new n
        → kept_room T.domain limit new.rows < kept_room T.domain limit k.rows }

    // An evaluation lowers the dirty clauses; calls that are set leave them.
    ensures evaluated { (g : Program T.domain) → IsLawful T.domain g
        → (k new : Keeping T.domain) (open_pair next : Option (ℕ × ℕ)) (rows : List (WorkRow T.domain))
        → Keeps T.domain g k open_pair rows → (n : ℕ) (r : WorkRow T.domain) → item rows n ≡ Some r → r.live ≡ true → (i : ℕ) (c : T.domain.Clause)
        → item (g.clauses r.name.pred) i ≡ Some c → r.dirty i ≡ true → (names : List (NameOf T.domain))
        → Keeps T.domain g new next (map (after_evaluating T.domain r.name i names) rows) → kept_dirties T.domain g new < kept_dirties T.domain g k }
    ensures set { (g : Program T.domain) (k new : Keeping T.domain) (n i : ℕ) (called : ℕ → Bool) → SetsCalls T.domain k new n i called
        → kept_dirties T.domain g new ≡ kept_dirties T.domain g k }

    // A first answer lowers the room; a later growth leaves it and lowers the ranks.
    ensures first { (g : Program T.domain) → IsLawful T.domain g
        → (k new : Keeping T.domain) (open_pair next : Option (ℕ × ℕ)) (rows : List (WorkRow T.domain))
        → Keeps T.domain g k open_pair rows → (n : ℕ) (r : WorkRow T.domain) → item rows n ≡ Some r → r.live ≡ true → (v : T.domain.Value)
        → Keeps T.domain g new next (map (after_growing T.domain r.name (Some v)) rows) → (limit : ℕ) → r.answer ≡ None
        → kept_room T.domain limit new.rows < kept_room T.domain limit k.rows }
    ensures room { (g : Program T.domain) → IsLawful T.domain g
        → (k new : Keeping T.domain) (open_pair next : Option (ℕ × ℕ)) (rows : List (WorkRow T.domain))
        → Keeps T.domain g k open_pair rows → (n : ℕ) (r : WorkRow T.domain) → item rows n ≡ Some r → r.live ≡ true → (v : T.domain.Value)
        → Keeps T.domain g new next (map (after_growing T.domain r.name (Some v)) rows) → (limit : ℕ) (u : T.domain.Value) → r.answer ≡ Some u
        → kept_room T.domain limit new.rows ≡ kept_room T.domain limit k.rows }
    ensures ranks { (g : Program T.domain) → IsLawful T.domain g
        → (k new : Keeping T.domain) (open_pair next : Option (ℕ × ℕ)) (rows : List (WorkRow T.domain))
        → Keeps T.domain g k open_pair rows → (n : ℕ) (r : WorkRow T.domain) → item rows n ≡ Some r → r.live ≡ true → (v : T.domain.Value)
        → Keeps T.domain g new next (map (after_growing T.domain r.name (Some v)) rows) → (rank : T.domain.Pred → T.domain.Value → ℕ) → IsRank T.domain rank
        → (u : T.domain.Value) → r.answer ≡ Some u → T.domain.leq r.name.pred u v → u ≢ v
        → kept_ranks T.domain rank new.rows < kept_ranks T.domain rank k.rows }
{}
