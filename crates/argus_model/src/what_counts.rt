//! For whom an action's work counts, as time goes on.
ghost use Rattle.std.specs.{Prelude.{◌≡◌, ◌≢◌, ℕ, true, false, ◌&&◌, ◌==◌}, List.IsDistinct};
ghost use Rattle.argus_model.specs.{Event.Event, History.{HistoryOpening, History, ◌▹◌}};
ghost use Rattle.argus_model.specs.{Numbers.contains, Ancestors.{parent, is_ancestor}};
ghost use Rattle.argus_model.specs.Status.{is_begun, has_committed, is_doomed, is_live};
ghost use Rattle.argus_model.specs.{Owner.{owner, Gone, Held, Base}, Meaning.Meaning};
ghost use Rattle.argus_model.specs.{Work.committed_topactions, Lawful.Lawful};

/// What an action did counts for nobody after it or an ancestor was aborted. Otherwise it counts
/// for the action itself until it commits, and then for the owner of its parent; the work of a
/// committed topaction is there for good (Moss 1981, inheritance of locks).
pub fn owners<V, C, A>()
    ensures doomed { (meaning : Meaning V C A) (opening : HistoryOpening C) (h : History V) (a : ℕ)
        → Lawful meaning opening h → is_begun h a ≡ true → is_doomed h a ≡ true
        → owner h a ≡ Gone }
    ensures live { (meaning : Meaning V C A) (opening : HistoryOpening C) (h : History V) (a : ℕ)
        → Lawful meaning opening h → is_live h a ≡ true
        → owner h a ≡ Held a }
    ensures subaction { (meaning : Meaning V C A) (opening : HistoryOpening C) (h : History V)
        (a : ℕ)
        → Lawful meaning opening h → is_begun h a ≡ true → has_committed h a ≡ true
        → parent h a ≢ 0
        → owner h a ≡ owner h (parent h a) }
    ensures topaction { (meaning : Meaning V C A) (opening : HistoryOpening C) (h : History V)
        (a : ℕ)
        → Lawful meaning opening h → is_begun h a ≡ true → has_committed h a ≡ true
        → parent h a ≡ 0
        → owner h a ≡ Base }
{}

/// The owner of an action is live, and is the action or an ancestor of it.
pub fn owners_are_live<V, C, A>()
    ensures live { (meaning : Meaning V C A) (opening : HistoryOpening C) (h : History V) (a x : ℕ)
        → Lawful meaning opening h → is_begun h a ≡ true → owner h a ≡ Held x
        → is_live h x ≡ true }
    ensures above { (meaning : Meaning V C A) (opening : HistoryOpening C) (h : History V) (a x : ℕ)
        → Lawful meaning opening h → is_begun h a ≡ true → owner h a ≡ Held x
        → is_ancestor h x a ≡ true }
{}

/// What is undone stays undone, what is there for good stays there, and what is over is never live
/// again.
pub fn nothing_comes_back<V, C, A>()
    ensures undone { (meaning : Meaning V C A) (opening : HistoryOpening C) (h : History V)
        (e : Event V)
        (a : ℕ) → Lawful meaning opening (e ▹ h) → is_begun h a ≡ true → owner h a ≡ Gone
        → owner (e ▹ h) a ≡ Gone }
    ensures for_good { (meaning : Meaning V C A) (opening : HistoryOpening C) (h : History V)
        (e : Event V)
        (a : ℕ) → Lawful meaning opening (e ▹ h) → is_begun h a ≡ true → owner h a ≡ Base
        → owner (e ▹ h) a ≡ Base }
    ensures over { (meaning : Meaning V C A) (opening : HistoryOpening C) (h : History V)
        (e : Event V)
        (a : ℕ) → Lawful meaning opening (e ▹ h) → is_begun h a ≡ true → is_live h a ≡ false
        → is_live (e ▹ h) a ≡ false }
{}

/// The serial order has exactly the topactions that committed, each once, and what each of them did
/// is there for good.
pub fn committed_topactions_stay<V, C, A>()
    ensures who { (meaning : Meaning V C A) (opening : HistoryOpening C) (h : History V) (a : ℕ)
        → Lawful meaning opening h
        → contains (committed_topactions h) a ≡ (has_committed h a && parent h a == 0) }
    ensures once { (meaning : Meaning V C A) (opening : HistoryOpening C) (h : History V)
        → Lawful meaning opening h → IsDistinct ◌==◌ (committed_topactions h) }
    ensures for_good { (meaning : Meaning V C A) (opening : HistoryOpening C) (h : History V)
        (a : ℕ)
        → Lawful meaning opening h → contains (committed_topactions h) a ≡ true
        → owner h a ≡ Base }
{}
