//! Ancestors, the actions as rows of a tree, and the siblings of an action.
ghost use Rattle.std.specs.Prelude.{◌≡◌, ◌≢◌, ◌<◌, ◌≤◌, ℕ, ◌+◌, ◌-◌, true, false, ◌&&◌, length};
ghost use Rattle.std.specs.{Prelude.{List, Some}, List.list_any, List.Sorted.IsStrictlyIncreasing};
ghost use Rattle.argus_model.specs.Event.{Aborted, Began, Event, Origin, origin_parent};
ghost use Rattle.argus_model.specs.{Event.origin_begun_by, Numbers.contains, Status.live_siblings};
ghost use Rattle.argus_model.specs.History.{HistoryOpening, History, begun_actions, folded};
ghost use Rattle.argus_model.specs.History.{ItsBegin, followed_by, next_action, ◌▹◌};
ghost use Rattle.argus_model.specs.Ancestors.{parent, begun_by, lineage, is_ancestor, is_under};
ghost use Rattle.argus_model.specs.Status.{is_begun, is_live, has_live_child, is_sibling};
ghost use Rattle.argus_model.specs.{Meaning.Meaning, Lawful.{Allowed, Lawful}, Rows.has_live_row};
ghost use Rattle.argus_model.specs.Rows.{origin, row_of, row_at, is_above, depth_at, rows};

/// An action is its own ancestor, ancestors of ancestors are ancestors, and they are older. Those
/// of a live action are live, except for the base. A creator is older, too. Under an action without
/// a live child nothing is live.
pub fn ancestors<V, C, A>()
    ensures own { (h : History V) (a : ℕ) → is_ancestor h a a ≡ true }
    ensures base { (h : History V) (a : ℕ) → is_ancestor h 0 a ≡ true }
    ensures above { (meaning : Meaning V C A) (opening : HistoryOpening C) (h : History V)
        (x y a : ℕ)
        → Lawful meaning opening h → is_begun h a ≡ true
        → is_ancestor h x y ≡ true → is_ancestor h y a ≡ true
        → is_ancestor h x a ≡ true }
    ensures older { (meaning : Meaning V C A) (opening : HistoryOpening C) (h : History V) (x a : ℕ)
        → Lawful meaning opening h → is_begun h a ≡ true → is_ancestor h x a ≡ true
        → x ≤ a }
    ensures live { (meaning : Meaning V C A) (opening : HistoryOpening C) (h : History V) (x a : ℕ)
        → Lawful meaning opening h → is_live h a ≡ true → is_ancestor h x a ≡ true → x ≢ 0
        → is_live h x ≡ true }
    ensures creator { (meaning : Meaning V C A) (opening : HistoryOpening C) (h : History V) (a : ℕ)
        → Lawful meaning opening h → is_begun h a ≡ true → begun_by h a < a }
    ensures alone { (meaning : Meaning V C A) (opening : HistoryOpening C) (h : History V) (x a : ℕ)
        → Lawful meaning opening h → is_live h a ≡ true → is_ancestor h x a ≡ true
        → has_live_child h x ≡ false
        → x ≡ a }
{}

/// The actions that began since the opening are listed in increasing number.
pub fn begun<V>()
    ensures listed { (h : History V) (a : ℕ) → contains (begun_actions h) a ≡ is_begun h a }
    ensures in_order { (h : History V) → IsStrictlyIncreasing (begun_actions h) }
{}

/// Each action that has begun has the event by which it began; its parent and its creator are the
/// ones that this event names, whatever came later.
pub fn begins<V>()
    ensures each { (h : History V) (a : ℕ) → is_begun h a ≡ true → ItsBegin h a }
    ensures parent { (older : History V) (from : Origin) (later : List (Event V))
        → parent (followed_by (Began from ▹ older) later) (next_action older)
        ≡ origin_parent from }
    ensures creator { (older : History V) (from : Origin) (later : List (Event V))
        → begun_by (followed_by (Began from ▹ older) later) (next_action older)
        ≡ origin_begun_by from }
{}

/// The rows, changed by each event in turn, say of each action what the history says: its origin
/// and its status. There is one row for each action that began since the opening.
pub fn rows_say_what_happened<V, C, A>()
    ensures row { (meaning : Meaning V C A) (opening : HistoryOpening C) (h : History V) (a : ℕ)
        → Lawful meaning opening h → is_begun h a ≡ true
        → row_at (folded h) (rows h) a ≡ Some (row_of h a) }
    ensures count { (h : History V) → folded h + length (rows h) + 1 ≡ next_action h }
    ensures parent { (h : History V) (a : ℕ) → origin_parent (origin h a) ≡ parent h a }
    ensures creator { (h : History V) (a : ℕ) → origin_begun_by (origin h a) ≡ begun_by h a }
{}

/// For actions that have begun, the ancestors that are read off the rows are exactly those of the
/// history; so are the live children. The depth of an action is the length of its lineage, not
/// counting the base.
pub fn rows_tell_ancestors_and_children<V, C, A>()
    ensures ancestor { (meaning : Meaning V C A) (opening : HistoryOpening C) (h : History V)
        (x a : ℕ)
        → Lawful meaning opening h
        → is_above (folded h) (rows h) x a
        ≡ ((is_begun h x && is_begun h a) && is_ancestor h x a) }
    ensures child { (meaning : Meaning V C A) (opening : HistoryOpening C) (h : History V) (a : ℕ)
        → Lawful meaning opening h
        → has_live_row (rows h) a ≡ has_live_child h a }
    ensures depth { (meaning : Meaning V C A) (opening : HistoryOpening C) (h : History V) (a : ℕ)
        → Lawful meaning opening h → is_begun h a ≡ true
        → depth_at (folded h) (rows h) a ≡ length (lineage h a) - 1 }
{}

/// The siblings that are listed are the other live actions of the same creator, and they may be
/// aborted in one step. A live action is under one of them exactly if a sibling is in its lineage.
pub fn siblings<V, C, A>()
    ensures who { (meaning : Meaning V C A) (opening : HistoryOpening C) (h : History V) (a x : ℕ)
        → contains (live_siblings h a) x ≡ (is_live h x && is_sibling h a x) }
    ensures may_be_aborted { (meaning : Meaning V C A) (opening : HistoryOpening C) (h : History V)
        (a : ℕ) → Allowed meaning opening h (Aborted (live_siblings h a)) }
    ensures in_order { (h : History V) (a : ℕ) → IsStrictlyIncreasing (live_siblings h a) }
    ensures under { (meaning : Meaning V C A) (opening : HistoryOpening C) (h : History V) (a x : ℕ)
        → Lawful meaning opening h → is_live h x ≡ true
        → is_under h (live_siblings h a) x ≡ list_any (is_sibling h a) (lineage h x) }
{}
