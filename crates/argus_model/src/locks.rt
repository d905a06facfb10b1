//! Who may hold an object together.
ghost use Rattle.std.specs.Prelude.{◌≡◌, ◌<◌, ℕ, true, ◌||◌, ◌++◌, ◌↔◌};
ghost use Rattle.std.specs.List.Sorted.{IsStrictlyIncreasing};
ghost use Rattle.argus_model.specs.{History.{HistoryOpening, History}, Numbers.contains};
ghost use Rattle.argus_model.specs.{Ancestors.is_ancestor, Status.is_live, Meaning.Meaning};
ghost use Rattle.argus_model.specs.{Holders.{readers, writers, may_read, may_write}, Contents.sees};
ghost use Rattle.argus_model.specs.Lawful.{Lawful};

/// Of an object's write holder and any other holder, one is an ancestor of the other (Moss 1981,
/// locking rules). So the writers, listed in increasing number, go from ancestor to descendant.
pub fn exclusion<V, C, A>()
    ensures related { (meaning : Meaning V C A) (opening : HistoryOpening C) (h : History V)
        (o x y : ℕ)
        → Lawful meaning opening h
        → contains (writers meaning h o) x ≡ true
        → contains (readers meaning h o ++ writers meaning h o) y ≡ true
        → (is_ancestor h x y || is_ancestor h y x) ≡ true }
    ensures chain { (meaning : Meaning V C A) (opening : HistoryOpening C) (h : History V)
        (o x y : ℕ)
        → Lawful meaning opening h
        → contains (writers meaning h o) x ≡ true → contains (writers meaning h o) y ≡ true
        → x < y → is_ancestor h x y ≡ true }
{}

/// Each holder of an object is live; they are listed once each, in increasing number.
pub fn holders<V, C, A>()
    ensures live { (meaning : Meaning V C A) (opening : HistoryOpening C) (h : History V) (o x : ℕ)
        → Lawful meaning opening h
        → contains (readers meaning h o ++ writers meaning h o) x ≡ true
        → is_live h x ≡ true }
    ensures readers_rise { (meaning : Meaning V C A) (h : History V) (o : ℕ)
        → IsStrictlyIncreasing (readers meaning h o) }
    ensures writers_rise { (meaning : Meaning V C A) (h : History V) (o : ℕ)
        → IsStrictlyIncreasing (writers meaning h o) }
{}

/// An action may read an object exactly if each of its writers is an ancestor of the action; it may
/// write exactly if each of its readers is one, too.
pub fn lock_rules<V, C, A>()
    ensures read { (meaning : Meaning V C A) (h : History V) (a o : ℕ)
        → (may_read meaning h a o ≡ true)
        ↔ ((x : ℕ) → contains (writers meaning h o) x ≡ true → is_ancestor h x a ≡ true) }
    ensures write { (meaning : Meaning V C A) (h : History V) (a o : ℕ)
        → (may_write meaning h a o ≡ true)
        ↔ ((x : ℕ) → contains (readers meaning h o ++ writers meaning h o) x ≡ true
        → is_ancestor h x a ≡ true) }
{}

/// Two actions see the same in an object if the same of its writers are ancestors of both.
pub fn views<V, C, A>()
    ensures { (meaning : Meaning V C A) (opening : HistoryOpening C) (h : History V) (x y o : ℕ)
        → Lawful meaning opening h
        → ((z : ℕ) → contains (writers meaning h o) z ≡ true
        → is_ancestor h z x ≡ is_ancestor h z y)
        → sees meaning opening h x o ≡ sees meaning opening h y o }
{}
