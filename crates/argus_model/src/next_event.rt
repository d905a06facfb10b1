//! What one more event changes: which actions are live, owners, holders of objects, what an action
//! sees, the bases, and the serial order.
//!
//! | | a begins | an access of a | a commits, p its parent | some are aborted |
//! |---|---|---|---|---|
//! | live | a, too | the same | a no more | those under them no more |
//! | owner | a of itself | the same | p in the place of a | gone where it is under them |
//! | holders | the same | a, too | p in the place of a | without those under them |
//! | a live y sees | a as its parent | a what it left | as a saw it, where a wrote, if under p |
//! the same |
//! | for good | the same | the same | as a saw it, where a wrote, if p is the base | the same |
//! | serial order | the same | the same | with the work of a, where p is the base | the same |
ghost use Rattle.std.specs.Prelude.{◌≡◌, ◌≢◌, ℕ, true, not, ◌&&◌, ◌||◌, ◌==◌, ◌∷◌, ◌++◌, List, []};
ghost use Rattle.std.specs.Prelude.{filter, if◌then◌else◌};
ghost use Rattle.argus_model.specs.Event.{Origin, Began, Committed, Aborted, Accessed};
ghost use Rattle.argus_model.specs.{Event.origin_parent, Numbers.{contains, insert}, Lawful.Lawful};
ghost use Rattle.argus_model.specs.History.{HistoryOpening, History, ◌▹◌, next_action};
ghost use Rattle.argus_model.specs.Ancestors.{parent, lineage, is_ancestor, is_under};
ghost use Rattle.argus_model.specs.{Status.{is_begun, is_live}, Meaning.{Meaning, reads}};
ghost use Rattle.argus_model.specs.Owner.{owner, Held, passed_up, unless_gone};
ghost use Rattle.argus_model.specs.{Holders.{readers, writers, inherited}, Contents.{sees, base}};
ghost use Rattle.argus_model.specs.Work.{work, serial_order};

/// An action begins: it is live, is its own owner, sees what its parent sees, and has done nothing;
/// nothing changes for the others.
pub fn begin<V, C, A>()
    ensures live { (meaning : Meaning V C A) (opening : HistoryOpening C) (h : History V)
        (from : Origin)
        (x : ℕ) → Lawful meaning opening (Began from ▹ h)
        → is_live (Began from ▹ h) x ≡ ((x == next_action h) || is_live h x) }
    ensures lineage { (h : History V) (from : Origin)
        → lineage (Began from ▹ h) (next_action h) ≡ next_action h ∷ lineage h
        (origin_parent from) }
    ensures lineages { (h : History V) (from : Origin) (x : ℕ) → x ≢ next_action h
        → lineage (Began from ▹ h) x ≡ lineage h x }
    ensures owner { (meaning : Meaning V C A) (opening : HistoryOpening C) (h : History V)
        (from : Origin)
        → Lawful meaning opening (Began from ▹ h)
        → owner (Began from ▹ h) (next_action h) ≡ Held (next_action h) }
    ensures owners { (meaning : Meaning V C A) (opening : HistoryOpening C) (h : History V)
        (from : Origin)
        (x : ℕ) → Lawful meaning opening (Began from ▹ h) → is_begun h x ≡ true
        → owner (Began from ▹ h) x ≡ owner h x }
    ensures readers { (meaning : Meaning V C A) (opening : HistoryOpening C) (h : History V)
        (from : Origin) (o : ℕ) → Lawful meaning opening (Began from ▹ h)
        → readers meaning (Began from ▹ h) o ≡ readers meaning h o }
    ensures writers { (meaning : Meaning V C A) (opening : HistoryOpening C) (h : History V)
        (from : Origin) (o : ℕ) → Lawful meaning opening (Began from ▹ h)
        → writers meaning (Began from ▹ h) o ≡ writers meaning h o }
    ensures sees { (meaning : Meaning V C A) (opening : HistoryOpening C) (h : History V)
        (from : Origin)
        (o : ℕ) → Lawful meaning opening (Began from ▹ h)
        → sees meaning opening (Began from ▹ h) (next_action h) o
        ≡ sees meaning opening h (origin_parent from) o }
    ensures others_see { (meaning : Meaning V C A) (opening : HistoryOpening C) (h : History V)
        (from : Origin) (x o : ℕ) → Lawful meaning opening (Began from ▹ h) → x ≢ next_action h
        → sees meaning opening (Began from ▹ h) x o ≡ sees meaning opening h x o }
    ensures work { (meaning : Meaning V C A) (opening : HistoryOpening C) (h : History V)
        (from : Origin)
        → Lawful meaning opening (Began from ▹ h)
        → work (Began from ▹ h) (next_action h) ≡ [] }
    ensures base { (meaning : Meaning V C A) (opening : HistoryOpening C) (h : History V)
        (from : Origin)
        (o : ℕ) → Lawful meaning opening (Began from ▹ h)
        → base meaning opening (Began from ▹ h) o ≡ base meaning opening h o }
{}

/// What is there for good is what the base, action 0, sees.
pub fn base_sees<V, C, A>()
    ensures { (meaning : Meaning V C A) (opening : HistoryOpening C) (h : History V) (o : ℕ)
        → Lawful meaning opening h
        → sees meaning opening h 0 o ≡ base meaning opening h o }
{}

/// An access: the action becomes a holder, and sees what the access left; nothing changes for the
/// others.
pub fn access<V, C, A>()
    ensures live { (h : History V) (a o x : ℕ) (v : V)
        → is_live (Accessed a o v ▹ h) x ≡ is_live h x }
    ensures owners { (meaning : Meaning V C A) (opening : HistoryOpening C) (h : History V)
        (a o x : ℕ)
        (v : V) → Lawful meaning opening (Accessed a o v ▹ h) → is_begun h x ≡ true
        → owner (Accessed a o v ▹ h) x ≡ owner h x }
    ensures readers { (meaning : Meaning V C A) (opening : HistoryOpening C) (h : History V)
        (a o i : ℕ)
        (v : V) → Lawful meaning opening (Accessed a o v ▹ h)
        → readers meaning (Accessed a o v ▹ h) i
        ≡ (if o == i && reads meaning v then insert a (readers meaning h i)
        else readers meaning h i) }
    ensures writers { (meaning : Meaning V C A) (opening : HistoryOpening C) (h : History V)
        (a o i : ℕ)
        (v : V) → Lawful meaning opening (Accessed a o v ▹ h)
        → writers meaning (Accessed a o v ▹ h) i
        ≡ (if o == i && meaning.writes v then insert a (writers meaning h i)
        else writers meaning h i) }
    ensures sees { (meaning : Meaning V C A) (opening : HistoryOpening C) (h : History V)
        (a o i : ℕ)
        (v : V) → Lawful meaning opening (Accessed a o v ▹ h)
        → sees meaning opening (Accessed a o v ▹ h) a i
        ≡ (if o == i then meaning.after v (sees meaning opening h a i)
        else sees meaning opening h a i) }
    ensures others_see { (meaning : Meaning V C A) (opening : HistoryOpening C) (h : History V)
        (a o x i : ℕ) (v : V) → Lawful meaning opening (Accessed a o v ▹ h)
        → is_live h x ≡ true → x ≢ a
        → sees meaning opening (Accessed a o v ▹ h) x i ≡ sees meaning opening h x i }
    ensures base { (meaning : Meaning V C A) (opening : HistoryOpening C) (h : History V)
        (a o i : ℕ)
        (v : V) → Lawful meaning opening (Accessed a o v ▹ h)
        → base meaning opening (Accessed a o v ▹ h) i ≡ base meaning opening h i }
{}

/// A commit: the parent takes the action's place as owner and holder. In the objects that the
/// action has written, the actions under the parent see what it saw. If the parent is the base,
/// that is there for good, and the work of the action is the last of the serial order.
pub fn commit<V, C, A>()
    ensures live { (meaning : Meaning V C A) (opening : HistoryOpening C) (h : History V) (a x : ℕ)
        → Lawful meaning opening (Committed a ▹ h)
        → is_live (Committed a ▹ h) x ≡ (is_live h x && not (x == a)) }
    ensures owners { (meaning : Meaning V C A) (opening : HistoryOpening C) (h : History V)
        (a x : ℕ)
        → Lawful meaning opening (Committed a ▹ h) → is_begun h x ≡ true
        → owner (Committed a ▹ h) x ≡ passed_up a (parent h a) (owner h x) }
    ensures readers { (meaning : Meaning V C A) (opening : HistoryOpening C) (h : History V)
        (a o : ℕ)
        → Lawful meaning opening (Committed a ▹ h)
        → readers meaning (Committed a ▹ h) o ≡ inherited a (parent h a) (readers meaning h o) }
    ensures writers { (meaning : Meaning V C A) (opening : HistoryOpening C) (h : History V)
        (a o : ℕ)
        → Lawful meaning opening (Committed a ▹ h)
        → writers meaning (Committed a ▹ h) o ≡ inherited a (parent h a) (writers meaning h o) }
    ensures sees { (meaning : Meaning V C A) (opening : HistoryOpening C) (h : History V)
        (a x o : ℕ)
        → Lawful meaning opening (Committed a ▹ h) → is_live h x ≡ true → x ≢ a
        → sees meaning opening (Committed a ▹ h) x o
        ≡ (if contains (writers meaning h o) a && is_ancestor h (parent h a) x
        then sees meaning opening h a o else sees meaning opening h x o) }
    ensures base { (meaning : Meaning V C A) (opening : HistoryOpening C) (h : History V) (a o : ℕ)
        → Lawful meaning opening (Committed a ▹ h)
        → base meaning opening (Committed a ▹ h) o
        ≡ (if contains (writers meaning h o) a && parent h a == 0
        then sees meaning opening h a o else base meaning opening h o) }
    ensures serial { (meaning : Meaning V C A) (opening : HistoryOpening C) (h : History V) (a : ℕ)
        → Lawful meaning opening (Committed a ▹ h)
        → serial_order (Committed a ▹ h)
        ≡ (if parent h a == 0 then work h a ++ serial_order h else serial_order h) }
{}

/// An abort: all actions under the aborted ones are over, what they answered for is undone and what
/// they held is free; nothing changes for the others.
pub fn abort<V, C, A>()
    ensures live { (meaning : Meaning V C A) (opening : HistoryOpening C) (h : History V)
        (actions : List ℕ) (x : ℕ) → Lawful meaning opening (Aborted actions ▹ h)
        → is_live (Aborted actions ▹ h) x ≡ (is_live h x && not (is_under h actions x)) }
    ensures owners { (meaning : Meaning V C A) (opening : HistoryOpening C) (h : History V)
        (actions : List ℕ) (x : ℕ) → Lawful meaning opening (Aborted actions ▹ h)
        → is_begun h x ≡ true
        → owner (Aborted actions ▹ h) x ≡ unless_gone (is_under h actions) (owner h x) }
    ensures readers { (meaning : Meaning V C A) (opening : HistoryOpening C) (h : History V)
        (actions : List ℕ) (o : ℕ) → Lawful meaning opening (Aborted actions ▹ h)
        → readers meaning (Aborted actions ▹ h) o
        ≡ filter (λ x. not (is_under h actions x)) (readers meaning h o) }
    ensures writers { (meaning : Meaning V C A) (opening : HistoryOpening C) (h : History V)
        (actions : List ℕ) (o : ℕ) → Lawful meaning opening (Aborted actions ▹ h)
        → writers meaning (Aborted actions ▹ h) o
        ≡ filter (λ x. not (is_under h actions x)) (writers meaning h o) }
    ensures sees { (meaning : Meaning V C A) (opening : HistoryOpening C) (h : History V)
        (actions : List ℕ) (x o : ℕ) → Lawful meaning opening (Aborted actions ▹ h)
        → is_live (Aborted actions ▹ h) x ≡ true
        → sees meaning opening (Aborted actions ▹ h) x o ≡ sees meaning opening h x o }
    ensures base { (meaning : Meaning V C A) (opening : HistoryOpening C) (h : History V)
        (actions : List ℕ) (o : ℕ) → Lawful meaning opening (Aborted actions ▹ h)
        → base meaning opening (Aborted actions ▹ h) o ≡ base meaning opening h o }
{}
