//! Committed work can't be told from work that was done one action after another.
ghost use Rattle.std.specs.Prelude.{◌≡◌, ℕ, true, false, List, ◌∷◌, ◌++◌, ◌&&◌, reverse};
ghost use Rattle.std.specs.List.Sorted.{IsPermutation};
ghost use Rattle.argus_model.specs.{Ancestors.is_ancestor, Event.Event, Status.{is_begun, is_live}};
ghost use Rattle.argus_model.specs.{History.{HistoryOpening, History, ◌▹◌}, Numbers.contains};
ghost use Rattle.argus_model.specs.{Meaning.{Meaning, Fits}, Contents.{sees, base}, Lawful.Lawful};
ghost use Rattle.argus_model.specs.Owner.{Base, is_base, is_held_by, owner};
ghost use Rattle.argus_model.specs.Work.{Access, IsOnRecord, work, serial_order, serial_order_to};
ghost use Rattle.argus_model.specs.Work.{IsItsTopaction, accesses_by, committed_topactions};
ghost use Rattle.argus_model.specs.{Work.{content_after, content_before}, Run.{AnswersAgain, run}};

/// An object's base is what the serial order leaves in it.
pub fn base_is_serial<V, C, A>()
    ensures { (meaning : Meaning V C A) (opening : HistoryOpening C) (h : History V) (o : ℕ)
        → Lawful meaning opening h
        → content_after meaning opening.contents o (serial_order h) ≡ base meaning opening h o }
{}

/// The committed topactions, run one after another in the order of their commits from the contents
/// of the opening, and within each action its committed subactions likewise, give each recorded
/// answer again, each access from what its object holds just before it, and leave each object's
/// base in it. Each access of that run is one that the history has on record, at its object.
pub fn committed_work_runs_again<V, C, A>()
    ensures answers { (meaning : Meaning V C A) (opening : HistoryOpening C) (h : History V)
        → Lawful meaning opening h
        → AnswersAgain meaning opening.contents (reverse (serial_order h)) }
    ensures each { (meaning : Meaning V C A) (opening : HistoryOpening C) (h : History V)
        (later : List (Access V)) (e : Access V) (earlier : List (Access V))
        → Lawful meaning opening h → serial_order h ≡ later ++ e ∷ earlier
        → Fits meaning e.what (content_before meaning opening.contents e earlier) }
    ensures recorded { (h : History V) (later : List (Access V)) (e : Access V)
        (earlier : List (Access V)) → serial_order h ≡ later ++ e ∷ earlier
        → IsOnRecord h e }
    ensures leaves { (meaning : Meaning V C A) (opening : HistoryOpening C) (h : History V) (o : ℕ)
        → Lawful meaning opening h
        → run meaning opening.contents (reverse (serial_order h)) o ≡ base meaning opening h o }
{}

/// The same holds of that run followed by the work of a live action's ancestors, the topmost first,
/// and its own. It begins with the serial run of the committed topactions, and leaves in each
/// object what the action sees.
pub fn live_work_runs_again<V, C, A>()
    ensures answers { (meaning : Meaning V C A) (opening : HistoryOpening C) (h : History V) (a : ℕ)
        → Lawful meaning opening h → is_live h a ≡ true
        → AnswersAgain meaning opening.contents (reverse (serial_order_to h a)) }
    ensures each { (meaning : Meaning V C A) (opening : HistoryOpening C) (h : History V) (a : ℕ)
        (later : List (Access V)) (e : Access V) (earlier : List (Access V))
        → Lawful meaning opening h → is_live h a ≡ true
        → serial_order_to h a ≡ later ++ e ∷ earlier
        → Fits meaning e.what (content_before meaning opening.contents e earlier) }
    ensures recorded { (h : History V) (a : ℕ) (later : List (Access V)) (e : Access V)
        (earlier : List (Access V)) → serial_order_to h a ≡ later ++ e ∷ earlier
        → IsOnRecord h e }
    ensures begins { (meaning : Meaning V C A) (opening : HistoryOpening C) (h : History V) (a : ℕ)
        → Lawful meaning opening h → is_live h a ≡ true
        → (more : List (Access V)) × (serial_order_to h a ≡ more ++ serial_order h) }
    ensures leaves { (meaning : Meaning V C A) (opening : HistoryOpening C) (h : History V)
        (a o : ℕ)
        → Lawful meaning opening h → is_live h a ≡ true
        → run meaning opening.contents (reverse (serial_order_to h a)) o
        ≡ sees meaning opening h a o }
{}

/// The serial order leaves nothing out, and has nothing twice: it is the accesses whose work is
/// there for good, perhaps in another order. The work of each committed topaction is those of them
/// that were made under it, and the work of a live action is what it owns. Each action whose work
/// is there for good has exactly one committed topaction as an ancestor: its accesses are in the
/// work of that one only.
pub fn work_is_complete<V, C, A>()
    ensures serial { (meaning : Meaning V C A) (opening : HistoryOpening C) (h : History V)
        → Lawful meaning opening h
        → IsPermutation (serial_order h) (accesses_by (λ b. is_base (owner h b)) h) }
    ensures committed { (meaning : Meaning V C A) (opening : HistoryOpening C) (h : History V)
        (t : ℕ)
        → Lawful meaning opening h → contains (committed_topactions h) t ≡ true
        → IsPermutation (work h t)
        (accesses_by (λ b. is_base (owner h b) && is_ancestor h t b) h) }
    ensures live { (meaning : Meaning V C A) (opening : HistoryOpening C) (h : History V) (a : ℕ)
        → Lawful meaning opening h → is_live h a ≡ true
        → IsPermutation (work h a) (accesses_by (λ b. is_held_by a (owner h b)) h) }
    ensures one { (meaning : Meaning V C A) (opening : HistoryOpening C) (h : History V) (a : ℕ)
        → Lawful meaning opening h → is_begun h a ≡ true → owner h a ≡ Base
        → (t : ℕ) × IsItsTopaction h a t }
{}

/// The work of an action that is over never changes.
pub fn work_is_final<V, C, A>()
    ensures { (meaning : Meaning V C A) (opening : HistoryOpening C) (h : History V) (e : Event V)
        (a : ℕ)
        → Lawful meaning opening (e ▹ h) → is_begun h a ≡ true → is_live h a ≡ false
        → work (e ▹ h) a ≡ work h a }
{}
