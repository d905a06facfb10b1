//! What each committed topaction left for good, the table of it, and checkpoints.
ghost use Rattle.std.specs.Prelude.{◌≡◌, ℕ, true, List, ◌++◌, ◌-◌};
ghost use Rattle.std.specs.List.Sorted.{IsStrictlyIncreasing};
ghost use Rattle.argus_model.specs.{Event.Event, Numbers.contains, Status.is_live, Meaning.Meaning};
ghost use Rattle.argus_model.specs.History.{HistoryOpening, History, Opened, ◌▹◌, next_action};
ghost use Rattle.argus_model.specs.{Holders.writers, Contents.base, Work.{Access, work}, Fold.fold};
ghost use Rattle.argus_model.specs.Effects.{table, written_objects, effects, added_effects};
ghost use Rattle.argus_model.specs.Lawful.{Lawful};

/// The table of all effects has the bases. The commit of a topaction adds an effect at the end; no
/// other event adds one. What comes later goes on from the bases.
pub fn table_of_effects<V, C, A>()
    ensures base { (meaning : Meaning V C A) (opening : HistoryOpening C) (h : History V) (o : ℕ)
        → Lawful meaning opening h
        → table opening.contents (effects meaning opening h) o ≡ base meaning opening h o }
    ensures grows { (meaning : Meaning V C A) (opening : HistoryOpening C) (h : History V)
        (e : Event V)
        → Lawful meaning opening (e ▹ h)
        → effects meaning opening (e ▹ h)
        ≡ effects meaning opening h ++ added_effects meaning opening h e }
    ensures goes_on { (meaning : Meaning V C A) (opening : HistoryOpening C) (h : History V)
        (later : List (List (ℕ × C))) (o : ℕ) → Lawful meaning opening h
        → table opening.contents (effects meaning opening h ++ later) o
        ≡ table (base meaning opening h) later o }
{}

/// An effect names each object that the topaction holds for writing, in increasing number: a live
/// action has written exactly what it holds for writing.
pub fn effect_of_commit<V, C, A>()
    ensures written { (meaning : Meaning V C A) (opening : HistoryOpening C) (h : History V)
        (a o : ℕ)
        → Lawful meaning opening h → is_live h a ≡ true
        → contains (written_objects meaning (work h a)) o ≡ contains (writers meaning h o) a }
    ensures in_order { (meaning : Meaning V C A) (done : List (Access V))
        → IsStrictlyIncreasing (written_objects meaning done) }
{}

/// A history may go on from its own fold, with the bases as they were; the effects before the fold,
/// followed by those after it, make the table of the bases.
pub fn checkpoint<V, C, A>()
    ensures lawful { (meaning : Meaning V C A) (opening : HistoryOpening C) (h : History V)
        (entries : ℕ)
        → Lawful meaning (fold meaning opening h entries) (Opened (next_action h - 1)) }
    ensures base { (meaning : Meaning V C A) (opening : HistoryOpening C) (h : History V)
        (entries o : ℕ)
        → base meaning (fold meaning opening h entries) (Opened (next_action h - 1)) o
        ≡ base meaning opening h o }
    ensures numbers { (meaning : Meaning V C A) (opening : HistoryOpening C) (h : History V)
        → Lawful meaning opening h
        → next_action {V = V} (Opened (next_action h - 1)) ≡ next_action h }
    ensures table { (meaning : Meaning V C A) (opening : HistoryOpening C) (h : History V)
        (entries : ℕ)
        (later : History V) (o : ℕ)
        → Lawful meaning opening h → Lawful meaning (fold meaning opening h entries) later
        → table opening.contents (effects meaning opening h
        ++ effects meaning (fold meaning opening h entries) later) o
        ≡ base meaning (fold meaning opening h entries) later o }
{}
