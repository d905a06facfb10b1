//! What holds of every legal journal, whatever its opening, in the program's numbers. If the
//! opening has to be sound or within the limits, the law says so: every `Journal` has such an
//! opening.
ghost use Rattle.std.specs.Prelude.{◌≡◌, ◌<◌, ◌≤◌, ◌∷◌, ◌++◌, ◌||◌, ◌↔◌, List, Option, reverse};
ghost use Rattle.std.specs.{Prelude.{true, ℕ}, List.Sorted.IsPermutation};
ghost use Rattle.argus_contents.specs.Content.{KeepsLimits, PlainContent};
ghost use Rattle.argus_contents.specs.declared.limits.TheConstants.{MAX_ACTIONS, MAX_OBJECTS};
ghost use Rattle.argus_entries.specs.Entry.{PlainEntry};
ghost use Rattle.argus_journal.specs.{Effects.added_by, Entries.entries, Events.{happens, history}};
ghost use Rattle.argus_journal.specs.{Legal.Legal, Objects.{declared, shape_of}, Serial.AnswersAt};
ghost use Rattle.argus_journal.specs.Opening.{KeepsNumbers, Opening, content_in, fits_shape};
ghost use Rattle.argus_journal.specs.Opening.{is_sound, model_opening};
ghost use Rattle.argus_journal.specs.References.{OccursIn, references_in};
ghost use Rattle.argus_journal.specs.JournalFacts.{accesses_for_good, base_of, effects_of};
ghost use Rattle.argus_journal.specs.JournalFacts.{is_ancestor_in, is_live_in, next_action_number};
ghost use Rattle.argus_journal.specs.JournalFacts.{readers_of, visible_to, serial_run};
ghost use Rattle.argus_journal.specs.JournalFacts.{serial_run_to, writers_of, written_by};
ghost use Rattle.argus_model.specs.{Effects.table, Lawful.Lawful, Numbers.contains};
ghost use Rattle.argus_model.specs.{Run.{AnswersAgain, run}, Work.{Access, content_after}};

/// What a legal journal says happened was allowed by the rules of nested transactions. So every law
/// of `argus_model` holds of its history.
pub fn history_is_lawful()
    ensures { (s : Opening) (j : List PlainEntry) → Legal s j
        → Lawful entries (model_opening s) (history s j) }
{}

/// Of an object's write holder and any other holder, one is an ancestor of the other (Moss 1981,
/// locking rules). So the writers, listed in increasing number, go from ancestor to descendant.
pub fn exclusion()
    ensures related { (s : Opening) (j : List PlainEntry) (o x y : ℕ) → Legal s j
        → contains (writers_of s j o) x ≡ true
        → contains (readers_of s j o ++ writers_of s j o) y ≡ true
        → (is_ancestor_in s j x y || is_ancestor_in s j y x) ≡ true }
    ensures chain { (s : Opening) (j : List PlainEntry) (o x y : ℕ) → Legal s j
        → contains (writers_of s j o) x ≡ true → contains (writers_of s j o) y ≡ true
        → x < y → is_ancestor_in s j x y ≡ true }
    ensures live { (s : Opening) (j : List PlainEntry) (o x : ℕ) → Legal s j
        → contains (readers_of s j o ++ writers_of s j o) x ≡ true
        → is_live_in s j x ≡ true }
{}

/// An object's base is what the serial run leaves in it: the work of the committed topactions, one
/// after another in the order of their commits.
pub fn base_is_serial()
    ensures { (s : Opening) (j : List PlainEntry) (o : ℕ) → Legal s j
        → content_after entries (content_in s.objects) o (serial_run s j) ≡ base_of s j o }
{}

/// The committed topactions, run one after another in the order of their commits from the contents
/// of the opening, and within each action its committed subactions likewise, give each reply again:
/// every access gets its answer from what its object holds just before it. They leave each object's
/// base in it.
pub fn committed_work_runs_again()
    ensures answers { (s : Opening) (j : List PlainEntry) → Legal s j
        → AnswersAgain entries (content_in s.objects) (reverse (serial_run s j)) }
    ensures each { (s : Opening) (j : List PlainEntry)
        (later : List (Access PlainEntry)) (e : Access PlainEntry)
        (earlier : List (Access PlainEntry))
        → Legal s j → serial_run s j ≡ later ++ e ∷ earlier
        → AnswersAt (content_in s.objects) e earlier }
    ensures leaves { (s : Opening) (j : List PlainEntry) (o : ℕ) → Legal s j
        → run entries (content_in s.objects) (reverse (serial_run s j)) o ≡ base_of s j o }
{}

/// That run leaves nothing out, and has nothing twice: it is the accesses of all actions whose work
/// is there for good, perhaps in another order.
pub fn committed_work_is_complete()
    ensures { (s : Opening) (j : List PlainEntry) → Legal s j
        → IsPermutation (serial_run s j) (accesses_for_good s j) }
{}

/// That run, followed by the work of a live action's ancestors, the topmost first, and its own,
/// gives each reply again, too. It leaves in each object what the action sees.
pub fn live_work_runs_again()
    ensures begins { (s : Opening) (j : List PlainEntry) (a : ℕ) → Legal s j
        → is_live_in s j a ≡ true
        → (more : List (Access PlainEntry)) × (serial_run_to s j a ≡ more ++ serial_run s j) }
    ensures answers { (s : Opening) (j : List PlainEntry) (a : ℕ) → Legal s j
        → is_live_in s j a ≡ true
        → AnswersAgain entries (content_in s.objects) (reverse (serial_run_to s j a)) }
    ensures each { (s : Opening) (j : List PlainEntry) (a : ℕ)
        (later : List (Access PlainEntry)) (e : Access PlainEntry)
        (earlier : List (Access PlainEntry))
        → Legal s j → is_live_in s j a ≡ true → serial_run_to s j a ≡ later ++ e ∷ earlier
        → AnswersAt (content_in s.objects) e earlier }
    ensures leaves { (s : Opening) (j : List PlainEntry) (a o : ℕ) → Legal s j
        → is_live_in s j a ≡ true
        → run entries (content_in s.objects) (reverse (serial_run_to s j a)) o
        ≡ visible_to s j a o }
{}

/// An object's base, and what an action sees in it, is absent or fits the object's shape with the
/// objects declared so far, if this holds of the opening.
pub fn contents_fit()
    ensures base { (s : Opening) (j : List PlainEntry) (o : ℕ) → is_sound s ≡ true → Legal s j
        → fits_shape (shape_of s j o) (declared s j) (base_of s j o) ≡ true }
    ensures seen { (s : Opening) (j : List PlainEntry) (a o : ℕ) → is_sound s ≡ true → Legal s j
        → fits_shape (shape_of s j o) (declared s j) (visible_to s j a o) ≡ true }
{}

/// What fits a shape keeps the limits of arrays, and each reference in it, however deep, names a
/// declared object.
pub fn what_fits()
    ensures limits { (s : Opening) (j : List PlainEntry) (o : ℕ) (c : Option PlainContent)
        → fits_shape (shape_of s j o) (declared s j) c ≡ true → KeepsLimits c }
    ensures references { (s : Opening) (j : List PlainEntry) (o r : ℕ) (c : Option PlainContent)
        → fits_shape (shape_of s j o) (declared s j) c ≡ true
        → OccursIn r c → r < declared s j }
{}

/// A reference is in the list of a content's references exactly if it occurs in the content.
pub fn references_are_all()
    ensures { (c : Option PlainContent) (r : ℕ)
        → (contains (references_in c) r ≡ true) ↔ OccursIn r c }
{}

/// The table of the effects has each object's base. The commit of a topaction adds its effect, even
/// an empty one, and no other entry adds any.
pub fn table_of_effects()
    ensures base { (s : Opening) (j : List PlainEntry) (o : ℕ) → Legal s j
        → table (content_in s.objects) (effects_of s j) o ≡ base_of s j o }
    ensures grows { (s : Opening) (e : PlainEntry) (j : List PlainEntry) → Legal s (e ∷ j)
        → effects_of s (e ∷ j) ≡ effects_of s j ++ added_by s (happens s e j) j }
    ensures written { (s : Opening) (j : List PlainEntry) (a o : ℕ) → Legal s j
        → is_live_in s j a ≡ true
        → contains (written_by s j a) o ≡ contains (writers_of s j o) a }
{}

/// From an opening within the limits on, no more objects are declared and actions begun than the
/// limits allow.
pub fn numbers_stay_within_limits()
    ensures objects { (s : Opening) (j : List PlainEntry) → KeepsNumbers s → Legal s j
        → declared s j ≤ MAX_OBJECTS }
    ensures actions { (s : Opening) (j : List PlainEntry) → KeepsNumbers s → Legal s j
        → next_action_number s j ≤ MAX_ACTIONS }
{}
