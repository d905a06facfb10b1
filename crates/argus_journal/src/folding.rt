//! What a fold keeps: the opening that a legal journal is folded into goes on where the journal
//! ends. If the old opening has to be sound or within the limits, the law says so: every `Journal`
//! has such an opening.
ghost use Rattle.std.specs.Prelude.{◌≡◌, ◌<◌, ◌≤◌, ◌++◌, [], List, Option, length, map, true, ℕ};
ghost use Rattle.argus_contents.specs.{Content.PlainContent, Shape.PlainShape};
ghost use Rattle.argus_entries.specs.Entry.{PlainEntry};
ghost use Rattle.argus_journal.specs.{Folding.{fold, next_entry_number}, Legal.Legal};
ghost use Rattle.argus_journal.specs.{Objects.shapes, Opening.opening_at};
ghost use Rattle.argus_journal.specs.Opening.{KeepsNumbers, Opening, content_in, is_sound};
ghost use Rattle.argus_journal.specs.JournalFacts.{base_of, effects_of, next_action_number};
ghost use Rattle.argus_journal.specs.declared.limits.TheConstants.{MAX_FIRST_ENTRY};
ghost use Rattle.argus_model.specs.Effects.{table};

/// The fold is a sound opening: its contents fit. It is within the limits as long as the next
/// entry's number is at most `MAX_FIRST_ENTRY`. Without entries it is a legal journal.
pub fn a_fold_is_an_opening()
    ensures sound { (s : Opening) (j : List PlainEntry) → is_sound s ≡ true → Legal s j
        → is_sound (fold s j) ≡ true }
    ensures limits { (s : Opening) (j : List PlainEntry) → KeepsNumbers s → Legal s j
        → next_entry_number s j ≤ MAX_FIRST_ENTRY → KeepsNumbers (fold s j) }
    ensures legal { (s : Opening) (j : List PlainEntry) → Legal (fold s j) [] }
{}

/// Objects of the journal's shapes, each with its base, and the next numbers make the fold. So a
/// guardian makes it from what it keeps.
pub fn what_makes_a_fold()
    ensures { (s : Opening) (j : List PlainEntry)
        (objects : List (PlainShape × Option PlainContent)) (first : ℕ)
        → map (λ object. object.0) objects ≡ shapes s j
        → ((o : ℕ) → o < length objects → content_in objects o ≡ base_of s j o)
        → first ≡ next_action_number s j
        → opening_at objects first (next_entry_number s j) ≡ fold s j }
{}

/// Objects, shapes and bases stay, and so do the numbers that come next.
pub fn a_fold_goes_on()
    ensures shapes { (s : Opening) (j : List PlainEntry) → shapes (fold s j) [] ≡ shapes s j }
    ensures base { (s : Opening) (j : List PlainEntry) (o : ℕ) → is_sound s ≡ true → Legal s j
        → base_of (fold s j) [] o ≡ base_of s j o }
    ensures action { (s : Opening) (j : List PlainEntry)
        → next_action_number (fold s j) [] ≡ next_action_number s j }
    ensures entry { (s : Opening) (j : List PlainEntry)
        → next_entry_number (fold s j) [] ≡ next_entry_number s j }
{}

/// Effects go on across the fold: the old opening with the old effects and the later ones makes the
/// same table as the fold with the later ones. So it is what the later entries leave for good.
pub fn effects_go_on()
    ensures table { (s : Opening) (j : List PlainEntry) (later : List (List
        (ℕ × Option PlainContent)))
        (o : ℕ) → is_sound s ≡ true → Legal s j
        → table (content_in s.objects) (effects_of s j ++ later) o
        ≡ table (content_in (fold s j).objects) later o }
    ensures base { (s : Opening) (j later : List PlainEntry) (o : ℕ) → is_sound s ≡ true
        → Legal s j → Legal (fold s j) later
        → table (content_in s.objects) (effects_of s j ++ effects_of (fold s j) later) o
        ≡ base_of (fold s j) later o }
{}
