//! What one more entry of a legal journal changes, by what it says happened, in the program's
//! numbers: which actions are live, who holds an object, what an action sees in it, and its base.
//!
//! | | nothing | a begins | an access of a | a commits, p its parent | some are aborted |
//! |---|---|---|---|---|---|
//! | live | the same | a, too | the same | a no more | those under them no more |
//! | readers, writers | the same | the same | a, too | p in the place of a | without those under
//! them |
//! | a live x sees | the same | a as its parent | a what it left | as a saw it, where a wrote, if
//! under p | the same |
//! | for good | the same | the same | the same | as a saw it, where a wrote, if it has no parent |
//! the same |
ghost use Rattle.std.specs.Prelude.{◌≡◌, ◌≢◌, ◌&&◌, ◌||◌, ◌==◌, ◌∷◌, List, None, Some, filter};
ghost use Rattle.std.specs.Prelude.{if◌then◌else◌, is_none, not, true, ℕ};
ghost use Rattle.argus_entries.specs.{Call.abort_others, Entry.PlainEntry};
ghost use Rattle.argus_journal.specs.{Entries.{is_write, content_after_call}, Legal.Legal};
ghost use Rattle.argus_journal.specs.{Events.{happens, history, is_answered}, Opening.Opening};
ghost use Rattle.argus_journal.specs.Numbering.{all_in_history, in_history};
ghost use Rattle.argus_journal.specs.JournalFacts.{base_of, holders_inherited, is_live_in};
ghost use Rattle.argus_journal.specs.JournalFacts.{is_parent_above, is_under_in, live_siblings_in};
ghost use Rattle.argus_journal.specs.JournalFacts.{next_action_number, parent_in, readers_of};
ghost use Rattle.argus_journal.specs.JournalFacts.{visible_to, writers_of};
ghost use Rattle.argus_model.specs.Event.{Aborted, Accessed, Began, Committed, Nested, Origin, Sub};
ghost use Rattle.argus_model.specs.{Event.Top, Numbers.{contains, insert}};

/// A refused call, a declaration and a test that says no leave the history as it is.
pub fn nothing_happens()
    ensures { (s : Opening) (e : PlainEntry) (j : List PlainEntry) → happens s e j ≡ None
        → history s (e ∷ j) ≡ history s j }
{}

/// An action begins: it is live, and sees what its parent sees or what is there for good; nothing
/// changes for the others.
pub fn a_begin()
    ensures live { (s : Opening) (e : PlainEntry) (j : List PlainEntry) (from : Origin) (x : ℕ)
        → Legal s (e ∷ j) → happens s e j ≡ Some (Began from)
        → is_live_in s (e ∷ j) x ≡ ((x == next_action_number s j) || is_live_in s j x) }
    ensures readers { (s : Opening) (e : PlainEntry) (j : List PlainEntry) (from : Origin) (o : ℕ)
        → Legal s (e ∷ j) → happens s e j ≡ Some (Began from)
        → readers_of s (e ∷ j) o ≡ readers_of s j o }
    ensures writers { (s : Opening) (e : PlainEntry) (j : List PlainEntry) (from : Origin) (o : ℕ)
        → Legal s (e ∷ j) → happens s e j ≡ Some (Began from)
        → writers_of s (e ∷ j) o ≡ writers_of s j o }
    ensures sub_sees { (s : Opening) (e : PlainEntry) (j : List PlainEntry) (p o : ℕ)
        → Legal s (e ∷ j) → happens s e j ≡ Some (Began (Sub (in_history p)))
        → visible_to s (e ∷ j) (next_action_number s j) o ≡ visible_to s j p o }
    ensures top_sees { (s : Opening) (e : PlainEntry) (j : List PlainEntry) (o : ℕ)
        → Legal s (e ∷ j) → happens s e j ≡ Some (Began Top)
        → visible_to s (e ∷ j) (next_action_number s j) o ≡ base_of s j o }
    ensures nested_sees { (s : Opening) (e : PlainEntry) (j : List PlainEntry) (c o : ℕ)
        → Legal s (e ∷ j) → happens s e j ≡ Some (Began (Nested (in_history c)))
        → visible_to s (e ∷ j) (next_action_number s j) o ≡ base_of s j o }
    ensures others_see { (s : Opening) (e : PlainEntry) (j : List PlainEntry) (from : Origin)
        (x o : ℕ)
        → Legal s (e ∷ j) → happens s e j ≡ Some (Began from) → x ≢ next_action_number s j
        → visible_to s (e ∷ j) x o ≡ visible_to s j x o }
    ensures base { (s : Opening) (e : PlainEntry) (j : List PlainEntry) (from : Origin) (o : ℕ)
        → Legal s (e ∷ j) → happens s e j ≡ Some (Began from)
        → base_of s (e ∷ j) o ≡ base_of s j o }
{}

/// An access that was granted: its action becomes a holder, and sees what the access left; nothing
/// changes for the others.
pub fn an_access()
    ensures live { (s : Opening) (e : PlainEntry) (j : List PlainEntry) (a i x : ℕ)
        → Legal s (e ∷ j) → happens s e j ≡ Some (Accessed (in_history a) i e)
        → is_live_in s (e ∷ j) x ≡ is_live_in s j x }
    ensures readers { (s : Opening) (e : PlainEntry) (j : List PlainEntry) (a i o : ℕ)
        → Legal s (e ∷ j) → happens s e j ≡ Some (Accessed (in_history a) i e)
        → readers_of s (e ∷ j) o
        ≡ (if i == o && not (is_write e.call) then insert a (readers_of s j o)
        else readers_of s j o) }
    ensures writers { (s : Opening) (e : PlainEntry) (j : List PlainEntry) (a i o : ℕ)
        → Legal s (e ∷ j) → happens s e j ≡ Some (Accessed (in_history a) i e)
        → writers_of s (e ∷ j) o
        ≡ (if i == o && is_write e.call then insert a (writers_of s j o) else writers_of s j o) }
    ensures sees { (s : Opening) (e : PlainEntry) (j : List PlainEntry) (a i o : ℕ)
        → Legal s (e ∷ j) → happens s e j ≡ Some (Accessed (in_history a) i e)
        → visible_to s (e ∷ j) a o
        ≡ (if i == o then content_after_call e.call (visible_to s j a o) else visible_to s j a o) }
    ensures others_see { (s : Opening) (e : PlainEntry) (j : List PlainEntry) (a i x o : ℕ)
        → Legal s (e ∷ j) → happens s e j ≡ Some (Accessed (in_history a) i e)
        → is_live_in s j x ≡ true → x ≢ a
        → visible_to s (e ∷ j) x o ≡ visible_to s j x o }
    ensures base { (s : Opening) (e : PlainEntry) (j : List PlainEntry) (a i o : ℕ)
        → Legal s (e ∷ j) → happens s e j ≡ Some (Accessed (in_history a) i e)
        → base_of s (e ∷ j) o ≡ base_of s j o }
{}

/// A commit: the parent takes the place of the action as holder, and in the objects that the action
/// has written, the actions under the parent see what it saw. For a topaction, that is there for
/// good.
pub fn a_commit()
    ensures live { (s : Opening) (e : PlainEntry) (j : List PlainEntry) (a x : ℕ)
        → Legal s (e ∷ j) → happens s e j ≡ Some (Committed (in_history a))
        → is_live_in s (e ∷ j) x ≡ (is_live_in s j x && not (x == a)) }
    ensures readers { (s : Opening) (e : PlainEntry) (j : List PlainEntry) (a o : ℕ)
        → Legal s (e ∷ j) → happens s e j ≡ Some (Committed (in_history a))
        → readers_of s (e ∷ j) o ≡ holders_inherited a (parent_in s j a) (readers_of s j o) }
    ensures writers { (s : Opening) (e : PlainEntry) (j : List PlainEntry) (a o : ℕ)
        → Legal s (e ∷ j) → happens s e j ≡ Some (Committed (in_history a))
        → writers_of s (e ∷ j) o ≡ holders_inherited a (parent_in s j a) (writers_of s j o) }
    ensures sees { (s : Opening) (e : PlainEntry) (j : List PlainEntry) (a x o : ℕ)
        → Legal s (e ∷ j) → happens s e j ≡ Some (Committed (in_history a))
        → is_live_in s j x ≡ true → x ≢ a
        → visible_to s (e ∷ j) x o
        ≡ (if contains (writers_of s j o) a && is_parent_above s j (parent_in s j a) x
        then visible_to s j a o else visible_to s j x o) }
    ensures base { (s : Opening) (e : PlainEntry) (j : List PlainEntry) (a o : ℕ)
        → Legal s (e ∷ j) → happens s e j ≡ Some (Committed (in_history a))
        → base_of s (e ∷ j) o
        ≡ (if contains (writers_of s j o) a && is_none (parent_in s j a)
        then visible_to s j a o else base_of s j o) }
{}

/// An abort of some actions in one step: all actions under them are over, and what they held is
/// free; nothing changes for the others. `AbortOthers` aborts the live siblings of its action.
pub fn an_abort()
    ensures siblings { (s : Opening) (e : PlainEntry) (j : List PlainEntry) (a : ℕ)
        → e.call ≡ abort_others a → is_answered e.reply ≡ true
        → happens s e j ≡ Some (Aborted (all_in_history (live_siblings_in s j a))) }
    ensures live { (s : Opening) (e : PlainEntry) (j : List PlainEntry) (actions : List ℕ) (x : ℕ)
        → Legal s (e ∷ j) → happens s e j ≡ Some (Aborted (all_in_history actions))
        → is_live_in s (e ∷ j) x ≡ (is_live_in s j x && not (is_under_in s j actions x)) }
    ensures readers { (s : Opening) (e : PlainEntry) (j : List PlainEntry) (actions : List ℕ)
        (o : ℕ)
        → Legal s (e ∷ j) → happens s e j ≡ Some (Aborted (all_in_history actions))
        → readers_of s (e ∷ j) o
        ≡ filter (λ x. not (is_under_in s j actions x)) (readers_of s j o) }
    ensures writers { (s : Opening) (e : PlainEntry) (j : List PlainEntry) (actions : List ℕ)
        (o : ℕ)
        → Legal s (e ∷ j) → happens s e j ≡ Some (Aborted (all_in_history actions))
        → writers_of s (e ∷ j) o
        ≡ filter (λ x. not (is_under_in s j actions x)) (writers_of s j o) }
    ensures sees { (s : Opening) (e : PlainEntry) (j : List PlainEntry) (actions : List ℕ) (x o : ℕ)
        → Legal s (e ∷ j) → happens s e j ≡ Some (Aborted (all_in_history actions))
        → is_live_in s (e ∷ j) x ≡ true
        → visible_to s (e ∷ j) x o ≡ visible_to s j x o }
    ensures base { (s : Opening) (e : PlainEntry) (j : List PlainEntry) (actions : List ℕ) (o : ℕ)
        → Legal s (e ∷ j) → happens s e j ≡ Some (Aborted (all_in_history actions))
        → base_of s (e ∷ j) o ≡ base_of s j o }
{}
