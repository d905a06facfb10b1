//! Laws of a tree of actions that has the rows of a journal's history (`IsTree`): what it returns
//! is what the history says, each of its calls is an event, and it refuses what the journal
//! refuses.
ghost use Rattle.std.specs.Prelude.{◌≡◌, ◌∷◌, ◌&&◌, [], List, None, Some, ℕ, true};
ghost use Rattle.std.specs.Option.{option_map};
ghost use Rattle.argus_actions.specs.Refusals.{abort_others_refusal, abort_refusal};
ghost use Rattle.argus_actions.specs.Refusals.{begin_nested_refusal, begin_sub_refusal};
ghost use Rattle.argus_actions.specs.Refusals.{begin_top_refusal, commit_refusal};
ghost use Rattle.argus_actions.specs.Rows.{is_live_at, under_at};
ghost use Rattle.argus_actions.specs.Tree.{SameActions, Tree, after_abort, after_abort_others};
ghost use Rattle.argus_actions.specs.Tree.{after_begin, after_commit, creator_of, depth_of};
ghost use Rattle.argus_actions.specs.Tree.{has_live_child, is_ancestor, next, parent_of, status_of};
ghost use Rattle.argus_actions.specs.declared.action_id.ActionId.{ActionId};
ghost use Rattle.argus_actions.specs.declared.origin.Origin as tree_origin;
ghost use Rattle.argus_entries.specs.Entry.{PlainEntry};
ghost use Rattle.argus_journal.specs.Answers.{depth, if_created, if_free, if_live, if_room};
ghost use Rattle.argus_journal.specs.{Answers.if_shallow, Events.history, Legal.Legal};
ghost use Rattle.argus_journal.specs.{Numbering.in_history, Opening.Opening};
ghost use Rattle.argus_journal.specs.JournalFacts.{begun_by_in, is_ancestor_in, is_live_in};
ghost use Rattle.argus_journal.specs.JournalFacts.{next_action_number, parent_in};
ghost use Rattle.argus_refinement.specs.TreeRefinement.{IsTree, history_origin};
ghost use Rattle.argus_refinement.specs.TreeRefinement.{journal_refusal_if_any, history_status};
ghost use Rattle.argus_model.specs.Event.{Aborted, Began, Committed};
ghost use Rattle.argus_model.specs.History.{History, Opened, ◌▹◌};
ghost use Rattle.argus_model.specs.Status.{is_begun, live_siblings, status};
ghost use Rattle.argus_model.specs.Status as model_status;

/// What a tree returns is what the history says: the next number, which actions are live, the
/// ancestors, parents and creators, which actions have a live child, the depth of an action, and
/// its status.
pub fn a_tree_refines_the_history()
    ensures next { (t : Tree) (s : Opening) (j : List PlainEntry) → Legal s j
        → IsTree t (history s j) → next t ≡ next_action_number s j }
    ensures live { (t : Tree) (s : Opening) (j : List PlainEntry) (a : ℕ) → Legal s j
        → IsTree t (history s j) → is_live_at t.folded t.rows a ≡ is_live_in s j a }
    ensures ancestor { (t : Tree) (s : Opening) (j : List PlainEntry) (x a : ℕ) → Legal s j
        → IsTree t (history s j)
        → is_ancestor t x a
        ≡ ((is_begun (history s j) (in_history x) && is_begun (history s j) (in_history a))
        && is_ancestor_in s j x a) }
    ensures parent { (t : Tree) (s : Opening) (j : List PlainEntry) (a : ℕ) → Legal s j
        → IsTree t (history s j) → is_begun (history s j) (in_history a) ≡ true
        → option_map (λ (p : ActionId). p.0) (parent_of t a) ≡ parent_in s j a }
    ensures creator { (t : Tree) (s : Opening) (j : List PlainEntry) (a : ℕ) (c : ActionId)
        → Legal s j → IsTree t (history s j) → is_begun (history s j) (in_history a) ≡ true
        → creator_of t a ≡ Some c → begun_by_in s j a ≡ Some c.0 }
    ensures begun_by { (t : Tree) (s : Opening) (j : List PlainEntry) (a : ℕ) → Legal s j
        → IsTree t (history s j) → is_begun (history s j) (in_history a) ≡ true
        → under_at t.folded t.rows a ≡ begun_by_in s j a }
    ensures child { (t : Tree) (s : Opening) (j : List PlainEntry) (a : ℕ) → Legal s j
        → IsTree t (history s j)
        → has_live_child t a ≡ model_status.has_live_child (history s j) (in_history a) }
    ensures depth { (t : Tree) (s : Opening) (j : List PlainEntry) (a : ℕ) → Legal s j
        → IsTree t (history s j) → is_begun (history s j) (in_history a) ≡ true
        → depth_of t a ≡ Some (depth (history s j) a) }
    ensures status { (t : Tree) (s : Opening) (j : List PlainEntry) (a : ℕ) → Legal s j
        → IsTree t (history s j) → is_begun (history s j) (in_history a) ≡ true
        → option_map history_status (status_of t a) ≡ Some (status (history s j) (in_history a)) }
{}

/// A tree without rows has the rows of an opening with as many folded actions. Each call of the
/// tree is an event. A tree's room doesn't matter.
pub fn each_call_is_an_event()
    ensures start { (t : Tree) (n : ℕ) → t.folded ≡ n → t.rows ≡ []
        → IsTree {V = PlainEntry} t (Opened n) }
    ensures room { (t u : Tree) (h : History PlainEntry) → SameActions t u → IsTree t h
        → IsTree u h }
    ensures begin { (t : Tree) (h : History PlainEntry) (o : tree_origin.Origin) → IsTree t h
        → IsTree (after_begin t o) (Began (history_origin o) ▹ h) }
    ensures commit { (t : Tree) (h : History PlainEntry) (a : ℕ) → IsTree t h
        → IsTree (after_commit t a) (Committed (in_history a) ▹ h) }
    ensures abort { (t : Tree) (h : History PlainEntry) (a : ℕ) → IsTree t h
        → IsTree (after_abort t a) (Aborted (in_history a ∷ []) ▹ h) }
    ensures abort_others { (t : Tree) (s : Opening) (j : List PlainEntry) (a u : ℕ) → Legal s j
        → IsTree t (history s j) → is_begun (history s j) (in_history a) ≡ true
        → under_at t.folded t.rows a ≡ Some u
        → IsTree (after_abort_others t a)
        (Aborted (live_siblings (history s j) (in_history a)) ▹ history s j) }
{}

/// The tree refuses a call exactly if the journal does, and for the same reason.
pub fn refusals_agree()
    ensures begin_top { (t : Tree) (s : Opening) (j : List PlainEntry) → Legal s j
        → IsTree t (history s j) → journal_refusal_if_any (begin_top_refusal t) ≡ if_room
        (history s j) }
    ensures begin_sub { (t : Tree) (s : Opening) (j : List PlainEntry) (p : ℕ) → Legal s j
        → IsTree t (history s j)
        → journal_refusal_if_any (begin_sub_refusal t p)
        ≡ if_live (history s j) p (if_shallow (history s j) p) }
    ensures begin_nested { (t : Tree) (s : Opening) (j : List PlainEntry) (c : ℕ) → Legal s j
        → IsTree t (history s j)
        → journal_refusal_if_any (begin_nested_refusal t c)
        ≡ if_live (history s j) c (if_room (history s j)) }
    ensures commit { (t : Tree) (s : Opening) (j : List PlainEntry) (a : ℕ) → Legal s j
        → IsTree t (history s j)
        → journal_refusal_if_any (commit_refusal t a) ≡ if_free (history s j) a None }
    ensures abort { (t : Tree) (s : Opening) (j : List PlainEntry) (a : ℕ) → Legal s j
        → IsTree t (history s j) → journal_refusal_if_any (abort_refusal t a)
        ≡ if_live (history s j) a None }
    ensures abort_others { (t : Tree) (s : Opening) (j : List PlainEntry) (a : ℕ) → Legal s j
        → IsTree t (history s j)
        → journal_refusal_if_any (abort_others_refusal t a)
        ≡ if_free (history s j) a (if_created (history s j) a) }
{}
