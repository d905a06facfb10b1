//! Laws of a cell that has the base, the readers and the versions that a journal's history gives
//! its object (`IsCell`): what it returns is what the journal says, and each of its steps is an
//! event.
ghost use Rattle.std.specs.Prelude.{◌≡◌, ◌≢◌, ◌∷◌, Bool, List, None, Option, Some, ℕ, filter, map};
ghost use Rattle.std.specs.{Prelude.{not, reverse, true, false}, Option.unwrap_or};
ghost use Rattle.argus_actions.specs.Tree.{Tree, after_begin, after_commit, is_ancestor, parent_of};
ghost use Rattle.argus_actions.specs.declared.action_id.ActionId.{ActionId};
ghost use Rattle.argus_actions.specs.declared.origin.Origin as tree_origin;
ghost use Rattle.argus_contents.specs.Content.{PlainContent};
ghost use Rattle.argus_entries.specs.Entry.{PlainEntry};
ghost use Rattle.argus_journal.specs.{Entries.{entries, is_write, content_after_call}, Legal.Legal};
ghost use Rattle.argus_journal.specs.{Events.{happens, history}, Numbering.in_history};
ghost use Rattle.argus_journal.specs.{Opening.Opening, JournalFacts.versions_of};
ghost use Rattle.argus_journal.specs.JournalFacts.{base_of, is_live_in, readers_of, visible_to};
ghost use Rattle.argus_refinement.specs.CellRefinement.{IsCell, history_numbers, numbered_versions};
ghost use Rattle.argus_refinement.specs.TreeRefinement.{IsTree, history_origin};
ghost use Rattle.argus_model.specs.{Ancestors.is_under, Holders.{readers, writers}};
ghost use Rattle.argus_model.specs.{Event.{Aborted, Accessed, Began, Committed}, Numbers.contains};
ghost use Rattle.argus_model.specs.Holders as model;
ghost use Rattle.argus_objects.specs.CellChanges.{has_version, readers_inherited, version_of};
ghost use Rattle.argus_objects.specs.CellChanges.{versions_inherited, with_reader, with_version};
ghost use Rattle.argus_objects.specs.CellChanges.{without_reader, without_version};
ghost use Rattle.argus_objects.specs.{Object.{Object, holders}, Rules.{is_ascending, is_lawful}};
ghost use Rattle.argus_objects.specs.Rules as cell;

/// What a cell holds is what the journal says: its readers in increasing number, its versions from
/// ancestor to descendant, each with what its holder sees, and its base. A lock is free in the cell
/// if it is free in the history, and an action that may read sees what it sees by the journal: the
/// version of its nearest ancestor that has one, otherwise the base.
pub fn a_cell_refines_the_history()
    ensures readers { (s : Opening) (j : List PlainEntry) (t : Tree) (o : ℕ) (c : Object)
        → IsCell s (history s j) t o c
        → map (λ (x : ActionId). x.0) c.readers ≡ readers_of s j o }
    ensures versions { (s : Opening) (j : List PlainEntry) (t : Tree) (o : ℕ) (c : Object)
        → Legal s j → IsCell s (history s j) t o c
        → numbered_versions c.versions ≡ versions_of s j o }
    ensures base { (s : Opening) (j : List PlainEntry) (t : Tree) (o : ℕ) (c : Object)
        → IsCell s (history s j) t o c → c.base ≡ base_of s j o }
    ensures may_read { (s : Opening) (j : List PlainEntry) (t : Tree) (o : ℕ) (c : Object)
        (a : ActionId) → Legal s j → IsTree t (history s j) → IsCell s (history s j) t o c
        → is_live_in s j a.0 ≡ true
        → cell.may_read t c a ≡ model.may_read entries (history s j) (in_history a.0) o }
    ensures may_write { (s : Opening) (j : List PlainEntry) (t : Tree) (o : ℕ) (c : Object)
        (a : ActionId) → Legal s j → IsTree t (history s j) → IsCell s (history s j) t o c
        → is_live_in s j a.0 ≡ true
        → cell.may_write t c a ≡ model.may_write entries (history s j) (in_history a.0) o }
    ensures seen { (s : Opening) (j : List PlainEntry) (t : Tree) (o : ℕ) (c : Object)
        (a : ActionId) → Legal s j → IsTree t (history s j) → IsCell s (history s j) t o c
        → is_live_in s j a.0 ≡ true → cell.may_read t c a ≡ true
        → cell.visible_content t a c.base c.versions ≡ visible_to s j a.0 o }
{}

/// A cell with the holders that a legal journal gives its object, its versions in increasing number
/// of their holders, is lawful.
pub fn lawful_follows_from_exclusion()
    ensures { (s : Opening) (j : List PlainEntry) (t : Tree) (o : ℕ) (c : Object) → Legal s j
        → IsTree t (history s j) → is_ascending (reverse (holders c.versions)) ≡ true
        → history_numbers c.readers ≡ readers entries (history s j) o
        → ((x : ActionId) → has_version x c.versions
        ≡ contains (writers entries (history s j) o) (in_history x.0))
        → is_lawful t c ≡ true }
{}

/// Each step of a cell is what one more entry says. A begin doesn't change it. A granted read makes
/// a reader, a granted write a version with what the call leaves, and other cells stay. A commit
/// hands what a subaction held to its parent, and makes what a topaction wrote the base. An action
/// under an aborted one holds nothing.
pub fn each_move_is_an_event()
    ensures begin { (s : Opening) (e : PlainEntry) (j : List PlainEntry) (t : Tree) (o : ℕ)
        (c : Object) (from : tree_origin.Origin) → Legal s (e ∷ j) → IsTree t (history s j)
        → IsCell s (history s j) t o c → happens s e j ≡ Some (Began (history_origin from))
        → IsCell s (history s (e ∷ j)) (after_begin t from) o c }
    ensures aside { (s : Opening) (e : PlainEntry) (j : List PlainEntry) (t : Tree) (i o : ℕ)
        (c : Object) (a : ActionId) → Legal s (e ∷ j) → IsTree t (history s j)
        → IsCell s (history s j) t i c → happens s e j ≡ Some (Accessed (in_history a.0) o e)
        → o ≢ i → IsCell s (history s (e ∷ j)) t i c }
    ensures read { (s : Opening) (e : PlainEntry) (j : List PlainEntry) (t : Tree) (o : ℕ)
        (c left : Object) (a : ActionId) → Legal s (e ∷ j) → IsTree t (history s j)
        → IsCell s (history s j) t o c → happens s e j ≡ Some (Accessed (in_history a.0) o e)
        → is_write e.call ≡ false → left.base ≡ c.base
        → left.readers ≡ with_reader a c.readers → left.versions ≡ c.versions
        → is_lawful t left ≡ true → IsCell s (history s (e ∷ j)) t o left }
    ensures write { (s : Opening) (e : PlainEntry) (j : List PlainEntry) (t : Tree) (o : ℕ)
        (c left : Object) (a : ActionId) (content : Option PlainContent) → Legal s (e ∷ j)
        → IsTree t (history s j) → IsCell s (history s j) t o c
        → happens s e j ≡ Some (Accessed (in_history a.0) o e) → is_write e.call ≡ true
        → content ≡ content_after_call e.call (visible_to s j a.0 o) → left.base ≡ c.base
        → left.readers ≡ c.readers → left.versions ≡ with_version a content c.versions
        → is_lawful t left ≡ true → IsCell s (history s (e ∷ j)) t o left }
    ensures inherit { (s : Opening) (e : PlainEntry) (j : List PlainEntry) (t : Tree) (o : ℕ)
        (c left : Object) (a p : ActionId) → Legal s (e ∷ j) → IsTree t (history s j)
        → IsCell s (history s j) t o c → happens s e j ≡ Some (Committed (in_history a.0))
        → parent_of t a.0 ≡ Some p → left.base ≡ c.base
        → left.readers ≡ readers_inherited a p c.readers
        → left.versions ≡ versions_inherited a p c.versions → is_lawful t left ≡ true
        → IsCell s (history s (e ∷ j)) (after_commit t a.0) o left }
    ensures settle { (s : Opening) (e : PlainEntry) (j : List PlainEntry) (t : Tree) (o : ℕ)
        (c left : Object) (a : ActionId) → Legal s (e ∷ j) → IsTree t (history s j)
        → IsCell s (history s j) t o c → happens s e j ≡ Some (Committed (in_history a.0))
        → parent_of t a.0 ≡ None → left.base ≡ unwrap_or (version_of a c.versions) c.base
        → left.readers ≡ without_reader a c.readers
        → left.versions ≡ without_version a c.versions → is_lawful t left ≡ true
        → IsCell s (history s (e ∷ j)) (after_commit t a.0) o left }
    ensures discard { (s : Opening) (e : PlainEntry) (j : List PlainEntry) (t u : Tree) (o : ℕ)
        (c left : Object) (actions : List ℕ) (ended : ℕ → Bool) → Legal s (e ∷ j)
        → IsTree t (history s j) → IsCell s (history s j) t o c
        → happens s e j ≡ Some (Aborted actions)
        → ((x : ActionId) → is_live_in s j x.0 ≡ true
        → ended x.0 ≡ is_under (history s j) actions (in_history x.0))
        → ((x y : ℕ) → is_ancestor t x y ≡ true → is_ancestor u x y ≡ true)
        → left.base ≡ c.base → left.readers ≡ filter (λ x. not (ended x.0)) c.readers
        → left.versions ≡ filter (λ v. not (ended v.holder.0)) c.versions
        → is_lawful t left ≡ true → IsCell s (history s (e ∷ j)) u o left }
{}
