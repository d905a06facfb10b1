//! What follows for cells as actions begin and end. These functions do nothing: each contract is a
//! law for proofs.

ghost use Rattle.std.specs.Prelude.{◌≡◌, ◌≢◌, true, List};
ghost use Rattle.argus_actions.specs.declared.action_id.ActionId.{ActionId};
ghost use Rattle.argus_actions.specs.{declared.origin.Origin.Origin, Tree.after_abort_others};
ghost use Rattle.argus_actions.specs.Tree.{Tree, after_begin, after_commit, after_abort};
ghost use Rattle.argus_objects.specs.Object.{Object, PlainVersion};
ghost use Rattle.argus_objects.specs.Rules.{is_lawful, may_read, may_write, KeepsAncestors};
ghost use Rattle.argus_objects.specs.CellChanges.{is_reader, has_version, version_of};
ghost use Rattle.argus_objects.specs.CellChanges.{is_holder_inherited, readers_inherited};
ghost use Rattle.argus_objects.specs.CellChanges.{versions_inherited};

/// Ancestors stay ancestors, whatever begins or ends.
pub fn ancestors_stay()
    ensures begin { (tree : Tree) (origin : Origin)
        → KeepsAncestors tree (after_begin tree origin) }
    ensures commit { (tree : Tree) (a : ActionId) → KeepsAncestors tree (after_commit tree a.0) }
    ensures abort { (tree : Tree) (a : ActionId) → KeepsAncestors tree (after_abort tree a.0) }
    ensures abort_others { (tree : Tree) (a : ActionId)
        → KeepsAncestors tree (after_abort_others tree a.0) }
{}

/// If ancestors stay ancestors, a lawful cell stays lawful, and an action that may have a lock
/// still may.
pub fn lawful_stays()
    ensures lawful { (tree later : Tree) (object : Object) → KeepsAncestors tree later
        → is_lawful tree object ≡ true → is_lawful later object ≡ true }
    ensures read { (tree later : Tree) (object : Object) (a : ActionId) → KeepsAncestors tree later
        → may_read tree object a ≡ true → may_read later object a ≡ true }
    ensures write { (tree later : Tree) (object : Object) (a : ActionId) → KeepsAncestors tree later
        → may_write tree object a ≡ true → may_write later object a ≡ true }
{}

/// Who holds locks after a subaction has handed its own to its parent, and with which content.
pub fn members_after_inherit()
    ensures readers { (s parent x : ActionId) (readers : List ActionId) → s.0 ≢ parent.0
        → is_reader x (readers_inherited s parent readers)
        ≡ is_holder_inherited s parent x (is_reader x readers) (is_reader s readers) }
    ensures versions { (s parent x : ActionId) (versions : List PlainVersion) → s.0 ≢ parent.0
        → has_version x (versions_inherited s parent versions)
        ≡ is_holder_inherited s parent x (has_version x versions) (has_version s versions) }
    ensures content { (s parent : ActionId) (versions : List PlainVersion) → s.0 ≢ parent.0
        → has_version s versions ≡ true
        → version_of parent (versions_inherited s parent versions) ≡ version_of s versions }
    ensures others { (s parent x : ActionId) (versions : List PlainVersion)
        → x.0 ≢ s.0 → x.0 ≢ parent.0
        → version_of x (versions_inherited s parent versions) ≡ version_of x versions }
{}
