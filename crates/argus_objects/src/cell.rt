//! `Cell`: one object, with its base, its readers and its versions.

ghost use Rattle.std.specs.Prelude.{◌≡◌, ◌<◌, ◌≤◌, false, true, [], None, Some, IfOk, OnErr, ◌||◌};
ghost use Rattle.std.specs.{Prelude.{◌+◌, OnOk}, Option.unwrap_or};
ghost use Rattle.argus_actions.specs.{Refusals.commit_refusal, Tree.parent_of};
ghost use Rattle.argus_contents.specs.Answer.{done_or, plain_answer};
ghost use Rattle.argus_contents.specs.Change.{CreatesWithin, gives_value, plain_change};
ghost use Rattle.argus_contents.specs.Content.{KeepsLimits, plain_option};
ghost use Rattle.argus_objects.specs.Object.{versions_newest_first, SameLocks};
ghost use Rattle.argus_objects.specs.Rules.{is_lawful, may_read, may_write, visible_content};
ghost use Rattle.argus_objects.specs.CellChanges.{changed, has_version, is_reader, newest_content};
ghost use Rattle.argus_objects.specs.CellChanges.{readers_inherited, version_of, with_reader};
ghost use Rattle.argus_objects.specs.CellChanges.{without_reader, versions_inherited, with_version};
ghost use Rattle.argus_objects.specs.CellChanges.{without_version};

use crate::changing::{change_version, change_version_by_reference, content_on_top};
use crate::readers::{Readers, all_readers_above};
use crate::version::Version;
use crate::versions::{
    all_writers_above, are_all_related, are_chained, has_version, inherit_version, is_newest,
    is_newest_above, put_version, reserve_version, settle_version, take_version,
};
use argus_actions::{ActionId, ActionTree};
use argus_contents::{Answer, Change, Content, Signal};
use argus_memory::{Heap, OutOfMemory, Room};
use std::marker::Model;

/// One object: its base, which no action holds, the actions that hold read locks, and the versions
/// of those that hold write locks.
///
/// Contracts see these three, and room for how many more readers and versions there is. Readers are
/// in increasing number, versions go from ancestor to descendant. Only `reserve_grant`,
/// `reserve_read`, `grant_change` and `grant_change_by_reference` take memory.
///
/// ```text
/// let mut cell = Cell::new(heap, None);
/// cell.reserve_grant()?;
/// cell.grant_write(&tree, sub, Some(content));    // the subaction has a version
/// cell.inherit(&tree, sub, top);                  // its parent has it; then tree.commit(sub)
/// cell.settle_top(&tree, top);                    // it is the base; then tree.commit(top)
/// ```
#[derive(Drop)]
pub struct Cell {
    base: Option<Content>,
    readers: Readers,
    versions: Vec<Version, Room>,
}

impl Model for Cell {
    ghost use Rattle.std.specs.Prelude.{◌-◌, vec_len};
    ghost use Rattle.std.specs.Vec.{vec_capacity};
    ghost use Rattle.argus_contents.specs.Content.{plain_option};
    ghost use Rattle.argus_objects.specs.Object.{Object, object_coded, versions_newest_first};

    ghost Value = { Object };

    ghost coded = { object_coded };

    ghost use Rattle.argus_objects.specs.Rules.{AreInOrder};

    ghost view = { λ c. record {
      base = plain_option c.base;
      readers = c.readers.items;
      versions =
          versions_newest_first c.versions.items;
      reader_room = c.readers.room;
      version_room = vec_capacity c.versions - vec_len c.versions;
    } };

    ghost invariant = { λ c. AreInOrder c.readers.items c.versions.items };
}

impl Cell {
    /// An object with this base, which no action holds. It takes no memory.
    pub fn new(heap: Heap, base: Option<Content>) -> Cell
        ensures base { result.base ≡ plain_option base }
        ensures readers { result.readers ≡ [] }
        ensures versions { result.versions ≡ [] }
    {
        Cell {
            base,
            readers: Readers::new(heap),
            versions: Vec::new(heap.room()),
        }
    }

    /// The content that the topactions committed so far have left.
    pub fn base(&self) -> &Option<Content>
        ensures { plain_option result.now ≡ self.now.base }
    {
        &self.base
    }

    /// The actions that hold a read lock, in increasing number.
    pub fn readers(&self) -> &[ActionId]
        ensures { result.now ≡ self.now.readers }
    {
        self.readers.as_slice()
    }

    /// The versions, from ancestor to descendant. Their holders are the actions that hold a write
    /// lock.
    pub fn versions(&self) -> &[Version]
        ensures { versions_newest_first result.now ≡ self.now.versions }
    {
        self.versions.as_slice()
    }

    /// Whether the holders of versions are distinct and each is an ancestor of the next, and of a
    /// reader and a version's holder one is an ancestor of the other.
    pub fn lawful(&self, tree: &ActionTree) -> bool
        ensures { result ≡ is_lawful tree.now self.now }
    {
        let versions = self.versions.as_slice();
        are_chained(versions, tree) && are_all_related(self.readers.as_slice(), versions, tree)
    }

    /// Whether `a` may have a read lock: all holders of versions are ancestors of `a`.
    #[inline(always)]
    pub fn may_read(&self, tree: &ActionTree, a: ActionId) -> bool
        ensures { result ≡ may_read tree.now self.now a }
    {
        all_writers_above(self.versions.as_slice(), tree, a)
    }

    /// Whether `a` may have a read lock, as `may_read` says. It looks only at the newest version's
    /// holder, since the other holders are its ancestors.
    ///
    /// Condition: the cell is lawful.
    #[inline(always)]
    pub fn is_readable(&self, tree: &ActionTree, a: ActionId) -> bool
        requires lawful { is_lawful tree.now self.now ≡ true }
        ensures { result ≡ may_read tree.now self.now a }
    {
        is_newest_above(self.versions.as_slice(), tree, a)
    }

    /// Whether `a` may have a write lock: all readers and all holders of versions are ancestors of
    /// `a`.
    #[inline(always)]
    pub fn may_write(&self, tree: &ActionTree, a: ActionId) -> bool
        ensures { result ≡ may_write tree.now self.now a }
    {
        self.may_read(tree, a) && all_readers_above(self.readers.as_slice(), tree, a)
    }

    /// Whether `a` may have a write lock, as `may_write` says. It looks at the newest version's
    /// holder, and at all readers.
    ///
    /// Condition: the cell is lawful.
    #[inline(always)]
    pub fn is_writable(&self, tree: &ActionTree, a: ActionId) -> bool
        requires lawful { is_lawful tree.now self.now ≡ true }
        ensures { result ≡ may_write tree.now self.now a }
    {
        self.is_readable(tree, a) && all_readers_above(self.readers.as_slice(), tree, a)
    }

    /// Whether `a` is a reader or has a version. Of the versions it looks only at the
    /// newest.
    ///
    /// Condition: the read lock is granted, so that a version of `a` is the newest.
    #[inline(always)]
    pub fn is_held_by(&self, tree: &ActionTree, a: ActionId) -> bool
        requires { may_read tree.now self.now a ≡ true }
        ensures { result ≡ (is_reader a self.now.readers || has_version a self.now.versions) }
    {
        is_newest(self.versions.as_slice(), a) || self.readers.has(a)
    }

    /// Whether `a` is a reader or has a version, which need not be the newest.
    #[inline(always)]
    pub fn has_holder(&self, a: ActionId) -> bool
        ensures { result ≡ (is_reader a self.now.readers || has_version a self.now.versions) }
    {
        self.readers.has(a) || has_version(self.versions.as_slice(), a)
    }

    /// Makes room for one more reader and one more version. Either way the lists stay, and no room
    /// is lost.
    #[inline(always)]
    pub fn reserve_grant(&mut self) -> Result<(), OutOfMemory>
        ensures same { SameLocks self.old self.new }
        ensures reader { OnOk result (0 < self.new.reader_room) }
        ensures version { OnOk result (0 < self.new.version_room) }
        ensures reader_room { self.old.reader_room ≤ self.new.reader_room }
        ensures version_room { self.old.version_room ≤ self.new.version_room }
    {
        self.reserve_read()?;
        reserve_version(&mut self.versions)?;
        Ok(())
    }

    /// Makes room for one more reader, and none for a version. Either way the lists stay, and no
    /// room is lost.
    #[inline(always)]
    pub fn reserve_read(&mut self) -> Result<(), OutOfMemory>
        ensures same { SameLocks self.old self.new }
        ensures ok { OnOk result (0 < self.new.reader_room) }
        ensures reader_room { self.old.reader_room ≤ self.new.reader_room }
        ensures version_room { self.new.version_room ≡ self.old.version_room }
    {
        self.readers.reserve()
    }

    /// Makes `a` a reader, if it isn't one.
    ///
    /// Condition: the cell is lawful, `a` is live and has no live child, the read lock is granted,
    /// and there is room for a reader.
    #[inline(always)]
    pub fn grant_read(&mut self, tree: &ActionTree, a: ActionId)
        requires lawful { is_lawful tree.now self.old ≡ true }
        requires free { commit_refusal tree.now a.0 ≡ None }
        requires granted { may_read tree.now self.old a ≡ true }
        requires room { 0 < self.old.reader_room }
        ensures base { self.new.base ≡ self.old.base }
        ensures readers { self.new.readers ≡ with_reader a self.old.readers }
        ensures versions { self.new.versions ≡ self.old.versions }
        ensures lawful { is_lawful tree.now self.new ≡ true }
        ensures reader_room { self.old.reader_room ≤ self.new.reader_room + 1 }
        ensures version_room { self.new.version_room ≡ self.old.version_room }
    {
        self.readers.add(a);
    }

    /// Makes this the content of `a`'s version, which is pushed if `a` had none.
    ///
    /// Condition: the cell is lawful, `a` is live and has no live child, the write lock is granted,
    /// and there is room for a version.
    pub fn grant_write(&mut self, tree: &ActionTree, a: ActionId, new_content: Option<Content>)
        requires lawful { is_lawful tree.now self.old ≡ true }
        requires free { commit_refusal tree.now a.0 ≡ None }
        requires granted { may_write tree.now self.old a ≡ true }
        requires room { 0 < self.old.version_room }
        ensures base { self.new.base ≡ self.old.base }
        ensures readers { self.new.readers ≡ self.old.readers }
        ensures versions { self.new.versions ≡ with_version a (plain_option new_content)
            self.old.versions }
        ensures lawful { is_lawful tree.now self.new ≡ true }
        ensures reader_room { self.new.reader_room ≡ self.old.reader_room }
        ensures version_room { self.old.version_room ≤ self.new.version_room + 1 }
    {
        put_version(&mut self.versions, a, new_content);
    }

    /// Makes a change in `a`'s version, which is pushed if `a` had none, and returns the change's
    /// answer.
    ///
    /// It means what `grant_write` does with the content that the change leaves of what `a` sees.
    /// An existing version is changed in place, so only the first write of an action copies. After
    /// `OutOfMemory` base, readers and versions are unchanged. The result keeps the limits of
    /// arrays if the content that the change creates, if any, does.
    ///
    /// Condition: the cell is lawful, `a` is live and has no live child, the write lock is granted,
    /// and what `a` sees keeps the limits of arrays.
    pub fn grant_change(
        &mut self,
        tree: &ActionTree,
        a: ActionId,
        change: &Change,
    ) -> Result<Answer, OutOfMemory>
        requires lawful { is_lawful tree.now self.old ≡ true }
        requires free { commit_refusal tree.now a.0 ≡ None }
        requires granted { may_write tree.now self.old a ≡ true }
        requires limits { KeepsLimits (visible_content tree.now a self.old.base self.old.versions) }
        ensures base { self.new.base ≡ self.old.base }
        ensures readers { self.new.readers ≡ self.old.readers }
        ensures versions { OnOk result (self.new.versions
            ≡ with_version a (changed tree.now a (plain_change change.now) self.old).0
            self.old.versions) }
        ensures answer { IfOk result (λ answer. plain_answer answer
            ≡ (changed tree.now a (plain_change change.now) self.old).1) }
        ensures kept { CreatesWithin (plain_change change.now)
            → OnOk result (KeepsLimits (changed tree.now a (plain_change change.now) self.old).0) }
        ensures err { OnErr result (self.new.versions ≡ self.old.versions) }
        ensures lawful { is_lawful tree.now self.new ≡ true }
        ensures reader_room { self.new.reader_room ≡ self.old.reader_room }
        ensures version_room { self.old.version_room ≤ self.new.version_room + 1 }
    {
        change_version(&self.base, &mut self.versions, a, change)
    }

    /// Makes a change that returns no value in `a`'s version, as `grant_change` does: `None` if the
    /// answer is `Done`, else the signal.
    ///
    /// The caller keeps the change, so it can be moved to where it is stored. Only the value that
    /// it leaves is copied, and at the first write of an action also what the action sees. After
    /// `OutOfMemory` base, readers and versions are unchanged.
    ///
    /// Condition: as for `grant_change`, and the change is neither `Remh` nor `Reml`.
    #[inline(always)]
    pub fn grant_change_by_reference(
        &mut self,
        tree: &ActionTree,
        a: ActionId,
        change: &Change,
    ) -> Result<Option<Signal>, OutOfMemory>
        requires lawful { is_lawful tree.now self.old ≡ true }
        requires free { commit_refusal tree.now a.0 ≡ None }
        requires granted { may_write tree.now self.old a ≡ true }
        requires limits { KeepsLimits (visible_content tree.now a self.old.base self.old.versions) }
        requires gives_none { gives_value (plain_change change.now) ≡ false }
        ensures base { self.new.base ≡ self.old.base }
        ensures readers { self.new.readers ≡ self.old.readers }
        ensures versions { OnOk result (self.new.versions
            ≡ with_version a (changed tree.now a (plain_change change.now) self.old).0
            self.old.versions) }
        ensures answer { IfOk result (λ refusal. done_or refusal
            ≡ (changed tree.now a (plain_change change.now) self.old).1) }
        ensures kept { CreatesWithin (plain_change change.now)
            → OnOk result (KeepsLimits
            (changed tree.now a (plain_change change.now) self.old).0) }
        ensures err { OnErr result (self.new.versions ≡ self.old.versions) }
        ensures lawful { is_lawful tree.now self.new ≡ true }
        ensures reader_room { self.new.reader_room ≡ self.old.reader_room }
        ensures version_room { self.old.version_room ≤ self.new.version_room + 1 }
    {
        change_version_by_reference(&self.base, &mut self.versions, a, change)
    }

    /// The content that `a` sees: the version of its nearest ancestor that has one, else the base.
    /// As all holders of versions are its ancestors, that is the newest version.
    ///
    /// Condition: the read lock is free for `a`.
    #[inline(always)]
    pub fn visible(&self, tree: &ActionTree, a: ActionId) -> &Option<Content>
        requires { may_read tree.now self.now a ≡ true }
        ensures nearest { plain_option result.now ≡ visible_content tree.now a self.now.base
            self.now.versions }
        ensures newest { plain_option result.now ≡ newest_content self.now.base self.now.versions }
    {
        content_on_top(&self.base, self.versions.as_slice())
    }

    /// Hands what the subaction `s` holds to its parent; it replaces what the parent had.
    ///
    /// Call it before the tree commits `s`. Condition: the cell is lawful, `s` is live and has no
    /// live child, and `parent` is its parent.
    #[inline(always)]
    pub fn inherit(&mut self, tree: &ActionTree, s: ActionId, parent: ActionId)
        requires lawful { is_lawful tree.now self.old ≡ true }
        requires parent { parent_of tree.now s.0 ≡ Some parent }
        requires free { commit_refusal tree.now s.0 ≡ None }
        ensures base { self.new.base ≡ self.old.base }
        ensures readers { self.new.readers ≡ readers_inherited s parent self.old.readers }
        ensures versions { self.new.versions ≡ versions_inherited s parent self.old.versions }
        ensures lawful { is_lawful tree.now self.new ≡ true }
        ensures reader_room { self.old.reader_room ≤ self.new.reader_room }
        ensures version_room { self.old.version_room ≤ self.new.version_room }
    {
        tree.parent_is_ancestor(parent, s);
        self.readers.inherit(s, parent);
        inherit_version(&mut self.versions, s, parent);
    }

    /// Makes the topaction's version, if it has one, the base, and releases its locks.
    ///
    /// Call it before the tree commits `t`. Condition: the cell is lawful, and `t` is live and has
    /// no live child.
    #[inline(always)]
    pub fn settle_top(&mut self, tree: &ActionTree, t: ActionId)
        requires lawful { is_lawful tree.now self.old ≡ true }
        requires free { commit_refusal tree.now t.0 ≡ None }
        ensures base { self.new.base ≡ unwrap_or (version_of t self.old.versions) self.old.base }
        ensures readers { self.new.readers ≡ without_reader t self.old.readers }
        ensures versions { self.new.versions ≡ without_version t self.old.versions }
        ensures lawful { is_lawful tree.now self.new ≡ true }
        ensures reader_room { self.old.reader_room ≤ self.new.reader_room }
        ensures version_room { self.old.version_room ≤ self.new.version_room }
    {
        self.readers.remove(t);
        settle_version(&mut self.base, &mut self.versions, t);
    }

    /// Discards the locks and the version of `a`, if it has any. Those of all other actions stay,
    /// also of the actions under `a`. The reader is found by halving; of the versions the newest is
    /// looked at first.
    ///
    /// Condition: the cell is lawful.
    pub fn release(&mut self, tree: &ActionTree, a: ActionId)
        requires lawful { is_lawful tree.now self.old ≡ true }
        ensures base { self.new.base ≡ self.old.base }
        ensures readers { self.new.readers ≡ without_reader a self.old.readers }
        ensures versions { self.new.versions ≡ without_version a self.old.versions }
        ensures lawful { is_lawful tree.now self.new ≡ true }
        ensures reader_room { self.old.reader_room ≤ self.new.reader_room }
        ensures version_room { self.old.version_room ≤ self.new.version_room }
    {
        self.readers.remove(a);
        let _ = take_version(&mut self.versions, a);
    }
}
