//! What a guardian says of its objects. These calls make no entry in the journal, and take no
//! memory.

ghost use Rattle.std.specs.Prelude.{◌≡◌, ◌↔◌, true, IsTrue};
ghost use Rattle.argus_contents.specs.Answer.{flag};
ghost use Rattle.argus_entries.specs.{Call.{plain_call, test_read, test_write}, Reply.answered};
ghost use Rattle.argus_journal.specs.{JournalView.reply_to, Objects.{declared, shape_of}};
ghost use Rattle.argus_journal.specs.Opening.{fits_shape};
ghost use Rattle.argus_journal.specs.JournalFacts.{base_of, readers_of, versions_of};
ghost use Rattle.argus_core.specs.Objects.{action_numbers_found, plain_content_found};
ghost use Rattle.argus_core.specs.Objects.{refusal_of_access, plain_shape_found};
ghost use Rattle.argus_core.specs.Objects.{version_pairs_found, where_declared};

use crate::engine::answering::{is_readable, is_writable};
use crate::engine::refusing::{alter_refusal, ask_refusal, test_refusal};
use crate::guardian::Guardian;
use argus_actions::ActionId;
use argus_contents::{Content, ObjId, Shape};
use argus_entries::{Call, Refusal};
use argus_objects::Version;
use argus_refinement::cell_laws;

impl Guardian {
    /// How many objects are declared; they are numbered from 0.
    pub fn objects(&self) -> u32
        ensures { result ≡ declared self.now.opening self.now.entries }
    {
        self.state.objects.len() as u32
    }

    /// The shape with which the object was declared; `None` if it isn't declared.
    pub fn shape(&self, o: ObjId) -> Option<&Shape>
        ensures { plain_shape_found result ≡ shape_of self.now.opening self.now.entries o.0 }
    {
        match self.state.objects.get(o.0 as usize) {
            Some(object) => Some(&object.shape),
            None => None,
        }
    }

    /// The object's base: the content that the committed topactions have left in it. It is absent
    /// or fits the object's shape; `None` if the object isn't declared.
    ///
    /// Source: base versions of atomic objects, Argus Reference Manual (MIT/LCS/TR-400, 1987).
    pub fn base(&self, o: ObjId) -> Option<&Option<Content>>
        ensures told { plain_content_found result ≡ where_declared self.now o.0
            (base_of self.now.opening self.now.entries o.0) }
        ensures fits { let s = self.now.opening in let j = self.now.entries in
            fits_shape (shape_of s j o.0) (declared s j) (base_of s j o.0) ≡ true }
    {
        match self.state.objects.get(o.0 as usize) {
            Some(object) => Some(object.cell.base()),
            None => None,
        }
    }

    /// The actions that hold the object for reading, in increasing number; `None` if it isn't
    /// declared.
    ///
    /// Source: holders of read locks, Moss, Nested Transactions (MIT/LCS/TR-260, 1981).
    pub fn holders(&self, o: ObjId) -> Option<&[ActionId]>
        ensures { action_numbers_found result ≡ where_declared self.now o.0
            (readers_of self.now.opening self.now.entries o.0) }
    {
        cell_laws::a_cell_refines_the_history();
        match self.state.objects.get(o.0 as usize) {
            Some(object) => Some(object.cell.readers()),
            None => None,
        }
    }

    /// The actions that hold the object for writing, from ancestor to descendant, each with its
    /// version, which is what it sees there; `None` if the object isn't declared.
    ///
    /// Source: the version stack of the Argus Reference Manual (MIT/LCS/TR-400, 1987).
    pub fn versions(&self, o: ObjId) -> Option<&[Version]>
        ensures { version_pairs_found result ≡ where_declared self.now o.0
            (versions_of self.now.opening self.now.entries o.0) }
    {
        cell_laws::a_cell_refines_the_history();
        match self.state.objects.get(o.0 as usize) {
            Some(object) => Some(object.cell.versions()),
            None => None,
        }
    }

    /// Whether `test_read` would say that the action may have the object's read lock. Also false if
    /// it would be refused: the action wasn't begun, is over or has a live child, or the object
    /// isn't declared.
    pub fn can_read(&self, a: ActionId, o: ObjId) -> bool
        ensures { IsTrue result ↔ (reply_to self.now (test_read a.0 o.0) ≡ answered (flag true)) }
    {
        match test_refusal(self.state.objects.as_slice(), &self.state.tree, a, o) {
            Some(_) => false,
            None => is_readable(self.state.objects.as_slice(), &self.state.tree, a, o),
        }
    }

    /// Whether `test_write` would say that the action may have the object's write lock. Also false
    /// if it would be refused: the action wasn't begun, is over or has a live child, or the object
    /// isn't declared.
    pub fn can_write(&self, a: ActionId, o: ObjId) -> bool
        ensures { IsTrue result ↔ (reply_to self.now (test_write a.0 o.0) ≡ answered (flag true)) }
    {
        match test_refusal(self.state.objects.as_slice(), &self.state.tree, a, o) {
            Some(_) => false,
            None => is_writable(self.state.objects.as_slice(), &self.state.tree, a, o),
        }
    }

    /// Why a query or a change would be refused now; `None` if it wouldn't be, and for every other
    /// call.
    pub fn access_refusal(&self, call: &Call) -> Option<Refusal>
        ensures { result ≡ refusal_of_access self.now (plain_call call.now) }
    {
        let objects = self.state.objects.as_slice();
        match call {
            Call::Ask(a, o, query) => ask_refusal(objects, &self.state.tree, *a, *o, query),
            Call::Alter(a, o, change) => alter_refusal(objects, &self.state.tree, *a, *o, change),
            Call::Declare(_)
            | Call::BeginTop
            | Call::BeginSub(_)
            | Call::BeginNested(_)
            | Call::Commit(_)
            | Call::Abort(_)
            | Call::AbortOthers(_)
            | Call::TestRead(_, _)
            | Call::TestWrite(_, _) => None,
        }
    }
}
