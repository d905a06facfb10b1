//! `Entry`: a call with its reply, as a journal keeps it.

ghost use Rattle.std.specs.Prelude.{◌≡◌, ◌↔◌, true, IfOk};
ghost use Rattle.argus_contents.specs.Decided.{said_equivalence};
ghost use Rattle.argus_entries.specs.{Decided.entry_decided, Entry.plain_entry, Same.same_entry};

use crate::call::{self, Call};
use crate::reply::{self, Reply};
use argus_memory::{Heap, OutOfMemory};

/// A call with its reply, as a journal keeps it.
///
/// ```text
/// journal.push(Entry { call: Call::BeginTop, reply: Reply::Begun(ActionId(0)) });
/// ```
#[derive(Debug)]
pub struct Entry {
    pub call: Call,
    pub reply: Reply,
}

// Written by hand, so that dropping an entry is one call; a derived `Drop` is expanded at each
// place.
impl Drop for Entry {
    fn drop(self) {
        let Entry { call: _, reply: _ } = self;
    }
}

// Fresh memory costs some nanoseconds a word, so texts, lists and whole contents are boxed.
const _: () = prove!(size_of::<Entry>() == 96);

impl Entry {
    /// An entry equal to this one. `OutOfMemory`: nothing was copied.
    pub fn duplicate(&self, heap: Heap) -> Result<Entry, OutOfMemory>
        ensures { IfOk result (λ copy. plain_entry copy ≡ plain_entry self.now) }
    {
        Ok(Entry {
            call: self.call.duplicate(heap)?,
            reply: self.reply.duplicate(heap)?,
        })
    }
}

impl PartialEq for Entry {
    ghost eq = { λ a b. same_entry (plain_entry a) (plain_entry b) };

    ghost laws = { said_equivalence plain_entry same_entry entry_decided };

    /// Whether both say the same. It takes no memory.
    fn eq(&self, other: &Entry) -> bool
        ensures { (result ≡ true) ↔ (plain_entry self.now ≡ plain_entry other.now) }
    {
        is_same(self, other)
    }
}

fn is_same(a: &Entry, b: &Entry) -> bool
    ensures { result ≡ same_entry (plain_entry a.now) (plain_entry b.now) }
{
    call::is_same(&a.call, &b.call) && reply::is_same(&a.reply, &b.reply)
}
