//! `Chunks`: the entries of a journal, none of which moves once there are many.

ghost use Rattle.std.specs.{List.All, Prelude.slice_get, Vec.vec_capacity};
ghost use Rattle.std.specs.Prelude.{◌≡◌, ◌<◌, ◌≤◌, ◌+◌, ◌*◌, ◌++◌, [], ◌∷◌, OnOk, length, map};
ghost use Rattle.argus_entries.specs.Entry.{plain_entry};
ghost use Rattle.argus_journal.specs.declared.chunks.TheConstants.{CHUNK, MOST};

use argus_entries::Entry;
use argus_memory::{Heap, OutOfMemory, Room};
use std::mem::replace;

// How many entries a chunk has.
const CHUNK: usize = 1024;

// No memory has so many chunks.
const MOST: usize = 1_099_511_627_776;

/// Entries, the oldest first, in chunks of 1,024.
///
/// Room for one more copies at most the first chunk, while it grows. So a guardian of few calls
/// takes little memory, and no call waits until a large journal is copied.
#[derive(Drop)]
pub(crate) struct Chunks {
    full: Vec<Vec<Entry, Room>, Room>,
    last: Vec<Entry, Room>,
    // How many entries the full ones have.
    before: usize,
    ghost filled: { All (λ chunk. length chunk.items ≡ CHUNK) full.items },
    ghost counted: { before ≡ length full.items * CHUNK },
    ghost few: { length full.items ≤ MOST },
    ghost tight: { vec_capacity last ≤ CHUNK },
}

impl Chunks {
    ghost use Rattle.argus_journal.specs.Chunks.{chunk_room, chunked};
    ghost use Rattle.argus_journal.specs.Journal.{plain_entry_found};

    /// None. It takes no memory.
    pub(crate) fn new(heap: Heap) -> Chunks
        ensures { chunked result ≡ [] }
    {
        Chunks {
            full: Vec::new(heap.room()),
            last: Vec::new(heap.room()),
            before: 0,
        }
    }

    pub(crate) fn len(&self) -> usize
        ensures len { result ≡ length (chunked self.now) }
        ensures few { result ≤ (MOST + 1) * CHUNK }
    {
        self.before + self.last.len()
    }

    /// Makes room for one more entry. No room is lost, and after `OutOfMemory` nothing has changed.
    #[inline(always)]
    pub(crate) fn reserve(&mut self) -> Result<(), OutOfMemory>
        ensures entries { chunked self.new ≡ chunked self.old }
        ensures room { chunk_room self.old ≤ chunk_room self.new }
        ensures ok { OnOk result (0 < chunk_room self.new) }
    {
        if self.last.len() < self.last.capacity() {
            return Ok(());
        }
        self.grow()
    }

    // The same if there is no room; it is rare, so it isn't inlined.
    #[inline(never)]
    fn grow(&mut self) -> Result<(), OutOfMemory>
        requires { chunk_room self.old ≡ 0 }
        ensures entries { chunked self.new ≡ chunked self.old }
        ensures ok { OnOk result (0 < chunk_room self.new) }
    {
        let len = self.last.len();
        if len == CHUNK {
            return self.begin_chunk();
        }
        self.last.reserve_exact(doubling(len))?;
        Ok(())
    }

    fn begin_chunk(&mut self) -> Result<(), OutOfMemory>
        requires { length self.old.last.items ≡ CHUNK }
        ensures entries { chunked self.new ≡ chunked self.old }
        ensures ok { OnOk result (0 < chunk_room self.new) }
    {
        if self.full.len() == MOST {
            return Err(OutOfMemory);
        }
        self.full.reserve(1)?;
        let empty = Vec::with_capacity(self.last.allocator().heap().room(), CHUNK)?;
        let filled = replace(&mut self.last, empty);
        self.full.push_reserved(filled);
        self.before += CHUNK;
        Ok(())
    }

    /// Appends an entry, in the reserved room. It takes no memory.
    pub(crate) fn push(&mut self, entry: Entry)
        requires { 0 < chunk_room self.old }
        ensures entries { chunked self.new ≡ chunked self.old ++ entry ∷ [] }
        ensures room { chunk_room self.new + 1 ≡ chunk_room self.old }
    {
        self.last.push_reserved(entry);
    }

    /// The entry in this place, counted from 0. `None` if there are fewer.
    pub(crate) fn get(&self, place: usize) -> Option<&Entry>
        ensures { plain_entry_found result ≡ slice_get (map plain_entry (chunked self.now)) place }
    {
        if place < self.before {
            return Chunks::at(&self.full[place / CHUNK], place % CHUNK);
        }
        Chunks::at(&self.last, place - self.before)
    }

    fn at(entries: &[Entry], place: usize) -> Option<&Entry>
        ensures { plain_entry_found result ≡ slice_get (map plain_entry entries.now) place }
    {
        entries.get(place)
    }

    /// Drops all entries, and frees their room.
    pub(crate) fn clear(&mut self)
        ensures entries { chunked self.new ≡ [] }
        ensures room { chunk_room self.new ≡ 0 }
    {
        self.full.clear();
        self.full.shrink_to_fit();
        self.before = 0;
        self.last.clear();
        self.last.shrink_to_fit();
    }
}

// By how many entries a first chunk of this length grows.
fn doubling(len: usize) -> usize
    requires { len < CHUNK }
    ensures more { 0 < result }
    ensures within { len + result ≤ CHUNK }
{
    if len < 4 {
        return 4;
    }
    if len < CHUNK - len { len } else { CHUNK - len }
}
