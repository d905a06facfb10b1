//! `OpeningLines`: the lines of an opening that were read.

ghost use Rattle.std.specs.Prelude.{IfOk, [], length, map, take, true, ◌+◌, ◌≡◌, ◌≤◌};
ghost use Rattle.argus_journal.specs.Opening.{is_sound, opening_at, plain_object};
ghost use Rattle.argus_listings.specs.Listing.{each_from, folded_line, opened_line};
ghost use Rattle.argus_resume.specs.{SoundFront.{opening_front, sound_count}, Stage.objects_read};
ghost use Rattle.argus_contents.specs.declared.limits.TheConstants.{MAX_OBJECTS};

use crate::opened_object::OpenedObject;
use argus_contents::{Content, Shape};
use argus_core::Guardian;
use argus_memory::{Heap, OutOfMemory, Room};

/// The lines of an opening that were read. Each content would fit its shape if there were enough
/// objects. Whether these objects are enough is tested when no more can come.
#[derive(Drop)]
pub(crate) struct OpeningLines {
    pub(crate) objects: Vec<OpenedObject, Room>,
    pub(crate) first_action: u32,
    pub(crate) first_entry: u64,
    // How many bytes the first line has.
    pub(crate) head: u64,
}

impl OpeningLines {
    ghost use Rattle.argus_resume.specs.Stage.{IsCounted, lines_of, opening_read};

    /// How many bytes the lines have.
    pub(crate) fn end(&self) -> u64
        requires { IsCounted self.now }
        ensures { result ≡ length (lines_of (opening_read self.now)) }
    {
        match self.objects.last() {
            Some(object) => object.end,
            None => self.head,
        }
    }

    /// How many bytes the lines have up to this many objects.
    pub(crate) fn end_of(&self, count: usize) -> u64
        requires counted { IsCounted self.now }
        requires within { count ≤ length self.now.objects.items }
        ensures { result ≡ length (lines_of (opening_front (opening_read self.now) count)) }
    {
        if count == 0 {
            return self.head;
        }
        self.objects[count - 1].end
    }

    /// How many objects the longest prefix has whose contents refer only to its own objects.
    ///
    /// From the last object down: one that refers to an object past the prefix can't be in a
    /// shorter prefix either, so the prefix ends before it.
    pub(crate) fn sound_count(&self) -> usize
        requires { length self.now.objects.items ≤ MAX_OBJECTS }
        ensures { result ≡ sound_count (opening_read self.now) (length self.now.objects.items) }
    {
        let mut count = self.objects.len();
        let mut o = self.objects.len();
        while o > 0 {
            o -= 1;
            if !self.objects[o].fits(count as u32) {
                count = o;
            }
        }
        count
    }

    /// A guardian that begins with this opening, cut to its first objects, with which it is sound.
    pub(crate) fn guardian(&self, heap: Heap, count: usize) -> Result<Guardian, OutOfMemory>
        requires counted { IsCounted self.now }
        requires within { count ≤ length self.now.objects.items }
        requires sound { is_sound (opening_front (opening_read self.now) count) ≡ true }
        ensures opening { IfOk result (λ guardian. guardian.opening
            ≡ opening_front (opening_read self.now) count) }
        ensures entries { IfOk result (λ guardian. guardian.entries ≡ []) }
    {
        let objects = copies_of(heap, &self.objects[..count])?;
        Guardian::starting_at(heap, objects, self.first_action, self.first_entry)
    }
}

/// Copies of the objects.
fn copies_of(
    heap: Heap,
    objects: &[OpenedObject],
) -> Result<Vec<(Shape, Option<Content>), Room>, OutOfMemory>
    ensures { IfOk result (λ copies. map plain_object copies.items ≡ objects_read objects.now) }
{
    let mut copies = Vec::new(heap.room());
    for object in objects {
        let shape = object.shape.duplicate(heap)?;
        let content = Content::duplicate_option(heap, &object.content)?;
        copies.push((shape, content))?;
    }
    Ok(copies)
}
