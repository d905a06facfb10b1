//! `ObjectList`: the objects of one action, in the order in which they were noted.

ghost use Rattle.std.specs.Prelude.{◌≡◌, ◌<◌, ◌≤◌, ◌+◌, ◌==◌, false, [], ◌∷◌, ◌++◌, length, OnOk};
ghost use Rattle.std.specs.List.{list_any, IsDistinct};
ghost use Rattle.argus_objects.specs.ObjectList.{noted, passed, no_objects};

use argus_contents::ObjId;
use argus_memory::{Heap, OutOfMemory, Room};
use std::marker::Model;

/// Objects in the order in which they were noted, each once.
///
/// Contracts see the objects, and room for how many more there is.
#[derive(Drop)]
pub struct ObjectList {
    objects: Vec<ObjId, Room>,
}

impl Model for ObjectList {
    ghost use Rattle.std.specs.Prelude.{◌-◌, ◌==◌, vec_len};
    ghost use Rattle.std.specs.List.{IsDistinct};
    ghost use Rattle.std.specs.Vec.{vec_capacity};
    ghost use Rattle.argus_objects.specs.ObjectList.{NotedObjects};

    ghost Value = { NotedObjects };

    ghost view = { λ l. record {
      objects = l.objects.items;
      room = vec_capacity l.objects - vec_len l.objects;
    } };

    ghost invariant = { λ l. IsDistinct (λ x y. x.0 == y.0) l.objects.items };
}

impl ObjectList {
    /// A list of no objects. It takes no memory.
    pub fn new(heap: Heap) -> ObjectList
        ensures { result ≡ no_objects }
    {
        ObjectList {
            objects: Vec::new(heap.room()),
        }
    }

    /// The objects.
    #[inline(always)]
    pub fn as_slice(&self) -> &[ObjId]
        ensures list { result.now ≡ self.now.objects }
        ensures once { IsDistinct (λ x y. x.0 == y.0) result.now }
    {
        self.objects.as_slice()
    }

    /// Whether the list is small enough that its memory is worth keeping.
    pub fn is_small(&self) -> bool {
        self.objects.capacity() <= 64
    }

    /// Makes room for this many more objects. After `OutOfMemory` the list is unchanged.
    pub fn reserve(&mut self, additional: usize) -> Result<(), OutOfMemory>
        ensures same { self.new.objects ≡ self.old.objects }
        ensures ok { OnOk result (additional ≤ self.new.room) }
        ensures room { self.old.room ≤ self.new.room }
    {
        self.objects.reserve(additional)?;
        Ok(())
    }

    /// Appends the object, in the reserved room.
    ///
    /// Condition: the object isn't in the list, and there is room.
    #[inline(always)]
    pub fn note_new(&mut self, o: ObjId)
        requires room { 0 < self.old.room }
        requires absent { list_any (λ x. x.0 == o.0) self.old.objects ≡ false }
        ensures list { self.new.objects ≡ self.old.objects ++ o ∷ [] }
        ensures room { self.old.room ≤ self.new.room + 1 }
    {
        self.objects.push_reserved(o);
    }

    /// Appends the object, in the reserved room, unless it is in the list.
    ///
    /// Condition: there is room.
    pub fn note(&mut self, o: ObjId)
        requires { 0 < self.old.room }
        ensures list { self.new.objects ≡ noted o self.old.objects }
        ensures room { self.old.room ≤ self.new.room + 1 }
    {
        if !self.has(o) {
            self.note_new(o);
        }
    }

    /// Notes these objects in their order, in the reserved room.
    ///
    /// Condition: there is room for all of them.
    pub fn note_all(&mut self, objects: &[ObjId])
        requires { length objects.now ≤ self.old.room }
        ensures { self.new.objects ≡ passed objects.now self.old.objects }
    {
        for o in objects {
            self.note(*o);
        }
    }

    /// Empties the list, which keeps its memory.
    pub fn clear(&mut self)
        ensures { self.new.objects ≡ [] }
    {
        self.objects.clear();
    }

    fn has(&self, o: ObjId) -> bool
        ensures { result ≡ list_any (λ x. x.0 == o.0) self.now.objects }
    {
        self.objects.iter().any(|x| *x == o)
    }
}
