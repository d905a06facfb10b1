//! `Holdings`: for each action, the objects on which it has locks.

ghost use Rattle.std.specs.Prelude.{◌≡◌, ◌≢◌, ◌<◌, ◌≤◌, ◌==◌, false, [], ◌∷◌, ◌++◌, length, ℕ};
ghost use Rattle.std.specs.Prelude.{if◌then◌else◌, IfOk, IfSome, None, OnOk, Some};
ghost use Rattle.std.specs.List.{list_any, IsDistinct};
ghost use Rattle.argus_objects.specs.Holdings.{KeepsRooms, objects_held_by, Lists, noted, passed};
ghost use Rattle.argus_objects.specs.Holdings.{PassedOn, HasPlace, IsListOf, IsOfNoOther, IsPlace};
ghost use Rattle.argus_objects.specs.Holdings.{holdings_room_of, list_number, no_objects, noted_by};
ghost use Rattle.argus_objects.specs.Holdings.{placed_at, SameLists, SameNoted, TakesOnePlace};

use crate::held_list::HeldList;
use crate::object_list::ObjectList;
use argus_actions::ActionId;
use argus_contents::ObjId;
use argus_memory::{Heap, OutOfMemory, Room};
use std::mem::replace;

// Empties a list, and keeps its memory if it is small.
fn empty(list: &mut ObjectList, heap: Heap)
    ensures { list.new.objects ≡ [] }
{
    if list.is_small() {
        list.clear();
    } else {
        *list = ObjectList::new(heap);
    }
}

// Keeps the number of a list that no action has, if there is one and room for its number.
fn keep_unused(unused: &mut Vec<u32, Room>, index: Option<u32>) {
    if let Some(index) = index
        && unused.len() < unused.capacity()
    {
        unused.push_reserved(index);
    }
}

/// For each action a list of its objects, in the order in which they were noted, each once. So a
/// commit or an abort visits only the objects of the actions that it ends.
///
/// Each action from the first on has a place, which holds the number of its list if it has one. So
/// a list is found without a search, and an action that never held anything takes eight bytes. A
/// list is a plain vector. One that was passed on or cleared is used again for the next action, and
/// keeps its memory if it has room for at most 64 objects. `note` searches the action's list;
/// `note_new` and `hand_up` search none.
///
/// ```text
/// let mut holdings = Holdings::starting_at(heap, top.0);
/// holdings.reserve(sub)?;
/// holdings.note(sub, o);
/// holdings.reserve_hand_up(top)?;
/// holdings.hand_up(sub, top);                       // the parent's list is the subaction's
/// assert_eq!(rt; holdings.of(top), [o].as_slice());
/// ```
#[derive(Drop)]
pub struct Holdings {
    heap: Heap,
    // The action that has the first place.
    first: u32,
    // For each action from `first` on the number of a list, if it was given one.
    places: Vec<Option<u32>, Room>,
    // The lists. A list belongs to the action that it names, if that action's place has its number.
    lists: Vec<HeldList, Room>,
    // Numbers of lists that may be given to another action.
    unused: Vec<u32, Room>,
}

impl Holdings {
    /// Holdings with nothing noted. It takes no memory.
    pub fn new(heap: Heap) -> Holdings
        ensures { (x : ActionId) → objects_held_by result x ≡ [] }
    {
        Holdings::starting_at(heap, 0)
    }

    /// As `new`, for actions from this number on. It takes no memory. If an earlier action gets a
    /// list all the same, `reserve`, `reserve_pass` and `reserve_hand_up` move all places up by one
    /// for each number in between, each time in linear time.
    pub fn starting_at(heap: Heap, first: u32) -> Holdings
        ensures { (x : ActionId) → objects_held_by result x ≡ [] }
    {
        Holdings {
            heap,
            first,
            places: Vec::new(heap.room()),
            lists: Vec::new(heap.room()),
            unused: Vec::new(heap.room()),
        }
    }

    /// The objects of the action's list; none if nothing was noted.
    #[inline(always)]
    pub fn of(&self, a: ActionId) -> &[ObjId]
        ensures list { result.now ≡ objects_held_by self.now a }
        ensures once { IsDistinct (λ x y. x.0 == y.0) result.now }
    {
        match self.index_of(a) {
            Some(index) => self.lists[index as usize].objects.as_slice(),
            None => &[],
        }
    }

    /// Makes room for one more object in the action's list. `OutOfMemory`, also if there are
    /// 4,294,967,296 lists: the lists are unchanged. Either way no room is lost. If the list is
    /// then passed on, handed up or cleared, its room is gone.
    #[inline(always)]
    pub fn reserve(&mut self, a: ActionId) -> Result<(), OutOfMemory>
        ensures same { SameLists self.old self.new }
        ensures ok { OnOk result (0 < holdings_room_of self.new a) }
        ensures rooms { KeepsRooms self.old self.new }
    {
        self.reserve_for(a, 1)
    }

    /// Appends the object to the action's list, unless it is in it. It takes no memory, and at most
    /// one place of the list's room.
    ///
    /// Condition: the list has room, as `reserve` makes it.
    pub fn note(&mut self, a: ActionId, o: ObjId)
        requires { 0 < holdings_room_of self.old a }
        ensures list { Lists self.old a (noted o (objects_held_by self.old a)) self.new }
        ensures rooms { TakesOnePlace self.old a self.new }
    {
        if let Some(index) = self.index_of(a) {
            self.lists[index as usize].objects.note(o);
        }
    }

    /// Appends the object to the action's list. It takes no memory, and one place of the list's
    /// room, in constant time.
    ///
    /// Condition: the list has room, as `reserve` makes it, and the object isn't in it.
    #[inline(always)]
    pub fn note_new(&mut self, a: ActionId, o: ObjId)
        requires room { 0 < holdings_room_of self.old a }
        requires absent { list_any (λ x. x.0 == o.0) (objects_held_by self.old a) ≡ false }
        ensures list { Lists self.old a (objects_held_by self.old a ++ o ∷ []) self.new }
        ensures rooms { TakesOnePlace self.old a self.new }
    {
        if let Some(index) = self.index_of(a) {
            self.lists[index as usize].objects.note_new(o);
        }
    }

    /// Makes room in the parent's list for all objects of `s`, as `reserve` does for one. After
    /// `OutOfMemory` the lists are unchanged. Either way no room is lost.
    pub fn reserve_pass(&mut self, s: ActionId, parent: ActionId) -> Result<(), OutOfMemory>
        ensures same { SameLists self.old self.new }
        ensures ok { OnOk result (length (objects_held_by self.new s) ≤ holdings_room_of self.new
            parent) }
        ensures rooms { KeepsRooms self.old self.new }
    {
        let count = self.of(s).len();
        if count == 0 {
            return Ok(());
        }
        self.reserve_for(parent, count)
    }

    /// Appends to the parent's list those objects of `s` that it lacks, in their order, and empties
    /// the list of `s`. It takes no memory. The list of `s` keeps its memory if that is room for at
    /// most 64 objects.
    ///
    /// Condition: the two are different actions, and the parent's list has room for all of them, as
    /// `reserve_pass` makes it.
    pub fn pass(&mut self, s: ActionId, parent: ActionId)
        requires room { length (objects_held_by self.old s) ≤ holdings_room_of self.old parent }
        requires other { s.0 ≢ parent.0 }
        ensures { PassedOn self.old s parent self.new }
    {
        let list = self.take_list(s);
        self.note_all(parent, list.as_slice());
        self.give_back(s, list);
    }

    /// Makes a place for the parent's list, so that `hand_up` can put another list there. After
    /// `OutOfMemory` the lists are unchanged. No room is lost.
    #[inline(always)]
    pub fn reserve_hand_up(&mut self, parent: ActionId) -> Result<(), OutOfMemory>
        ensures same { SameLists self.old self.new }
        ensures ok { OnOk result (HasPlace self.new parent) }
        ensures rooms { KeepsRooms self.old self.new }
    {
        if self.place_of(parent) < self.places.len() {
            return Ok(());
        }
        self.reserve_place(parent)
    }

    /// Passes the objects of `s` to a parent that has none: the parent's list is then that of `s`,
    /// whose list is empty. It takes no memory, and constant time.
    ///
    /// Condition: the two are different actions, the parent's list is empty, and there is a place
    /// for it, as `reserve_hand_up` makes it.
    pub fn hand_up(&mut self, s: ActionId, parent: ActionId)
        requires other { s.0 ≢ parent.0 }
        requires none { objects_held_by self.old parent ≡ [] }
        requires place { HasPlace self.old parent }
        ensures passed { PassedOn self.old s parent self.new }
        ensures whole { objects_held_by self.new parent ≡ objects_held_by self.old s }
    {
        if self.of(s).is_empty() {
            self.clear(s);
            return;
        }
        let Some(index) = self.index_of(s) else {
            return;
        };
        let own = self.index_of(parent);
        keep_unused(&mut self.unused, own);
        self.lists[index as usize].holder = parent;
        self.put(parent, Some(index));
    }

    /// Empties the action's list. It takes no memory. The list keeps its memory if that is room for
    /// at most 64 objects.
    pub fn clear(&mut self, a: ActionId)
        ensures { Lists self.old a [] self.new }
    {
        let Some(index) = self.index_of(a) else {
            return;
        };
        empty(&mut self.lists[index as usize].objects, self.heap);
        self.put(a, None);
        keep_unused(&mut self.unused, Some(index));
    }

    // The place of the action's list; one past the end if it has none.
    #[inline(always)]
    fn place_of(&self, a: ActionId) -> usize
        ensures { IsPlace self.now.first (length self.now.places.items) a.0 result }
    {
        if a.0 < self.first {
            usize::MAX
        } else {
            (a.0 - self.first) as usize
        }
    }

    // Takes the action's list out, and leaves an empty one.
    fn take_list(&mut self, a: ActionId) -> ObjectList
        ensures list { result ≡ noted_by self.old a }
        ensures left { (x : ActionId) → noted_by self.new x ≡ (if x.0 == a.0 then no_objects else
            noted_by self.old x) }
    {
        let empty = ObjectList::new(self.heap);
        match self.index_of(a) {
            Some(index) => replace(&mut self.lists[index as usize].objects, empty),
            None => empty,
        }
    }

    // Notes these objects in the action's list, in the room that it has.
    fn note_all(&mut self, a: ActionId, objects: &[ObjId])
        requires { length objects.now ≤ holdings_room_of self.old a }
        ensures { Lists self.old a (passed objects.now (objects_held_by self.old a)) self.new }
    {
        if let Some(index) = self.index_of(a) {
            self.lists[index as usize].objects.note_all(objects);
        }
    }

    // Makes room for this many more objects in the action's list.
    #[inline(always)]
    fn reserve_for(&mut self, a: ActionId, additional: usize) -> Result<(), OutOfMemory>
        ensures same { SameLists self.old self.new }
        ensures ok { OnOk result (additional ≤ holdings_room_of self.new a) }
        ensures rooms { KeepsRooms self.old self.new }
    {
        match self.index_of(a) {
            Some(index) => self.lists[index as usize].objects.reserve(additional),
            None => self.reserve_first(a, additional),
        }
    }

    // The same if the action's list has no place or no memory: it gets both.
    #[inline(never)]
    fn reserve_first(&mut self, a: ActionId, additional: usize) -> Result<(), OutOfMemory>
        requires { noted_by self.old a ≡ no_objects }
        ensures same { SameLists self.old self.new }
        ensures ok { OnOk result (additional ≤ holdings_room_of self.new a) }
        ensures rooms { KeepsRooms self.old self.new }
    {
        self.reserve_place(a)?;
        let index = self.unused_list(a)?;
        self.give(a, index);
        self.lists[index as usize].objects.reserve(additional)
    }

    // Makes a place for the action's list.
    #[inline(never)]
    fn reserve_place(&mut self, a: ActionId) -> Result<(), OutOfMemory>
        ensures same { SameNoted self.old self.new }
        ensures ok { OnOk result (HasPlace self.new a) }
    {
        self.begin_at(a)?;
        let place = self.place_of(a);
        while self.places.len() <= place {
            self.places.push(None)?;
        }
        Ok(())
    }

    // Moves the places up until the first belongs to this action, or to an earlier one.
    fn begin_at(&mut self, a: ActionId) -> Result<(), OutOfMemory>
        ensures same { SameNoted self.old self.new }
        ensures ok { OnOk result (self.new.first ≤ a.0) }
    {
        while a.0 < self.first {
            self.places.insert(0, None)?;
            self.first -= 1;
        }
        Ok(())
    }

    // The number of the action's list, if it has one.
    #[inline(always)]
    fn index_of(&self, a: ActionId) -> Option<u32>
        ensures { result ≡ list_number self.now a }
    {
        let place = self.place_of(a);
        let Some(Some(index)) = self.places.get(place) else {
            return None;
        };
        match self.lists.get(*index as usize) {
            Some(list) if list.holder.0 == a.0 => Some(*index),
            _ => None,
        }
    }

    // Puts this number of a list, or none, in the action's place.
    fn put(&mut self, a: ActionId, index: Option<u32>)
        requires { HasPlace self.old a }
        ensures first { self.new.first ≡ self.old.first }
        ensures lists { self.new.lists.items ≡ self.old.lists.items }
        ensures places { (x : ActionId) → placed_at self.new x ≡ (if x.0 == a.0 then index else
            placed_at self.old x) }
    {
        let place = self.place_of(a);
        if let Some(placed) = self.places.get_mut(place) {
            *placed = index;
        }
    }

    // Gives the action a list that no other has, as an empty one.
    fn give(&mut self, a: ActionId, index: u32)
        requires place { HasPlace self.old a }
        requires none { noted_by self.old a ≡ no_objects }
        requires there { index < length self.old.lists.items }
        requires free { IsOfNoOther self.old a index }
        ensures own { IsListOf self.new a index }
        ensures same { SameLists self.old self.new }
        ensures rooms { KeepsRooms self.old self.new }
    {
        let list = &mut self.lists[index as usize];
        list.objects.clear();
        list.holder = a;
        self.put(a, Some(index));
    }

    // Puts back a list that was taken from this action, emptied.
    fn give_back(&mut self, s: ActionId, mut taken: ObjectList)
        requires { objects_held_by self.old s ≡ [] }
        ensures { SameLists self.old self.new }
    {
        if let Some(index) = self.index_of(s) {
            taken.clear();
            self.lists[index as usize].objects = taken;
            self.clear(s);
        }
    }

    // A list that no other action has.
    fn unused_list(&mut self, a: ActionId) -> Result<u32, OutOfMemory>
        ensures first { self.new.first ≡ self.old.first }
        ensures places { self.new.places.items ≡ self.old.places.items }
        ensures same { SameNoted self.old self.new }
        ensures there { IfOk result (λ index. index < length self.new.lists.items) }
        ensures free { IfOk result (λ index. IsOfNoOther self.new a index) }
    {
        match self.take_unused() {
            Some(index) => Ok(index),
            None => self.new_list(a),
        }
    }

    // The last unused list, if really no action has it. No invariant says so, so it is looked up.
    fn take_unused(&mut self) -> Option<u32>
        ensures first { self.new.first ≡ self.old.first }
        ensures places { self.new.places.items ≡ self.old.places.items }
        ensures lists { self.new.lists.items ≡ self.old.lists.items }
        ensures there { IfSome result (λ index. index < length self.new.lists.items) }
        ensures free { IfSome result (λ index. (a : ActionId) → IsOfNoOther self.new a index) }
    {
        let index = self.unused.pop()?;
        match self.lists.get(index as usize) {
            Some(list) => match self.index_of(list.holder) {
                Some(own) if own == index => None,
                _ => Some(index),
            },
            None => None,
        }
    }

    // One more list, for this action, and room to keep its number when it is no longer used.
    fn new_list(&mut self, a: ActionId) -> Result<u32, OutOfMemory>
        ensures first { self.new.first ≡ self.old.first }
        ensures places { self.new.places.items ≡ self.old.places.items }
        ensures same { SameNoted self.old self.new }
        ensures there { IfOk result (λ index. index < length self.new.lists.items) }
        ensures free { IfOk result (λ index. IsOfNoOther self.new a index) }
    {
        let count = self.lists.len();
        if count > u32::MAX as usize {
            return Err(OutOfMemory);
        }
        self.unused.reserve(count + 1)?;
        self.lists.push(HeldList {
            holder: a,
            objects: ObjectList::new(self.heap),
        })?;
        Ok(count as u32)
    }
}
