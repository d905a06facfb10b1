//! `Readers`: the actions that hold read locks on an object.

ghost use Rattle.std.specs.Prelude.{◌≡◌, ◌<◌, ◌≤◌, ◌+◌, ◌-◌, ◌∷◌, ◌++◌, [], true, false, length};
ghost use Rattle.std.specs.Prelude.{take, drop, slice_index_or, vec_len, OnOk, IfOk, IfErr};
ghost use Rattle.std.specs.{List.copy_within, Vec.vec_capacity};
ghost use Rattle.argus_actions.specs.declared.action_id.ActionId.{ActionId};
ghost use Rattle.argus_objects.specs.{Rules.{all_above, is_ascending}, Readers.{StandsAt, GoesTo}};
ghost use Rattle.argus_objects.specs.CellChanges.{is_reader, with_reader, without_reader};
ghost use Rattle.argus_objects.specs.CellChanges.{readers_inherited};

use argus_actions::{ActionId, ActionTree};
use argus_memory::{Heap, OutOfMemory, Room};
use std::marker::Model;

/// Actions in increasing number, side by side behind places that are free.
///
/// Contracts see the actions, and room for how many more there is. The newest is looked at first,
/// and any other is found by halving. One that comes or goes moves those on its shorter side.
#[derive(Drop)]
pub struct Readers {
    list: Vec<ActionId, Room>,
    front: usize,
}

impl Model for Readers {
    ghost use Rattle.std.specs.Prelude.{◌+◌, ◌-◌, ◌≤◌, drop, vec_len};
    ghost use Rattle.std.specs.Vec.{vec_capacity};
    ghost use Rattle.argus_objects.specs.Readers.{ReaderList, reader_list_coded};

    ghost Value = { ReaderList };

    ghost coded = { reader_list_coded };

    ghost view = { λ r. record {
      items = drop r.front r.list.items;
      room = (vec_capacity r.list - vec_len r.list) + r.front;
    } };

    ghost invariant = { λ r. r.front ≤ vec_len r.list - 1 };
}

impl Readers {
    /// No readers. It takes no memory.
    pub fn new(heap: Heap) -> Readers
        ensures { result.items ≡ [] }
    {
        Readers {
            list: Vec::new(heap.room()),
            front: 0,
        }
    }

    /// The readers.
    #[inline(always)]
    pub fn as_slice(&self) -> &[ActionId]
        ensures { result.now ≡ self.now.items }
    {
        &self.list.as_slice()[self.front..]
    }

    /// Whether `a` is a reader.
    #[inline(always)]
    pub fn has(&self, a: ActionId) -> bool
        requires { is_ascending self.now.items ≡ true }
        ensures { result ≡ is_reader a self.now.items }
    {
        let taken = self.list.len();
        if taken == 0 || self.list[taken - 1].0 < a.0 {
            return false;
        }
        self.list[taken - 1].0 == a.0 || is_among(self.as_slice(), a)
    }

    /// Makes room for one more reader. Either way the readers stay, and no room is lost.
    #[inline(always)]
    pub fn reserve(&mut self) -> Result<(), OutOfMemory>
        ensures items { self.new.items ≡ self.old.items }
        ensures ok { OnOk result (0 < self.new.room) }
        ensures room { self.old.room ≤ self.new.room }
    {
        if self.list.len() < self.list.capacity() {
            return Ok(());
        }
        self.grow()
    }

    // The list is full. If most of its places are free, the readers move down to its beginning.
    #[cold]
    #[inline(never)]
    fn grow(&mut self) -> Result<(), OutOfMemory>
        ensures items { self.new.items ≡ self.old.items }
        ensures ok { OnOk result (0 < self.new.room) }
        ensures room { self.old.room ≤ self.new.room }
    {
        if self.list.len() - self.front < self.front {
            move_down(&mut self.list, self.front);
            self.front = 0;
            return Ok(());
        }
        self.list.reserve(1)?;
        Ok(())
    }

    /// Puts `a` in its place in the reserved room, if it isn't a reader.
    #[inline(always)]
    pub fn add(&mut self, a: ActionId)
        requires room { 0 < self.old.room }
        requires ascending { is_ascending self.old.items ≡ true }
        ensures items { self.new.items ≡ with_reader a self.old.items }
        ensures room { self.old.room ≤ self.new.room + 1 }
    {
        let taken = self.list.len();
        if taken > 0 && self.list[taken - 1].0 >= a.0 {
            if self.list[taken - 1].0 != a.0 {
                self.put_in(a);
            }
        } else if taken < self.list.capacity() {
            self.list.push_reserved(a);
        } else {
            self.put_in(a);
        }
    }

    #[inline(never)]
    fn put_in(&mut self, a: ActionId)
        requires room { 0 < self.old.room }
        requires ascending { is_ascending self.old.items ≡ true }
        ensures items { self.new.items ≡ with_reader a self.old.items }
        ensures room { self.old.room ≤ self.new.room + 1 }
    {
        if let Err(place) = find(self.as_slice(), a) {
            if is_nearer(&self.list, self.front, place) {
                insert_below(&mut self.list, self.front, place, a);
                self.front -= 1;
            } else {
                let _ = self.list.insert(self.front + place, a);
            }
        }
    }

    /// Takes `a` out, if it is a reader.
    #[inline(always)]
    pub fn remove(&mut self, a: ActionId)
        requires { is_ascending self.old.items ≡ true }
        ensures items { self.new.items ≡ without_reader a self.old.items }
        ensures places { self.new.room + length self.new.items
            ≡ self.old.room + length self.old.items }
    {
        let taken = self.list.len();
        if taken == 0 || self.list[taken - 1].0 < a.0 {
            return;
        }
        if self.list[taken - 1].0 == a.0 {
            self.remove_newest();
        } else {
            self.take_out(a);
        }
    }

    #[inline(always)]
    fn remove_newest(&mut self)
        requires { 0 < length self.old.items }
        ensures items { self.new.items ≡ take (length self.old.items - 1) self.old.items }
        ensures places { self.new.room + length self.new.items
            ≡ self.old.room + length self.old.items }
    {
        let _ = self.list.pop();
        if self.front > 0 && self.front == self.list.len() {
            self.list.clear();
            self.front = 0;
        }
    }

    // Takes out a reader that isn't the newest.
    #[inline(never)]
    fn take_out(&mut self, a: ActionId)
        requires ascending { is_ascending self.old.items ≡ true }
        requires older { (newest : ActionId)
            → a.0 < (slice_index_or self.old.items (length self.old.items - 1) newest).0 }
        ensures items { self.new.items ≡ without_reader a self.old.items }
        ensures places { self.new.room + length self.new.items
            ≡ self.old.room + length self.old.items }
    {
        if let Ok(place) = find(self.as_slice(), a) {
            if place < self.list.len() - self.front - place {
                remove_below(&mut self.list, self.front, place);
                self.front += 1;
            } else {
                let _ = self.list.remove(self.front + place);
            }
        }
    }

    /// Puts the parent in the place of `s`.
    #[inline(always)]
    pub fn inherit(&mut self, s: ActionId, parent: ActionId)
        requires { is_ascending self.old.items ≡ true }
        ensures items { self.new.items ≡ readers_inherited s parent self.old.items }
        ensures room { self.old.room ≤ self.new.room }
    {
        if self.has(s) {
            self.remove(s);
            self.add(parent);
        }
    }
}

/// Whether all readers are ancestors of `a`. Each climb goes on where the last one ended, so all
/// cost as much as the readers and the depth of `a`.
#[inline(always)]
pub(crate) fn all_readers_above(readers: &[ActionId], tree: &ActionTree, a: ActionId) -> bool
    requires { is_ascending readers.now ≡ true }
    ensures { result ≡ all_above tree.now a readers.now }
{
    let mut at = a;
    let mut left = readers.len();
    while left > 0 {
        left -= 1;
        let reader = readers[left];
        if !tree.is_ancestor(reader, at) {
            return false;
        }
        at = reader;
    }
    true
}

// Where `a` stands among the readers, or else where it would be put.
fn find(readers: &[ActionId], a: ActionId) -> Result<usize, usize>
    requires { is_ascending readers.now ≡ true }
    ensures found { IfOk result (StandsAt a readers.now) }
    ensures missing { IfErr result (GoesTo a readers.now) }
{
    readers.binary_search(&a)
}

#[inline(never)]
fn is_among(readers: &[ActionId], a: ActionId) -> bool
    requires { is_ascending readers.now ≡ true }
    ensures { result ≡ is_reader a readers.now }
{
    find(readers, a).is_ok()
}

// Moves what is behind the first places to the beginning.
fn move_down(list: &mut Vec<ActionId, Room>, front: usize)
    requires { front ≤ vec_len list.old }
    ensures items { list.new.items ≡ drop front list.old.items }
    ensures len { vec_len list.new + front ≡ vec_len list.old }
    ensures capacity { vec_capacity list.new ≡ vec_capacity list.old }
{
    if front == 0 {
        return;
    }
    let taken = list.len();
    list.as_mut_slice().copy_within(front..taken, 0);
    list.truncate(taken - front);
}

// Whether one that is put in a place behind the front moves those before it: there is a free place
// for them, and they are fewer, or the list is full.
fn is_nearer(list: &Vec<ActionId, Room>, front: usize, place: usize) -> bool
    requires bound { front + place ≤ vec_len list.now }
    requires room { vec_len list.now < vec_capacity list.now + front }
    ensures free { result ≡ true → 0 < front }
    ensures room { result ≡ false → vec_len list.now < vec_capacity list.now }
{
    if front == 0 {
        return false;
    }
    let taken = list.len();
    place < taken - front - place || taken == list.capacity()
}

// Puts `a` in a place behind the front, which begins one earlier then. Those before it move down.
fn insert_below(list: &mut Vec<ActionId, Room>, front: usize, place: usize, a: ActionId)
    requires free { 0 < front }
    requires bound { front + place ≤ vec_len list.old }
    ensures items { drop (front - 1) list.new.items ≡ take place (drop front list.old.items)
        ++ a ∷ drop place (drop front list.old.items) }
    ensures len { vec_len list.new ≡ vec_len list.old }
    ensures capacity { vec_capacity list.new ≡ vec_capacity list.old }
{
    move_below(list, front, place);
    list[front + place - 1] = a;
}

// Moves this many behind the front down by one.
fn move_below(list: &mut Vec<ActionId, Room>, front: usize, place: usize)
    requires free { 0 < front }
    requires bound { front + place ≤ vec_len list.old }
    ensures items { list.new.items ≡ copy_within list.old.items front (front + place) (front - 1) }
    ensures len { vec_len list.new ≡ vec_len list.old }
    ensures capacity { vec_capacity list.new ≡ vec_capacity list.old }
{
    list.as_mut_slice()
        .copy_within(front..front + place, front - 1);
}

// Takes the action in a place behind the front out, which begins one later then. Those before it
// move up.
fn remove_below(list: &mut Vec<ActionId, Room>, front: usize, place: usize)
    requires { front + place < vec_len list.old }
    ensures items { drop (front + 1) list.new.items ≡ take place (drop front list.old.items)
        ++ drop (place + 1) (drop front list.old.items) }
    ensures len { vec_len list.new ≡ vec_len list.old }
    ensures capacity { vec_capacity list.new ≡ vec_capacity list.old }
{
    list.as_mut_slice()
        .copy_within(front..front + place, front + 1);
}
