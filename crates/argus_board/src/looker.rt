//! `Looker`: a place from which a thread reads a board, without a mutex.

ghost use Rattle.std.specs.Prelude.{IfOk, [], map, ◌++◌, ◌<◌, ◌≡◌};
ghost use mathlib.Core.List.{IsPrefix};
ghost use Rattle.argus_model.specs.Effects.{table};
ghost use Rattle.argus_board.specs.Effects.{IsTableOf, plain_contents};
ghost use Rattle.argus_board.specs.HistoryPrefix.{book_of, line_of};

use crate::board::Board;
use crate::history_prefix::HistoryPrefix;
use crate::look_fault::LookFault;
use crate::looking::copies_of;
use crate::published::{BoardReader, Publisher, SeePublished};
use argus_contents::{Content, ObjId};
use argus_memory::{Heap, OutOfMemory, Room};
use core::mem::replace_with;
use std::marker::Model;

/// A place at a board. Contracts see it as the effects that it saw, the newest last.
///
/// A look takes no mutex and waits for nobody.
///
/// ```text
/// let found = looker.look(heap, &[ObjId(0), ObjId(7)])?;
/// assert_eq!(rt; found.len(), 2);
/// ```
#[derive(Drop)]
pub struct Looker<N: Board> {
    pub(crate) reader: BoardReader<N>,
    pub(crate) front: HistoryPrefix,
}

impl<N: Board> Model for Looker<N> {
    ghost use Rattle.std.specs.Prelude.{List, ◌++◌, ◌<◌, ◌≡◌};
    ghost use Rattle.left_right.specs.Sides.{view as seen_at};
    ghost use Rattle.argus_board.specs.Effects.{IsTableOf, effects_coded};
    ghost use Rattle.argus_contents.specs.Effect.{Effect};
    ghost use Rattle.argus_board.specs.HistoryPrefix.{book_of, line_of};

    ghost Value = { List Effect };

    ghost coded = { effects_coded };

    ghost view = { λ k. N.before ++ line_of N.root k.front };

    ghost invariant = { λ k. IsTableOf N.opening_contents N.before N.first
        × (seen_at k.reader.place ≡ line_of N.root k.front)
        × (book_of k.front ≡ N.history) × (0 < N.places) };
}

impl<N: Board> Looker<N> {
    /// A free place, which has seen what was on the board at first.
    pub(crate) fn at(writer: &Publisher<N>, front: &HistoryPrefix) -> Result<Looker<N>, OutOfMemory>
        requires places { 0 < N.places }
        requires first { IsTableOf N.opening_contents N.before N.first }
        requires none { line_of N.root front.now ≡ [] }
        requires book { book_of front.now ≡ N.history }
        ensures { IfOk result (λ looker. looker ≡ N.before) }
    {
        Ok(Looker {
            reader: writer.factory().reader()?,
            front: front.again(),
        })
    }

    /// The bases of these objects at one moment; none for an object that is absent or undeclared.
    /// All are from one published table, which is no older than what this looker saw last. It takes
    /// no mutex and waits for nobody.
    ///
    /// Faults: `Memory`, after which it can look again; `Closed`, after the board has ended.
    ///
    /// ```text
    /// let found = looker.look(heap, &[ObjId(0), ObjId(1)])?;
    /// ```
    pub fn look(
        &mut self,
        heap: Heap,
        objects: &[ObjId],
    ) -> Result<Vec<Option<Content>, Room>, LookFault>
        ensures later { IsPrefix self.old self.new }
        ensures answer { IfOk result (λ found. plain_contents found.items
            ≡ map (λ o. table N.opening_contents self.new o.0) objects.now) }
    {
        replace_with(self, (heap, objects), |looker, asked| {
            looker.looked(asked.0, asked.1)
        })
    }

    fn looked(
        self,
        heap: Heap,
        objects: &[ObjId],
    ) -> (Looker<N>, Result<Vec<Option<Content>, Room>, LookFault>)
        ensures later { IsPrefix self result.0 }
        ensures answer { IfOk result.1 (λ found. plain_contents found.items
            ≡ map (λ o. table N.opening_contents result.0 o.0) objects.now) }
    {
        let Looker { reader, front } = self;
        match reader.enter_as::<SeePublished<N>>() {
            Ok(reading) => {
                let table = reading.get();
                let front = table.front.again();
                let found = copies_of(heap, table.contents.as_slice(), objects);
                let looker = Looker {
                    reader: reading.leave(),
                    front,
                };
                match found {
                    Ok(found) => (looker, Ok(found)),
                    Err(OutOfMemory) => (looker, Err(LookFault::Memory)),
                }
            }
            Err(reader) => (Looker { reader, front }, Err(LookFault::Closed)),
        }
    }
}
