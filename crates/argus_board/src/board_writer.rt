//! `BoardWriter`: what publishes on a board.

ghost use Rattle.std.specs.Prelude.{IfOk, MatchOption, OnErr, OnOk, [], false, true, ◌+◌, ◌++◌};
ghost use Rattle.std.specs.Prelude.{◌<◌, ◌∷◌, ◌≡◌, ◌≢◌};
ghost use mathlib.Core.List.{IsPrefix};
ghost use Rattle.argus_board.specs.{Effects.{IsTableOf, plain_contents}, HistoryPrefix.line_of};
ghost use Rattle.argus_board.specs.{Published.{AreTables, shown_effects}, Keeper.StartsHistory};
ghost use Rattle.argus_contents.specs.Effect.{plain_effect};

use crate::board::Board;
use crate::board_change::BoardChange;
use crate::effect::Effect;
use crate::history_prefix::HistoryPrefix;
use crate::keeper::Keeper;
use crate::looker::Looker;
use crate::looking::duplicate_contents;
use crate::published::Publisher;
use crate::publishing::{append_change, briefed_reader, opened, publish};
use crate::tells_effects::{Leaves, TellsEffects};
use argus_contents::Content;
use argus_memory::{Heap, OutOfMemory, Room};
use std::marker::Model;
use std::snapshot::Snapshot;
use std::sync::Wait;

/// What publishes on a board. Contracts see the effects that are published, those that are pending,
/// the newest last, and how many places for lookers are left.
///
/// A publish waits for lookers that are reading the copy that it changes. The board ends with its
/// writer: a look then returns `Closed`. A board without places for lookers keeps no contents,
/// since nobody can see them, and an effect costs nothing there.
///
/// ```text
/// let mut board = BoardWriter::new(rt, heap, contents, Keeper::new(), 2)?;
/// let mut looker = board.looker()?;
/// board.append(effect)?;
/// board.publish()?;
/// ```
pub struct BoardWriter<N: Board, R: Wait + Drop> {
    /// `None` on a board without places.
    pub(crate) tables: Option<Publisher<N>>,
    /// What is published.
    pub(crate) shown: HistoryPrefix,
    /// All effects since the board was opened.
    pub(crate) keeper: Keeper,
    /// The history when the board was opened.
    pub(crate) start: HistoryPrefix,
    /// How many places were not given out yet.
    pub(crate) unused: u32,
    pub(crate) rt: R,
}

impl<N: Board, R: Wait + Drop> Drop for BoardWriter<N, R> {
    fn drop(self) {
        self.end();
    }
}

impl<N: Board, R: Wait + Drop> Model for BoardWriter<N, R> {
    ghost use Rattle.std.specs.Prelude.{MatchOption, [], drop, length, ◌++◌, ◌<◌, ◌≡◌};
    ghost use mathlib.Core.List.{IsPrefix};
    ghost use Rattle.argus_board.specs.BoardView.{BoardView, board_view_coded};
    ghost use Rattle.argus_board.specs.Effects.{IsTableOf};
    ghost use Rattle.argus_board.specs.HistoryPrefix.{book_of, line_of};
    ghost use Rattle.argus_board.specs.Keeper.{HoldsNext, history_of};
    ghost use Rattle.argus_board.specs.Published.{AreTables, shown_effects};

    ghost Value = { BoardView };

    ghost coded = { board_view_coded };

    ghost view = { λ b. record {
      published = N.before ++ line_of N.root b.shown;
      pending = drop (length (line_of N.root b.shown)) (line_of N.root b.keeper.front);
      places_left = b.unused;
    } };

    ghost invariant = { λ b. IsTableOf N.opening_contents N.before N.first
        × (history_of b.keeper ≡ N.history)
        × (book_of b.start ≡ N.history)
        × (line_of N.root b.start ≡ [])
        × HoldsNext N.root b.keeper
        × IsPrefix (line_of N.root b.shown) (line_of N.root b.keeper.front)
        × MatchOption b.tables (N.places ≡ 0) (λ w. (0 < N.places)
        × (shown_effects N.root w ≡ line_of N.root b.shown)
        × AreTables N.first N.root (line_of N.root b.keeper.front) w) };
}

impl<N: Board, R: Wait + Drop> BoardWriter<N, R> {
    /// Opens the board with these contents, in the order of the objects' numbers, and with places
    /// for this many lookers, at most 2^32 - 2. With 0 it is `without_places`: it takes no memory,
    /// and the contents are dropped. `OutOfMemory`: there is no board, and all that was passed in is
    /// consumed.
    pub fn new(
        rt: R,
        heap: Heap,
        contents: Vec<Option<Content>, Room>,
        keeper: Keeper,
        lookers: u32,
    ) -> Result<BoardWriter<N, R>, OutOfMemory>
        requires lookers { lookers < 4294967295 }
        requires places { N.places ≡ lookers }
        requires first { IsTableOf N.opening_contents N.before N.first }
        requires contents { plain_contents contents.items ≡ N.first }
        requires keeper { StartsHistory N.history N.root keeper }
        ensures published { IfOk result (λ board. board.published ≡ N.before) }
        ensures pending { IfOk result (λ board. board.pending ≡ []) }
        ensures places_left { IfOk result (λ board. board.places_left ≡ lookers) }
        ensures places { OnErr result (0 < N.places) }
    {
        if lookers == 0 {
            return Ok(BoardWriter::without_places(rt, keeper));
        }
        let copy = duplicate_contents(heap, contents.as_slice())?;
        // One place more than there are lookers: briefing takes a new one before it frees the old
        // one.
        let tables = opened::<N>(heap, contents, copy, &keeper.front, lookers as usize + 1)?;
        Ok(BoardWriter::over(rt, Some(tables), keeper, lookers))
    }

    /// Opens a board without places. It takes no memory.
    pub fn without_places(rt: R, keeper: Keeper) -> BoardWriter<N, R>
        requires places { N.places ≡ 0 }
        requires first { IsTableOf N.opening_contents N.before N.first }
        requires keeper { StartsHistory N.history N.root keeper }
        ensures published { result.published ≡ N.before }
        ensures pending { result.pending ≡ [] }
        ensures places_left { result.places_left ≡ 0 }
    {
        BoardWriter::over(rt, None, keeper, 0)
    }

    /// A board that opens with these tables, and gives out this many places.
    fn over(rt: R, tables: Option<Publisher<N>>, keeper: Keeper, unused: u32) -> BoardWriter<N, R>
        requires first { IsTableOf N.opening_contents N.before N.first }
        requires keeper { StartsHistory N.history N.root keeper }
        requires tables { MatchOption tables (N.places ≡ 0) (λ w. (0 < N.places)
            × (shown_effects N.root w ≡ line_of N.root keeper.front)
            × AreTables N.first N.root (line_of N.root keeper.front) w) }
        ensures published { result.published ≡ N.before }
        ensures pending { result.pending ≡ [] }
        ensures places_left { result.places_left ≡ unused }
    {
        let (shown, start) = (keeper.front.again(), keeper.front.again());
        BoardWriter {
            tables,
            shown,
            keeper,
            start,
            unused,
            rt,
        }
    }

    /// Whether there are places for lookers.
    pub fn has_places(&self) -> bool
        ensures some { result ≡ true → 0 < N.places }
        ensures none { result ≡ false → N.places ≡ 0 }
    {
        self.tables.is_some()
    }

    /// A place for a looker, which has seen what was on the board at first. Each place is given out
    /// once; the place of a dropped looker stays unused. `OutOfMemory`: no memory, or no place, is
    /// left.
    pub fn looker(&mut self) -> Result<Looker<N>, OutOfMemory>
        ensures first { IfOk result (λ looker. looker ≡ N.before) }
        ensures places { OnOk result (0 < N.places) }
        ensures places_left { OnOk result (self.new.places_left + 1 ≡ self.old.places_left) }
        ensures published { self.new.published ≡ self.old.published }
        ensures pending { self.new.pending ≡ self.old.pending }
        ensures err { OnErr result (self.new ≡ self.old) }
    {
        let (Some(tables), Some(left)) = (&self.tables, self.unused.checked_sub(1)) else {
            return Err(OutOfMemory);
        };
        let looker = Looker::at(tables, &self.start)?;
        self.unused = left;
        Ok(looker)
    }

    /// Makes an effect pending. At `OutOfMemory` nothing has changed, and the effect is consumed; a
    /// board without places takes no memory.
    pub fn append(&mut self, effect: Effect) -> Result<(), OutOfMemory>
        ensures published { self.new.published ≡ self.old.published }
        ensures ok { OnOk result (self.new.pending
            ≡ self.old.pending ++ plain_effect effect.items ∷ []) }
        ensures err { OnErr result (self.new ≡ self.old) }
        ensures places { OnErr result (0 < N.places) }
        ensures places_left { self.new.places_left ≡ self.old.places_left }
    {
        let BoardWriter { tables, keeper, .. } = self;
        let page = Snapshot::of(&effect);
        match tables {
            Some(tables) => append_change::<N>(tables, BoardChange::Leaves(effect))?,
            None => {}
        }
        keeper.add::<Effect, Leaves>(page);
        Ok(())
    }

    /// Makes the effects that this stands for pending, on a board without places. It takes no
    /// memory.
    pub fn append_told<X, M: TellsEffects<X>>(&mut self, about: &X)
        requires places { N.places ≡ 0 }
        ensures published { self.new.published ≡ self.old.published }
        ensures pending { self.new.pending ≡ self.old.pending ++ M.effects about.now }
        ensures places_left { self.new.places_left ≡ self.old.places_left }
    {
        self.keeper.add::<X, M>(Snapshot::of(about));
    }

    /// Publishes what is pending. At `OutOfMemory` something was pending, and nothing has changed;
    /// a board without places takes no memory. It may wait for lookers that are reading.
    pub fn publish(&mut self) -> Result<(), OutOfMemory>
        ensures ok { OnOk result ((self.new.published ≡ self.old.published ++ self.old.pending)
            × (self.new.pending ≡ [])) }
        ensures err { OnErr result ((self.new ≡ self.old) × (self.old.pending ≢ [])) }
        ensures places { OnErr result (0 < N.places) }
        ensures places_left { self.new.places_left ≡ self.old.places_left }
    {
        let BoardWriter {
            tables,
            shown,
            keeper,
            rt,
            ..
        } = self;
        match tables {
            Some(tables) => publish::<N, R>(&*rt, tables, &keeper.front)?,
            None => {}
        }
        *shown = keeper.front.again();
        Ok(())
    }

    /// Publishes what is pending, and lets the looker see all of it. What the looker saw before is
    /// a prefix of that, whatever is returned. At `OutOfMemory` something was pending, and nothing
    /// has changed. It may wait for lookers that are reading.
    pub fn brief(&mut self, looker: &mut Looker<N>) -> Result<(), OutOfMemory>
        ensures former { IsPrefix looker.old (self.old.published ++ self.old.pending) }
        ensures ok { OnOk result ((self.new.published ≡ self.old.published ++ self.old.pending)
            × (self.new.pending ≡ []) × (looker.new ≡ self.new.published)) }
        ensures err { OnErr result ((self.new ≡ self.old) × (self.old.pending ≢ [])
            × (looker.new ≡ looker.old)) }
        ensures places_left { self.new.places_left ≡ self.old.places_left }
    {
        let BoardWriter {
            tables,
            shown,
            keeper,
            rt,
            ..
        } = self;
        let Looker { reader, front } = looker;
        keeper.covers(&*front);
        let Some(tables) = tables else { unreachable!() };
        publish::<N, R>(&*rt, tables, &keeper.front)?;
        *reader = briefed_reader::<N, R>(&*rt, tables);
        *front = keeper.front.again();
        *shown = keeper.front.again();
        Ok(())
    }

    /// Ends the board. It may wait for lookers that are reading.
    pub fn end(self) {
        let BoardWriter {
            tables,
            shown: _,
            keeper: _,
            start: _,
            unused: _,
            rt,
        } = self;
        match tables {
            Some(tables) => drop(tables.take(&rt)),
            None => {}
        }
    }
}
