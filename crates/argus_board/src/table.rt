//! `Table`: the contents that lookers see.

ghost use Rattle.argus_board.specs.Published.{absorbed, table_state};

use crate::board_change::BoardChange;
use crate::effect::duplicate_effect;
use crate::history_prefix::HistoryPrefix;
use crate::writing::{needed, pad, write};
use argus_contents::Content;
use argus_memory::Room;
use left_right::Absorb;
use std::alloc::AllocError;
use std::marker::Model;

/// The bases of the objects, in the order of their numbers, and how far the history had come then.
/// A board with places has two copies of it.
#[derive(Drop)]
pub struct Table {
    pub contents: Vec<Option<Content>, Room>,
    pub front: HistoryPrefix,
}

/// The contents of a table, as contracts see them. It has no values.
pub struct Contents;

impl Model for Contents {
    ghost use Rattle.std.specs.Prelude.{List, Option, []};
    ghost use Rattle.argus_contents.specs.Content.{PlainContent};
    ghost use Rattle.argus_board.specs.Effects.{contents_coded};

    ghost Value = { List (Option PlainContent) };

    ghost coded = { contents_coded };

    ghost view = { λ _. [] };
}

impl Absorb<BoardChange> for Table {
    type State = (Contents, HistoryPrefix);

    ghost state = { table_state };

    ghost applied = { absorbed };

    fn absorb_first(&mut self, operation: &BoardChange, _other: &Table) -> Result<(), AllocError> {
        match operation {
            BoardChange::Leaves(effect) => {
                let Ok(copy) = duplicate_effect(self.contents.allocator().heap(), effect) else {
                    return Err(AllocError);
                };
                pad(&mut self.contents, needed(copy.as_slice()))?;
                write(&mut self.contents, copy);
            }
            BoardChange::Marks(front) => self.front = front.again(),
        }
        Ok(())
    }

    fn absorb_second(&mut self, operation: BoardChange, _other: &Table) -> Result<(), BoardChange> {
        match operation {
            BoardChange::Leaves(effect) => {
                if pad(&mut self.contents, needed(effect.as_slice())).is_err() {
                    return Err(BoardChange::Leaves(effect));
                }
                write(&mut self.contents, effect);
            }
            BoardChange::Marks(front) => self.front = front,
        }
        Ok(())
    }
}
