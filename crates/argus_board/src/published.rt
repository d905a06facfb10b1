//! The rule of a board, and its two ends under that rule.

use crate::board::Board;
use crate::board_change::BoardChange;
use crate::table::Table;
use argus_memory::Room;
use atomic_table::{Join, Split};
use crossbeam_utils::rule::{Outcome, Protocol};
use left_right::reader::Reader;
use left_right::writer::Writer;
use std::marker::{Model, PhantomData};

/// What a place knows: the effects that it saw, the newest last. It has no values.
pub struct View;

impl Model for View {
    ghost use Rattle.std.specs.Prelude.{List, []};
    ghost use Rattle.argus_contents.specs.Effect.{Effect};
    ghost use Rattle.argus_board.specs.Effects.{effects_coded};

    ghost Value = { List Effect };

    ghost coded = { effects_coded };

    ghost view = { λ _. [] };
}

/// The rule: the published contents are those that its effects leave, and each place saw a prefix
/// of these effects.
pub struct Published<N: Board>(PhantomData<N>);

impl<N: Board> Protocol<Table, View> for Published<N> {
    ghost use Rattle.std.specs.Prelude.{[]};
    ghost use Rattle.argus_board.specs.Published.{IsConsistentTable};

    ghost holds = { IsConsistentTable N.first N.history N.root };

    ghost first = { [] };
}

/// The step by which a place comes to see all that is published.
pub(crate) struct SeePublished<N: Board>(PhantomData<N>);

impl<N: Board> Outcome<Table, View> for SeePublished<N> {
    ghost use Rattle.argus_board.specs.Published.{SeesPublished};

    ghost then = { SeesPublished N.first N.history N.root };
}

/// What the writer passes on of its view, and what a place makes of it.
pub(crate) struct Notes;

impl Split<View> for Notes {
    ghost left = { λ v. v };

    ghost right = { λ v. v };
}

impl Join<View> for Notes {
    ghost use Rattle.std.specs.Prelude.{[]};
    ghost use Rattle.argus_board.specs.Published.{joined_view};

    ghost both = { joined_view };

    ghost spent = { [] };
}

/// A looker's end, under the rule.
pub(crate) type BoardReader<N> = Reader<Table, View, Published<N>, Room>;

/// The publisher's end, under the rule.
pub(crate) type Publisher<N> = Writer<Table, BoardChange, View, Published<N>, Room>;
