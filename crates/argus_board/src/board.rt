//! `Board`: what names one board.

use std::marker::Brand;

/// One board: its history, and what was on it at first. The caller that opens a board picks these
/// in a proof; code is generic in it.
///
/// ```text
/// fn publish_and_look<N: Board, R: Wait + Drop>(
///     rt: R,
///     heap: Heap,
///     keeper: Keeper,
/// ) -> Result<(), OutOfMemory>
///     requires keeper { StartsHistory N.history N.root keeper }
///     requires places { N.places ≡ 1 }
///     requires first { N.first ≡ [] }
///     requires leads { IsTableOf N.opening_contents N.before N.first }
/// {
///     let board = BoardWriter::<N, R>::new(rt, heap, Vec::new(heap.room()), keeper, 1)?;
///     ..
/// }
///
/// publish_and_look::<Brand, _>(rt, heap, Keeper::new())?;
/// ```
pub trait Board {
    ghost use Rattle.std.specs.Prelude.{List, Option, ℕ};
    ghost use Rattle.logbook.specs.Pages.{Book};
    ghost use Rattle.argus_contents.specs.Content.{PlainContent};
    ghost use Rattle.argus_contents.specs.Effect.{Effect};

    /// The book that has its history.
    ghost history: { Book };

    /// The right that begins its line in the book.
    ghost root: { ℕ };

    /// What the objects held before all effects.
    ghost opening_contents: { ℕ → Option PlainContent };

    /// How many places for lookers it has.
    ghost places: { ℕ };

    /// The effects before the board was opened.
    ghost before: { List Effect };

    /// What these left, in the order of the objects' numbers.
    ghost first: { List (Option PlainContent) };
}

impl Board for Brand {
    ghost use Rattle.std.specs.Prelude.{None, []};

    ghost history = { record { number = 0; log_name = 0; cells_name = 0 } };

    ghost root = { 0 };

    ghost opening_contents = { λ o. None };

    ghost places = { 0 };

    ghost before = { [] };

    ghost first = { [] };
}
