//! `Page`: an entry of the history of effects.

use std::marker::Model;

/// Effects, as the history has them. It has no values.
pub struct HistoryEffects;

impl Model for HistoryEffects {
    ghost use Rattle.std.specs.Prelude.{List, []};
    ghost use Rattle.argus_board.specs.Effects.{effects_coded};
    ghost use Rattle.argus_contents.specs.Effect.{Effect};

    ghost Value = { List Effect };

    ghost coded = { effects_coded };

    ghost view = { λ _. [] };
}

/// An entry of the history: the right that it used up, the one that comes next in its line, and
/// what commits left. It has no values.
pub struct Page {
    pub uses: u64,
    pub gives: u64,
    pub effects: HistoryEffects,
}
