//! The rule of the history, and the steps that it can take.

use crate::page::Page;
use crate::tells_effects::TellsEffects;
use logbook::{Gain, Pen, Plain, Play, Rule};
use std::marker::PhantomData;
use std::snapshot::Snapshot;

/// The rule of the history.
pub struct Law;

impl Rule<Page, u64> for Law {
    ghost use Rattle.std.specs.Prelude.{[]};
    ghost use base.Fml.{ftrue};
    ghost use Rattle.argus_board.specs.History.{IsKept};

    ghost holds = { λ cells pages. IsKept cells pages };

    ghost first = { [] };

    ghost hinted = { λ n pages. Unit {0} };

    ghost shows = { λ pages. [] };

    ghost keeps = { λ names pages. ftrue };

    ghost moves = { λ ask before after answer. Unit {0} };
}

/// Nobody trades anything.
pub(crate) struct Nothing;

impl Gain<Page, u64> for Nothing {
    ghost use base.Fml.{ftrue};

    ghost after = { λ names about answer. ftrue };
}

/// The step that makes a right.
pub(crate) struct Grow;

impl Play<Page, u64> for Grow {
    ghost use Rattle.argus_board.specs.History.{Grows};

    ghost then = { Grows };
}

impl Plain<u8, Page, u64> for Grow {
    ghost use Rattle.std.specs.Prelude.{None, []};

    ghost ask = { λ v. record { uses = 0; gives = 0; effects = [] } };

    ghost state = { λ v. None };
}

/// The step that adds a page, with the effects that `M` stands for.
pub(crate) struct Add<M>(PhantomData<M>);

impl<M> Play<Page, u64> for Add<M> {
    ghost use Rattle.argus_board.specs.History.{Adds};

    ghost then = { Adds };
}

/// What stands for the effects that are added, and the right that comes next.
pub(crate) struct Leaf<X> {
    pub(crate) about: Snapshot<X>,
    pub(crate) next: Pen,
}

impl<X, M: TellsEffects<X>> Plain<Leaf<X>, Page, u64> for Add<M> {
    ghost use Rattle.std.specs.Prelude.{None};

    ghost ask = { λ v. record {
      uses = 0;
      gives = v.next.nib.key;
      effects = M.effects v.about.value;
    } };

    ghost state = { λ v. None };
}

/// The step by which the holder of a right sees that no page used it up.
pub(crate) struct SeeUnused;

impl Play<Page, u64> for SeeUnused {
    ghost use Rattle.argus_board.specs.History.{SeesUnused};

    ghost then = { SeesUnused };
}
