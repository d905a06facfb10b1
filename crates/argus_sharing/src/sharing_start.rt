//! What a sharing begins with: seats, lookers, and the contents of its board.

ghost use Rattle.std.specs.Prelude.{◌<◌, ◌≡◌, [], All, IfOk, length};
ghost use Rattle.argus_board.specs.Effects.{plain_contents};
ghost use Rattle.argus_contents.specs.Content.{plain_option};
ghost use Rattle.argus_journal.specs.{Objects.declared, JournalFacts.base_of};
ghost use Rattle.argus_sharing.specs.{Following.journal_bases, Starting.StartsWith};

use crate::seat::Seat;
use crate::sharing::Sharing;
use argus_board::{BoardWriter, Keeper, Looker};
use argus_contents::{Content, ObjId};
use argus_core::Guardian;
use argus_memory::{Heap, OutOfMemory, Room};
use std::sync::Wait;
use std::sync::ledger::Share;

/// This many seats, each with one part of the share.
pub(crate) fn seats_over<N: Sharing>(
    heap: Heap,
    mut share: Share<N>,
    count: u32,
) -> Result<Vec<Seat<N>, Room>, OutOfMemory>
    requires { (share.amount ≡ 0) × (share.parts ≡ count) }
    ensures { IfOk result (λ seats. All (λ seat. seat.made ≡ 0) seats.items
        × (length seats.items ≡ count)) }
{
    let mut seats = Vec::new(heap.room());
    for _i in 0..count {
        seats.push(Seat::over(share.split_off(1, 0)))?;
    }
    Ok(seats)
}

/// This many places at the board; each looker has seen what was on it at first.
pub(crate) fn lookers_at<N: Sharing, R: Wait + Drop>(
    heap: Heap,
    board: &mut BoardWriter<N, R>,
    count: u32,
) -> Result<Vec<Looker<N>, Room>, OutOfMemory>
    ensures lookers { IfOk result (λ lookers. All (λ looker. looker ≡ N.before) lookers.items
        × (length lookers.items ≡ count)) }
    ensures published { board.new.published ≡ board.old.published }
    ensures pending { board.new.pending ≡ board.old.pending }
{
    let mut lookers = Vec::new(heap.room());
    for _i in 0..count {
        lookers.push(board.looker()?)?;
    }
    Ok(lookers)
}

/// The board of a sharing, with the bases of the guardian's objects.
pub(crate) fn board_of<N: Sharing, R: Wait + Drop>(
    rt: R,
    heap: Heap,
    guardian: &Guardian,
    keeper: Keeper,
    lookers: u32,
) -> Result<BoardWriter<N, R>, OutOfMemory>
    requires lookers { lookers < 4294967295 }
    requires places { N.places ≡ lookers }
    requires starts { StartsWith N.Board N.start guardian.now keeper }
    ensures published { IfOk result (λ board. board.published ≡ N.before) }
    ensures pending { IfOk result (λ board. board.pending ≡ []) }
{
    guardian.journal_is_legal();
    guardian.contents_fit();
    if lookers == 0 {
        return Ok(BoardWriter::<N, R>::without_places(rt, keeper));
    }
    let bases = bases_of(heap, guardian)?;
    BoardWriter::<N, R>::new(rt, heap, bases, keeper, lookers)
}

/// The bases of the guardian's objects, in the order of their numbers.
fn bases_of(heap: Heap, guardian: &Guardian) -> Result<Vec<Option<Content>, Room>, OutOfMemory>
    ensures { IfOk result (λ bases. plain_contents bases.items ≡ journal_bases guardian.now) }
{
    let mut bases = Vec::with_capacity(heap.room(), guardian.objects() as usize)?;
    for number in 0..guardian.objects() {
        let base = duplicate_base(heap, guardian, ObjId(number))?;
        bases.push(base)?;
    }
    Ok(bases)
}

/// The base of a declared object.
fn duplicate_base(
    heap: Heap,
    guardian: &Guardian,
    object: ObjId,
) -> Result<Option<Content>, OutOfMemory>
    requires { object.0 < declared guardian.now.opening guardian.now.entries }
    ensures { IfOk result (λ base. plain_option base
        ≡ base_of guardian.now.opening guardian.now.entries object.0) }
{
    match guardian.base(object) {
        Some(base) => Content::duplicate_option(heap, base),
        None => Ok(None),
    }
}
