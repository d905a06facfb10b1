//! Work on the publisher's end of a board.

ghost use Rattle.std.specs.Prelude.{IfOk, MatchResult, OnErr, OnOk, [], false, fold, true, ◌++◌};
ghost use Rattle.std.specs.Prelude.{◌<◌, ◌∷◌, ◌≡◌, ◌≢◌};
ghost use mathlib.Core.List.{IsPrefix};
ghost use Rattle.left_right.specs.Sides.{view};
ghost use Rattle.argus_board.specs.Effects.{contents_after, plain_contents};
ghost use Rattle.argus_board.specs.{HistoryPrefix.{book_of, line_of}, Published.unseen_effects};
ghost use Rattle.argus_board.specs.Published.{AreTables, IsSameShow, ShowsAll, absorbed, seen_by};
ghost use Rattle.argus_board.specs.Published.{shown_effects, shown_table, table_state, unseen};

use crate::board::Board;
use crate::board_change::BoardChange;
use crate::history_prefix::HistoryPrefix;
use crate::published::{BoardReader, Notes, Publisher, SeePublished};
use crate::table::Table;
use argus_contents::Content;
use argus_memory::{Heap, OutOfMemory, Room};
use core::mem::replace_with;
use std::alloc::AllocError;
use std::sync::Wait;

/// A publisher of these contents, of which `copy` is a copy, with room for this many readers.
pub(crate) fn opened<N: Board>(
    heap: Heap,
    contents: Vec<Option<Content>, Room>,
    copy: Vec<Option<Content>, Room>,
    front: &HistoryPrefix,
    readers: usize,
) -> Result<Publisher<N>, OutOfMemory>
    requires readers { (0 < readers) × (readers < 4294967296) }
    requires first { plain_contents contents.items ≡ N.first }
    requires alike { plain_contents copy.items ≡ N.first }
    requires front { (line_of N.root front.now ≡ []) × (book_of front.now ≡ N.history) }
    ensures { IfOk result (λ w. (shown_effects N.root w ≡ line_of N.root front.now)
        × AreTables N.first N.root (line_of N.root front.now) w) }
{
    let first = Table {
        contents,
        front: front.again(),
    };
    let second = Table {
        contents: copy,
        front: front.again(),
    };
    let publisher = Publisher::<N>::new(heap.room(), first, second, readers)?;
    Ok(publisher)
}

/// Publishes what is pending, if anything is. `Err`: out of memory.
pub(crate) fn publish<N: Board, R: Wait>(
    rt: &R,
    writer: &mut Publisher<N>,
    front: &HistoryPrefix,
) -> Result<(), OutOfMemory>
    requires book { book_of front.now ≡ N.history }
    requires tables { AreTables N.first N.root (line_of N.root front.now) writer.old }
    ensures tables { AreTables N.first N.root (line_of N.root front.now) writer.new }
    ensures ok { OnOk result (unseen_effects writer.new ≡ []) }
    ensures err { OnErr result ((shown_table writer.new ≡ shown_table writer.old)
        × (unseen_effects writer.new ≡ unseen_effects writer.old)
        × (unseen_effects writer.old ≢ [])) }
{
    if !is_behind::<N>(&*writer) {
        return Ok(());
    }
    append_change::<N>(writer, BoardChange::Marks(front.again()))?;
    show::<N, R>(rt, writer, front)
}

fn is_behind<N: Board>(writer: &Publisher<N>) -> bool
    ensures none { result ≡ false → unseen writer.now ≡ [] }
    ensures some { result ≡ true → unseen writer.now ≢ [] }
{
    writer.has_pending_operations()
}

/// Gives the writer one more change. `Err`: out of memory, and nothing changed.
pub(crate) fn append_change<N: Board>(
    writer: &mut Publisher<N>,
    change: BoardChange,
) -> Result<(), OutOfMemory>
    ensures desk { writer.new.desk ≡ writer.old.desk }
    ensures ok { OnOk result (unseen writer.new ≡ unseen writer.old ++ change ∷ []) }
    ensures err { OnErr result (unseen writer.new ≡ unseen writer.old) }
{
    writer.append(change).map_err(|_| OutOfMemory)
}

fn show<N: Board, R: Wait>(
    rt: &R,
    writer: &mut Publisher<N>,
    front: &HistoryPrefix,
) -> Result<(), OutOfMemory>
    requires book { book_of front.now ≡ N.history }
    requires begins { IsPrefix (shown_effects N.root writer.old) (line_of N.root front.now) }
    requires leaves { fold absorbed (table_state (shown_table writer.old)) (unseen writer.old)
        ≡ (contents_after N.first (line_of N.root front.now), front.now) }
    ensures { MatchResult result (λ _. ShowsAll N.first N.root front.now writer.new)
        (λ _. IsSameShow writer.old writer.new) }
{
    replace_with(writer, (rt, front), |writer, with| {
        publish_owned::<N, R>(with.0, writer, with.1)
    })
}

/// Publishes what is pending, given that it leaves what the front says.
fn publish_owned<N: Board, R: Wait>(
    rt: &R,
    writer: Publisher<N>,
    front: &HistoryPrefix,
) -> (Publisher<N>, Result<(), OutOfMemory>)
    requires book { book_of front.now ≡ N.history }
    requires begins { IsPrefix (shown_effects N.root writer) (line_of N.root front.now) }
    requires leaves { fold absorbed (table_state (shown_table writer)) (unseen writer)
        ≡ (contents_after N.first (line_of N.root front.now), front.now) }
    ensures { MatchResult result.1 (λ _. ShowsAll N.first N.root front.now result.0)
        (λ _. IsSameShow writer result.0) }
{
    let (writer, shown) = writer.publish_as::<SeePublished<N>, R>(rt);
    (writer, shown.map_err(|_| OutOfMemory))
}

/// A reader that knows all that is published. It takes a free place, and waits for one.
pub(crate) fn briefed_reader<N: Board, R: Wait>(rt: &R, writer: &mut Publisher<N>) -> BoardReader<N>
    ensures reader { view result.place ≡ seen_by writer.old }
    ensures writer { IsSameShow writer.old writer.new }
{
    for _turn in rt.forever() {
        if let Ok(reader) = try_briefed_reader::<N>(writer) {
            return reader;
        }
    }
    unreachable!()
}

/// A reader that knows all that is published, in a free place.
fn try_briefed_reader<N: Board>(writer: &mut Publisher<N>) -> Result<BoardReader<N>, AllocError>
    ensures reader { IfOk result (λ r. view r.place ≡ seen_by writer.old) }
    ensures writer { IsSameShow writer.old writer.new }
{
    let mut reader = writer.factory().reader()?;
    reader.learn::<Notes>(writer.tell::<Notes>());
    Ok(reader)
}
