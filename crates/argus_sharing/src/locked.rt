//! `Locked`: the value behind the mutex of a shared guardian.

ghost use Rattle.std.specs.Prelude.{◌++◌, ◌≡◌};
ghost use Rattle.argus_journal.specs.LegalJournal.{entries_in, opening_in};
ghost use Rattle.argus_journal.specs.JournalView.{next_entry};
ghost use Rattle.argus_sharing.specs.Following.{FollowsJournal, IsSharedJournal};

use crate::publishing_guardian::PublishingGuardian;
use crate::sharing::Sharing;
use argus_board::BoardWriter;
use argus_core::Guardian;
use argus_journal::LegalJournal;
use argus_memory::Heap;
use std::marker::Model;
use std::sync::Wait;
use std::sync::ledger::Book;

/// The value behind the mutex: the guardian, the ledger's book of its seats' calls, and the board's
/// writer. Contracts see the guardian's journal and the board's effects.
///
/// `Shared` locks the mutex and makes the call of the same name here. The clauses are here, since
/// the contract of a function that locks a mutex can't say what it did to the value.
///
/// ```text
/// let receipt = locked.call(&mut seat, Call::BeginTop)?;
/// assert!(rt; locked.refresh());
/// ```
#[derive(Drop)]
pub struct Locked<N: Sharing, R: Wait + Drop> {
    pub(crate) heap: Heap,
    pub(crate) publishing: PublishingGuardian<N, R>,
    pub(crate) book: Book<N>,
    pub(crate) start: u64,
    // How many threads wait until actions end, and how many make calls at most, if that is known.
    pub(crate) waiting: u32,
    pub(crate) callers: Option<u32>,
}

impl<N: Sharing, R: Wait + Drop> Model for Locked<N, R> {
    ghost use Rattle.std.specs.Prelude.{◌++◌, ◌+◌, ◌≡◌};
    ghost use Rattle.argus_sharing.specs.Following.{FollowsJournal};
    ghost use Rattle.argus_sharing.specs.Locked.{LockedState, locked_state_coded};
    ghost use Rattle.argus_journal.specs.JournalView.{next_entry};

    ghost Value = { LockedState };

    ghost coded = { locked_state_coded };

    ghost view = { λ s. record { journal = s.publishing.guardian; board = s.publishing.board } };

    ghost invariant = { λ s. (s.start ≡ N.start)
        × (next_entry s.publishing.guardian ≡ N.start + s.book.total)
        × FollowsJournal N.opening_contents s.publishing.guardian
        (s.publishing.board.published ++ s.publishing.board.pending) };
}

impl<N: Sharing, R: Wait + Drop> Locked<N, R> {
    /// A guardian with a board that was opened for it, before the first call.
    pub(crate) fn over(
        heap: Heap,
        guardian: Guardian,
        book: Book<N>,
        board: BoardWriter<N, R>,
    ) -> Locked<N, R>
        requires book { book.total ≡ 0 }
        requires start { next_entry guardian ≡ N.start }
        requires follows { FollowsJournal N.opening_contents guardian (board.published
            ++ board.pending) }
        ensures journal { result.journal ≡ guardian }
        ensures board { result.board ≡ board }
    {
        let start = guardian.journal().journal().len();
        Locked {
            heap,
            publishing: PublishingGuardian { guardian, board },
            book,
            start,
            waiting: 0,
            callers: None,
        }
    }

    /// Ends the board, and returns the guardian.
    pub(crate) fn ended(self) -> Guardian
        ensures { result ≡ self.journal }
    {
        let Locked {
            heap: _,
            publishing,
            book: _,
            start: _,
            waiting: _,
            callers: _,
        } = self;
        let PublishingGuardian { guardian, board } = publishing;
        board.end();
        guardian
    }

    /// The guardian's journal. Its opening is sound and within the limits, each reply follows from
    /// the entries before it, and it is no shorter than when the sharing began. The board's effects
    /// follow it: the published effects and then the pending ones are a list that leaves the
    /// contents of the journal's opening, and then the effects of its entries.
    pub fn journal(&self) -> &LegalJournal
        ensures opening { opening_in result.now ≡ self.now.journal.opening }
        ensures entries { entries_in result.now ≡ self.now.journal.entries }
        ensures shared { IsSharedJournal N.start self.now.journal }
        ensures board { FollowsJournal N.opening_contents self.now.journal
            (self.now.board.published ++ self.now.board.pending) }
    {
        self.publishing.guardian.journal_is_legal();
        self.publishing.guardian.journal()
    }
}
