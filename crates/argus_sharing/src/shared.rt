//! `Shared`: a guardian that threads share.

ghost use Rattle.std.specs.Prelude.{All, IfErr, IfOk, OnErr, OnOk, [], false, length, map, sum_by};
ghost use Rattle.std.specs.{Prelude.{true, ◌++◌, ◌+◌, ◌<◌, ◌≡◌, ◌≢◌}, Result.result_err};
ghost use mathlib.Core.List.{IsPrefix};
ghost use Rattle.argus_entries.specs.{Call.plain_call, Reply.plain_reply};
ghost use Rattle.argus_journal.specs.JournalView.{JournalView, next_entry};
ghost use Rattle.argus_sharing.specs.Checking.{AreApart, IsSettleAnswer, Stands, settle_fault};
ghost use Rattle.argus_sharing.specs.{Receipt.plain_receipt, CallEach.{end_of, replies_of}};
ghost use Rattle.argus_sharing.specs.{Checkpoint.IsCheckpointAnswer, Locked.LockedState};
ghost use Rattle.argus_sharing.specs.Following.{FollowsJournal, IsFollowed, IsNextEntry};
ghost use Rattle.argus_sharing.specs.{Following.{IsSharedJournal, journal_effects}, Starting.StartsWith};
ghost use Rattle.argus_sharing.specs.declared.calls_end.CallsEnd.TheVariants as calls_end;

use crate::answered::Answered;
use crate::calls_made::CallsMade;
use crate::demanded_call::DemandedCall;
use crate::locked::Locked;
use crate::not_shared::NotShared;
use crate::parts::Parts;
use crate::receipt::Receipt;
use crate::seat::Seat;
use crate::sharing::Sharing;
use crate::sharing_start::{board_of, lookers_at, seats_over};
use crate::unsettled::Unsettled;
use crate::waking::{have_ended, may_end};
use argus_board::{Keeper, Looker};
use argus_core::{CheckpointError, Guardian};
use argus_entries::Call;
use argus_memory::{Heap, OutOfMemory, Room};
use std::sync::ledger::Blank;
use std::sync::{Condvar, Mutex, Wait};

/// A guardian under one mutex, for threads with seats, and a board for lookers, which take no
/// mutex.
///
/// Each call locks the mutex and makes the call of the same name of `laws::Locked`, which has the
/// clauses about the value behind it.
///
/// ```text
/// let parts = Shared::new(rt, heap, guardian, 2, 1, blank, keeper)?;
/// let Parts { shared, mut seats, mut lookers } = parts;
/// let receipt = shared.call(&rt, &mut seats[0], Call::BeginTop)?;
/// ```
pub struct Shared<N: Sharing, R: Wait + Drop> {
    pub(crate) locked: Mutex<Locked<N, R>>,
    pub(crate) freed: Condvar,
}

// Written by hand, so that dropping a sharing is one call; a derived `Drop` is expanded at each
// place.
impl<N: Sharing, R: Wait + Drop> Drop for Shared<N, R> {
    fn drop(self) {
        let Shared {
            locked: _,
            freed: _,
        } = self;
    }
}

impl<N: Sharing, R: Wait + Drop> Shared<N, R> {
    /// Shares the guardian among this many seats, with places for this many lookers, at most
    /// 2^32 - 2. No seat has made a call, and each looker has seen the effects of the journal so far. Without lookers no
    /// contents are kept for them, and a commit copies none. `NotShared`: there was no memory, and
    /// the guardian is unchanged.
    pub fn new(
        rt: R,
        heap: Heap,
        guardian: Guardian,
        seats: u32,
        lookers: u32,
        blank: Blank,
        keeper: Keeper,
    ) -> Result<Parts<N, R>, NotShared>
        requires lookers { lookers < 4294967295 }
        requires places { N.places ≡ lookers }
        requires name { blank.name ≡ N.name }
        requires parts { (blank.parts ≡ N.parts) × (blank.parts ≡ seats) }
        requires starts { StartsWith N.Board N.start guardian keeper }
        ensures seats { IfOk result (λ p. All (λ seat. seat.made ≡ 0) p.seats.items
            × (length p.seats.items ≡ seats)) }
        ensures lookers { IfOk result (λ p. All (λ looker. looker ≡ journal_effects guardian)
            p.lookers.items × (length p.lookers.items ≡ lookers)) }
        ensures back { IfErr result (λ e. e.guardian ≡ guardian) }
    {
        let (book, share) = blank.open::<N>();
        let Ok(seats) = seats_over(heap, share, seats) else {
            return Err(NotShared { guardian });
        };
        let Ok(mut board) = board_of::<N, R>(rt, heap, &guardian, keeper, lookers) else {
            return Err(NotShared { guardian });
        };
        let Ok(lookers) = lookers_at(heap, &mut board, lookers) else {
            return Err(NotShared { guardian });
        };
        Ok(Parts {
            shared: Shared {
                locked: Mutex::new(Locked::over(heap, guardian, book, board)),
                freed: Condvar::new(),
            },
            seats,
            lookers,
        })
    }

    /// Makes a call for the seat. The receipt has the number of its entry in the journal, the call
    /// that was passed in, and the reply that follows from the journal before it. At `OutOfMemory`
    /// nothing was journalled, and the call is consumed.
    ///
    /// It may wait for other threads. The seat came with the same sharing.
    pub fn call(
        &self,
        rt: &impl Wait,
        seat: &mut Seat<N>,
        call: Call,
    ) -> Result<Receipt, OutOfMemory>
        ensures call { IfOk result (λ receipt. plain_call receipt.call ≡ plain_call call) }
        ensures reply { IfOk result (λ receipt.
            IsNextEntry N.start receipt.at (plain_call call) (plain_reply receipt.reply)) }
        ensures made { OnOk result (seat.new.made ≡ seat.old.made + 1) }
        ensures err { OnErr result (seat.new.made ≡ seat.old.made) }
    {
        let receipt = self.take(rt).call(seat, call)?;
        self.wake_if_ended(may_end(&receipt.call), &receipt.reply);
        Ok(receipt)
    }

    /// Makes a call for the seat, as `call` does, without a copy of the call for a receipt.
    ///
    /// It may wait for other threads. The seat came with the same sharing.
    ///
    /// ```text
    /// let Answered { at, reply } = shared.answer(&rt, &mut seat, Call::BeginTop)?;
    /// ```
    #[inline(always)]
    pub fn answer(
        &self,
        rt: &impl Wait,
        seat: &mut Seat<N>,
        call: Call,
    ) -> Result<Answered, OutOfMemory>
        ensures reply { IfOk result (λ answered.
            IsNextEntry N.start answered.at (plain_call call) (plain_reply answered.reply)) }
        ensures made { OnOk result (seat.new.made ≡ seat.old.made + 1) }
        ensures err { OnErr result (seat.new.made ≡ seat.old.made) }
    {
        let may_end = may_end(&call);
        let answered = self.take(rt).answer(seat, call)?;
        self.wake_if_ended(may_end, &answered.reply);
        Ok(answered)
    }

    /// Makes a call for the seat. While it would be refused with `Conflict` it waits, at most for
    /// this many wake-ups, and then makes the call all the same; with 0 it doesn't wait.
    ///
    /// All waiting threads are woken after each call that ended actions, and a spurious wake-up
    /// counts too. There is no limit of time: if no action ends, it waits for ever, unless
    /// `expect_callers` has said how many threads there are. The rest is as in `call`, also for
    /// `OutOfMemory`.
    pub fn call_waiting(
        &self,
        rt: &impl Wait,
        seat: &mut Seat<N>,
        call: Call,
        patience: u32,
    ) -> Result<Receipt, OutOfMemory>
        ensures call { IfOk result (λ receipt. plain_call receipt.call ≡ plain_call call) }
        ensures reply { IfOk result (λ receipt.
            IsNextEntry N.start receipt.at (plain_call call) (plain_reply receipt.reply)) }
        ensures made { OnOk result (seat.new.made ≡ seat.old.made + 1) }
        ensures err { OnErr result (seat.new.made ≡ seat.old.made) }
    {
        let receipt = self
            .take_without_conflict(rt, &call, patience)
            .call(seat, call)?;
        self.wake_if_ended(may_end(&receipt.call), &receipt.reply);
        Ok(receipt)
    }

    /// Makes a call for the seat and waits as `call_waiting` does, without a copy of the call for a
    /// receipt.
    pub fn answer_waiting(
        &self,
        rt: &impl Wait,
        seat: &mut Seat<N>,
        call: Call,
        patience: u32,
    ) -> Result<Answered, OutOfMemory>
        ensures reply { IfOk result (λ answered.
            IsNextEntry N.start answered.at (plain_call call) (plain_reply answered.reply)) }
        ensures made { OnOk result (seat.new.made ≡ seat.old.made + 1) }
        ensures err { OnErr result (seat.new.made ≡ seat.old.made) }
    {
        let may_end = may_end(&call);
        let answered = self
            .take_without_conflict(rt, &call, patience)
            .answer(seat, call)?;
        self.wake_if_ended(may_end, &answered.reply);
        Ok(answered)
    }

    /// Makes the calls one after another for the seat under one lock of the mutex, up to the first
    /// whose reply doesn't meet its demand. Each is made as by `answer`, and no call of another
    /// seat comes between two of them. If one of them ended actions, all waiting threads are woken
    /// once, after the last.
    ///
    /// `OutOfMemory`: there was no memory for the replies, and no call was made; or none for the
    /// call after the last reply, which wasn't made.
    ///
    /// It may wait for other threads. The seat came with the same sharing.
    ///
    /// ```text
    /// let mut calls = Vec::new(heap.room());
    /// calls.push(DemandedCall::from(Call::Ask(a, account, Query::Field(0))))?;
    /// calls.push(DemandedCall::from(Call::Commit(a)))?;
    /// let made = shared.call_each(&rt, &mut seat, calls.as_slice());
    /// assert_eq!(rt; made.end, CallsEnd::Whole);
    /// ```
    pub fn call_each(&self, rt: &impl Wait, seat: &mut Seat<N>, calls: &[DemandedCall]) -> CallsMade
        ensures replies { (journal : JournalView) × IsSharedJournal N.start journal
            × (result.first ≡ next_entry journal)
            × IsPrefix (map plain_reply result.replies.items) (replies_of journal calls.now)
            × (result.end ≢ calls_end.OutOfMemory → (map plain_reply result.replies.items
            ≡ replies_of journal calls.now) × (result.end ≡ end_of journal calls.now))
            × (result.end ≡ calls_end.OutOfMemory
            → length result.replies.items < length (replies_of journal calls.now)) }
        ensures made { seat.new.made ≡ seat.old.made + length result.replies.items }
    {
        let made = self.take(rt).call_each(seat, calls);
        if have_ended(calls, made.replies.as_slice()) {
            self.freed.notify_all();
        }
        made
    }

    /// Publishes what is pending, and lets the looker see all that is committed. False: there was
    /// no memory, and the board is out of date.
    ///
    /// It may wait for other threads. The looker came with the same sharing.
    pub fn brief(&self, rt: &impl Wait, looker: &mut Looker<N>) -> bool
        ensures later { IsPrefix looker.old looker.new }
        ensures all { result ≡ true → (journal : JournalView)
            × IsSharedJournal N.start journal
            × FollowsJournal N.opening_contents journal looker.new }
        ensures rest { result ≡ false → looker.new ≡ looker.old }
        ensures pending { result ≡ false → (state : LockedState)
            × IsFollowed N.opening_contents N.start state
            × IsPrefix looker.old (state.board.published ++ state.board.pending)
            × (state.board.pending ≢ []) }
    {
        self.take(rt).brief(looker)
    }

    /// Publishes what is pending. False: there was no memory, and the board is out of date.
    ///
    /// It may wait for other threads.
    pub fn refresh(&self, rt: &impl Wait) -> bool
        ensures all { result ≡ true → (state : LockedState) × IsFollowed N.opening_contents N.start state
            × (state.board.pending ≡ []) }
        ensures rest { result ≡ false → (state : LockedState) × IsFollowed N.opening_contents N.start state
            × (state.board.pending ≢ []) }
    {
        self.take(rt).refresh()
    }

    /// Folds the journal's past into its opening, as `Guardian::checkpoint` does. Lookers, board
    /// and seats are unchanged. `Busy`: an action is live; `Full`: none is, but the next entry's
    /// number is past the limit; these and `Memory` change nothing.
    ///
    /// It may wait for other threads.
    pub fn checkpoint(&self, rt: &impl Wait) -> Result<(), CheckpointError>
        ensures error { (state : LockedState) × IsFollowed N.opening_contents N.start state
            × IsCheckpointAnswer state.journal (result_err result) }
    {
        self.take(rt).checkpoint()
    }

    /// Gives the guardian back and ends the board, if these receipts and seats agree with the
    /// journal: each receipt's call and reply are those of the entry at its number, no number comes
    /// twice, and the seats made as many calls as there are entries since the sharing began. Any
    /// subset of the receipts will do. `Unsettled` has the first fault, or `OutOfMemory`, and
    /// returns everything.
    ///
    /// It may wait for lookers that are reading.
    ///
    /// ```text
    /// let guardian = shared.settle(seats, receipts.as_slice())?;
    /// ```
    pub fn settle(
        self,
        seats: Vec<Seat<N>, Room>,
        receipts: &[Receipt],
    ) -> Result<Guardian, Unsettled<N, R>>
        ensures stand { IfOk result (λ guardian. All (Stands guardian.opening guardian.entries)
            (map plain_receipt receipts.now)) }
        ensures apart { OnOk result (AreApart (map plain_receipt receipts.now)) }
        ensures count { IfOk result (λ guardian. next_entry guardian
            ≡ N.start + sum_by (λ seat. seat.made) seats.items) }
        ensures back { IfErr result (λ unsettled. unsettled.seats ≡ seats) }
        ensures fault { IfErr result (λ unsettled. (journal : JournalView)
            × IsSharedJournal N.start journal
            × IsSettleAnswer (settle_fault journal.opening journal.entries N.start
            (sum_by (λ seat. seat.made) seats.items) (map plain_receipt receipts.now))
            unsettled.fault) }
    {
        let Shared { locked, freed } = self;
        let locked = locked.into_inner();
        match locked.check(seats.as_slice(), receipts) {
            Ok(()) => Ok(locked.ended()),
            Err(fault) => Err(Unsettled {
                fault,
                shared: Shared {
                    locked: Mutex::new(locked),
                    freed,
                },
                seats,
            }),
        }
    }
}
