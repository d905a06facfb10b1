//! Several calls under one lock of the mutex.

ghost use Rattle.std.specs.Prelude.{[], IfOk, OnErr, OnOk, length, map, ◌++◌, ◌+◌, ◌<◌, ◌∷◌, ◌≡◌};
ghost use Rattle.std.specs.Prelude.{◌≢◌};
ghost use mathlib.Core.List.{IsPrefix};
ghost use Rattle.argus_core.specs.ReadyCommit.{added_by_call};
ghost use Rattle.argus_entries.specs.{Call.plain_call, Reply.plain_reply};
ghost use Rattle.argus_journal.specs.JournalView.{after, next_entry, reply_to};
ghost use Rattle.argus_sharing.specs.CallEach.{added_by_calls, after_calls, end_of, is_met};
ghost use Rattle.argus_sharing.specs.CallEach.{replies_of};
ghost use Rattle.argus_sharing.specs.Following.{FollowsJournal, GoesOn, IsSharedJournal};
ghost use Rattle.argus_sharing.specs.declared.calls_end.CallsEnd.TheVariants as calls_end;

use crate::answered::Answered;
use crate::calls_end::CallsEnd;
use crate::calls_made::CallsMade;
use crate::demanded_call::DemandedCall;
use crate::locked::Locked;
use crate::seat::Seat;
use crate::sharing::Sharing;
use argus_entries::Reply;
use argus_memory::{OutOfMemory, Room};
use std::sync::Wait;

impl<N: Sharing, R: Wait + Drop> Locked<N, R> {
    /// Makes the calls one after another for the seat, up to the first whose reply doesn't meet its
    /// demand. Each is made as by `answer`.
    ///
    /// `OutOfMemory`: there was no memory for the replies, and no call was made; or none for the
    /// call after the last reply, which wasn't made.
    ///
    /// It may wait for lookers that are reading.
    pub fn call_each(&mut self, seat: &mut Seat<N>, calls: &[DemandedCall]) -> CallsMade
        ensures first { result.first ≡ next_entry self.old.journal }
        ensures replies { IsPrefix (map plain_reply result.replies.items)
            (replies_of self.old.journal calls.now) }
        ensures whole { result.end ≢ calls_end.OutOfMemory → map plain_reply result.replies.items
            ≡ replies_of self.old.journal calls.now }
        ensures end { result.end ≢ calls_end.OutOfMemory
            → result.end ≡ end_of self.old.journal calls.now }
        ensures memory { result.end ≡ calls_end.OutOfMemory
            → length result.replies.items < length (replies_of self.old.journal calls.now) }
        ensures journal { self.new.journal
            ≡ after_calls self.old.journal calls.now (length result.replies.items) }
        ensures goes_on { GoesOn self.old.board self.new.board
            (added_by_calls self.old.journal calls.now (length result.replies.items)) }
        ensures made { seat.new.made ≡ seat.old.made + length result.replies.items }
        ensures former { IsSharedJournal N.start self.old.journal }
        ensures shared { IsSharedJournal N.start self.new.journal }
        ensures board { FollowsJournal N.opening_contents self.new.journal
            (self.new.board.published ++ self.new.board.pending) }
    {
        let heap = self.heap;
        let first = self.journal().journal().len();
        let mut replies = Vec::new(heap.room());
        if replies.reserve(calls.len()).is_err() {
            return CallsMade {
                first,
                replies,
                end: CallsEnd::OutOfMemory,
            };
        }
        for each in calls {
            let end = match self.answer_next(seat, each, &mut replies) {
                Ok(true) => continue,
                Ok(false) => CallsEnd::Unmet,
                Err(OutOfMemory) => CallsEnd::OutOfMemory,
            };
            return CallsMade {
                first,
                replies,
                end,
            };
        }
        CallsMade {
            first,
            replies,
            end: CallsEnd::Whole,
        }
    }

    /// Makes one of the calls, adds its reply, and says whether that meets the demand.
    fn answer_next(
        &mut self,
        seat: &mut Seat<N>,
        each: &DemandedCall,
        replies: &mut Vec<Reply, Room>,
    ) -> Result<bool, OutOfMemory>
        requires { length replies.old.items < replies.old.cap }
        ensures replies { OnOk result (map plain_reply replies.new.items
            ≡ map plain_reply replies.old.items
            ++ reply_to self.old.journal (plain_call each.now.call) ∷ []) }
        ensures count { OnOk result (length replies.new.items
            ≡ length replies.old.items + 1) }
        ensures room { replies.new.cap ≡ replies.old.cap }
        ensures met { IfOk result (λ met. met ≡ is_met self.old.journal each.now) }
        ensures journal { OnOk result (self.new.journal
            ≡ after self.old.journal (plain_call each.now.call)) }
        ensures goes_on { OnOk result (GoesOn self.old.board self.new.board
            (added_by_call self.old.journal (plain_call each.now.call))) }
        ensures made { OnOk result (seat.new.made ≡ seat.old.made + 1) }
        ensures err { OnErr result ((self.new ≡ self.old) × (seat.new.made ≡ seat.old.made)
            × (replies.new.items ≡ replies.old.items)) }
        ensures shared { IsSharedJournal N.start self.old.journal }
        ensures board { FollowsJournal N.opening_contents self.new.journal
            (self.new.board.published ++ self.new.board.pending) }
    {
        self.journal();
        let call = each.call.duplicate(self.heap)?;
        let Answered { at: _, reply } = self.answer(seat, call)?;
        let is_met = each.demand.is_met(&reply);
        replies.push_reserved(reply);
        Ok(is_met)
    }
}
