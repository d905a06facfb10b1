//! Calls under the mutex.

ghost use Rattle.std.specs.Prelude.{IfOk, OnErr, OnOk, ◌+◌, ◌≡◌};
ghost use Rattle.argus_entries.specs.{Call.plain_call, Reply.plain_reply};
ghost use Rattle.argus_sharing.specs.Following.{GoesFrom, IsMade};
ghost use Rattle.argus_journal.specs.JournalView.{next_entry, reply_to};

use crate::answered::Answered;
use crate::locked::Locked;
use crate::receipt::Receipt;
use crate::seat::Seat;
use crate::sharing::Sharing;
use argus_core::Guardian;
use argus_entries::Call;
use argus_memory::OutOfMemory;
use std::sync::Wait;
use std::sync::ledger::Book;

impl<N: Sharing, R: Wait + Drop> Locked<N, R> {
    /// Makes a call for the seat, as `answer` does, and returns its receipt: the number of the
    /// entry, the call that was passed in, and the reply that follows from the journal before it.
    /// At `OutOfMemory` nothing has changed.
    ///
    /// It may wait for lookers that are reading.
    pub fn call(&mut self, seat: &mut Seat<N>, call: Call) -> Result<Receipt, OutOfMemory>
        ensures at { IfOk result (λ receipt. receipt.at ≡ next_entry self.old.journal) }
        ensures call { IfOk result (λ receipt. plain_call receipt.call ≡ plain_call call) }
        ensures reply { IfOk result (λ receipt. plain_reply receipt.reply
            ≡ reply_to self.old.journal (plain_call call)) }
        ensures call_made { OnOk result (IsMade self.old self.new (plain_call call)) }
        ensures made { OnOk result (seat.new.made ≡ seat.old.made + 1) }
        ensures err { OnErr result ((self.new ≡ self.old) × (seat.new.made ≡ seat.old.made)) }
        ensures shared { GoesFrom N.opening_contents N.start self.old self.new }
    {
        // A caller that gets `OutOfMemory` has both facts from the state as it is.
        self.journal();
        let copy = call.duplicate(self.heap)?;
        let Answered { at, reply } = self.answer(seat, call)?;
        Ok(Receipt {
            at,
            call: copy,
            reply,
        })
    }

    /// Makes a call for the seat, and tries to publish what the commit of a topaction left. The
    /// reply follows from the journal before it. If the publish finds no memory, the reply is the
    /// same and the board is out of date. At `OutOfMemory` nothing has changed.
    ///
    /// It may wait for lookers that are reading.
    #[inline(always)]
    pub fn answer(&mut self, seat: &mut Seat<N>, call: Call) -> Result<Answered, OutOfMemory>
        ensures at { IfOk result (λ answered. answered.at ≡ next_entry self.old.journal) }
        ensures reply { IfOk result (λ answered. plain_reply answered.reply
            ≡ reply_to self.old.journal (plain_call call)) }
        ensures call_made { OnOk result (IsMade self.old self.new (plain_call call)) }
        ensures made { OnOk result (seat.new.made ≡ seat.old.made + 1) }
        ensures err { OnErr result ((self.new ≡ self.old) × (seat.new.made ≡ seat.old.made)) }
        ensures shared { GoesFrom N.opening_contents N.start self.old self.new }
    {
        // Both are there for the contract: what the journal is, and that it is legal.
        self.journal();
        let Locked {
            publishing,
            book,
            ..
        } = self;
        publishing.guardian.journal_is_legal();
        let reply = publishing.answer(call)?;
        let at = counted(&publishing.guardian, book, seat);
        Ok(Answered { at, reply })
    }
}

/// Counts the call that the guardian has just made for the seat, and returns the number of its
/// entry.
fn counted<N: Sharing>(guardian: &Guardian, book: &mut Book<N>, seat: &mut Seat<N>) -> u64
    requires { next_entry guardian.now ≡ N.start + book.old.total + 1 }
    ensures at { result + 1 ≡ next_entry guardian.now }
    ensures total { book.new.total ≡ book.old.total + 1 }
    ensures made { seat.new.made ≡ seat.old.made + 1 }
{
    let at = guardian.journal().journal().len() - 1;
    book.audit(&mut seat.share);
    book.add(&mut seat.share, 1);
    seat.made += 1;
    at
}
