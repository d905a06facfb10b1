//! Checks receipts and seats against the journal.

ghost use Rattle.std.specs.Prelude.{◌+◌, ◌<◌, ◌^◌, ◌≡◌, All, IfErr, OnOk, length, map, sum_by};
ghost use Rattle.argus_sharing.specs.Checking.{AreApart, IsSettleAnswer, Stands, settle_fault};
ghost use Rattle.argus_sharing.specs.{Following.IsSharedJournal, Receipt.plain_receipt};
ghost use Rattle.argus_journal.specs.JournalView.{next_entry};

use crate::checking::check;
use crate::locked::Locked;
use crate::receipt::Receipt;
use crate::seat::Seat;
use crate::settle_fault::SettleFault;
use crate::sharing::Sharing;
use std::sync::Wait;

impl<N: Sharing, R: Wait + Drop> Locked<N, R> {
    /// Whether receipts and seats agree with the journal: each receipt's entry is in it at its
    /// number, no two receipts have the same number, and the seats made as many calls as there are
    /// entries since the sharing began. It returns the first fault, in the order of the function
    /// `check`. `OutOfMemory` may come in place of any result.
    pub fn check(&self, seats: &[Seat<N>], receipts: &[Receipt]) -> Result<(), SettleFault>
        ensures stand { OnOk result
            (All (Stands self.now.journal.opening self.now.journal.entries)
            (map plain_receipt receipts.now)) }
        ensures apart { OnOk result (AreApart (map plain_receipt receipts.now)) }
        ensures count { OnOk result
            (next_entry self.now.journal ≡ N.start + sum_by (λ seat. seat.made) seats.now) }
        ensures fault { IfErr result (IsSettleAnswer
            (settle_fault self.now.journal.opening self.now.journal.entries N.start
            (sum_by (λ seat. seat.made) seats.now) (map plain_receipt receipts.now))) }
        ensures shared { IsSharedJournal N.start self.now.journal }
    {
        self.journal();
        let Locked {
            heap,
            publishing,
            start,
            ..
        } = self;
        let journal = publishing.guardian.journal().journal();
        check(*heap, journal, *start, sum_of(seats), receipts)
    }
}

/// How many calls the seats made.
fn sum_of<N: Sharing>(seats: &[Seat<N>]) -> u128
    requires { length seats.now < 2 ^ 63 }
    ensures { result ≡ sum_by (λ seat. seat.made) seats.now }
{
    let mut made = 0u128;
    for seat in seats {
        made += u128::from(seat.made);
    }
    made
}
