//! The laws of a guardian that a host holds. Each function changes nothing: its contract is the law.

ghost use Rattle.std.specs.Prelude.{Some, ◌≡◌};
ghost use Rattle.argus_embed.specs.{Laws.RenewalsLeaveListable, Listed.IsTakenBack};
ghost use Rattle.argus_embed.specs.Questions.{text_to};
ghost use Rattle.argus_embed.specs.declared.question.Question.TheVariants as question;
ghost use Rattle.argus_guardian.specs.{JournalText.journal_text, ResumeLaws.IsListable};
ghost use Rattle.argus_guardian.specs.listings_declared.listing.Listing.TheVariants.{Journal};

use crate::embedded::Embedded;
use argus_guardian::resume_laws::{
    guardians_are_listable, journals_stay_listable, listings_are_taken_back, listings_have_no_fault,
};

/// A listable journal stays listable with a renewal, as it does with each call that can be read and
/// with each checkpoint (`journals_stay_listable` of argus_resume).
pub fn renewals_leave_listable()
    ensures { RenewalsLeaveListable }
{
    journals_stay_listable();
}

impl Embedded {
    /// The guardian's listing can be resumed, whatever calls its host has made: given memory,
    /// `resume` takes the answer to `Question::List(Listing::Journal)` in whatever pieces it comes,
    /// and `resumed` makes a guardian with the same journal of it.
    pub fn listing_is_resumed(&self)
        ensures listable { IsListable self.now.journal }
        ensures listing { text_to self.now.journal (question.List Journal)
            ≡ Some (journal_text self.now.journal) }
        ensures resumed { IsTakenBack self.now.journal }
    {
        guardians_are_listable(&self.guardian);
        listings_are_taken_back();
        listings_have_no_fault();
    }
}
