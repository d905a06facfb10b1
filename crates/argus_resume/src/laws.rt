//! The laws of what is taken. Each function changes nothing: its contract is the law.

ghost use Rattle.std.specs.Prelude.{map};
ghost use Rattle.argus_resume.specs.JournalText.{IsEmptyOrReadable, no_journal};
ghost use Rattle.argus_resume.specs.Laws.{CallsLeaveListable, CheckpointsLeaveListable};
ghost use Rattle.argus_resume.specs.Laws.{GuardiansAreWhole, IsListable, JournalsAreReadable};
ghost use Rattle.argus_resume.specs.Laws.{ListingsAreResumed, ListingsHaveNoFault};
ghost use Rattle.argus_resume.specs.Laws.{LinesHaveOneFault, ListingsAreTakenBack};
ghost use Rattle.argus_resume.specs.Laws.{LongestListingIsResumed, NoLongerFrontIsAListing};
ghost use Rattle.argus_resume.specs.Laws.{OpeningsAreReadable};
ghost use Rattle.argus_resume.specs.ReadableCalls.{HaveReadableCalls, IsWellFormed};
ghost use Rattle.argus_entries.specs.Call.{plain_call};
ghost use Rattle.argus_journal.specs.Opening.{plain_object};

use crate::well_formed_calls::call_is_well_formed;
use crate::well_formed_values::object_is_well_formed;
use argus_contents::{Content, Shape};
use argus_core::Guardian;
use argus_entries::Call;
use argus_reading::laws::texts_have_one_error;

/// Each entry of a legal journal can be read, with its reply, exactly if its call can be: what a
/// reply has came in through a call or the opening, and keeps the limits of its shape. The opening
/// has to be sound and readable.
///
/// Of the calls that a program can hold, those can't be read that were refused and have a value of
/// depth more than 16; a Rust program can make one. A call that wasn't refused has no value deeper
/// than its object's shape.
pub fn journals_are_readable()
    ensures { JournalsAreReadable }
{}

/// Each call is well formed, whoever made it: its numbers are in the range of their types, its texts
/// in UTF-8, a shape that it declares can be made, and its values have some depth. So whether a
/// call can be read asks nothing but the depth of a refused call's values.
///
/// It reads the whole call to show it, and changes nothing: no program has to run it.
pub fn calls_are_well_formed(call: &Call)
    ensures { IsWellFormed (plain_call call.now) }
{
    call_is_well_formed(call);
}

/// Objects that a program holds have lines that can be read, if each content fits its shape: with a
/// first entry above 0 the guardian that `Guardian::starting_at` makes of them is listable. Before
/// entry 0 a listing has no opening, and lacks the objects and the number of the first action.
///
/// It reads each object whole to show it, and changes nothing: no program has to run it.
pub fn openings_are_readable(objects: &[(Shape, Option<Content>)])
    ensures { OpeningsAreReadable (map plain_object objects.now) }
{
    for object in objects {
        object_is_well_formed(object);
    }
}

/// The journal of a new guardian is listable. It stays so with each call that can be read, and with
/// each checkpoint.
pub fn journals_stay_listable()
    ensures begins { IsListable no_journal }
    ensures calls { CallsLeaveListable }
    ensures checkpoints { CheckpointsLeaveListable }
{}

/// A guardian's journal is listable if its opening and its calls can be read: everything else that
/// a listable journal needs holds of a guardian's.
pub fn guardians_are_listable(guardian: &Guardian)
    requires opening { IsEmptyOrReadable guardian.now.opening }
    requires calls { HaveReadableCalls guardian.now.entries }
    ensures { IsListable guardian.now }
{
    guardian.journal_is_legal();
    let _next = guardian.journal().journal().len();
}

/// The journal and the line alone decide why the line isn't the next one, and where: a line has at
/// most one fault, since what each says excludes those before it. The journal's next number has to
/// be below 2^64.
pub fn lines_have_one_fault()
    ensures { LinesHaveOneFault }
{
    texts_have_one_error();
}

/// If a line was at fault, no listing is longer than what was taken: no prefix of the rest that
/// ends in a line feed makes it the listing of a legal journal.
pub fn no_longer_front_is_a_listing()
    ensures { NoLongerFrontIsAListing }
{}

/// No line of a listing is at fault, in whatever pieces the listing comes: its journal's opening and
/// calls have to be readable.
pub fn listings_have_no_fault()
    ensures { ListingsHaveNoFault }
{}

/// A listing is taken whole, and gives its journal: so what `write_listing` of `argus_listings`
/// wrote is taken back, given memory. The guardian that is made of it has all of that journal. The
/// journal's opening and its calls have to be readable: a value that a Rust program passed in may be
/// too deep, and its call refused.
pub fn listings_are_taken_back()
    ensures taken { ListingsAreTakenBack }
    ensures whole { GuardiansAreWhole }
{}

/// The same for a reader: [`resume`](crate::resume) makes a guardian with a listing's journal from
/// the listing, given memory and if no read fails.
pub fn listings_are_resumed()
    ensures { ListingsAreResumed }
{}

/// No listing with which a reader's text begins is longer than that of the guardian that
/// [`resume`](crate::resume) makes from it, even if it dropped the last objects of an opening: given
/// memory and if no read fails.
pub fn longest_listing_is_resumed()
    ensures { LongestListingIsResumed }
{}
