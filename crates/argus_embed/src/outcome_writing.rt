//! Writes the outcome of each call into a list of calls.

ghost use Rattle.std.specs.Prelude.{length, map, ◌≡◌, ◌≤◌};
ghost use Rattle.argus_embed.specs.CallEach.{with_end, with_error, with_outcomes};
ghost use Rattle.argus_journal.specs.Reply.{plain_reply};

use crate::embed_error::EmbedError;
use crate::list_end::ListEnd;
use crate::listed_call::ListedCall;
use crate::reporting::outcome_of;
use argus_journal::Reply;

/// Gives each of the first calls the numbers of its reply.
pub(crate) fn write_outcomes(calls: &mut [ListedCall<'_>], replies: &[Reply])
    requires { length replies.now ≤ length calls.old }
    ensures { calls.new ≡ with_outcomes calls.old (map plain_reply replies.now) }
{
    for at in 0..replies.len() {
        calls[at] = calls[at].with_codes(outcome_of(&replies[at]).codes());
    }
}

/// Gives the call at this place the numbers of its error, if it failed.
pub(crate) fn write_end(calls: &mut [ListedCall<'_>], at: usize, end: ListEnd)
    ensures { calls.new ≡ with_end calls.old at end }
{
    match end {
        ListEnd::Whole | ListEnd::Unmet => {}
        ListEnd::Failed(error) => write_error(calls, at, error),
    }
}

fn write_error(calls: &mut [ListedCall<'_>], at: usize, error: EmbedError)
    ensures { calls.new ≡ with_error calls.old at error }
{
    if at < calls.len() {
        calls[at] = calls[at].with_codes(error.codes());
    }
}
