//! The call that a call of a list stands for.

ghost use Rattle.std.specs.Prelude.{IfErr, IfOk, Some, map, ◌≡◌};
ghost use Rattle.argus_embed.specs.CallEach.{IsUnreadWith, SaysWith, action_begun, action_by};
ghost use Rattle.argus_guardian.specs.Calls.{IsReadableCall};
ghost use Rattle.argus_journal.specs.{Call.plain_call, Reply.plain_reply};

use crate::embed_error::EmbedError;
use crate::listed_call::ListedCall;
use crate::request::Request;
use crate::requesting::call_of;
use argus_journal::{Call, Reply};
use argus_values::Heap;
use std::str::from_utf8;

/// The call that it stands for, after these replies of the list. Whether there is its demand is for
/// the caller to say.
pub(crate) fn listed_call_of(
    heap: Heap,
    each: &ListedCall<'_>,
    replies: &[Reply],
) -> Result<Call, EmbedError>
    ensures says { IfOk result (λ call.
        SaysWith (action_by (map plain_reply replies.now) each.now.begun_by each.now.action)
        each.now (plain_call call)) }
    ensures readable { IfOk result (λ call. IsReadableCall (plain_call call)) }
    ensures unread { IfErr result (λ e.
        IsUnreadWith (action_by (map plain_reply replies.now) each.now.begun_by each.now.action)
        each.now e) }
{
    let Some(action) = action_by(replies, each.begun_by, each.action) else {
        return Err(EmbedError::NotBegun);
    };
    let Ok(text) = from_utf8(each.text) else {
        return Err(EmbedError::NotUtf8);
    };
    let request = Request {
        kind: each.kind,
        action,
        object: each.object,
        first: each.first,
        second: each.second,
    };
    call_of(heap, &request, text)
}

/// The action itself, or the one that a call of the list began, counted from 1; `None` if that
/// isn't one of those that were made, or began none.
fn action_by(replies: &[Reply], begun_by: u32, action: u32) -> Option<u32>
    ensures { result ≡ action_by (map plain_reply replies.now) begun_by action }
{
    if begun_by == 0 {
        return Some(action);
    }
    match replies.get(begun_by as usize - 1) {
        Some(reply) => action_begun(reply),
        None => None,
    }
}

/// The action that the reply says was begun, if any.
fn action_begun(reply: &Reply) -> Option<u32>
    ensures { result ≡ action_begun (Some (plain_reply reply.now)) }
{
    match reply {
        Reply::Begun(a) => Some(a.0),
        Reply::Object(_) | Reply::Answered(_) | Reply::Refused(_) => None,
    }
}
