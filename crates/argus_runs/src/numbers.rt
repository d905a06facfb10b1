//! The numbers of the objects that a script's names stand for.

ghost use Rattle.std.specs.Prelude.{◌≡◌};
ghost use Rattle.argus_entries.specs.Reply.{plain_reply};
ghost use Rattle.argus_runs.specs.Replies.{object_number_at, object_of};

use argus_contents::ObjId;
use argus_contents::limits::MAX_OBJECTS;
use argus_entries::Reply;

// The number that no object has.
const UNDECLARED: ObjId = ObjId(MAX_OBJECTS);

/// The object that is number x in the script, given the numbers of its names.
pub fn object_at(numbers: &[ObjId], x: u32) -> ObjId
    ensures { result.0 ≡ object_number_at numbers.now x }
{
    match numbers.get(x as usize) {
        Some(number) => *number,
        None => UNDECLARED,
    }
}

// The number of a name whose declaration got this reply.
pub(crate) fn object_of(reply: &Reply) -> ObjId
    ensures { result ≡ object_of (plain_reply reply.now) }
{
    match reply {
        Reply::Object(number) => *number,
        Reply::Begun(_) | Reply::Answered(_) | Reply::Refused(_) => UNDECLARED,
    }
}
