//! `KeptAnswer`: what an embedded guardian keeps of the last call, or of the last question.

use argus_journal::Reply;
use argus_values::Room;

/// What is kept until the next call or question: a reply, or those of a list of calls, whose texts
/// are made when they are asked for, so that no memory is needed between a call and its reply; or
/// the text of a question's answer.
#[derive(Drop)]
pub(crate) enum KeptAnswer {
    Nothing,
    Reply(Reply),
    Replies(Vec<Reply, Room>),
    Text(Vec<u8, Room>),
    /// A reply as its line has it, whole: the journal's, in place of the one that was read.
    Given(Reply),
}
