//! `Reply`: what a call returns.

ghost use Rattle.std.specs.Prelude.{◌≡◌, ◌↔◌, true, IfOk};
ghost use Rattle.argus_contents.specs.{Answer.plain_answer, Decided.said_equivalence};
ghost use Rattle.argus_entries.specs.{Decided.reply_decided, Reply.plain_reply, Same.same_reply};

use crate::refusal::Refusal;
use argus_actions::ActionId;
use argus_contents::{Answer, ObjId};
use argus_memory::{Heap, OutOfMemory};

/// What a call returns: a number, an answer of an operation or of a test, or a refusal.
///
/// | Reply | To |
/// |---|---|
/// | `Object` | `Declare`: the number of the object |
/// | `Begun` | `BeginTop`, `BeginSub`, `BeginNested`: the number of the action |
/// | `Answered` | `Ask`, `Alter`: the operation's answer; also for a signal the lock was granted |
/// | `Answered` | `Commit`, `Abort`, `AbortOthers`: `Done` |
/// | `Answered` | `TestRead`, `TestWrite`: a `Flag` |
/// | `Refused` | every call; nothing was changed |
///
/// ```text
/// assert_eq!(rt; reply, Reply::Answered(Answer::Num(3)));
/// ```
#[derive(Debug, Drop)]
pub enum Reply {
    Object(ObjId),
    Begun(ActionId),
    Answered(Answer),
    Refused(Refusal),
}

// A tag and an answer.
const _: () = prove!(size_of::<Reply>() == 40);

impl Reply {
    /// A reply equal to this one. `OutOfMemory`: nothing was copied.
    pub fn duplicate(&self, heap: Heap) -> Result<Reply, OutOfMemory>
        ensures { IfOk result (λ copy. plain_reply copy ≡ plain_reply self.now) }
    {
        match self {
            Reply::Object(o) => Ok(Reply::Object(*o)),
            Reply::Begun(a) => Ok(Reply::Begun(*a)),
            Reply::Answered(answer) => Ok(Reply::Answered(duplicate_answer(heap, answer)?)),
            Reply::Refused(refusal) => Ok(Reply::Refused(*refusal)),
        }
    }
}

impl PartialEq for Reply {
    ghost eq = { λ a b. same_reply (plain_reply a) (plain_reply b) };

    ghost laws = { said_equivalence plain_reply same_reply reply_decided };

    /// Whether both say the same. It takes no memory.
    fn eq(&self, other: &Reply) -> bool
        ensures { (result ≡ true) ↔ (plain_reply self.now ≡ plain_reply other.now) }
    {
        is_same(self, other)
    }
}

pub(crate) fn is_same(a: &Reply, b: &Reply) -> bool
    ensures { result ≡ same_reply (plain_reply a.now) (plain_reply b.now) }
{
    match (a, b) {
        (Reply::Object(o), Reply::Object(p)) => o == p,
        (Reply::Begun(a), Reply::Begun(b)) => a == b,
        (Reply::Answered(a), Reply::Answered(b)) => a == b,
        (Reply::Refused(r), Reply::Refused(q)) => r == q,
        _ => false,
    }
}

fn duplicate_answer(heap: Heap, answer: &Answer) -> Result<Answer, OutOfMemory>
    ensures { IfOk result (λ copy. plain_answer copy ≡ plain_answer answer.now) }
{
    match answer {
        Answer::Done => Ok(Answer::Done),
        Answer::Val(value) => Ok(Answer::Val(value.duplicate(heap)?)),
        Answer::Num(number) => Ok(Answer::Num(*number)),
        Answer::Flag(truth) => Ok(Answer::Flag(*truth)),
        Answer::Body(content) => Answer::body(heap, content.duplicate(heap)?),
        Answer::Signal(signal) => Ok(Answer::Signal(*signal)),
    }
}
