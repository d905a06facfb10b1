//! `Demand`: what a reply must be for the calls after it to be made.

ghost use Rattle.std.specs.Prelude.{◌≡◌};
ghost use Rattle.argus_entries.specs.Reply.{plain_reply};
ghost use Rattle.argus_sharing.specs.CallEach.{is_no_refusal, is_no_signal, meets};

use argus_contents::Answer;
use argus_entries::Reply;

/// What a reply must be for the calls after it to be made.
///
/// | Demand | It is met by |
/// |---|---|
/// | `Nothing` | every reply |
/// | `NoRefusal` | every reply but a refusal |
/// | `NoSignal` | every reply but a refusal and a signal |
/// | `Exactly(reply)` | this reply |
#[derive(Debug, Drop)]
pub enum Demand {
    Nothing,
    NoRefusal,
    NoSignal,
    Exactly(Reply),
}

impl Demand {
    /// Whether the reply meets it.
    ///
    /// ```text
    /// assert!(rt; Demand::NoRefusal.is_met(&Reply::Begun(ActionId(0))));
    /// ```
    pub fn is_met(&self, reply: &Reply) -> bool
        ensures { result ≡ meets self.now (plain_reply reply.now) }
    {
        match self {
            Demand::Nothing => true,
            Demand::NoRefusal => is_no_refusal(reply),
            Demand::NoSignal => is_no_signal(reply),
            Demand::Exactly(demanded) => demanded == reply,
        }
    }
}

/// Whether it isn't a refusal.
fn is_no_refusal(reply: &Reply) -> bool
    ensures { result ≡ is_no_refusal (plain_reply reply.now) }
{
    match reply {
        Reply::Object(_) | Reply::Begun(_) | Reply::Answered(_) => true,
        Reply::Refused(_) => false,
    }
}

/// Whether it is neither a refusal nor a signal.
fn is_no_signal(reply: &Reply) -> bool
    ensures { result ≡ is_no_signal (plain_reply reply.now) }
{
    match reply {
        Reply::Object(_) | Reply::Begun(_) => true,
        Reply::Answered(Answer::Signal(_)) => false,
        Reply::Answered(
            Answer::Done | Answer::Val(_) | Answer::Num(_) | Answer::Flag(_) | Answer::Body(_),
        ) => true,
        Reply::Refused(_) => false,
    }
}
