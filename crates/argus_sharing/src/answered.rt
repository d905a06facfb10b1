//! `Answered`: the reply to a call, and where both are in the journal.

use argus_entries::Reply;

/// The reply to a call that was made on a shared guardian, and the number of its entry in the
/// journal, counted from 0 since the guardian's beginning. It is a `Receipt` without the call.
///
/// ```text
/// let answered = shared.answer(&rt, &mut seat, Call::BeginTop)?;
/// assert_eq!(rt; answered.reply, Reply::Begun(ActionId(0)));
/// assert_eq!(rt; answered.at, 0);
/// ```
#[derive(Debug, Drop)]
pub struct Answered {
    pub at: u64,
    pub reply: Reply,
}
