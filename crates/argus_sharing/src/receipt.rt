//! `Receipt`: a call as it was made, its reply, and where both are in the journal.

ghost use Rattle.std.specs.Prelude.{◌≡◌};

use argus_entries::{Call, Reply};

/// A call that was made on a shared guardian, with its reply, and the number of its entry in the
/// journal, counted from 0 since the guardian's beginning.
///
/// ```text
/// let receipt = shared.call(&rt, &mut seat, Call::BeginTop)?;
/// assert_eq!(rt; receipt.reply, Reply::Begun(ActionId(0)));
/// assert_eq!(rt; receipt.at, 0);
/// ```
#[derive(Debug)]
pub struct Receipt {
    pub at: u64,
    pub call: Call,
    pub reply: Reply,
}

// Written by hand, so that dropping a receipt is one call; a derived `Drop` is expanded at each
// place.
impl Drop for Receipt {
    fn drop(self) {
        let Receipt {
            at: _,
            call: _,
            reply: _,
        } = self;
    }
}

impl Receipt {
    /// The reply, taken out of the receipt.
    ///
    /// ```text
    /// let reply = shared.call(&rt, &mut seat, Call::BeginTop)?.into_reply();
    /// ```
    pub fn into_reply(self) -> Reply
        ensures { result ≡ self.reply }
    {
        let Receipt {
            at: _,
            call: _,
            reply: taken,
        } = self;
        taken
    }
}
