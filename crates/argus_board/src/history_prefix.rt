//! `HistoryPrefix`: a prefix of the history of effects.

ghost use Rattle.std.specs.Prelude.{◌≡◌};

use crate::page::Page;
use crate::pages::Law;
use logbook::Seen;

/// A prefix of the history of effects. It takes no bytes: the history exists only in contracts.
#[derive(Drop)]
pub struct HistoryPrefix {
    pub seen: Seen<Page, u64, Law>,
}

impl HistoryPrefix {
    /// The same prefix again.
    pub fn again(&self) -> HistoryPrefix
        ensures { result ≡ self.now }
    {
        HistoryPrefix {
            seen: self.seen.again(),
        }
    }
}
