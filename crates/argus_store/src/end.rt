//! `End`: where a log ends.

ghost use Rattle.std.specs.Prelude.{◌≡◌, ◌≤◌, IfSome, None};
ghost use Rattle.argus_store.specs.{Chain.Opens, Summing.entries_in};
ghost use Rattle.argus_store.specs.End.{end_after, end_folded, end_of_new};

use crate::listing::says_entry;
use crate::summing::{log_sum, sum_of};

/// Where a log ends: the number of its next entry, and the sum of its last batch.
#[derive(Clone, Copy, Debug, PartialEq, Eq)]
pub struct End {
    pub next: u64,
    pub sum: u32,
}

impl End {
    /// Where a new log of this name ends: nothing was appended to it.
    pub fn of_new(name: &str) -> End
        ensures { result ≡ end_of_new name.now }
    {
        End {
            next: 0,
            sum: log_sum(name, 0, 0, ""),
        }
    }

    /// Where a log of this name ends with these lines behind it, each an entry's. `None` if the
    /// number is one that a database can't hold.
    ///
    /// ```text
    /// End::of_new(name).after(name, "0 begin_top -> a0")
    /// ```
    pub fn after(self, name: &str, lines: &str) -> Option<End>
        ensures some { IfSome result (λ end. (end ≡ end_after name.now self lines.now)
            × (end.next ≤ 9223372036854775807)) }
        ensures none { result ≡ None → 9223372036854775808 ≤ (end_after name.now self lines.now).next }
    {
        self.after_bytes(name, lines.as_bytes())
    }

    /// The same of lines that needn't be UTF-8.
    pub(crate) fn after_bytes(self, name: &str, lines: &[u8]) -> Option<End>
        ensures some { IfSome result (λ end. (end ≡ end_after name.now self lines.now)
            × (end.next ≤ 9223372036854775807)) }
        ensures none { result ≡ None → 9223372036854775808 ≤ (end_after name.now self lines.now).next }
    {
        let next = self.next.checked_add(entries_in(lines))?;
        if next > i64::MAX as u64 {
            return None;
        }
        Some(End {
            next,
            sum: sum_of(name.as_bytes(), self.next, self.sum, lines),
        })
    }

    /// Where the log of this name that ends here ends with this opening in place of all lines. `None`
    /// if it doesn't stand before the next entry, or a database can't hold that one's number.
    pub(crate) fn after_fold(self, name: &str, opening: &str) -> Option<End>
        ensures some { IfSome result (λ end. (end ≡ end_folded name.now self opening.now)
            × Opens self opening.now) }
        ensures none { result ≡ None → ¬ Opens self opening.now }
    {
        if self.next > i64::MAX as u64 || !says_entry(opening.as_bytes(), self.next) {
            return None;
        }
        Some(End {
            next: self.next,
            sum: log_sum(name, self.next, 0, opening),
        })
    }
}

// How many lines there are.
pub(crate) fn entries_in(lines: &[u8]) -> u64
    ensures { result ≡ entries_in lines.now }
{
    let mut count = 1;
    let mut bytes = lines;
    while let [byte, more @ ..] = bytes {
        if *byte == b'\n' {
            count += 1;
        }
        bytes = more;
    }
    count
}
