//! `EntryLines`: the lines of entries that were taken.

ghost use Rattle.std.specs.Prelude.{IfOk, MatchOption, OnErr, OnOk, false, true, ⊤, ◌≡◌, ◌≢◌};
ghost use Rattle.argus_entries.specs.{Call.plain_call, Entry.plain_entry, Reply.plain_reply};
ghost use Rattle.argus_journal.specs.JournalView.{after, next_entry, reply_to, with_entry};
ghost use Rattle.argus_journal.specs.Opening.{is_sound};
ghost use Rattle.argus_resume.specs.FrontLine.{entry_with};

use crate::rebuilding::without_newest;
use argus_core::Guardian;
use argus_entries::{Call, Entry, Reply};
use argus_memory::{Heap, OutOfMemory};
use std::mem::replace;

/// The guardian whose journal was taken, or one that is ahead of it by one entry. No call can be
/// undone, so a call whose reply turned out to be another than its line's stays until the next
/// line.
#[derive(Drop)]
pub(crate) struct EntryLines {
    pub(crate) guardian: Guardian,
    // Whether the newest entry wasn't taken.
    pub(crate) is_ahead: bool,
}

impl EntryLines {
    ghost use Rattle.argus_resume.specs.Stage.{AreEntries, taken_by};

    /// Drops an entry that wasn't taken.
    pub(crate) fn come_back(&mut self, heap: Heap) -> Result<(), OutOfMemory>
        requires { AreEntries self.old }
        ensures kept { AreEntries self.new }
        ensures journal { taken_by self.new ≡ taken_by self.old }
        ensures level { OnOk result (self.new.is_ahead ≡ false) }
    {
        if !self.is_ahead {
            return Ok(());
        }
        self.let_newest_go(heap)
    }

    // Not inlined, since it is rare and has large locals, which are zeroed at its start.
    #[cold]
    #[inline(never)]
    fn let_newest_go(&mut self, heap: Heap) -> Result<(), OutOfMemory>
        requires entries { AreEntries self.old }
        requires ahead { self.old.is_ahead ≡ true }
        ensures kept { AreEntries self.new }
        ensures journal { taken_by self.new ≡ taken_by self.old }
        ensures level { OnOk result (self.new.is_ahead ≡ false) }
    {
        self.guardian = without_newest(heap, &self.guardian)?;
        self.is_ahead = false;
        Ok(())
    }

    /// The number of the entry that comes next.
    pub(crate) fn next_number(&self) -> u64
        requires { AreEntries self.now }
        ensures { result ≡ next_entry (taken_by self.now) }
    {
        let next = self.guardian.journal().journal().len();
        if self.is_ahead { next - 1 } else { next }
    }
}

/// Makes the entry's call, and returns the reply if it differs from the entry's.
pub(crate) fn make(guardian: &mut Guardian, mut entry: Entry) -> Result<Option<Reply>, OutOfMemory>
    ensures made { IfOk result (λ other. MatchOption other
        (guardian.new ≡ with_entry guardian.old (plain_entry entry))
        (λ reply. guardian.new ≡ after guardian.old (plain_entry entry).call)) }
    ensures reply { IfOk result (λ other. MatchOption other
        ((plain_entry entry).reply ≡ reply_to guardian.old (plain_entry entry).call)
        (λ reply. plain_reply reply ≡ reply_to guardian.old (plain_entry entry).call)) }
    ensures other { IfOk result (λ other. MatchOption other ⊤
        (λ reply. (plain_entry entry).reply ≢ plain_reply reply)) }
    ensures err { OnErr result (guardian.new ≡ guardian.old) }
    ensures sound { is_sound guardian.old.opening ≡ true }
{
    let call = replace(&mut entry.call, Call::BeginTop);
    make_call(guardian, call, &entry.reply)
}

/// Makes the call, and returns the reply if it differs from the expected one.
pub(crate) fn make_call(
    guardian: &mut Guardian,
    call: Call,
    expected: &Reply,
) -> Result<Option<Reply>, OutOfMemory>
    ensures made { IfOk result (λ other. MatchOption other
        (guardian.new ≡ with_entry guardian.old
        (entry_with (plain_call call) (plain_reply expected.now)))
        (λ reply. guardian.new ≡ after guardian.old (plain_call call))) }
    ensures reply { IfOk result (λ other. MatchOption other
        (plain_reply expected.now ≡ reply_to guardian.old (plain_call call))
        (λ reply. plain_reply reply ≡ reply_to guardian.old (plain_call call))) }
    ensures other { IfOk result (λ other. MatchOption other ⊤
        (λ reply. plain_reply expected.now ≢ plain_reply reply)) }
    ensures err { OnErr result (guardian.new ≡ guardian.old) }
    ensures sound { is_sound guardian.old.opening ≡ true }
{
    guardian.journal_is_legal();
    let reply = guardian.call(call)?;
    if reply == *expected {
        return Ok(None);
    }
    Ok(Some(reply))
}
