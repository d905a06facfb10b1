//! What a log gets before a commit is made.

ghost use Rattle.std.specs.Prelude.{◌≡◌, ◌⊎◌, IfOk, IsErr, None, Ok, OnErr, Some, string_bytes};
ghost use Rattle.sqlite.specs.{State.HasCleanDisk, Held.state};
ghost use Rattle.argus_journal.specs.{Call.commit, JournalView.after};
ghost use Rattle.argus_store.specs.{Journal.Journal, Kept.{IsAppended, IsKept, KeptState, lines_from}};

use crate::end::{End, entries_in};
use crate::keep_error::KeepError;
use crate::store::Store;
use argus_guardian::ReadyCommit;
use argus_journal::write_entry;
use argus_values::Room;
use sqlite::{Alter, Error};

/// Appends the entry that a ready commit is going to make, behind these lines of the entries before
/// it that the log hasn't got. `Ok`: where the log ends then.
pub(crate) fn append_ready<S: Alter>(
    store: &mut Store<S>,
    name: &str,
    end: End,
    ready: &ReadyCommit,
    mut lines: String<Room>,
) -> Result<End, KeepError>
    ensures appended { let old : KeptState S = record { journal = ready.now.journal; store = store.old; name = name.now; end = end } in
        (j : Journal) → IsKept S.Store old j → string_bytes lines ≡ lines_from old.journal end.next
        → HasCleanDisk (state S.Store store.new) → IsAppended S.Store old store.new
        (after old.journal (commit ready.now.action)) result j }
{
    let (at, entry) = ready.entry();
    write_entry(at, &entry, &mut lines)?;
    match end.next.checked_add(entries_in(lines.as_str().as_bytes())) {
        Some(next) if next > at && next - at == 1 => {}
        _ => return Err(KeepError::OtherLog),
    }
    end_of(store.append(name, end, lines.as_str()))
}

/// Where the log ends after an append, or why the append wasn't made.
fn end_of(appended: Result<Option<End>, Error>) -> Result<End, KeepError>
    ensures made { IfOk result (λ end. appended ≡ Ok (Some end)) }
    ensures unmade { OnErr result ((appended ≡ Ok None) ⊎ IsErr appended) }
{
    appended?.ok_or(KeepError::OtherLog)
}
