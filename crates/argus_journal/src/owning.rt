//! `owner_of`: the owner of what an action did.

ghost use Rattle.std.specs.Prelude.{◌≡◌, Some, false, if◌then◌else◌};
ghost use Rattle.argus_entries.specs.{Call.plain_call, Entry.plain_entry, Reply.plain_reply};
ghost use Rattle.argus_journal.specs.Events as events;
ghost use Rattle.argus_journal.specs.Journal.{HasEntries, entries_of, first_entries_of, opening_of};
ghost use Rattle.argus_journal.specs.{Legal.Legal, JournalFacts.owner_in};
ghost use Rattle.argus_journal.specs.Replaying as by_entries;

use crate::journal::Journal;
use crate::kinship::{begins, begun_by, is_above, is_under_sibling, parent_of};
use crate::owner::Owner;
use argus_actions::ActionId;
use argus_entries::{Call, Entry, Reply};

/// The owner of what the action did. `None` if it wasn't begun, `Folded` if it was begun before the
/// opening.
///
/// The journal has to be legal, as a guardian's is. It scans all entries, and for a commit or an
/// abort that may change the owner those before it; it is for audits. It takes no memory.
pub fn owner_of(journal: &Journal, a: ActionId) -> Option<Owner>
    requires { Legal (opening_of journal.now) (entries_of journal.now) }
    ensures { result ≡ owner_in (opening_of journal.now) (entries_of journal.now) a.0 }
{
    owner_told(journal, a)
}

// The owner that the entries tell.
fn owner_told(journal: &Journal, a: ActionId) -> Option<Owner>
    ensures { result ≡ by_entries.owner_by_entries (opening_of journal.now).first_action
        (entries_of journal.now) a.0 }
{
    let mut owner = if a.0 < journal.first_action() {
        Some(Owner::Folded)
    } else {
        None
    };
    for older in 0..journal.count() {
        if let Some(entry) = journal.newest(older + 1) {
            owner = owner_after(journal, older, entry, a, owner);
        }
    }
    owner
}

fn owner_after(
    journal: &Journal,
    older: usize,
    entry: &Entry,
    a: ActionId,
    owner: Option<Owner>,
) -> Option<Owner>
    requires { HasEntries journal.now older }
    ensures { result ≡ (if by_entries.begins (plain_reply entry.now.reply) a.0 then Some
        (Owner.Held a)
        else by_entries.owner_next (plain_entry entry.now) (first_entries_of journal.now older) owner) }
{
    if begins(&entry.reply, a) {
        return Some(Owner::Held(a));
    }
    match owner {
        Some(Owner::Held(x)) => {
            if is_answered(&entry.reply) {
                Some(owner_then(journal, older, &entry.call, x))
            } else {
                owner
            }
        }
        Some(Owner::Folded) | Some(Owner::Gone) | Some(Owner::Base) | None => owner,
    }
}

fn owner_then(journal: &Journal, older: usize, call: &Call, x: ActionId) -> Owner
    requires { HasEntries journal.now older }
    ensures { result ≡ by_entries.owner_then (plain_call call.now) (first_entries_of journal.now older) x }
{
    match call {
        Call::Commit(b) => {
            if *b == x {
                heir_of(journal, older, *b)
            } else {
                Owner::Held(x)
            }
        }
        Call::Abort(b) => gone_if(is_above(journal, older, *b, x), x),
        Call::AbortOthers(b) => gone_if(has_sibling_above(journal, older, *b, x), x),
        Call::Declare(_) | Call::BeginTop | Call::BeginSub(_) | Call::BeginNested(_) => {
            Owner::Held(x)
        }
        Call::Ask(_, _, _) | Call::Alter(_, _, _) => Owner::Held(x),
        Call::TestRead(_, _) | Call::TestWrite(_, _) => Owner::Held(x),
    }
}

fn gone_if(over: bool, x: ActionId) -> Owner
    ensures { result ≡ by_entries.gone_if over x }
{
    if over { Owner::Gone } else { Owner::Held(x) }
}

// The next owner of what the action did, once it commits.
fn heir_of(journal: &Journal, count: usize, a: ActionId) -> Owner
    requires { HasEntries journal.now count }
    ensures { result ≡ by_entries.heir (by_entries.parent_by_entries
        (first_entries_of journal.now count) a.0) }
{
    match parent_of(journal, count, a) {
        Some(parent) => Owner::Held(parent),
        None => Owner::Base,
    }
}

// Whether x, or an ancestor of it, is a sibling of b.
fn has_sibling_above(journal: &Journal, count: usize, b: ActionId, x: ActionId) -> bool
    requires { HasEntries journal.now count }
    ensures { let older = first_entries_of journal.now count in
        result ≡ by_entries.at_parent false (by_entries.begun_by_entries older b.0)
        (λ c. by_entries.is_under_sibling_by_entries older c b.0 x.0) }
{
    match begun_by(journal, count, b) {
        Some(creator) => is_under_sibling(journal, count, creator, b, x),
        None => false,
    }
}

fn is_answered(reply: &Reply) -> bool
    ensures { result ≡ events.is_answered (plain_reply reply.now) }
{
    match reply {
        Reply::Answered(_) => true,
        Reply::Object(_) | Reply::Begun(_) | Reply::Refused(_) => false,
    }
}
