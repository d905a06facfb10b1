//! Parents, creators and ancestors from the entries: a scan from the newest entry to the begin of
//! the topmost action that is asked about.

ghost use Rattle.std.specs.Prelude.{◌≡◌, None, Option, Some};
ghost use Rattle.argus_actions.specs.declared.action_id.ActionId.{ActionId};
ghost use Rattle.argus_entries.specs.{Call.plain_call, Reply.plain_reply};
ghost use Rattle.argus_journal.specs.Journal.{HasEntries, action_number_of, first_entries_of};
ghost use Rattle.argus_journal.specs.Replaying as by_entries;

use crate::journal::Journal;
use argus_actions::ActionId;
use argus_entries::{Call, Reply};

pub(crate) fn begins(reply: &Reply, a: ActionId) -> bool
    ensures { result ≡ by_entries.begins (plain_reply reply.now) a.0 }
{
    match reply {
        Reply::Begun(n) => *n == a,
        Reply::Object(_) | Reply::Answered(_) | Reply::Refused(_) => false,
    }
}

fn parent_by(call: &Call) -> Option<ActionId>
    ensures { action_number_of result ≡ by_entries.parent_by (plain_call call.now) }
{
    match call {
        Call::BeginSub(parent) => Some(*parent),
        Call::Declare(_) | Call::BeginTop | Call::BeginNested(_) => None,
        Call::Commit(_) | Call::Abort(_) | Call::AbortOthers(_) => None,
        Call::Ask(_, _, _) | Call::Alter(_, _, _) => None,
        Call::TestRead(_, _) | Call::TestWrite(_, _) => None,
    }
}

fn begun_by_call(call: &Call) -> Option<ActionId>
    ensures { action_number_of result ≡ by_entries.begun_by_call (plain_call call.now) }
{
    match call {
        Call::BeginSub(parent) => Some(*parent),
        Call::BeginNested(creator) => Some(*creator),
        Call::Declare(_) | Call::BeginTop => None,
        Call::Commit(_) | Call::Abort(_) | Call::AbortOthers(_) => None,
        Call::Ask(_, _, _) | Call::Alter(_, _, _) => None,
        Call::TestRead(_, _) | Call::TestWrite(_, _) => None,
    }
}

/// The parent of the action; none for a topaction.
pub(crate) fn parent_of(journal: &Journal, count: usize, a: ActionId) -> Option<ActionId>
    requires { HasEntries journal.now count }
    ensures { action_number_of result ≡ by_entries.parent_by_entries
        (first_entries_of journal.now count) a.0 }
{
    let mut left = count;
    while let Some(entry) = journal.newest(left) {
        if begins(&entry.reply, a) {
            return parent_by(&entry.call);
        }
        left -= 1;
    }
    None
}

/// The action that began it: its parent or its creator.
pub(crate) fn begun_by(journal: &Journal, count: usize, a: ActionId) -> Option<ActionId>
    requires { HasEntries journal.now count }
    ensures { action_number_of result ≡ by_entries.begun_by_entries (first_entries_of journal.now count) a.0 }
{
    let mut left = count;
    while let Some(entry) = journal.newest(left) {
        if begins(&entry.reply, a) {
            return begun_by_call(&entry.call);
        }
        left -= 1;
    }
    None
}

/// Whether `x` is `a` or an ancestor of it.
pub(crate) fn is_above(journal: &Journal, count: usize, x: ActionId, a: ActionId) -> bool
    requires { HasEntries journal.now count }
    ensures { result ≡ by_entries.is_ancestor_by_entries (first_entries_of journal.now count) x.0 a.0 }
{
    let mut at = a;
    let mut left = count;
    while let Some(entry) = journal.newest(left) {
        if begins(&entry.reply, at) {
            if at == x {
                return true;
            }
            match parent_by(&entry.call) {
                Some(parent) => at = parent,
                None => return false,
            }
        }
        left -= 1;
    }
    x == at
}

/// Whether `x`, or an ancestor of it, is another than `b` and was begun by `c`.
pub(crate) fn is_under_sibling(
    journal: &Journal,
    count: usize,
    c: ActionId,
    b: ActionId,
    x: ActionId,
) -> bool
    requires { HasEntries journal.now count }
    ensures { result ≡ by_entries.is_under_sibling_by_entries
        (first_entries_of journal.now count) c.0 b.0 x.0 }
{
    let mut at = x;
    let mut left = count;
    while let Some(entry) = journal.newest(left) {
        if begins(&entry.reply, at) {
            if at != b && is_this_action(begun_by_call(&entry.call), c) {
                return true;
            }
            let Some(parent) = parent_by(&entry.call) else {
                return false;
            };
            at = parent;
        }
        left -= 1;
    }
    false
}

fn is_this_action(creator: Option<ActionId>, c: ActionId) -> bool
    ensures { result ≡ by_entries.is_this_action (action_number_of creator) c.0 }
{
    match creator {
        Some(x) => x == c,
        None => false,
    }
}
