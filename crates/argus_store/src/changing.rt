//! The transaction of an append or a fold: it moves the log's end, and puts the lines in.

ghost use Rattle.std.specs.Prelude.{◌≡◌, ◌≤◌, IfOk, IfSome};
ghost use Rattle.sqlite.specs.{State.HasCleanDisk, Held.state};
ghost use Rattle.argus_store.specs.declared.change.Change.TheVariants.{Append, Fold};
ghost use Rattle.argus_store.specs.{Journal.Journal, End.EndsAt, Store.{Changes, HasLog}};
ghost use Rattle.argus_store.specs.Changing.{Moves, Puts, Ran, Runs, Suits, changed, end_with};

use crate::change::Change;
use crate::end::End;
use sqlite::{Alter, Connection, Error, Transaction, params};

/// Moves the log's end. It changes one row, or none if the log has another name or ends elsewhere.
fn move_end<S: Alter>(
    tx: &mut Transaction<'_, S>,
    name: &str,
    end: End,
    after: End,
) -> Result<usize, Error>
    requires { (end.next ≤ 9223372036854775807) × (after.next ≤ 9223372036854775807) }
    ensures same_reference { tx.new.conn.ghost_name ≡ tx.old.conn.ghost_name }
    ensures ran { Ran (state S.Store tx.old.conn.now) (state S.Store tx.new.conn.now) result
        (Moves (state S.Store tx.old.conn.now) (state S.Store tx.new.conn.now) name.now end after) }
{
    let (first, next) = (end.next as i64, after.next as i64);
    tx.execute(
        "UPDATE log SET next_entry = ?1, sum = ?2 WHERE next_entry = ?3 AND sum = ?4 AND name = ?5",
        params![next, i64::from(after.sum), first, i64::from(end.sum), name],
    )
}

/// Puts a batch in.
fn put<S: Alter>(
    tx: &mut Transaction<'_, S>,
    end: End,
    lines: &str,
    after: End,
) -> Result<usize, Error>
    requires { end.next ≤ 9223372036854775807 }
    ensures same_reference { tx.new.conn.ghost_name ≡ tx.old.conn.ghost_name }
    ensures ran { Ran (state S.Store tx.old.conn.now) (state S.Store tx.new.conn.now) result (λ _.
        Puts Append (state S.Store tx.old.conn.now) (state S.Store tx.new.conn.now) end lines.now after) }
{
    let first = end.next as i64;
    tx.execute(
        "INSERT INTO batch (first, lines, sum) VALUES (?1, ?2, ?3)",
        params![first, lines, i64::from(after.sum)],
    )
}

/// Puts an opening, as one row, in place of all lines.
fn replace<S: Alter>(tx: &mut Transaction<'_, S>, opening: &str) -> Result<usize, Error>
    ensures same_reference { tx.new.conn.ghost_name ≡ tx.old.conn.ghost_name }
    ensures ran { Ran (state S.Store tx.old.conn.now) (state S.Store tx.new.conn.now) result (λ _.
        (end after : End) → Puts Fold
        (state S.Store tx.old.conn.now) (state S.Store tx.new.conn.now) end opening.now after) }
{
    tx.execute("DELETE FROM batch", &[])?;
    tx.execute("DELETE FROM opening", &[])?;
    tx.execute("INSERT INTO opening VALUES (0, ?1)", params![opening])
}

/// Puts the lines in, as what they are to the log.
fn put_in<S: Alter>(
    tx: &mut Transaction<'_, S>,
    change: Change,
    end: End,
    lines: &str,
    after: End,
) -> Result<usize, Error>
    requires { end.next ≤ 9223372036854775807 }
    ensures same_reference { tx.new.conn.ghost_name ≡ tx.old.conn.ghost_name }
    ensures ran { Ran (state S.Store tx.old.conn.now) (state S.Store tx.new.conn.now) result (λ _.
        Puts change (state S.Store tx.old.conn.now) (state S.Store tx.new.conn.now) end lines.now after) }
{
    match change {
        Change::Append => put(tx, end, lines, after),
        Change::Fold => replace(tx, lines),
    }
}

/// Whether the log has the lines now. If it hasn't, it has another name or another end.
fn run<S: Alter>(
    tx: &mut Transaction<'_, S>,
    change: Change,
    name: &str,
    end: End,
    lines: &str,
    after: End,
) -> Result<bool, Error>
    requires { (after ≡ end_with change name.now end lines.now) × Suits change name.now end lines.now }
    ensures same_reference { tx.new.conn.ghost_name ≡ tx.old.conn.ghost_name }
    ensures ran { Ran (state S.Store tx.old.conn.now) (state S.Store tx.new.conn.now) result
        (Runs (state S.Store tx.old.conn.now) (state S.Store tx.new.conn.now)
        change name.now end lines.now) }
{
    if move_end(tx, name, end, after)? != 1 {
        return Ok(false);
    }
    put_in(tx, change, end, lines, after)?;
    Ok(true)
}

/// Makes the change in one transaction, and tells where the log ends then. `None`: the lines don't
/// suit it, or it has another name or another end, and nothing has changed.
pub(crate) fn change<S: Alter>(
    conn: &mut Connection<S>,
    change: Change,
    name: &str,
    end: End,
    lines: &str,
) -> Result<Option<End>, Error>
    ensures end { IfOk result (λ made. IfSome made (λ e. e ≡ end_with change name.now end lines.now)) }
    ensures changes { (j : Journal) → HasLog (state S.Store conn.old) j
        → HasCleanDisk (state S.Store conn.new)
        → Changes (state S.Store conn.new) result
        (EndsAt j name.now end × Suits change name.now end lines.now) j
        (changed change j end lines.now (end_with change name.now end lines.now)) }
{
    let Some(after) = change.end_with(name, end, lines) else {
        return Ok(None);
    };
    if !conn.is_autocommit() {
        return Ok(None);
    }
    let mut tx = conn.transaction();
    if !run(&mut tx, change, name, end, lines, after)? {
        return Ok(None);
    }
    tx.commit()?;
    Ok(Some(after))
}
