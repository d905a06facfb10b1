//! `Store`: a guardian's log in a SQLite database.

ghost use Rattle.std.specs.Prelude.{◌≡◌, ◌≢◌, ◌≤◌, IfOk, IfSome, IsSomeAnd, None, Ok, false, map, pos};
ghost use Rattle.sqlite.specs.{State.HasCleanDisk, Held.state, Files.file_state, View.IsClean};
ghost use Rattle.sqlite.specs.{FileStore.view, WalFiles.image_at};
ghost use Rattle.argus_store.specs.{Tables.no_schema, Journal.{Journal, new_journal}};
ghost use Rattle.argus_store.specs.{Journal.{shown_batch, shown_line}, Head.{IsHeadOf, SaysIfOpen}};
ghost use Rattle.argus_store.specs.{Chain.Opens, End.{EndsAt, end_after, end_folded}};
ghost use Rattle.argus_store.specs.End.{end_of_new, folded, with_lines};
ghost use Rattle.argus_store.specs.Store.{Changes, FilesHold, HasLog, Keeps, KeptAtError, KeptAtOk, Leaves};

use crate::change::Change;
use crate::changing::change;
use crate::end::End;
use crate::ending::head_in;
use crate::head::Head;
use crate::making;
use sqlite::{Alter, Connection, Error, FileFrom, FileStore, Row, Start};
use sqlite_disk::Disk;
use std::marker::Model;
use std::rt::HostRuntime;

/// A log in a database. What a call says of its content is so while the disk returns what was
/// written (`HasCleanDisk`): a database in memory always does.
pub struct Store<S: Alter> {
    conn: Connection<S>,
}

impl<S: Alter + Drop> Drop for Store<S> {
    fn drop(self) {
        let Store { conn: _ } = self;
    }
}

impl<S: Alter> Model for Store<S> {
    ghost use Rattle.sqlite.specs.Held.{Held, held_code};

    ghost Value = { Held S };

    ghost coded = { held_code S.code };

    ghost view = { λ s. s.conn };
}

impl<S: Alter> Store<S> {
    /// Makes a log in an empty database: its tables, and whose log it is. `None` if the database has
    /// a table, an index or a view. The log ends at `End::of_new`.
    pub fn create(
        mut conn: Connection<S>,
        name: &str,
        version: &str,
    ) -> Result<Option<Store<S>>, Error>
    where
        S: Drop,
        ensures made { IfOk result (λ made. IfSome made (λ store. HasCleanDisk (state S.Store store)
            → HasLog (state S.Store store) (new_journal name.now version.now (pos (end_of_new name.now).sum)))) }
        ensures durable { IfOk result (λ made. IfSome made (λ store. HasCleanDisk (state S.Store store)
            → Leaves (state S.Store store) (new_journal name.now version.now (pos (end_of_new name.now).sum)))) }
        ensures refused { conn.in_transaction ≡ false
            → IfOk result (λ made. made ≡ None → conn.schema ≢ no_schema) }
    {
        if making::make(&mut conn, name, version, End::of_new(name).sum)? {
            Ok(Some(Store { conn }))
        } else {
            Ok(None)
        }
    }

    /// A store over a database that was opened elsewhere, whatever is in it.
    pub fn over(conn: Connection<S>) -> Store<S>
        ensures { result ≡ conn }
    {
        Store { conn }
    }

    /// Appends lines of a journal's entries to the log of this name, which ends there. `Some`: they
    /// are in the log, which ends there now, and each crash from now on leaves them there. `None`: the
    /// log has another name or another end, or its number would be too large, and nothing changed.
    /// At an error the log is as before, if it is still open. A crash leaves the log from before or
    /// the longer one: the clause says so of the call's end, and that it holds at each moment of the
    /// call is the kit's argument (sqlite_wal).
    pub fn append(&mut self, name: &str, end: End, lines: &str) -> Result<Option<End>, Error>
        ensures end { IfOk result (λ made. IfSome made (λ e. e ≡ end_after name.now end lines.now)) }
        ensures changes { (j : Journal) → HasLog (state S.Store self.old) j
            → HasCleanDisk (state S.Store self.new)
            → Changes (state S.Store self.new) result
            (EndsAt j name.now end × ((end_after name.now end lines.now).next ≤ 9223372036854775807))
            j (with_lines j name.now end lines.now) }
    {
        change(&mut self.conn, Change::Append, name, end, lines)
    }

    /// Puts a checkpoint's opening, without its last line feed, in place of all lines of the log of
    /// this name, which ends there. `Some`: the log has the opening, as one row, and no batch. `None`:
    /// the log has another name or another end, or the opening doesn't stand before that entry.
    /// Otherwise as `append`, also of a crash. The table `object` stays as it is.
    ///
    /// ```text
    /// store.fold(name, end, "opening entries 3 actions 2\nopening o0 atomic_record[balance:int] {5}")?
    /// ```
    pub fn fold(&mut self, name: &str, end: End, opening: &str) -> Result<Option<End>, Error>
        ensures end { IfOk result (λ made. IfSome made (λ e. e ≡ end_folded name.now end opening.now)) }
        ensures changes { (j : Journal) → HasLog (state S.Store self.old) j
            → HasCleanDisk (state S.Store self.new)
            → Changes (state S.Store self.new) result
            (EndsAt j name.now end × Opens end opening.now) j (folded j name.now end opening.now) }
    {
        change(&mut self.conn, Change::Fold, name, end, opening)
    }

    /// Whose the log is, where it ends, and whether it is open. `None`: the database has no log. The log stays as it is.
    pub fn head(&mut self) -> Result<Option<Head>, Error>
        ensures found { (j : Journal) → HasLog (state S.Store self.old) j
            → HasCleanDisk (state S.Store self.new)
            → IfOk result (λ found. IsSomeAnd found (IsHeadOf j)) }
        ensures open { (j : Journal) → HasLog (state S.Store self.old) j
            → HasCleanDisk (state S.Store self.new)
            → IfOk result (λ found. IfSome found (SaysIfOpen j)) }
        ensures kept { KeptAtOk result (state S.Store self.old) (state S.Store self.new) }
        ensures failed { KeptAtError result (state S.Store self.old) (state S.Store self.new) }
    {
        let rows = self
            .conn
            .query_all("SELECT name, next_entry, sum, is_open FROM log", &[])?;
        head_in(rows.as_slice())
    }

    /// Where the log of this name ends, for the next append. `None`: the database's log has another
    /// name. The log stays as it is.
    pub fn end(&mut self, name: &str) -> Result<Option<End>, Error>
        ensures at { (j : Journal) → HasLog (state S.Store self.old) j
            → HasCleanDisk (state S.Store self.new)
            → IfOk result (λ end. IfSome end (EndsAt j name.now)) }
        ensures other { (j : Journal) → HasLog (state S.Store self.old) j
            → HasCleanDisk (state S.Store self.new) → result ≡ Ok None → j.name ≢ name.now }
        ensures kept { KeptAtOk result (state S.Store self.old) (state S.Store self.new) }
        ensures failed { KeptAtError result (state S.Store self.old) (state S.Store self.new) }
    {
        let Some(head) = self.head()? else {
            return Ok(None);
        };
        if head.name.as_str() != name {
            return Ok(None);
        }
        Ok(Some(head.end))
    }

    /// The lines of the last checkpoint, in order, each as its number and its text. There are none
    /// before the first checkpoint. The log stays as it is.
    pub fn opening(&mut self) -> Result<Vec<Row>, Error>
        ensures all { (j : Journal) → HasLog (state S.Store self.old) j
            → HasCleanDisk (state S.Store self.new)
            → IfOk result (λ rows. rows.items ≡ map shown_line j.opening) }
        ensures kept { KeptAtOk result (state S.Store self.old) (state S.Store self.new) }
        ensures failed { KeptAtError result (state S.Store self.old) (state S.Store self.new) }
    {
        self.conn
            .query_all("SELECT line, text FROM opening ORDER BY line", &[])
    }

    /// The batches in the order of their entries, each as its number, its lines and its sum. The log
    /// stays as it is.
    pub fn batches(&mut self) -> Result<Vec<Row>, Error>
        ensures all { (j : Journal) → HasLog (state S.Store self.old) j
            → HasCleanDisk (state S.Store self.new)
            → IfOk result (λ rows. rows.items ≡ map shown_batch j.batches) }
        ensures kept { KeptAtOk result (state S.Store self.old) (state S.Store self.new) }
        ensures failed { KeptAtError result (state S.Store self.old) (state S.Store self.new) }
    {
        self.conn
            .query_all("SELECT first, lines, sum FROM batch ORDER BY first", &[])
    }
}

impl<D: Disk + Drop> Store<FileStore<D>> {
    /// Ends a run. Whatever a crash leaves of the files at this moment holds the log, if the disk
    /// has returned what was written.
    pub fn stop(self) -> FileStore<D>
        ensures { IsClean (view result) → Keeps self }
    {
        let Store { conn } = self;
        let _ = conn.schema();
        conn.into_store()
    }
}

impl<S: Start> Store<FileStore<FileFrom<S>>> {
    /// Begins a run: opens the files at a path, which `start` stands for. If they hold a log, that
    /// is the store's. It writes nothing into other databases, and doesn't say that they are.
    pub fn open(
        rt: &HostRuntime,
        path: &str,
        start: S,
    ) -> Result<Store<FileStore<FileFrom<S>>>, Error>
        ensures { IfOk result (λ store. (j : Journal) → FilesHold (image_at S.Start) j
            → HasCleanDisk (file_state store) → HasLog (file_state store) j) }
    {
        match Connection::open_from(rt, path, false, start) {
            Ok(conn) => Ok(Store { conn }),
            Err((error, _)) => Err(error),
        }
    }
}
