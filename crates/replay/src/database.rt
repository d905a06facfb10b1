//! The listing of a log in a database, read from copies of its files in memory, so that nothing is
//! written.

ghost use Rattle.std.specs.Prelude.{IfOk, IfSome, IsTrue};
ghost use Rattle.sqlite_disk.specs.Memory.{memory_is_usable};

use argus_store::{FaultyRow, ListingError, Store, listing_text};
use sqlite::{Alter, Connection, Error, ErrorCode, Files, Options, Row};
use sqlite_disk::{Disk, Memory};
use std::alloc::Global;
use std::{fs, io};

/// The text of a log's listing, and the rows that it is of.
#[derive(Drop)]
pub struct LogListing {
    pub text: Vec<u8>,
    pub opening: Vec<Row>,
    pub batches: Vec<Row>,
}

/// Why a database gives no listing.
#[derive(Drop)]
pub enum DatabaseFault {
    /// There is no such file.
    NoFile,
    /// Another version of the product has written it, in a format that this one doesn't know.
    OtherFormat,
    /// The log wasn't closed, and its WAL, which has the newest work, isn't there or is empty.
    WalMissing,
    /// A transaction without a WAL was broken off: SQLite has to roll it back first.
    HotJournal,
    /// It isn't a database, or not a sound one.
    Unsound,
    /// The database has no log, or is another program's.
    NoLog,
    /// This row of the log doesn't follow from those before it.
    Row(FaultyRow),
    OutOfMemory,
    Read,
}

// What the disk of a copy in memory lacks is memory.
const WITHOUT_MEMORY: [ErrorCode; 3] = [
    ErrorCode::OutOfMemory,
    ErrorCode::DiskFull,
    ErrorCode::SystemIoFailure,
];

impl From<Error> for DatabaseFault {
    fn from(error: Error) -> DatabaseFault {
        if WITHOUT_MEMORY
            .iter()
            .any(|code| error == Error::SqliteFailure(*code))
        {
            DatabaseFault::OutOfMemory
        } else if let Error::SqlInputError(_) = error {
            DatabaseFault::NoLog
        } else {
            DatabaseFault::Unsound
        }
    }
}

impl From<ListingError> for DatabaseFault {
    fn from(error: ListingError) -> DatabaseFault {
        match error {
            ListingError::Row(faulty) => DatabaseFault::Row(faulty),
            ListingError::OutOfMemory => DatabaseFault::OutOfMemory,
        }
    }
}

/// The listing of the log in the database at this path, with the WAL beside it.
pub fn read_log(rt: &HostRuntime, path: &str) -> Result<LogListing, DatabaseFault> {
    let Some(file) = bytes_of(rt, path)? else {
        return Err(DatabaseFault::NoFile);
    };
    check_numbers(file.as_slice())?;
    let db = copy_of(rt, file.as_slice())?;
    let wal = wal_of(rt, path)?;
    let has_wal = wal.is_some();
    let log = match wal {
        Some(wal) => wal,
        None => Memory::new(rt.alloc()),
    };
    list_copies(rt.alloc(), log, db, has_wal)
}

// The listing of the log in these copies of a WAL and a database. It is a function of its own, since
// each local beside the connection makes the check slower.
fn list_copies(
    alloc: Global,
    log: Memory,
    db: Memory,
    has_wal: bool,
) -> Result<LogListing, DatabaseFault>
    requires log { IsTrue (memory_is_usable log) }
    requires db { IsTrue (memory_is_usable db) }
{
    match Connection::open_files(alloc, Files { log, db }, Options::new(0)) {
        Ok(conn) => list(alloc, conn, has_wal),
        Err((error, _)) => Err(DatabaseFault::from(error)),
    }
}

// Compares the two numbers of the file's head by which a log is known: the program's, and the
// format's. A log that Rattle made has 0 for both. What isn't a database is refused later.
fn check_numbers(file: &[u8]) -> Result<(), DatabaseFault> {
    if !file.starts_with(b"SQLite format 3\0") {
        return Ok(());
    }
    if has_other(file.get(68..72), b"ARGU") {
        return Err(DatabaseFault::NoLog);
    }
    if has_other(file.get(60..64), &[0, 0, 0, 1]) {
        return Err(DatabaseFault::OtherFormat);
    }
    Ok(())
}

fn has_other(found: Option<&[u8]>, number: &[u8]) -> bool {
    match found {
        Some(found) => found != number && found != [0, 0, 0, 0].as_slice(),
        None => false,
    }
}

// A WAL without a frame is one that isn't there.
const WAL_HEADER: usize = 32;

// The WAL beside a database; `None` if it isn't there, or is empty.
fn wal_of(rt: &HostRuntime, path: &str) -> Result<Option<Memory>, DatabaseFault>
    ensures { IfOk result (λ wal. IfSome wal (λ file. IsTrue (memory_is_usable file))) }
{
    match bytes_of(rt, beside(rt, path, "-wal")?.as_str())? {
        Some(wal) if wal.len() >= WAL_HEADER => return Ok(Some(copy_of(rt, wal.as_slice())?)),
        Some(_) => return Ok(None),
        None => {}
    }
    match bytes_of(rt, beside(rt, path, "-journal")?.as_str())? {
        Some(journal) if is_hot(journal.as_slice()) => Err(DatabaseFault::HotJournal),
        Some(_) | None => Ok(None),
    }
}

// SQLite writes zeros over a rollback journal's head when the transaction has ended.
fn is_hot(journal: &[u8]) -> bool {
    journal.iter().take(8).any(|byte| *byte != 0)
}

fn beside(rt: &HostRuntime, path: &str, suffix: &str) -> Result<String, DatabaseFault> {
    match format!(in rt.alloc(); "{path}{suffix}") {
        Ok(name) => Ok(name),
        Err(_) => Err(DatabaseFault::OutOfMemory),
    }
}

// A copy of a file in memory.
fn copy_of(rt: &HostRuntime, bytes: &[u8]) -> Result<Memory, DatabaseFault>
    ensures { IfOk result (λ file. IsTrue (memory_is_usable file)) }
{
    let mut copy = Memory::new(rt.alloc());
    match copy.write_at(0, bytes) {
        Ok(()) => Ok(copy),
        Err(_) => Err(DatabaseFault::OutOfMemory),
    }
}

// What a file has. `None`: there is no such file.
fn bytes_of(rt: &HostRuntime, path: &str) -> Result<Option<Vec<u8>>, DatabaseFault> {
    match fs::read(rt, path) {
        Ok(bytes) => Ok(Some(bytes)),
        Err(error) if error.kind() == io::ErrorKind::NotFound => Ok(None),
        Err(error) if error.kind() == io::ErrorKind::OutOfMemory => Err(DatabaseFault::OutOfMemory),
        Err(_) => Err(DatabaseFault::Read),
    }
}

// The listing of the database's log. One that is open has a WAL.
fn list<S: Alter + Drop>(
    alloc: Global,
    conn: Connection<S>,
    has_wal: bool,
) -> Result<LogListing, DatabaseFault> {
    let mut store = Store::over(conn);
    let Some(head) = store.head()? else {
        return Err(DatabaseFault::NoLog);
    };
    if head.is_open && !has_wal {
        return Err(DatabaseFault::WalMissing);
    }
    let (opening, batches) = (store.opening()?, store.batches()?);
    let text = listing_text(alloc, &head, opening.as_slice(), batches.as_slice())?;
    Ok(LogListing {
        text,
        opening,
        batches,
    })
}
