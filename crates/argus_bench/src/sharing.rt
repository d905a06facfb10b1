//! Work on a shared guardian.

ghost use Rattle.std.specs.Prelude.{◌≡◌};
ghost use Rattle.argus_guardian.specs.Starting.{StartsWith};

use crate::bench_error::BenchError;
use crate::client::Client;
use crate::counting::time_threads;
use crate::host::Host;
use crate::looking::time_lookers;
use crate::outcome::Outcome;
use crate::seated::Seated;
use crate::turning::RECORDS;
use crate::work::Work;
use crate::working::{time_turns, with_records};
use argus_guardian::{Guardian, Keeper, Parts, Shared, Sharing};
use argus_values::Heap;
use std::marker::Brand;
use std::sync::ledger::Blank;

/// A run of this many turns; with lookers, of this many milliseconds. What is read at the end is read
/// by the last seat, which makes all calls if there is no other.
pub(crate) fn run<R: Host>(
    rt: R,
    heap: Heap,
    work: Work,
    turns: u32,
    seats: u16,
    lookers: u16,
) -> Result<Outcome, BenchError> {
    let guardian = with_records(heap, RECORDS)?.callee;
    let blank = Blank::new(u64::from(seats));
    time_shared::<Brand, R>(
        rt,
        heap,
        guardian,
        work,
        turns,
        seats,
        lookers,
        blank,
        Keeper::new(),
    )
}

// The conditions say which sharing this is.
fn time_shared<N: Sharing + Send + Sync, R: Host>(
    rt: R,
    heap: Heap,
    guardian: Guardian,
    work: Work,
    turns: u32,
    seats: u16,
    lookers: u16,
    blank: Blank,
    keeper: Keeper,
) -> Result<Outcome, BenchError>
    requires name { blank.name ≡ N.name }
    requires parts { (blank.parts ≡ N.parts) × (blank.parts ≡ seats) }
    requires places { N.places ≡ lookers }
    requires starts { StartsWith N.Board N.start guardian keeper }
{
    let (seats, lookers) = (u32::from(seats), u32::from(lookers));
    match Shared::<N, R>::new(rt, heap, guardian, seats, lookers, blank, keeper) {
        Ok(parts) => time_parts(&rt, heap, parts, work, turns),
        Err(_) => Err(BenchError::OutOfMemory),
    }
}

fn time_parts<N: Sharing + Send + Sync, R: Host>(
    rt: &R,
    heap: Heap,
    parts: Parts<N, R>,
    work: Work,
    turns: u32,
) -> Result<Outcome, BenchError> {
    let Parts {
        shared,
        mut seats,
        lookers,
    } = parts;
    let last = seats.pop().ok_or(BenchError::OutOfMemory)?;
    let mut client = Client::of(heap, Seated::new(rt, &shared, last));
    match work {
        Work::Alone(turn) | Work::Seat(turn) => {
            time_turns(rt, &mut client, turn, RECORDS, turns)
        }
        Work::Threads(manner) => time_threads(rt, &mut client, seats, manner, turns),
        Work::Busy => time_lookers(rt, &mut client, lookers, true, turns),
        Work::Idle => time_lookers(rt, &mut client, lookers, false, turns),
    }
}
