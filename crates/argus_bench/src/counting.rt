//! Topactions of threads, which count in records of a shared guardian.

use crate::batching::count_in_lists;
use crate::bench_error::BenchError;
use crate::callee::Callee;
use crate::circle::Circle;
use crate::client::Client;
use crate::draws::Draws;
use crate::figure::Figure;
use crate::host::Host;
use crate::latencies::Latencies;
use crate::manner::Manner;
use crate::outcome::Outcome;
use crate::seated::Seated;
use crate::timed::Timed;
use crate::turning::{RECORDS, turn_counts};
use crate::working::read_records;
use argus_guardian::{Seat, Shared, Sharing};
use argus_values::{Heap, OutOfMemory, Room};
use std::alloc::AllocError;
use std::rt::Clock;
use std::sync::Wait;
use std::thread::map_vec;
use std::time::{Duration, Instant};

// A thread's number, how many turns it makes, and how.
#[derive(Clone, Copy)]
struct Job {
    number: u32,
    turns: u32,
    manner: Manner,
}

// How many turns a thread has made, and what 99 of 100 of its calls took at most, if they were timed.
#[derive(Clone, Copy)]
struct Counted {
    turns: u32,
    slow: Duration,
}

/// This many turns in all, by a thread for each of the seats. What is in the records then is read
/// by the client, and not timed.
pub(crate) fn time_threads<N: Sharing + Send + Sync, R: Host>(
    rt: &R,
    client: &mut Client<Seated<'_, N, R>>,
    seats: Vec<Seat<N>, Room>,
    manner: Manner,
    turns: u32,
) -> Result<Outcome, BenchError> {
    let threads = u32::try_from(seats.len()).unwrap_or(u32::MAX);
    let each = turns.checked_div(threads).unwrap_or(0);
    let jobs = jobs_for(client.heap, seats, each, manner)?;
    let start = Instant::now(rt)?;
    let made = count_all(rt, client.heap, client.callee.shared, jobs)?;
    let taken = start.elapsed(rt)?;
    let Counted { turns, slow } = added_up(made.as_slice());
    Ok(Outcome {
        first: Figure {
            part: "turns",
            count: turns,
            taken,
        },
        second: Figure {
            part: "p99",
            count: u32::from(slow > Duration::ZERO),
            taken: slow,
        },
        sum: read_records(client, RECORDS, false)?,
    })
}

// Each seat with its thread's job.
fn jobs_for<N: Sharing>(
    heap: Heap,
    seats: Vec<Seat<N>, Room>,
    turns: u32,
    manner: Manner,
) -> Result<Vec<(Job, Seat<N>), Room>, OutOfMemory> {
    let mut jobs = Vec::new(heap.room());
    let mut number = 0u32;
    for seat in seats {
        let job = Job {
            number,
            turns,
            manner,
        };
        jobs.push((job, seat))?;
        number = number.wrapping_add(1);
    }
    Ok(jobs)
}

// What each thread has counted.
fn count_all<N: Sharing + Send + Sync, R: Host>(
    rt: &R,
    heap: Heap,
    shared: &Shared<N, R>,
    jobs: Vec<(Job, Seat<N>), Room>,
) -> Result<Vec<Counted, Room>, AllocError> {
    map_vec(rt, jobs, &|job| count_often(rt, heap, shared, job))
}

// How many turns were made: fewer, if a call doesn't get the reply that it should.
fn count_often<N: Sharing, R: Wait + Clock + Drop>(
    rt: &R,
    heap: Heap,
    shared: &Shared<N, R>,
    (job, seat): (Job, Seat<N>),
) -> Counted {
    let mut client = Client::of(heap, Seated::new(rt, shared, seat));
    let mut draws = Draws::seeded(u64::from(job.number) + 42);
    let (own, slow) = (Circle::own(job.number), Duration::ZERO);
    let turns = match job.manner {
        Manner::Own => count_by_calls(&mut client, own, &mut draws, job.turns),
        Manner::Hot => count_by_calls(&mut client, Circle::hot(), &mut draws, job.turns),
        Manner::Batch => count_in_lists(&mut client, own, &mut draws, job.turns).unwrap_or(0),
        Manner::Timed => {
            let counted = count_timed(client, own, &mut draws, job.turns);
            return counted.unwrap_or(Counted { turns: 0, slow });
        }
    };
    Counted { turns, slow }
}

fn count_timed<N: Sharing, R: Wait + Clock + Drop>(
    client: Client<Seated<'_, N, R>>,
    circle: Circle,
    draws: &mut Draws,
    turns: u32,
) -> Result<Counted, BenchError> {
    let Client { heap, callee } = client;
    let latencies = Latencies::new(heap)?;
    let mut client = Client::of(heap, Timed { callee, latencies });
    let turns = count_by_calls(&mut client, circle, draws, turns);
    let slow = client.callee.latencies.most_of_99();
    Ok(Counted { turns, slow })
}

fn count_by_calls<K: Callee>(
    client: &mut Client<K>,
    circle: Circle,
    draws: &mut Draws,
    turns: u32,
) -> u32 {
    for turn in 0..turns {
        let records = circle.four(draws);
        if turn_counts(client, records).is_err() {
            return turn;
        }
    }
    turns
}

fn added_up(counted: &[Counted]) -> Counted {
    let (mut turns, mut slow) = (0u32, Duration::ZERO);
    for each in counted {
        turns = turns.saturating_add(each.turns);
        slow = slow.max(each.slow);
    }
    Counted { turns, slow }
}
