//! Lookers at a shared guardian, while a thread commits or while nothing happens.

use crate::bench_error::BenchError;
use crate::callee::Callee;
use crate::client::Client;
use crate::draws::Draws;
use crate::figure::Figure;
use crate::host::Host;
use crate::outcome::Outcome;
use crate::seated::Seated;
use crate::turning::{pair, turn_pair};
use crate::working::number_in;
use argus_guardian::{Looker, Sharing};
use argus_values::{Heap, Room};
use std::alloc::AllocError;
use std::rt::Clock;
use std::sync::Wait;
use std::sync::atomic::{AtomicU64, Ordering};
use std::thread::{join, map_vec, sleep};
use std::time::{Duration, Instant};

// A guardian begins at most a million actions.
const BATCHES: u32 = 60_000;

const BATCH: u32 = 16;

// How many looks a thread made, and how many of them didn't show two records that agree.
#[derive(Clone, Copy)]
struct Looks {
    made: u32,
    torn: u32,
}

/// Looks at pairs of records, by a thread for each looker, for this many milliseconds. Meanwhile
/// the client commits topactions that set the two of a pair to one number, or nothing happens.
pub(crate) fn time_lookers<N: Sharing + Send + Sync, R: Host>(
    rt: &R,
    client: &mut Client<Seated<'_, N, R>>,
    lookers: Vec<Looker<N>, Room>,
    is_busy: bool,
    millis: u32,
) -> Result<Outcome, BenchError> {
    let (over, next) = (AtomicU64::new(0), AtomicU64::new(7));
    let (is_over, seeds) = (&over, &next);
    let heap = client.heap;
    let (looked, commits) = join(
        rt,
        move || look_all(rt, heap, lookers, seeds, is_over),
        || {
            let commits = commit_or_sleep(rt, client, is_busy, millis);
            is_over.store(1, Ordering::SeqCst);
            commits
        },
    );
    outcome_of(looked, commits)
}

fn outcome_of(
    looked: Result<Vec<Looks, Room>, AllocError>,
    commits: Result<Figure, BenchError>,
) -> Result<Outcome, BenchError> {
    let (looks, commits) = (added_up(looked?.as_slice()), commits?);
    let first = Figure {
        part: "looks",
        count: looks.made,
        taken: commits.taken,
    };
    Ok(Outcome {
        first,
        second: commits,
        sum: i64::from(looks.torn),
    })
}

fn added_up(looked: &[Looks]) -> Looks {
    let (mut made, mut torn) = (0u32, 0u32);
    for looks in looked {
        made = made.saturating_add(looks.made);
        torn = torn.saturating_add(looks.torn);
    }
    Looks { made, torn }
}

// Each looker looks in a thread of its own, and draws numbers of its own.
fn look_all<N: Sharing + Send + Sync, R: Host>(
    rt: &R,
    heap: Heap,
    lookers: Vec<Looker<N>, Room>,
    seeds: &AtomicU64,
    is_over: &AtomicU64,
) -> Result<Vec<Looks, Room>, AllocError> {
    map_vec(
        rt,
        lookers,
        &|looker| look_until(rt, heap, looker, seeds, is_over),
    )
}

fn look_until<N: Sharing>(
    rt: &impl Wait,
    heap: Heap,
    mut looker: Looker<N>,
    seeds: &AtomicU64,
    is_over: &AtomicU64,
) -> Looks {
    let mut draws = Draws::seeded(seeds.fetch_add(1, Ordering::SeqCst));
    let (mut made, mut torn) = (0u32, 0u32);
    for _ in rt.forever() {
        made = made.saturating_add(64);
        torn = torn.saturating_add(torn_of_64(heap, &mut looker, &mut draws));
        if is_over.load(Ordering::SeqCst) == 1 {
            break;
        }
    }
    Looks { made, torn }
}

fn torn_of_64<N: Sharing>(heap: Heap, looker: &mut Looker<N>, draws: &mut Draws) -> u32 {
    let mut torn = 0u32;
    for _ in 0..64u32 {
        if !agrees(heap, looker, draws) {
            torn = torn.saturating_add(1);
        }
    }
    torn
}

// Whether a look shows two records with one number.
fn agrees<N: Sharing>(heap: Heap, looker: &mut Looker<N>, draws: &mut Draws) -> bool {
    let Ok(found) = looker.look(heap, &pair(draws)) else {
        return false;
    };
    let [one, other] = found.as_slice() else {
        return false;
    };
    let number = number_in(one);
    number.is_some() && number == number_in(other)
}

fn commit_or_sleep<K: Callee>(
    rt: &impl Clock,
    client: &mut Client<K>,
    is_busy: bool,
    millis: u32,
) -> Result<Figure, BenchError> {
    let limit = Duration::from_millis(u64::from(millis));
    let start = Instant::now(rt)?;
    let count = if is_busy {
        commit_until(rt, client, start, limit)?
    } else {
        sleep(rt, limit);
        0
    };
    let taken = start.elapsed(rt)?;
    Ok(Figure {
        part: "commits",
        count,
        taken,
    })
}

// How many topactions were committed.
fn commit_until<K: Callee>(
    rt: &impl Clock,
    client: &mut Client<K>,
    start: Instant,
    limit: Duration,
) -> Result<u32, BenchError> {
    let mut draws = Draws::seeded(42);
    let mut number = 0u32;
    for _ in 0..BATCHES {
        if start.elapsed(rt)? >= limit {
            break;
        }
        commit_often(client, &mut draws, number)?;
        number = number.saturating_add(BATCH);
    }
    Ok(number)
}

fn commit_often<K: Callee>(
    client: &mut Client<K>,
    draws: &mut Draws,
    first: u32,
) -> Result<(), BenchError> {
    for number in first..first.saturating_add(BATCH) {
        turn_pair(client, pair(draws), number)?;
    }
    Ok(())
}
