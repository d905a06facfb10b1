//! Times a guardian's calls: `argus_bench TURNS WORK..`.
//!
//! Without words it makes a small run of each work, and prints what the calls have read and left.
//! `bench/guardian.sh` and `bench/shared.sh` print the figures, beside those of a guardian by hand if
//! there is one.
#![tactic(auto)]

mod batching;
mod bench_error;
mod callee;
mod circle;
mod client;
mod counting;
mod draws;
mod figure;
mod host;
mod latencies;
mod looking;
mod manner;
mod outcome;
mod reply_summary;
mod seated;
mod sharing;
mod timed;
mod turn;
mod turning;
mod work;
mod working;

use argus_values::Heap;
use bench_error::BenchError;
use figure::Figure;
use host::Host;
use outcome::Outcome;
use std::env;
use std::io::Print;
use std::process::ExitCode;
use std::rt::Env;
use work::{Work, work_of};
use working::{time_turns, with_records};

const HELP: &str = "\
argus_bench TURNS WORK..: makes so many turns of each work, on a guardian of its own, and
prints what each took

WORK is one of these:
  flat       a topaction that reads and sets 4 of 1,000 records in turn: 10 calls
  nested     a topaction over three levels of subactions, each of which sets a record; on
             each level but the top a second one does, and aborts: 21 calls
  commit:N   a topaction that sets one of N records, and commits: 3 calls
  abort:N    the same, and aborts
  chain      64 actions, each the subaction of the one before; the last sets a record, and
             all commit: 129 calls

or one of these, on a shared guardian of 1,000 records:
  shared:flat, shared:nested
             the same topactions, by one seat
  own:N      N threads, each with a seat and with 250 records of its own, make so many turns
             in all: a topaction that locks 4 records, reads each and adds 1: 14 calls
  hot:N      the same, all on the same 10 records
  batch:N    that of own, of which each topaction is begun, and then makes its 13 other calls
             under one lock
  timed:N    that of own, where each call is timed: also what 99 of 100 calls take at most
  busy:N     N lookers look at 2 records again and again, for so many milliseconds, while a
             topaction after the other sets 2 records: 4 calls; the looks, and the commits
  idle:N     the same, while nothing happens

It prints WORK PART n=N ns_each=NANOSECONDS sum=SUM for each part that is timed. The sum is
that of what was read and of what the objects then hold, each times its place; of own, hot,
batch and timed that of what the records hold; of busy and idle the looks that didn't show one number twice.";

// The small runs, and their turns. Eight threads lock the same ten records so often that most of
// them wait.
const WORKS: &[(&str, u32)] = &[
    ("flat", 20),
    ("nested", 20),
    ("commit:10", 20),
    ("abort:10", 20),
    ("chain", 20),
    ("shared:flat", 20),
    ("shared:nested", 20),
    ("own:2", 20),
    ("hot:8", 8000),
    ("batch:2", 20),
    ("timed:2", 20),
    ("busy:4", 200),
    ("idle:1", 20),
];

fn run<R: Host>(rt: R, heap: Heap, word: &str, turns: u32) -> Result<Outcome, BenchError> {
    let (work, count) = work_of(word)?;
    let (seats, lookers) = match work {
        Work::Alone(turn) => {
            let mut client = with_records(heap, count)?;
            return time_turns(&rt, &mut client, turn, count, turns);
        }
        Work::Seat(_) => (1, 0),
        Work::Threads(_) => (count.saturating_add(1), 0),
        Work::Busy | Work::Idle => (1, count),
    };
    sharing::run(rt, heap, work, turns, seats, lookers)
}

fn tell<R: Host + Print>(rt: R, heap: Heap) -> Result<(), BenchError> {
    for (word, turns) in WORKS {
        let sum = run(rt, heap, word, *turns)?.sum;
        println!(rt; "{word} n={turns} sum={sum}")?;
    }
    Ok(())
}

fn time<R: Host + Print>(rt: R, heap: Heap, word: &str, turns: u32) -> Result<(), BenchError> {
    let Outcome { first, second, sum } = run(rt, heap, word, turns)?;
    print_figure(rt, word, first, sum)?;
    if second.count > 0 {
        print_figure(rt, word, second, sum)?;
    }
    Ok(())
}

fn print_figure(
    rt: impl Print + Drop,
    word: &str,
    figure: Figure,
    sum: i64,
) -> Result<(), BenchError> {
    let (part, count, nanos) = (figure.part, figure.count, figure.nanos_each());
    println!(rt; "{word} {part} n={count} ns_each={nanos:.1} sum={sum}")?;
    Ok(())
}

fn main(rt: HostRuntime) -> ExitCode {
    match run_words(rt) {
        Ok(()) => ExitCode::SUCCESS,
        Err(error) => {
            let _ = rt.eprintln(error.as_str());
            ExitCode::FAILURE
        }
    }
}

// With no number, the works of the stored run, or the help.
fn run_words<R: Host + Print + Env + AllocGlobal>(rt: R) -> Result<(), BenchError> {
    let heap = Heap::new(rt.alloc())?;
    let mut words = env::args(&rt)?;
    let _program = words.next();
    match words.next() {
        Some(turns) => time_each(rt, heap, turns.as_str(), words),
        None => tell(rt, heap),
    }
}

fn time_each<R: Host + Print>(
    rt: R,
    heap: Heap,
    turns: &str,
    works: env::Args,
) -> Result<(), BenchError> {
    let Ok(turns) = turns.parse::<u32>() else {
        return Ok(rt.println(HELP)?);
    };
    for word in works {
        time(rt, heap, word.as_str(), turns)?;
    }
    Ok(())
}
