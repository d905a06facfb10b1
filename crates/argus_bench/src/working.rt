//! The runs: what is there before them, their turns, what they take, and what they leave.

use crate::bench_error::BenchError;
use crate::callee::Callee;
use crate::client::Client;
use crate::draws::Draws;
use crate::figure::Figure;
use crate::outcome::Outcome;
use crate::turn::Turn;
use crate::turning::{turn_chain, turn_ended, turn_flat, turn_nested};
use argus_guardian::Guardian;
use argus_values::{Content, Heap, ObjId, Value};
use std::rt::Clock;
use std::time::Instant;

/// A guardian with this many records, of the numbers from 0 on.
pub(crate) fn with_records(heap: Heap, count: u16) -> Result<Client<Guardian>, BenchError> {
    let mut client = Client::of(heap, Guardian::new(heap));
    for number in 0..count {
        client.declare_record(ObjId(u32::from(number)))?;
    }
    Ok(client)
}

/// Makes this many turns, with this many records there, and reads what they leave, each times its
/// place from 1 on. What comes before the first turn and after the last isn't timed.
pub(crate) fn time_turns<K: Callee>(
    rt: &impl Clock,
    client: &mut Client<K>,
    turn: Turn,
    records: u16,
    turns: u32,
) -> Result<Outcome, BenchError> {
    let start = Instant::now(rt)?;
    let read = make_turns(client, turn, records, turns)?;
    let taken = start.elapsed(rt)?;
    let left = read_records(client, records, true)?;
    let first = Figure {
        part: "turns",
        count: turns,
        taken,
    };
    Ok(Outcome {
        first,
        second: Figure { count: 0, ..first },
        sum: read.wrapping_add(left),
    })
}

// Returns the sum of what the turns read.
fn make_turns<K: Callee>(
    client: &mut Client<K>,
    turn: Turn,
    records: u16,
    turns: u32,
) -> Result<i64, BenchError> {
    let mut draws = Draws::seeded(42);
    let mut sum = 0i64;
    for number in 0..turns {
        match turn {
            Turn::Flat => sum = sum.wrapping_add(turn_flat(client, &mut draws, number)?),
            Turn::Nested => turn_nested(client, &mut draws, number)?,
            Turn::Chain => turn_chain(client, number)?,
            Turn::Commit => turn_ended(client, &mut draws, records, number, true)?,
            Turn::Abort => turn_ended(client, &mut draws, records, number, false)?,
        }
    }
    Ok(sum)
}

/// The sum of the bases of the records, which may be each times its place from 1 on.
pub(crate) fn read_records<K: Callee>(
    client: &mut Client<K>,
    count: u16,
    is_weighed: bool,
) -> Result<i64, BenchError> {
    let mut sum = 0i64;
    let a = client.begin_top()?;
    for number in 0..count {
        let read = client.get(a, ObjId(u32::from(number)))?;
        let weight = if is_weighed { i64::from(number) + 1 } else { 1 };
        sum = sum.wrapping_add(read.wrapping_mul(weight));
    }
    client.commit(a)?;
    Ok(sum)
}

/// The integer of a record.
pub(crate) fn number_in(content: &Option<Content>) -> Option<i64> {
    let Some(Content::Rec(values)) = content else {
        return None;
    };
    let Some(Value::Int(number)) = values.first() else {
        return None;
    };
    Some(*number)
}
