//! Topactions whose calls are known beforehand: each is begun, and then makes them as one list.

use crate::bench_error::BenchError;
use crate::circle::Circle;
use crate::client::Client;
use crate::draws::Draws;
use crate::seated::Seated;
use crate::turning::RECORDS;
use argus_actions::ActionId;
use argus_guardian::{DemandedCall, Sharing};
use argus_journal::Call;
use argus_values::{Change, ObjId, Query, Room, Value};
use std::sync::Wait;

type Calls = Vec<DemandedCall, Room>;

/// This many topactions, each of which adds 1 to four records of the thread's own. What is in them
/// is kept here, so that the calls are known. Returns how many were made: fewer, if a call doesn't
/// get the reply that it should.
pub(crate) fn count_in_lists<N: Sharing, R: Wait + Drop>(
    client: &mut Client<Seated<'_, N, R>>,
    circle: Circle,
    draws: &mut Draws,
    turns: u32,
) -> Result<u32, BenchError> {
    let mut numbers = Vec::from_elem(client.heap.room(), 0i64, usize::from(RECORDS))?;
    let mut calls = Vec::new(client.heap.room());
    for turn in 0..turns {
        let records = circle.four(draws);
        if turn_list(client, records, numbers.as_mut_slice(), &mut calls).is_err() {
            return Ok(turn);
        }
    }
    Ok(turns)
}

// A topaction as a begin, and a list of 13 calls.
fn turn_list<N: Sharing, R: Wait + Drop>(
    client: &mut Client<Seated<'_, N, R>>,
    records: [ObjId; 4],
    numbers: &mut [i64],
    calls: &mut Calls,
) -> Result<(), BenchError> {
    let a = client.begin_top()?;
    for place in 0..4usize {
        push_count(calls, a, records[place], numbers)?;
    }
    calls.push(DemandedCall::from(Call::Commit(a)))?;
    let answered = client.callee.answer_each(calls.as_slice());
    calls.clear();
    answered
}

// The lock of a record, a look at it, and the next number in it.
fn push_count(
    calls: &mut Calls,
    a: ActionId,
    o: ObjId,
    numbers: &mut [i64],
) -> Result<(), BenchError> {
    let number = numbers.get_mut(o.0 as usize).ok_or(BenchError::OtherReply)?;
    *number = number.wrapping_add(1);
    let set = Change::SetField(0, Value::Int(*number));
    calls.push(DemandedCall::from(Call::Alter(a, o, Change::Touch)))?;
    calls.push(DemandedCall::from(Call::Ask(a, o, Query::Field(0))))?;
    calls.push(DemandedCall::from(Call::Alter(a, o, set)))?;
    Ok(())
}
