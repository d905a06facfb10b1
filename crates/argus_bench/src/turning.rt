//! The turns of each work: which calls they make, in order.

use crate::bench_error::BenchError;
use crate::callee::Callee;
use crate::client::Client;
use crate::draws::Draws;
use argus_actions::ActionId;
use argus_values::ObjId;

/// How many records flat and nested topactions choose from.
pub(crate) const RECORDS: u16 = 1000;

/// How many records chains choose from, and how many actions a chain has.
pub(crate) const CHAIN_RECORDS: u16 = 10;

const CHAIN_ACTIONS: usize = 64;

// Four records, a quarter of all apart.
fn four(draws: &mut Draws) -> [ObjId; 4] {
    let first = draws.below(RECORDS);
    [
        ObjId(first),
        ObjId((first + 251) % 1000),
        ObjId((first + 502) % 1000),
        ObjId((first + 753) % 1000),
    ]
}

/// A topaction that reads and sets four records in turn. The sum of what it read.
pub(crate) fn turn_flat<K: Callee>(
    client: &mut Client<K>,
    draws: &mut Draws,
    turn: u32,
) -> Result<i64, BenchError> {
    let mut number = i64::from(turn) * 4;
    let mut sum = 0i64;
    let a = client.begin_top()?;
    for o in &four(draws) {
        sum = sum.wrapping_add(client.get(a, *o)?);
        client.set(a, *o, number)?;
        number = number.wrapping_add(1);
    }
    client.commit(a)?;
    Ok(sum)
}

/// A topaction and three levels of subactions below it, each of which sets a record. On each level
/// but the top a second subaction sets the same record, and aborts. 7 actions, 7 changes.
pub(crate) fn turn_nested<K: Callee>(
    client: &mut Client<K>,
    draws: &mut Draws,
    turn: u32,
) -> Result<(), BenchError> {
    let [top, upper, middle, lower] = four(draws);
    let a = client.begin_top()?;
    client.set(a, top, number_at(turn, 0))?;
    let child = set_below(client, a, upper, number_at(turn, 1))?;
    let grandchild = set_below(client, child, middle, number_at(turn, 2))?;
    let last = set_below(client, grandchild, lower, number_at(turn, 3))?;
    commit_and_retry(client, last, grandchild, lower, number_at(turn, 103))?;
    commit_and_retry(client, grandchild, child, middle, number_at(turn, 102))?;
    commit_and_retry(client, child, a, upper, number_at(turn, 101))?;
    client.commit(a)
}

// The number that the turn sets at this place.
fn number_at(turn: u32, place: u8) -> i64 {
    i64::from(turn) * 4 + i64::from(place)
}

// A subaction that sets a record.
fn set_below<K: Callee>(
    client: &mut Client<K>,
    parent: ActionId,
    o: ObjId,
    number: i64,
) -> Result<ActionId, BenchError> {
    let a = client.begin_sub(parent)?;
    client.set(a, o, number)?;
    Ok(a)
}

// Commits the subaction, after which a second one below its parent sets the record, and aborts.
fn commit_and_retry<K: Callee>(
    client: &mut Client<K>,
    a: ActionId,
    parent: ActionId,
    o: ObjId,
    number: i64,
) -> Result<(), BenchError> {
    client.commit(a)?;
    let second = set_below(client, parent, o, number)?;
    client.abort(second)
}

/// A topaction that sets one of this many records, and commits or aborts.
pub(crate) fn turn_ended<K: Callee>(
    client: &mut Client<K>,
    draws: &mut Draws,
    count: u16,
    turn: u32,
    is_committed: bool,
) -> Result<(), BenchError> {
    let o = ObjId(draws.below(count));
    let a = client.begin_top()?;
    client.set(a, o, i64::from(turn))?;
    if is_committed {
        client.commit(a)
    } else {
        client.abort(a)
    }
}

/// A chain of 64 actions, each the subaction of the one before. The last sets a record, and all
/// commit, the last first.
pub(crate) fn turn_chain<K: Callee>(client: &mut Client<K>, turn: u32) -> Result<(), BenchError> {
    let actions = begin_chain(client)?;
    let o = ObjId(turn % u32::from(CHAIN_RECORDS));
    client.set(actions[CHAIN_ACTIONS - 1], o, i64::from(turn))?;
    for depth in (0..CHAIN_ACTIONS).rev() {
        client.commit(actions[depth])?;
    }
    Ok(())
}

fn begin_chain<K: Callee>(client: &mut Client<K>) -> Result<[ActionId; 64], BenchError> {
    let mut actions = [client.begin_top()?; 64];
    for depth in 1..CHAIN_ACTIONS {
        actions[depth] = client.begin_sub(actions[depth - 1])?;
    }
    Ok(actions)
}

/// A topaction that locks each of four records, reads it and adds 1 to it: 14 calls. It waits only
/// for the locks.
pub(crate) fn turn_counts<K: Callee>(
    client: &mut Client<K>,
    records: [ObjId; 4],
) -> Result<(), BenchError> {
    let a = client.begin_top()?;
    for o in &records {
        client.lock(a, *o)?;
        let number = client.get(a, *o)?;
        client.set(a, *o, number.wrapping_add(1))?;
    }
    client.commit(a)
}

/// A topaction that sets two records to this number.
pub(crate) fn turn_pair<K: Callee>(
    client: &mut Client<K>,
    pair: [ObjId; 2],
    number: u32,
) -> Result<(), BenchError> {
    let a = client.begin_top()?;
    client.set(a, pair[0], i64::from(number))?;
    client.set(a, pair[1], i64::from(number))?;
    client.commit(a)
}

/// Two adjacent records, a pair of 500.
pub(crate) fn pair(draws: &mut Draws) -> [ObjId; 2] {
    let first = draws.below(RECORDS / 2).wrapping_mul(2);
    [ObjId(first), ObjId(first.wrapping_add(1))]
}
