//! The calls of a row by a seat: one, or a list that is made together; and their receipts.

use crate::call_reading::{call_of, reply_of};
use crate::calling::{make_call, push_told};
use crate::row_fault::{Result, RowFault};
use crate::setting::Setting;
use crate::telling::{tell, tell_reply};
use argus_guardian::{CallsEnd, CallsMade, Demand, DemandedCall, Receipt, Seat, Shared, Sharing};
use argus_journal::{Call, Reply};
use argus_values::{Heap, Room};
use std::sync::Wait;

/// The call; or behind `each` a list, of which those that weren't made yet are made together. The
/// replies are told, and the receipts kept, of which so many were there before the row.
pub(crate) fn call_by_seat<N: Sharing, R: Wait + Drop>(
    rt: &R,
    setting: Setting<'_>,
    shared: &Shared<N, R>,
    seat: &mut Seat<N>,
    text: &str,
    before: usize,
    receipts: &mut Vec<Receipt, Room>,
    out: &mut String<Room>,
) -> Result<()> {
    let Some(list) = text.strip_prefix("each ") else {
        let receipt = make_call(rt, setting, shared, seat, text)?;
        return push_told(receipt, receipts, out);
    };
    let made = receipts.len().saturating_sub(before);
    let end = make_each(rt, setting, shared, seat, list, made, receipts)?;
    tell_each(receipts.as_slice(), before, end, out)
}

/// Makes the calls between commas, but for the first ones, and adds their receipts.
pub(crate) fn make_each<N: Sharing, R: Wait + Drop>(
    rt: &R,
    setting: Setting<'_>,
    shared: &Shared<N, R>,
    seat: &mut Seat<N>,
    text: &str,
    made: usize,
    receipts: &mut Vec<Receipt, Room>,
) -> Result<CallsEnd> {
    let calls = calls_of(setting.heap, text, made)?;
    let made = shared.call_each(rt, seat, calls.as_slice());
    push_receipts(setting.texts, calls.as_slice(), &made, receipts)?;
    Ok(made.end)
}

fn calls_of(heap: Heap, text: &str, made: usize) -> Result<Vec<DemandedCall, Room>> {
    let mut calls = Vec::new(heap.room());
    for part in text.split(", ").skip(made) {
        calls.push(demanded_of(heap, part)?)?;
    }
    Ok(calls)
}

// `commit a0`, which may not be refused; or `commit a0 wanting done`.
fn demanded_of(heap: Heap, text: &str) -> Result<DemandedCall> {
    let Some((call, demand)) = text.split_once(" wanting ") else {
        return Ok(DemandedCall::from(call_of(heap, text)?));
    };
    let demand = match demand {
        "nothing" => Demand::Nothing,
        "no signal" => Demand::NoSignal,
        reply => Demand::Exactly(reply_of(heap, reply)?),
    };
    let call = call_of(heap, call)?;
    Ok(DemandedCall { call, demand })
}

fn push_receipts(
    heap: Heap,
    calls: &[DemandedCall],
    made: &CallsMade,
    receipts: &mut Vec<Receipt, Room>,
) -> Result<()> {
    let mut at = made.first;
    for (each, reply) in calls.iter().zip(&made.replies) {
        receipts.push(receipt_of(heap, at, &each.call, reply)?)?;
        at = at.wrapping_add(1);
    }
    Ok(())
}

/// A receipt with copies of both.
pub(crate) fn receipt_of(heap: Heap, at: u64, call: &Call, reply: &Reply) -> Result<Receipt> {
    let call = call.duplicate(heap)?;
    let reply = reply.duplicate(heap)?;
    Ok(Receipt { at, call, reply })
}

// Tells the replies to all calls of the row, and why no more were made.
fn tell_each(
    receipts: &[Receipt],
    before: usize,
    end: CallsEnd,
    out: &mut String<Room>,
) -> Result<()> {
    let end = match end {
        CallsEnd::OutOfMemory => return Err(RowFault::OutOfMemory),
        CallsEnd::Unmet => "unmet",
        CallsEnd::Whole => "whole",
    };
    for receipt in receipts.iter().skip(before) {
        tell_reply(&receipt.reply, out)?;
    }
    tell(end, out)
}
