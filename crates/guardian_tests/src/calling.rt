//! Calls by a seat of a shared guardian, one at a time, as rows spell them.

use crate::call_reading::call_of;
use crate::row_fault::Result;
use crate::setting::Setting;
use crate::telling::tell_reply;
use crate::word_reading::first_word;
use argus_guardian::{Answered, Receipt, Seat, Shared, Sharing};
use argus_values::Room;
use std::sync::Wait;

/// Tells the reply, and keeps the receipt.
pub(crate) fn push_told(
    receipt: Receipt,
    receipts: &mut Vec<Receipt, Room>,
    out: &mut String<Room>,
) -> Result<()> {
    tell_reply(&receipt.reply, out)?;
    receipts.push(receipt)?;
    Ok(())
}

/// A call, or one that waits: `wait 3 commit a0`; behind `answer`, one that returns no receipt.
pub(crate) fn make_call<N: Sharing, R: Wait + Drop>(
    rt: &R,
    setting: Setting<'_>,
    shared: &Shared<N, R>,
    seat: &mut Seat<N>,
    text: &str,
) -> Result<Receipt> {
    match text.strip_prefix("answer ") {
        Some(bare) => answer_call(rt, setting, shared, seat, bare),
        None => receive(rt, setting, shared, seat, text),
    }
}

fn receive<N: Sharing, R: Wait + Drop>(
    rt: &R,
    setting: Setting<'_>,
    shared: &Shared<N, R>,
    seat: &mut Seat<N>,
    text: &str,
) -> Result<Receipt> {
    let (patience, asked) = patience_of(text);
    let call = call_of(setting.heap, asked)?;
    let received = match patience {
        None => shared.call(rt, seat, call),
        Some(patience) => shared.call_waiting(rt, seat, call, patience),
    };
    Ok(received?)
}

// The receipt is made of the answer and another copy of the call.
fn answer_call<N: Sharing, R: Wait + Drop>(
    rt: &R,
    setting: Setting<'_>,
    shared: &Shared<N, R>,
    seat: &mut Seat<N>,
    text: &str,
) -> Result<Receipt> {
    let (patience, asked) = patience_of(text);
    let call = call_of(setting.heap, asked)?;
    let answered = match patience {
        None => shared.answer(rt, seat, call),
        Some(patience) => shared.answer_waiting(rt, seat, call, patience),
    };
    let Answered { at, reply } = answered?;
    let call = call_of(setting.texts, asked)?;
    Ok(Receipt { at, call, reply })
}

// For how many wake-ups the call behind `wait` waits; `None` for one that doesn't wait.
fn patience_of<'a>(text: &'a str) -> (Option<u32>, &'a str) {
    match text.strip_prefix("wait ") {
        Some(waiting) => {
            let (patience, asked) = first_word(waiting);
            (patience.parse::<u32>().ok(), asked)
        }
        None => (None, text),
    }
}
