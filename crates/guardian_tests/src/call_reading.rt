//! Receipts, calls and replies, as a journal's lines spell them: the library reads them. A text that
//! spells none is `NotSpelled`.

use crate::row_fault::Result;
use argus_actions::ActionId;
use argus_guardian::{Receipt, read_entry};
use argus_journal::{Call, Reply};
use argus_values::Heap;
use std::mem::replace;

/// The receipt that is spelled, as `6 commit a2 -> done`.
pub(crate) fn read_receipt(heap: Heap, line: &str) -> Result<Receipt> {
    let (at, mut entry) = read_entry(heap, line)?;
    let call = replace(&mut entry.call, Call::BeginTop);
    let reply = replace(&mut entry.reply, Reply::Begun(ActionId(0)));
    Ok(Receipt { at, call, reply })
}

/// The call that is spelled, as `alter a0 o0 addh 5`.
pub(crate) fn call_of(heap: Heap, text: &str) -> Result<Call> {
    let line = format!(in heap.room(); "0 {text} -> done")?;
    let (_, mut entry) = read_entry(heap, line.as_str())?;
    Ok(replace(&mut entry.call, Call::BeginTop))
}

/// Whether the text spells a call.
pub(crate) fn is_call(heap: Heap, text: &str) -> bool {
    call_of(heap, text).is_ok()
}

/// The reply that is spelled: a number as `o0` or `a0`, `refused Over`, or an answer as `val 5`.
pub(crate) fn reply_of(heap: Heap, text: &str) -> Result<Reply> {
    let line = format!(in heap.room(); "0 begin_top -> {text}")?;
    let (_, mut entry) = read_entry(heap, line.as_str())?;
    Ok(replace(&mut entry.reply, Reply::Begun(ActionId(0))))
}
