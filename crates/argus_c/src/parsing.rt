//! The exports for a call that is read by itself: one reads it, another makes it, a third drops it.

ghost use Rattle.std.specs.Prelude.{IfErr, IfOk, None, pos, ◌<◌, ◌≡◌, ◌≢◌, ◌≤◌, ◌↔◌, ◌⊎◌};
ghost use Rattle.std.specs.Str.{IsUtf8};
ghost use Rattle.argus_c.specs.ParsedSlots.{HasParsed, IsMadeFrom, IsStatusOfDrop};
ghost use Rattle.argus_c.specs.{ParsedSlots.IsStatusOfParsed, Slots.{Becomes, IsUncalled, request_of}};
ghost use Rattle.argus_embed.specs.{ParsedCall.IsParsed, Requests.IsUnread};

use crate::{DONE, NO_MEMORY, NOT_OPEN, NOT_THERE, NOT_UTF8};
use argus_embed::{EmbedError, Embedded, ParsedCall, ParsedSlot, Request, Slot};
use std::alloc::Global;
use std::str::from_utf8;

/// Reads the call that the numbers and the text stand for, in the heap of the guardian beside it,
/// which is unchanged. What was in the slot is dropped once the new call is there.
#[unsafe(no_mangle)]
pub extern "C" fn argus_c_parse(
    alloc: Global,
    beside: &mut Slot,
    parsed: &mut ParsedSlot,
    kind: u32,
    action: u32,
    object: u32,
    first: i64,
    second: i64,
    text: &[u8],
    number: &mut i64,
) -> u32
    ensures done { result ≡ 0 → HasParsed (request_of kind action object first second) text.now
        parsed.new.held.store × (number.new ≡ pos 0) }
    ensures same { result ≢ 0 → parsed.new.held.store ≡ parsed.old.held.store }
    ensures beside { beside.new.held.store ≡ beside.old.held.store }
    ensures not_utf8 { (result ≡ 12) ↔ (IsUtf8 text.now → ⊥) }
    ensures not_open { (result ≡ 11) ↔ (IsUtf8 text.now × (beside.old.held.store ≡ None)) }
    ensures unread { result ≢ 0 → result ≢ 11 → result ≢ 12 → IsUncalled
        (request_of kind action object first second) text.now (result, number.new) }
    ensures zero { (result ≡ 11) ⊎ (result ≡ 12) → number.new ≡ pos 0 }
{
    *number = 0;
    let Ok(text) = from_utf8(text) else {
        return NOT_UTF8;
    };
    let Some(guardian) = beside.take(alloc) else {
        return NOT_OPEN;
    };
    let request = Request {
        kind,
        action,
        object,
        first,
        second,
    };
    let read = read_call(alloc, &guardian, &request, text);
    *beside = Slot::opened(guardian);
    let call = match read {
        Ok(call) => call,
        Err(error) => {
            let (status, value) = error.codes();
            *number = value;
            return status;
        }
    };
    *parsed = ParsedSlot::filled(call);
    DONE
}

/// The call in a box, or why there is none.
fn read_call(
    alloc: Global,
    guardian: &Embedded,
    request: &Request,
    text: &str,
) -> Result<Box<ParsedCall, Global>, EmbedError>
    ensures parsed { IfOk result (λ call. IsParsed request.now text.now call.value) }
    ensures unread { IfErr result (λ e. IsUnread request.now text.now e) }
{
    let call = guardian.parse(request, text)?;
    match Box::new(alloc, call) {
        Ok(call) => Ok(call),
        Err(_) => Err(EmbedError::OutOfMemory),
    }
}

/// Makes the call that was read, which leaves its slot empty also if there is no memory for it.
#[unsafe(no_mangle)]
pub extern "C" fn argus_c_call_parsed(
    alloc: Global,
    slot: &mut Slot,
    parsed: &mut ParsedSlot,
    number: &mut i64,
) -> u32
    ensures made { result < 10 → Becomes slot.old.held.store slot.new.held.store
        (IsMadeFrom parsed.old.held.store (result, number.new)) }
    ensures unmade { 10 ≤ result → (slot.new.held.store ≡ slot.old.held.store)
        × (number.new ≡ pos 0) }
    ensures status { IsStatusOfParsed slot.old.held.store parsed.old.held.store result }
    ensures empty { result ≢ 11 → parsed.new.held.store ≡ None }
    ensures kept { result ≡ 11 → parsed.new.held.store ≡ parsed.old.held.store }
{
    *number = 0;
    let Some(mut guardian) = slot.take(alloc) else {
        return NOT_OPEN;
    };
    let Some(call) = parsed.take(alloc) else {
        *slot = Slot::opened(guardian);
        return NOT_THERE;
    };
    let (status, value) = match guardian.call_parsed(Box::into_inner(call)) {
        Ok(outcome) => outcome.codes(),
        Err(_) => (NO_MEMORY, 0),
    };
    *slot = Slot::opened(guardian);
    *number = value;
    status
}

/// Drops the call that was read, and leaves its slot empty.
#[unsafe(no_mangle)]
pub extern "C" fn argus_c_drop_parsed(alloc: Global, parsed: &mut ParsedSlot) -> u32
    ensures empty { parsed.new.held.store ≡ None }
    ensures status { IsStatusOfDrop parsed.old.held.store result }
{
    match parsed.take(alloc) {
        Some(_) => DONE,
        None => NOT_THERE,
    }
}
