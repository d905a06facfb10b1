//! A guardian for programs in C and in any language that calls C: the exports of `include/argus.h`,
//! which says what each takes and returns. The inline functions there test for null pointers; here
//! there are none.
//!
//! A host passes each slot to one call at a time.
#![tactic(auto)]

ghost use Rattle.std.specs.Prelude.{IfErr, IsSome, None, OnOk, Some, length, pos, ◌<◌, ◌≡◌, ◌≢◌};
ghost use Rattle.std.specs.{Prelude.{◌≤◌, ◌↔◌, ◌⊎◌}, Str.IsUtf8};
ghost use Rattle.argus_c.specs.Slots.{Becomes, IsAnswered, IsGiven, IsMade, IsStatusOfFold};
ghost use Rattle.argus_c.specs.Slots.{AreLinesGiven, IsLineTooLong, IsListAnswered, IsNotThere};
ghost use Rattle.argus_c.specs.Slots.{IsStatusOfLines, IsStatusOfReply, IsTooLong, IsUncalled};
ghost use Rattle.argus_c.specs.Slots.{AreTaken, HasText, IsResumed, end_status, request_of};
ghost use Rattle.argus_c.specs.Slots.{version_number};
ghost use Rattle.argus_embed.specs.{Codes.error_codes, Embedded.{after_renewal, empty_state}};
ghost use Rattle.argus_embed.specs.Embedded.{IsAbortedInPart, IsBusy, after_abort_live, after_fold};
ghost use Rattle.argus_embed.specs.Requests.{IsRead, LacksPart};
ghost use Rattle.argus_embed.specs.declared.kinds.TheConstants.{CHANGE_TAG_BOOL};

mod parsing;
mod readying;

use argus_embed::{
    CallsMade, EmbedError, ListEnd, ListedCall, Question, Request, Slot, opened_beside,
};
use std::alloc::Global;
use std::str::from_utf8;

// The statuses of argus.h that are neither an outcome's nor an error's.
const DONE: u32 = 0;

const NO_MEMORY: u32 = 10;

const NOT_OPEN: u32 = 11;

const NOT_UTF8: u32 = 12;

const BAD_KIND: u32 = 16;

const TOO_SMALL: u32 = 17;

const NOT_THERE: u32 = 18;

const UNMET: u32 = 22;

// 10,000 times the first number of the version, plus 100 times the second, plus the third.
const VERSION_NUMBER: u32 = 100;

/// Opens a guardian in the slot, in the heap of the one in the other slot if that is open. What was
/// open in the slot is closed.
#[unsafe(no_mangle)]
pub extern "C" fn argus_c_open(alloc: Global, slot: &mut Slot, beside: &mut Slot) -> u32
    ensures done { result ≡ 0 → slot.new.held.store ≡ Some empty_state }
    ensures memory { result ≢ 0 → (result ≡ 10) × (slot.new.held.store ≡ slot.old.held.store) }
    ensures beside { beside.new.held.store ≡ beside.old.held.store }
{
    match opened_beside(alloc, beside) {
        Ok(guardian) => {
            *slot = Slot::opened(guardian);
            DONE
        }
        Err(_) => NO_MEMORY,
    }
}

/// Closes the guardian and frees its memory.
#[unsafe(no_mangle)]
pub extern "C" fn argus_c_close(alloc: Global, slot: &mut Slot) -> u32
    ensures closed { slot.new.held.store ≡ None }
    ensures done { result ≡ 0 → IsSome slot.old.held.store }
    ensures not_open { result ≢ 0 → (result ≡ 11) × (slot.old.held.store ≡ None) }
{
    match slot.take(alloc) {
        Some(_) => DONE,
        None => NOT_OPEN,
    }
}

/// Makes the call that the numbers and the text stand for.
#[unsafe(no_mangle)]
pub extern "C" fn argus_c_call(
    alloc: Global,
    slot: &mut Slot,
    kind: u32,
    action: u32,
    object: u32,
    first: i64,
    second: i64,
    text: &[u8],
    number: &mut i64,
) -> u32
    ensures made { result < 10 → Becomes slot.old.held.store slot.new.held.store
        (IsMade (request_of kind action object first second) text.now (result, number.new)) }
    ensures unmade { 10 ≤ result → slot.new.held.store ≡ slot.old.held.store }
    ensures not_utf8 { (result ≡ 12) ↔ (IsUtf8 text.now → ⊥) }
    ensures not_open { (result ≡ 11) ↔ (IsUtf8 text.now × (slot.old.held.store ≡ None)) }
    ensures unread { 10 ≤ result → result ≢ 11 → result ≢ 12 → IsUncalled
        (request_of kind action object first second) text.now (result, number.new) }
    ensures bad_kind { (result ≡ 16)
        ↔ (IsUtf8 text.now × IsSome slot.old.held.store × (CHANGE_TAG_BOOL < kind)) }
    ensures bad_number { (result ≡ 15)
        ↔ (IsUtf8 text.now × IsSome slot.old.held.store
        × LacksPart (request_of kind action object first second)) }
    ensures read { result < 10 → IsRead (request_of kind action object first second) text.now }
    ensures zero { (result ≡ 11) ⊎ (result ≡ 12) → number.new ≡ pos 0 }
{
    *number = 0;
    let Ok(text) = from_utf8(text) else {
        return NOT_UTF8;
    };
    let Some(mut guardian) = slot.take(alloc) else {
        return NOT_OPEN;
    };
    let request = Request {
        kind,
        action,
        object,
        first,
        second,
    };
    let (status, value) = match guardian.call(&request, text) {
        Ok(outcome) => outcome.codes(),
        Err(error) => error.codes(),
    };
    *slot = Slot::opened(guardian);
    *number = value;
    status
}

/// Makes the calls of a list one after another, up to the first whose outcome isn't as demanded.
#[unsafe(no_mangle)]
pub extern "C" fn argus_c_call_each(
    alloc: Global,
    slot: &mut Slot,
    calls: &mut [ListedCall<'_>],
    made: &mut usize,
) -> u32
    ensures { IsListAnswered slot.old.held.store slot.new.held.store calls.old calls.new made.new
        result }
{
    *made = 0;
    let Some(mut guardian) = slot.take(alloc) else {
        return NOT_OPEN;
    };
    let CallsMade { count, end } = guardian.call_each(calls);
    *slot = Slot::opened(guardian);
    *made = count;
    end_status(end)
}

/// The status with which a list ended.
fn end_status(end: ListEnd) -> u32
    ensures { result ≡ end_status end }
{
    match end {
        ListEnd::Whole => DONE,
        ListEnd::Unmet => UNMET,
        ListEnd::Failed(error) => error.codes().0,
    }
}

/// Answers the question that the numbers stand for. 10, out of memory, comes only if there is a text
/// to answer it.
#[unsafe(no_mangle)]
pub extern "C" fn argus_c_tell(
    alloc: Global,
    slot: &mut Slot,
    kind: u32,
    action: u32,
    object: u32,
    entry: u64,
    number: &mut i64,
) -> u32
    ensures made { result < 10 → Becomes slot.old.held.store slot.new.held.store
        (IsAnswered kind action object entry (result, number.new)) }
    ensures unmade { 10 ≤ result → slot.new.held.store ≡ slot.old.held.store }
    ensures bad_kind { (result ≡ 16) ↔ (17 ≤ kind) }
    ensures not_open { (result ≡ 11) ↔ ((kind < 17) × (slot.old.held.store ≡ None)) }
    ensures not_there { result ≡ 18 → IsNotThere slot.old.held.store kind action object entry }
    ensures out_of_memory { result ≡ 10
        → HasText slot.old.held.store kind action object entry }
    ensures status { 10 ≤ result
        → (result ≡ 10) ⊎ (result ≡ 11) ⊎ (result ≡ 16) ⊎ (result ≡ 18) }
    ensures zero { 10 ≤ result → number.new ≡ pos 0 }
{
    *number = 0;
    let Some(question) = Question::of(kind, action, object, entry) else {
        return BAD_KIND;
    };
    let Some(mut guardian) = slot.take(alloc) else {
        return NOT_OPEN;
    };
    let (status, value) = match guardian.answer_question(question) {
        Ok(outcome) => outcome.codes(),
        Err(error) => error.codes(),
    };
    *slot = Slot::opened(guardian);
    *number = value;
    status
}

/// The status of what was made, or of the error because of which it wasn't.
fn status_of(made: Result<(), EmbedError>) -> u32
    ensures done { OnOk made (result ≡ 0) }
    ensures error { IfErr made (λ e. result ≡ (error_codes e).0) }
{
    match made {
        Ok(()) => DONE,
        Err(error) => error.codes().0,
    }
}

/// Aborts each live topaction, nested ones too.
#[unsafe(no_mangle)]
pub extern "C" fn argus_c_abort_live(alloc: Global, slot: &mut Slot) -> u32
    ensures done { result ≡ 0 → Becomes slot.old.held.store slot.new.held.store
        (λ old new. new ≡ after_abort_live old) }
    ensures quiet { result ≡ 0 → Becomes slot.old.held.store slot.new.held.store
        (λ _ new. IsBusy new → ⊥) }
    ensures memory { result ≡ 10
        → Becomes slot.old.held.store slot.new.held.store IsAbortedInPart }
    ensures not_open { (result ≡ 11) ↔ (slot.old.held.store ≡ None) }
    ensures closed { result ≡ 11 → slot.new.held.store ≡ None }
    ensures status { (result ≡ 0) ⊎ (result ≡ 10) ⊎ (result ≡ 11) }
{
    let Some(mut guardian) = slot.take(alloc) else {
        return NOT_OPEN;
    };
    let status = status_of(guardian.abort_live());
    *slot = Slot::opened(guardian);
    status
}

/// Folds the journal's entries into its opening.
#[unsafe(no_mangle)]
pub extern "C" fn argus_c_checkpoint(alloc: Global, slot: &mut Slot) -> u32
    ensures done { result ≡ 0 → Becomes slot.old.held.store slot.new.held.store
        (λ old new. new ≡ after_fold old) }
    ensures unmade { result ≢ 0 → slot.new.held.store ≡ slot.old.held.store }
    ensures status { IsStatusOfFold slot.old.held.store result }
{
    let Some(mut guardian) = slot.take(alloc) else {
        return NOT_OPEN;
    };
    let status = status_of(guardian.checkpoint());
    *slot = Slot::opened(guardian);
    status
}

/// Starts over with the same objects, and action numbers from 0.
#[unsafe(no_mangle)]
pub extern "C" fn argus_c_renew(alloc: Global, slot: &mut Slot) -> u32
    ensures done { result ≡ 0 → Becomes slot.old.held.store slot.new.held.store
        (λ old new. new ≡ after_renewal old) }
    ensures unmade { result ≢ 0 → slot.new.held.store ≡ slot.old.held.store }
    ensures status { IsStatusOfFold slot.old.held.store result }
{
    let Some(mut guardian) = slot.take(alloc) else {
        return NOT_OPEN;
    };
    let status = status_of(guardian.renew());
    *slot = Slot::opened(guardian);
    status
}

/// Takes whole lines of a journal's listing from the front of the text, and says how many bytes and
/// lines these are.
#[unsafe(no_mangle)]
pub extern "C" fn argus_c_resume(
    alloc: Global,
    slot: &mut Slot,
    text: &[u8],
    bytes: &mut usize,
    lines: &mut usize,
    number: &mut i64,
) -> u32
    ensures taken { result ≢ 11 → Becomes slot.old.held.store slot.new.held.store
        (AreTaken text.now bytes.new lines.new (result, number.new)) }
    ensures not_open { (result ≡ 11) ↔ (slot.old.held.store ≡ None) }
    ensures closed { result ≡ 11 → slot.new.held.store ≡ None }
    ensures zero { result ≡ 11 → (bytes.new ≡ 0) × (lines.new ≡ 0) × (number.new ≡ pos 0) }
{
    *bytes = 0;
    *lines = 0;
    *number = 0;
    let Some(mut guardian) = slot.take(alloc) else {
        return NOT_OPEN;
    };
    let taken = guardian.resume(text);
    *slot = Slot::opened(guardian);
    let (status, value) = taken.end.codes();
    *bytes = taken.bytes;
    *lines = taken.lines;
    *number = value;
    status
}

/// Makes the guardian of the lines that were taken, in place of the one that is held, and says how
/// many bytes were dropped.
#[unsafe(no_mangle)]
pub extern "C" fn argus_c_resumed(alloc: Global, slot: &mut Slot, dropped: &mut u64) -> u32
    ensures done { result ≡ 0 → Becomes slot.old.held.store slot.new.held.store
        (IsResumed dropped.new) }
    ensures unmade { result ≢ 0 → slot.new.held.store ≡ slot.old.held.store }
    ensures status { (result ≡ 0) ⊎ (result ≡ 10) ⊎ (result ≡ 11) }
    ensures not_open { (result ≡ 11) ↔ (slot.old.held.store ≡ None) }
    ensures zero { result ≢ 0 → dropped.new ≡ 0 }
{
    *dropped = 0;
    let Some(mut guardian) = slot.take(alloc) else {
        return NOT_OPEN;
    };
    let resumed = guardian.resumed();
    *slot = Slot::opened(guardian);
    match resumed {
        Ok(bytes) => {
            *dropped = bytes;
            DONE
        }
        Err(error) => error.codes().0,
    }
}

/// Puts as many whole lines of the journal as fit at the front of the room, from an entry on, and
/// says of how many entries and of what size they are.
#[unsafe(no_mangle)]
pub extern "C" fn argus_c_lines(
    alloc: Global,
    slot: &mut Slot,
    from: u64,
    room: &mut [u8],
    size: &mut usize,
    count: &mut u64,
) -> u32
    ensures done { result ≡ 0 → AreLinesGiven slot.new.held.store from room.old room.new
        (record { count = count.new; size = size.new }) }
    ensures small { result ≡ 17 → IsLineTooLong slot.new.held.store from room.old size.new
        × (room.new ≡ room.old) × (count.new ≡ 0) }
    ensures status { IsStatusOfLines slot.old.held.store from result }
    ensures same { slot.new.held.store ≡ slot.old.held.store }
    ensures room { length room.new ≡ length room.old }
    ensures none { result ≢ 0 → result ≢ 17
        → (size.new ≡ 0) × (count.new ≡ 0) × (room.new ≡ room.old) }
{
    *size = 0;
    *count = 0;
    let Some(guardian) = slot.take(alloc) else {
        return NOT_OPEN;
    };
    let lines = guardian.lines(from, room);
    *slot = Slot::opened(guardian);
    match lines {
        Ok(lines) => {
            *size = lines.size;
            *count = lines.count;
            if lines.size <= room.len() {
                DONE
            } else {
                TOO_SMALL
            }
        }
        Err(error) => error.codes().0,
    }
}

/// The version, as `ARGUS_VERSION_NUMBER` of the header that belongs to the library.
#[unsafe(no_mangle)]
pub extern "C" fn argus_c_version() -> u32
    ensures { result ≡ version_number }
{
    VERSION_NUMBER
}

/// Puts the text that is kept at the front of the room, and says its size.
#[unsafe(no_mangle)]
pub extern "C" fn argus_c_reply(
    alloc: Global,
    slot: &mut Slot,
    room: &mut [u8],
    size: &mut usize,
) -> u32
    ensures done { result ≡ 0 → IsGiven slot.new.held.store size.new room.old room.new }
    ensures small { result ≡ 17 → IsTooLong slot.new.held.store size.new room.old
        × (room.new ≡ room.old) }
    ensures status { IsStatusOfReply slot.old.held.store result }
    ensures same { slot.new.held.store ≡ slot.old.held.store }
    ensures room { length room.new ≡ length room.old }
    ensures none { result ≢ 0 → result ≢ 17 → (size.new ≡ 0) × (room.new ≡ room.old) }
{
    *size = 0;
    let Some(guardian) = slot.take(alloc) else {
        return NOT_OPEN;
    };
    let needed = guardian.reply(room);
    *slot = Slot::opened(guardian);
    match needed {
        Ok(Some(needed)) => {
            *size = needed;
            if needed <= room.len() {
                DONE
            } else {
                TOO_SMALL
            }
        }
        Ok(None) => NOT_THERE,
        Err(_) => NO_MEMORY,
    }
}
