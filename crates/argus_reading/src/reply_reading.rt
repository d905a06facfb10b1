//! The reply at the front of a text.

ghost use Rattle.std.specs.Prelude.{IfErr, IfOk, codes};
ghost use Rattle.argus_contents.specs.Answer.{plain_answer};
ghost use Rattle.argus_entries.specs.Reply.{plain_reply};
ghost use Rattle.argus_reading.specs.Combined.{Worded};
ghost use Rattle.argus_reading.specs.Replies.{Answers, FullAnswers, NamedRefusals, OtherRefusals};
ghost use Rattle.argus_reading.specs.Replies.{Refusals, Replies, Signals, WordAnswers};
ghost use Rattle.argus_texts.specs.Language.{OnLeft, Reads, Stops};

use crate::choosing::farther;
use crate::part_reading::{content_behind, id, int_behind, value_behind};
use argus_actions::ActionId;
use argus_contents::{Answer, ObjId, Signal};
use argus_entries::{Refusal, Reply};
use argus_memory::Heap;
use argus_texts::front::{Stop, word};

/// The reply at the front, and what comes after it.
pub(crate) fn reply(heap: Heap, text: &str) -> Result<(Reply, &str), Stop>
    ensures read { IfOk result (λ r. Reads Replies text.now (plain_reply r.0) r.1.now) }
    ensures stops { IfErr result
        (λ e. OnLeft e (λ left. Stops Replies text.now left)) }
{
    let object = match id(text, "o") {
        Ok((object, rest)) => return Ok((Reply::Object(ObjId(object)), rest)),
        Err(stop) => stop,
    };
    let begun = match id(text, "a") {
        Ok((action, rest)) => return Ok((Reply::Begun(ActionId(action)), rest)),
        Err(stop) => stop,
    };
    let refused = match refused(text) {
        Ok((refusal, rest)) => return Ok((Reply::Refused(refusal), rest)),
        Err(stop) => stop,
    };
    let answered = match answer(heap, text) {
        Ok((answer, rest)) => return Ok((Reply::Answered(answer), rest)),
        Err(stop) => stop,
    };
    Err(farther(object, farther(begun, farther(refused, answered))))
}

/// The refusal after its word.
fn refused(text: &str) -> Result<(Refusal, &str), Stop>
    ensures read { IfOk result
        (λ r. Reads (Worded (codes "refused ") Refusals) text.now r.0 r.1.now) }
    ensures stops { IfErr result
        (λ e. OnLeft e (λ left. Stops (Worded (codes "refused ") Refusals) text.now left)) }
{
    let rest = word(text, "refused ")?;
    let (refusal, rest) = refusal(rest)?;
    Ok((refusal, rest))
}

/// The name of a refusal.
fn refusal(text: &str) -> Result<(Refusal, &str), Stop>
    ensures read { IfOk result (λ r. Reads Refusals text.now r.0 r.1.now) }
    ensures stops { IfErr result
        (λ e. OnLeft e (λ left. Stops Refusals text.now left)) }
{
    let named = match named_refusal(text) {
        Ok(read) => return Ok(read),
        Err(stop) => stop,
    };
    let other = match other_refusal(text) {
        Ok(read) => return Ok(read),
        Err(stop) => stop,
    };
    Err(farther(named, other))
}

/// A refusal because of an action or an object that the call names.
fn named_refusal(text: &str) -> Result<(Refusal, &str), Stop>
    ensures read { IfOk result (λ r. Reads Refusals text.now r.0 r.1.now) }
    ensures stops { IfErr result
        (λ e. OnLeft e (λ left. Stops NamedRefusals text.now left)) }
{
    let no_action = match word(text, "NoAction") {
        Ok(rest) => return Ok((Refusal::NoAction, rest)),
        Err(stop) => stop,
    };
    let over = match word(text, "Over") {
        Ok(rest) => return Ok((Refusal::Over, rest)),
        Err(stop) => stop,
    };
    let suspended = match word(text, "Suspended") {
        Ok(rest) => return Ok((Refusal::Suspended, rest)),
        Err(stop) => stop,
    };
    let no_object = match word(text, "NoObject") {
        Ok(rest) => return Ok((Refusal::NoObject, rest)),
        Err(stop) => stop,
    };
    let ill_typed = match word(text, "IllTyped") {
        Ok(rest) => return Ok((Refusal::IllTyped, rest)),
        Err(stop) => stop,
    };
    Err(farther(
        no_action,
        farther(over, farther(suspended, farther(no_object, ill_typed))),
    ))
}

/// Another refusal.
fn other_refusal(text: &str) -> Result<(Refusal, &str), Stop>
    ensures read { IfOk result (λ r. Reads Refusals text.now r.0 r.1.now) }
    ensures stops { IfErr result
        (λ e. OnLeft e (λ left. Stops OtherRefusals text.now left)) }
{
    let conflict = match word(text, "Conflict") {
        Ok(rest) => return Ok((Refusal::Conflict, rest)),
        Err(stop) => stop,
    };
    let too_deep = match word(text, "TooDeep") {
        Ok(rest) => return Ok((Refusal::TooDeep, rest)),
        Err(stop) => stop,
    };
    let too_many = match word(text, "TooMany") {
        Ok(rest) => return Ok((Refusal::TooMany, rest)),
        Err(stop) => stop,
    };
    let no_siblings = match word(text, "NoSiblings") {
        Ok(rest) => return Ok((Refusal::NoSiblings, rest)),
        Err(stop) => stop,
    };
    Err(farther(conflict, farther(too_deep, farther(too_many, no_siblings))))
}

/// The answer at the front, and what comes after it.
fn answer(heap: Heap, text: &str) -> Result<(Answer, &str), Stop>
    ensures read { IfOk result (λ r. Reads Answers text.now (plain_answer r.0) r.1.now) }
    ensures stops { IfErr result
        (λ e. OnLeft e (λ left. Stops Answers text.now left)) }
{
    let worded = match word_answer(text) {
        Ok(read) => return Ok(read),
        Err(stop) => stop,
    };
    let full = match full_answer(heap, text) {
        Ok(read) => return Ok(read),
        Err(stop) => stop,
    };
    Err(farther(worded, full))
}

/// An answer that is words.
fn word_answer(text: &str) -> Result<(Answer, &str), Stop>
    ensures read { IfOk result (λ r. Reads Answers text.now (plain_answer r.0) r.1.now) }
    ensures stops { IfErr result
        (λ e. OnLeft e (λ left. Stops WordAnswers text.now left)) }
{
    let done = match word(text, "done") {
        Ok(rest) => return Ok((Answer::Done, rest)),
        Err(stop) => stop,
    };
    let yes = match word(text, "flag true") {
        Ok(rest) => return Ok((Answer::Flag(true), rest)),
        Err(stop) => stop,
    };
    let no = match word(text, "flag false") {
        Ok(rest) => return Ok((Answer::Flag(false), rest)),
        Err(stop) => stop,
    };
    let signal = match signal(text) {
        Ok((signal, rest)) => return Ok((Answer::Signal(signal), rest)),
        Err(stop) => stop,
    };
    Err(farther(done, farther(yes, farther(no, signal))))
}

/// An answer that has a value, a content or a number.
fn full_answer(heap: Heap, text: &str) -> Result<(Answer, &str), Stop>
    ensures read { IfOk result (λ r. Reads Answers text.now (plain_answer r.0) r.1.now) }
    ensures stops { IfErr result
        (λ e. OnLeft e (λ left. Stops FullAnswers text.now left)) }
{
    let val = match value_behind(heap, text, "val ") {
        Ok((value, rest)) => return Ok((Answer::Val(value), rest)),
        Err(stop) => stop,
    };
    let num = match int_behind(text, "num ") {
        Ok((number, rest)) => return Ok((Answer::Num(number), rest)),
        Err(stop) => stop,
    };
    let body = match content_behind(heap, text, "body ") {
        Ok((content, rest)) => return Ok((Answer::body(heap, content)?, rest)),
        Err(stop) => stop,
    };
    Err(farther(val, farther(num, body)))
}

/// The signal at the front, and what comes after it.
fn signal(text: &str) -> Result<(Signal, &str), Stop>
    ensures read { IfOk result (λ r. Reads Signals text.now r.0 r.1.now) }
    ensures stops { IfErr result
        (λ e. OnLeft e (λ left. Stops Signals text.now left)) }
{
    let absent = match word(text, "signal absent") {
        Ok(rest) => return Ok((Signal::Absent, rest)),
        Err(stop) => stop,
    };
    let exists = match word(text, "signal exists") {
        Ok(rest) => return Ok((Signal::Exists, rest)),
        Err(stop) => stop,
    };
    let bounds = match word(text, "signal bounds") {
        Ok(rest) => return Ok((Signal::Bounds, rest)),
        Err(stop) => stop,
    };
    let wrong_tag = match word(text, "signal wrong_tag") {
        Ok(rest) => return Ok((Signal::WrongTag, rest)),
        Err(stop) => stop,
    };
    let negative_size = match word(text, "signal negative_size") {
        Ok(rest) => return Ok((Signal::NegativeSize, rest)),
        Err(stop) => stop,
    };
    let limits = match word(text, "signal limits") {
        Ok(rest) => return Ok((Signal::Limits, rest)),
        Err(stop) => stop,
    };
    Err(farther(
        absent,
        farther(
            exists,
            farther(bounds, farther(wrong_tag, farther(negative_size, limits))),
        ),
    ))
}
