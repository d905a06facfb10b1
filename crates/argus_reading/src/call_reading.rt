//! The call at the front of a text.

ghost use Rattle.std.specs.Prelude.{◌≡◌, IfErr, IfOk, length};
ghost use Rattle.argus_entries.specs.Call.{plain_call};
ghost use Rattle.argus_reading.specs.Calls.{ActionCalls, Alters, Asks, Calls, ObjectCalls};
ghost use Rattle.argus_reading.specs.{Farther.OnStop, Line.{Declares, Lacks, Shaped}};
ghost use Rattle.argus_contents.specs.Change.{plain_change};
ghost use Rattle.argus_texts.specs.Language.{OnLeft, Reads, Stops};
ghost use Rattle.argus_texts.specs.ShapeLanguages.{BeginsNo, Shapes};

use crate::change_reading::change;
use crate::choosing::farther;
use crate::line_stop::LineStop;
use crate::part_reading::{id, place};
use crate::query_reading::query;
use argus_actions::ActionId;
use argus_contents::{Change, ObjId, Query, Shape};
use argus_entries::Call;
use argus_memory::Heap;
use argus_texts::front::{Stop, Unread, expect, one_shape, word};

/// The call at the front, and what comes after it.
pub(crate) fn call(heap: Heap, text: &str) -> Result<(Call, &str), LineStop>
    ensures read { IfOk result (λ r. Reads Calls text.now (plain_call r.0) r.1.now) }
    ensures stops { IfErr result
        (λ e. OnStop e (λ left. Stops Calls text.now left × Shaped Declares text.now)
        (λ left. Lacks Declares Calls text.now left)) }
{
    let declared = match word(text, "declare ") {
        Ok(others) => {
            let (shape, rest) = declared_shape(heap, others)?;
            return Ok((Call::Declare(shape), rest));
        }
        Err(stop) => stop,
    };
    let action = match action_call(text) {
        Ok(read) => return Ok(read),
        Err(stop) => stop,
    };
    let object = match object_call(heap, text) {
        Ok(read) => return Ok(read),
        Err(stop) => stop,
    };
    Err(LineStop::from(farther(declared, farther(action, object))))
}

/// The shape at the front, and what comes after it.
fn declared_shape(heap: Heap, text: &str) -> Result<(Shape, &str), LineStop>
    ensures read { IfOk result (λ r. Reads Shapes text.now r.0 r.1.now) }
    ensures stops { IfErr result
        (λ e. OnStop e (λ left. ⊥)
        (λ left. (left ≡ length text.now) × BeginsNo Shapes text.now)) }
{
    match one_shape(heap, text) {
        Ok(read) => Ok(read),
        Err(Unread::NoForm) => Err(LineStop::Shape(text.len())),
        Err(Unread::Memory) => Err(LineStop::OutOfMemory),
    }
}

/// A call that begins or ends actions.
fn action_call(text: &str) -> Result<(Call, &str), Stop>
    ensures read { IfOk result (λ r. Reads Calls text.now (plain_call r.0) r.1.now) }
    ensures stops { IfErr result
        (λ e. OnLeft e (λ left. Stops ActionCalls text.now left)) }
{
    let begin_top = match word(text, "begin_top") {
        Ok(rest) => return Ok((Call::BeginTop, rest)),
        Err(stop) => stop,
    };
    let begin_sub = match id(text, "begin_sub a") {
        Ok((parent, rest)) => return Ok((Call::BeginSub(ActionId(parent)), rest)),
        Err(stop) => stop,
    };
    let begin_nested = match id(text, "begin_nested a") {
        Ok((creator, rest)) => return Ok((Call::BeginNested(ActionId(creator)), rest)),
        Err(stop) => stop,
    };
    let commit = match id(text, "commit a") {
        Ok((a, rest)) => return Ok((Call::Commit(ActionId(a)), rest)),
        Err(stop) => stop,
    };
    let abort = match id(text, "abort a") {
        Ok((a, rest)) => return Ok((Call::Abort(ActionId(a)), rest)),
        Err(stop) => stop,
    };
    let abort_others = match id(text, "abort_others a") {
        Ok((a, rest)) => return Ok((Call::AbortOthers(ActionId(a)), rest)),
        Err(stop) => stop,
    };
    Err(farther(
        begin_top,
        farther(
            begin_sub,
            farther(begin_nested, farther(commit, farther(abort, abort_others))),
        ),
    ))
}

/// A call that names an object.
fn object_call(heap: Heap, text: &str) -> Result<(Call, &str), Stop>
    ensures read { IfOk result (λ r. Reads Calls text.now (plain_call r.0) r.1.now) }
    ensures stops { IfErr result
        (λ e. OnLeft e (λ left. Stops ObjectCalls text.now left)) }
{
    let ask = match ask(text) {
        Ok((a, o, query, rest)) => return Ok((Call::Ask(a, o, query), rest)),
        Err(stop) => stop,
    };
    let alter = match alter(heap, text) {
        Ok((a, o, change, rest)) => return Ok((Call::Alter(a, o, change), rest)),
        Err(stop) => stop,
    };
    let test_read = match place(text, "test_read a") {
        Ok((a, o, rest)) => return Ok((Call::TestRead(a, o), rest)),
        Err(stop) => stop,
    };
    let test_write = match place(text, "test_write a") {
        Ok((a, o, rest)) => return Ok((Call::TestWrite(a, o), rest)),
        Err(stop) => stop,
    };
    Err(farther(ask, farther(alter, farther(test_read, test_write))))
}

/// The action, the object and the query of an `Ask`.
fn ask(text: &str) -> Result<(ActionId, ObjId, Query, &str), Stop>
    ensures read { IfOk result (λ r. Reads Asks text.now ((r.0.0, r.1.0), r.2) r.3.now) }
    ensures stops { IfErr result (λ e. OnLeft e (λ left. Stops Asks text.now left)) }
{
    let (a, o, rest) = place(text, "ask a")?;
    let rest = expect(rest, b' ')?;
    let (query, rest) = query(rest)?;
    Ok((a, o, query, rest))
}

/// The action, the object and the change of an `Alter`.
fn alter(heap: Heap, text: &str) -> Result<(ActionId, ObjId, Change, &str), Stop>
    ensures read { IfOk result
        (λ r. Reads Alters text.now ((r.0.0, r.1.0), plain_change r.2) r.3.now) }
    ensures stops { IfErr result (λ e. OnLeft e (λ left. Stops Alters text.now left)) }
{
    let (a, o, rest) = place(text, "alter a")?;
    let rest = expect(rest, b' ')?;
    let (change, rest) = change(heap, rest)?;
    Ok((a, o, change, rest))
}
