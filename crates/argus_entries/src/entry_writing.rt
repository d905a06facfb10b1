//! `write_entry` and `write_reply`: the line of an entry, and its reply's part.

ghost use Rattle.std.specs.Prelude.{◌≡◌, ◌++◌, OnErr, OnOk, string_bytes};
ghost use Rattle.argus_contents.specs.Answer.{plain_answer};
ghost use Rattle.argus_entries.specs.{Call.plain_call, Entry.plain_entry, Reply.plain_reply};
ghost use Rattle.argus_entries.specs.EntrySpelling.{answer_spelling, call_spelling, entry_spelling};
ghost use Rattle.argus_entries.specs.EntrySpelling.{place_spelling, refusal_name, reply_spelling};
ghost use Rattle.argus_entries.specs.EntrySpelling.{signal_spelling};
ghost use Rattle.argus_texts.specs.Grown.{Grew};

use crate::appending::{
    append, append_content, append_int, append_number, append_shape, append_value,
};
use crate::call::Call;
use crate::entry::Entry;
use crate::operation_writing::{append_change, append_query};
use crate::refusal::Refusal;
use crate::reply::Reply;
use argus_actions::ActionId;
use argus_contents::{Answer, ObjId, Signal};
use argus_memory::{OutOfMemory, Room};

/// Appends the line of the entry with this number, without a line end: the number, the call, an
/// arrow and the reply. At `OutOfMemory` the text is cut back to what it was.
///
/// ```text
/// write_entry(4, &entry, &mut out)?;       // 4 ask a0 o0 field 0 -> val 7
/// ```
pub fn write_entry(at: u64, entry: &Entry, out: &mut String<Room>) -> Result<(), OutOfMemory>
    ensures written { OnOk result (string_bytes out.new
        ≡ string_bytes out.old ++ entry_spelling at (plain_entry entry.now)) }
    ensures unchanged { OnErr result (string_bytes out.new ≡ string_bytes out.old) }
{
    let start = out.len();
    let result = append_entry(at, entry, out);
    if result.is_err() {
        out.truncate(start);
    }
    result
}

/// Appends the reply as it is written after the arrow of an entry's line. At `OutOfMemory` the text
/// is cut back to what it was.
///
/// ```text
/// write_reply(&Reply::Refused(Refusal::Conflict), &mut out)?;      // refused Conflict
/// ```
pub fn write_reply(reply: &Reply, out: &mut String<Room>) -> Result<(), OutOfMemory>
    ensures written { OnOk result (string_bytes out.new
        ≡ string_bytes out.old ++ reply_spelling (plain_reply reply.now)) }
    ensures unchanged { OnErr result (string_bytes out.new ≡ string_bytes out.old) }
{
    let start = out.len();
    let result = append_reply(reply, out);
    if result.is_err() {
        out.truncate(start);
    }
    result
}

fn append_entry(at: u64, entry: &Entry, out: &mut String<Room>) -> Result<(), OutOfMemory>
    ensures grew { Grew (string_bytes out.old) (string_bytes out.new) }
    ensures written { OnOk result (string_bytes out.new
        ≡ string_bytes out.old ++ entry_spelling at (plain_entry entry.now)) }
{
    append_number("", at, out)?;
    append(" ", out)?;
    append_call(&entry.call, out)?;
    append(" -> ", out)?;
    append_reply(&entry.reply, out)
}

fn append_call(call: &Call, out: &mut String<Room>) -> Result<(), OutOfMemory>
    ensures grew { Grew (string_bytes out.old) (string_bytes out.new) }
    ensures written { OnOk result (string_bytes out.new
        ≡ string_bytes out.old ++ call_spelling (plain_call call.now)) }
{
    match call {
        Call::Declare(shape) => append_shape("declare ", shape, out),
        Call::BeginTop => append("begin_top", out),
        Call::BeginSub(parent) => append_number("begin_sub a", u64::from(parent.0), out),
        Call::BeginNested(creator) => append_number("begin_nested a", u64::from(creator.0), out),
        Call::Commit(a) => append_number("commit a", u64::from(a.0), out),
        Call::Abort(a) => append_number("abort a", u64::from(a.0), out),
        Call::AbortOthers(a) => append_number("abort_others a", u64::from(a.0), out),
        Call::Ask(a, o, query) => {
            append_place("ask a", *a, *o, out)?;
            append(" ", out)?;
            append_query(query, out)
        }
        Call::Alter(a, o, change) => {
            append_place("alter a", *a, *o, out)?;
            append(" ", out)?;
            append_change(change, out)
        }
        Call::TestRead(a, o) => append_place("test_read a", *a, *o, out),
        Call::TestWrite(a, o) => append_place("test_write a", *a, *o, out),
    }
}

fn append_place(
    word: &str,
    a: ActionId,
    o: ObjId,
    out: &mut String<Room>,
) -> Result<(), OutOfMemory>
    ensures grew { Grew (string_bytes out.old) (string_bytes out.new) }
    ensures written { OnOk result (string_bytes out.new
        ≡ string_bytes out.old ++ place_spelling word.now a.0 o.0) }
{
    append_number(word, u64::from(a.0), out)?;
    append_number(" o", u64::from(o.0), out)
}

fn append_reply(reply: &Reply, out: &mut String<Room>) -> Result<(), OutOfMemory>
    ensures grew { Grew (string_bytes out.old) (string_bytes out.new) }
    ensures written { OnOk result (string_bytes out.new
        ≡ string_bytes out.old ++ reply_spelling (plain_reply reply.now)) }
{
    match reply {
        Reply::Object(o) => append_number("o", u64::from(o.0), out),
        Reply::Begun(a) => append_number("a", u64::from(a.0), out),
        Reply::Answered(answer) => append_answer(answer, out),
        Reply::Refused(refusal) => {
            append("refused ", out)?;
            append(refusal_text(*refusal), out)
        }
    }
}

fn append_answer(answer: &Answer, out: &mut String<Room>) -> Result<(), OutOfMemory>
    ensures grew { Grew (string_bytes out.old) (string_bytes out.new) }
    ensures written { OnOk result (string_bytes out.new
        ≡ string_bytes out.old ++ answer_spelling (plain_answer answer.now)) }
{
    match answer {
        Answer::Done => append("done", out),
        Answer::Val(value) => append_value("val ", value, out),
        Answer::Num(number) => append_int("num ", *number, out),
        Answer::Flag(true) => append("flag true", out),
        Answer::Flag(false) => append("flag false", out),
        Answer::Body(content) => append_content("body ", content, out),
        Answer::Signal(signal) => append(signal_text(*signal), out),
    }
}

fn signal_text(signal: Signal) -> &'static str
    ensures { result.now ≡ signal_spelling signal }
{
    match signal {
        Signal::Absent => "signal absent",
        Signal::Exists => "signal exists",
        Signal::Bounds => "signal bounds",
        Signal::WrongTag => "signal wrong_tag",
        Signal::NegativeSize => "signal negative_size",
        Signal::Limits => "signal limits",
    }
}

fn refusal_text(refusal: Refusal) -> &'static str
    ensures { result.now ≡ refusal_name refusal }
{
    match refusal {
        Refusal::NoAction => "NoAction",
        Refusal::Over => "Over",
        Refusal::Suspended => "Suspended",
        Refusal::NoObject => "NoObject",
        Refusal::IllTyped => "IllTyped",
        Refusal::Conflict => "Conflict",
        Refusal::TooDeep => "TooDeep",
        Refusal::TooMany => "TooMany",
        Refusal::NoSiblings => "NoSiblings",
    }
}
