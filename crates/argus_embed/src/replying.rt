//! The text that is kept, as the host gets it.

ghost use Rattle.std.specs.Prelude.{IfOk, None, OnErr, OnOk, length, map, string_bytes, ◌++◌, ◌≡◌};
ghost use Rattle.std.specs.{Option.option_map, Prelude.{◌≢◌}};
ghost use Rattle.argus_values.specs.Value.{plain_value};
ghost use Rattle.argus_embed.specs.Embedded.{reply_lines, reply_text, text_line, value_text};
ghost use Rattle.argus_embed.specs.Kept.{IsAppended, IsCopied, IsPut};
ghost use Rattle.argus_journal.specs.Reply.{plain_reply};

use crate::embedded::Embedded;
use crate::kept_answer::KeptAnswer;
use argus_journal::{Reply, write_reply};
use argus_values::{Answer, Heap, OutOfMemory, Room, Value, write_content, write_value};

impl Embedded {
    /// The size of the text that is kept. The text is put at the front of the room if it fits; a
    /// room that is too small is unchanged. `None` if no text is kept: after a call whose reply has
    /// none, or before the first one. For a list of calls it is a line for each reply that has a
    /// text, in their order; if `resume` ended at `NotTheReply`, the journal's reply as its line
    /// has it. It can be read again as long as it is kept.
    ///
    /// `OutOfMemory`: there is a text, and no memory to make it.
    pub fn reply(&self, room: &mut [u8]) -> Result<Option<usize>, OutOfMemory>
        ensures copied { IfOk result (λ size. IsCopied self.now.text size room.old room.new) }
        ensures room { length room.new ≡ length room.old }
        ensures err { OnErr result (room.new ≡ room.old) }
        ensures there { OnErr result (self.now.text ≢ None) }
    {
        match &self.kept {
            KeptAnswer::Nothing => Ok(None),
            KeptAnswer::Text(text) => Ok(Some(put(room, text.as_slice()))),
            KeptAnswer::Reply(reply) => match reply_bytes(self.heap, reply)? {
                Some(text) => Ok(Some(put(room, text.as_slice()))),
                None => Ok(None),
            },
            KeptAnswer::Given(reply) => {
                let mut text = String::new(self.heap.room());
                write_reply(reply, &mut text)?;
                Ok(Some(put(room, text.as_bytes())))
            }
            KeptAnswer::Replies(replies) => {
                let lines = lines_bytes(self.heap, replies.as_slice())?;
                Ok(Some(put(room, lines.as_slice())))
            }
        }
    }
}

/// The text that belongs to the reply, if any.
fn reply_bytes(heap: Heap, reply: &Reply) -> Result<Option<Vec<u8, Room>>, OutOfMemory>
    ensures text { IfOk result (λ bytes. option_map (λ b. b.items) bytes
        ≡ reply_text (plain_reply reply.now)) }
    ensures there { OnErr result (reply_text (plain_reply reply.now) ≢ None) }
{
    let mut text = String::new(heap.room());
    if append_text(reply, &mut text)? {
        Ok(Some(text.into_bytes()))
    } else {
        Ok(None)
    }
}

/// A line for each reply that has a text.
fn lines_bytes(heap: Heap, replies: &[Reply]) -> Result<Vec<u8, Room>, OutOfMemory>
    ensures { IfOk result (λ bytes. bytes.items ≡ reply_lines (map plain_reply replies.now)) }
{
    let mut text = String::new(heap.room());
    for reply in replies {
        append_line(reply, &mut text)?;
    }
    Ok(text.into_bytes())
}

fn append_line(reply: &Reply, text: &mut String<Room>) -> Result<(), OutOfMemory>
    ensures { OnOk result (string_bytes text.new
        ≡ string_bytes text.old ++ text_line (reply_text (plain_reply reply.now))) }
{
    if append_text(reply, text)? {
        text.push_str("\n")?;
    }
    Ok(())
}

/// Appends the text that belongs to the reply; false if there is none.
fn append_text(reply: &Reply, text: &mut String<Room>) -> Result<bool, OutOfMemory>
    ensures appended { IfOk result (λ is_there. IsAppended (reply_text (plain_reply reply.now))
        is_there (string_bytes text.old) (string_bytes text.new)) }
    ensures there { OnErr result (reply_text (plain_reply reply.now) ≢ None) }
{
    match reply {
        Reply::Answered(Answer::Val(value)) => append_value(value, text),
        Reply::Answered(Answer::Body(content)) => {
            write_content(content, text)?;
            Ok(true)
        }
        Reply::Answered(Answer::Done | Answer::Num(_) | Answer::Flag(_) | Answer::Signal(_))
        | Reply::Object(_)
        | Reply::Begun(_)
        | Reply::Refused(_) => Ok(false),
    }
}

/// Appends the written form of a value that isn't a number.
fn append_value(value: &Value, text: &mut String<Room>) -> Result<bool, OutOfMemory>
    ensures appended { IfOk result (λ is_there. IsAppended (value_text (plain_value value.now))
        is_there (string_bytes text.old) (string_bytes text.new)) }
    ensures there { OnErr result (value_text (plain_value value.now) ≢ None) }
{
    match value {
        Value::Bool(_) | Value::Int(_) => return Ok(false),
        Value::Null
        | Value::Text(_)
        | Value::Atomic(_)
        | Value::Sequence(_)
        | Value::Fields(_)
        | Value::Choice(_, _) => {}
    }
    write_value(value, text)?;
    Ok(true)
}

/// Copies the bytes to the front of the room if they fit, and returns how many they are either way.
pub(crate) fn put(room: &mut [u8], bytes: &[u8]) -> usize
    ensures size { result ≡ length bytes.now }
    ensures put { IsPut bytes.now room.old room.new }
    ensures room { length room.new ≡ length room.old }
{
    if bytes.len() <= room.len() {
        let (front, _) = room.split_at_mut(bytes.len());
        front.copy_from_slice(bytes);
    }
    bytes.len()
}
