//! Answers, as text: each item with a space before it.

use crate::row_fault::{Result, RowFault};
use argus_guardian::CheckpointError;
use argus_journal::{Reply, write_reply};
use argus_values::{Content, ObjId, Room, write_content};
use std::fmt::{Debug, Display, Write};

/// Adds a word or a number.
pub(crate) fn tell(item: impl Display + Drop, out: &mut String<Room>) -> Result<()> {
    Ok(write!(out, " {item}")?)
}

/// Adds a value as its derived form spells it.
pub(crate) fn tell_derived(item: impl Debug + Drop, out: &mut String<Room>) -> Result<()> {
    Ok(write!(out, " {item:?}")?)
}

/// Adds a content, or `absent`.
pub(crate) fn tell_content(content: &Option<Content>, out: &mut String<Room>) -> Result<()> {
    match content {
        Some(content) => {
            out.push_str(" ")?;
            Ok(write_content(content, out)?)
        }
        None => tell("absent", out),
    }
}

/// Adds the reply.
pub(crate) fn tell_reply(reply: &Reply, out: &mut String<Room>) -> Result<()> {
    out.push_str(" ")?;
    Ok(write_reply(reply, out)?)
}

/// Adds what came of a checkpoint.
pub(crate) fn tell_checkpoint(
    outcome: std::result::Result<(), CheckpointError>,
    out: &mut String<Room>,
) -> Result<()> {
    match outcome {
        Ok(()) => tell("done", out),
        Err(CheckpointError::Memory) => Err(RowFault::OutOfMemory),
        Err(error) => tell_derived(error, out),
    }
}

/// Adds that it is shown; without memory it isn't.
pub(crate) fn tell_shown(is_shown: bool, out: &mut String<Room>) -> Result<()> {
    if is_shown {
        tell("true", out)
    } else {
        Err(RowFault::OutOfMemory)
    }
}

/// Adds what a commit would leave: `none` if the action isn't live, `nothing` if it has written
/// nothing.
pub(crate) fn tell_effect(
    effect: Option<Vec<(ObjId, Option<Content>), Room>>,
    out: &mut String<Room>,
) -> Result<()> {
    let Some(effect) = effect else {
        return tell("none", out);
    };
    if effect.is_empty() {
        return tell("nothing", out);
    }
    for (o, content) in &effect {
        write!(out, " o{}", o.0)?;
        tell_content(content, out)?;
    }
    Ok(())
}
