//! A guardian of one thread, which answers rows.

use crate::call_reading::call_of;
use crate::row::{asked_in, compare, is_row};
use crate::row_fault::{Result, RowFault};
use crate::scripts::{run_alone, tell_shown};
use crate::setting::Setting;
use crate::telling::{tell, tell_checkpoint, tell_content, tell_derived, tell_effect, tell_reply};
use crate::word_reading::{action, first_word, object};
use argus_guardian::resume_laws::calls_are_well_formed;
use argus_guardian::{FailStop, Guardian, Resumed, replay_base, replay_for, resume};
use argus_journal::owner_of;
use argus_values::Room;
use std::io::Print;

// A guardian with as many entries before it as there can be.
const LAST: &str = "\
opening entries 9223372036854775807 actions 3
opening o0 atomic_record[balance:int] {7}
";

/// Each row has to get its answer. Where an allocation is refused it is asked again with memory.
pub(crate) fn answer_rows(
    rt: &impl Print,
    setting: Setting<'_>,
    guardian: &mut Guardian,
    rows: &str,
) -> Result<()> {
    let mut told = String::new(setting.texts.room());
    for row in rows.lines() {
        if is_row(row) {
            let answered = answer_at_last(guardian, setting, asked_in(row), &mut told);
            compare(rt, row, answered, told.as_str())?;
        }
    }
    Ok(())
}

fn answer_at_last(
    guardian: &mut Guardian,
    setting: Setting<'_>,
    asked: &str,
    told: &mut String<Room>,
) -> Result<()> {
    told.clear();
    match answer(guardian, setting, asked, told) {
        Err(RowFault::OutOfMemory) => {
            setting.budget.lift();
            told.clear();
            answer(guardian, setting, asked, told)
        }
        answered => answered,
    }
}

fn answer(
    guardian: &mut Guardian,
    setting: Setting<'_>,
    asked: &str,
    out: &mut String<Room>,
) -> Result<()> {
    let (word, rest) = first_word(asked);
    match word {
        "checkpoint" => tell_checkpoint(guardian.checkpoint(), out),
        "last" => {
            *guardian = last(setting)?;
            tell("done", out)
        }
        "times" => call_often(guardian, setting, rest, out),
        "length" => tell(guardian.journal().journal().len(), out),
        "first_entry" => tell(guardian.journal().journal().first_entry(), out),
        "base" => tell_base(guardian, rest, out),
        "owner" => tell_owner(guardian, rest, out),
        "effect" => tell_effect(guardian.effect(action(rest)?)?, out),
        "replay" => tell_replay(guardian, setting, rest, out),
        "script" => run_alone(guardian, setting, out),
        "receipts" => tell_shown(setting, out),
        _ => answer_call(guardian, setting, asked, out),
    }
}

fn last(setting: Setting<'_>) -> Result<Guardian> {
    let mut reader = FailStop::new(LAST.as_bytes());
    let Resumed { guardian, .. } = resume(setting.heap, &mut reader)?;
    Ok(guardian)
}

// `65534 declare atomic_record[n:int]`: so many such calls, whatever their replies.
fn call_often(
    guardian: &mut Guardian,
    setting: Setting<'_>,
    words: &str,
    out: &mut String<Room>,
) -> Result<()> {
    let (times, asked) = first_word(words);
    for _ in 0..times.parse::<u32>()? {
        guardian.call(call_of(setting.heap, asked)?)?;
    }
    tell("done", out)
}

fn tell_base(guardian: &Guardian, word: &str, out: &mut String<Room>) -> Result<()> {
    match guardian.base(object(word)?) {
        Some(content) => tell_content(content, out),
        None => tell("undeclared", out),
    }
}

fn tell_owner(guardian: &Guardian, word: &str, out: &mut String<Room>) -> Result<()> {
    match owner_of(guardian.journal().journal(), action(word)?) {
        Some(owner) => tell_derived(owner, out),
        None => tell("unbegun", out),
    }
}

// `a0 o0`, or `base o0`.
fn tell_replay(
    guardian: &Guardian,
    setting: Setting<'_>,
    words: &str,
    out: &mut String<Room>,
) -> Result<()> {
    let (one, other) = first_word(words);
    let (journal, o) = (guardian.journal().journal(), object(other)?);
    let content = if one == "base" {
        replay_base(setting.heap, journal, o)?
    } else {
        replay_for(setting.heap, journal, action(one)?, o)?
    };
    tell_content(&content, out)
}

fn answer_call(
    guardian: &mut Guardian,
    setting: Setting<'_>,
    asked: &str,
    out: &mut String<Room>,
) -> Result<()> {
    let call = call_of(setting.heap, asked)?;
    calls_are_well_formed(&call);
    let reply = guardian.call(call)?;
    tell_reply(&reply, out)
}
