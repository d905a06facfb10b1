//! `Session`: a guardian from its sharing to its settlement, or its drop, which answers rows.

use crate::call_reading::reply_of;
use crate::calling::push_told;
use crate::each_call::{call_by_seat, receipt_of};
use crate::host::Host;
use crate::row::{asked_in, compare, is_row};
use crate::row_fault::{Result, RowFault};
use crate::scripts::{run_by_seats, tell_run};
use crate::setting::Setting;
use crate::telling::{tell, tell_checkpoint, tell_content, tell_shown};
use crate::waiting::wait_meanwhile;
use crate::word_reading::{first_word, object};
use argus_commands::RunReport;
use argus_guardian::{
    Guardian, LookFault, Looker, Parts, Receipt, Seat, SettleFault, Shared, Sharing, Unsettled,
};
use argus_values::{Heap, ObjId, Room};
use std::mem::replace;
use std::sync::Wait;

/// The seats and lookers of a guardian that is shared answer the rows up to its settlement, or its
/// drop, and behind it. Returns the guardian that was settled, or else a new one.
pub(crate) fn play<N: Sharing + Send + Sync, R: Host>(
    rt: R,
    setting: Setting<'_>,
    parts: Parts<N, R>,
) -> Result<Guardian> {
    let mut session = Session::new(setting, parts);
    session.answer_rows(rt, setting)?;
    Ok(replace(&mut session.guardian, Guardian::new(setting.heap)))
}

// A guardian that is shared, or was, with its seats and lookers, and the receipts of all calls so far.
#[derive(Drop)]
struct Session<N: Sharing, R: Wait + Drop> {
    // Until it is settled or dropped.
    shared: Option<Shared<N, R>>,
    // Once it is settled; a new one before.
    guardian: Guardian,
    seats: Vec<Seat<N>, Room>,
    // While a settlement leaves it out.
    left_out: Option<Seat<N>>,
    lookers: Vec<Looker<N>, Room>,
    receipts: Vec<Receipt, Room>,
    // Those that a settlement names.
    named: Vec<Receipt, Room>,
    // How many receipts there were before the row, and what lookers saw.
    before: usize,
    seen: String<Room>,
}

impl<N: Sharing + Send + Sync, R: Host> Session<N, R> {
    fn new(setting: Setting<'_>, parts: Parts<N, R>) -> Session<N, R> {
        let Parts {
            shared,
            seats,
            lookers,
        } = parts;
        let texts = setting.texts;
        Session {
            shared: Some(shared),
            guardian: Guardian::new(setting.heap),
            seats,
            left_out: None,
            lookers,
            receipts: Vec::new(texts.room()),
            named: Vec::new(texts.room()),
            before: 0,
            seen: String::new(texts.room()),
        }
    }

    fn answer_rows(&mut self, rt: R, setting: Setting<'_>) -> Result<()> {
        let mut told = String::new(setting.texts.room());
        for row in setting.rows.lines() {
            if is_row(row) {
                told.clear();
                let answered = self.answer_at_last(rt, setting, asked_in(row), &mut told);
                compare(&rt, row, answered, told.as_str())?;
            }
        }
        Ok(())
    }

    // Where an allocation is refused it is asked again with memory. Lookers see what they saw before,
    // unless a list of calls has made some.
    fn answer_at_last(
        &mut self,
        rt: R,
        setting: Setting<'_>,
        asked: &str,
        told: &mut String<Room>,
    ) -> Result<()> {
        self.seen = sight(setting.texts, &mut self.lookers)?;
        self.before = self.receipts.len();
        let answered = self.answer(rt, setting, asked, told);
        if !matches!(answered, Err(RowFault::OutOfMemory)) {
            return answered;
        }
        setting.budget.lift();
        let is_new = self.receipts.len() > self.before;
        if !is_new && !is_seen(setting.texts, &mut self.lookers, self.seen.as_str())? {
            return Err(RowFault::Changed);
        }
        told.clear();
        self.answer(rt, setting, asked, told)
    }

    fn answer(
        &mut self,
        rt: R,
        setting: Setting<'_>,
        asked: &str,
        out: &mut String<Room>,
    ) -> Result<()> {
        let (word, rest) = first_word(asked);
        match word {
            "look" => look(setting, &mut self.lookers, rest, out),
            "forge" => forge(setting, &mut self.receipts, rest, out),
            "made" => tell_made(self.seats.as_slice(), rest, out),
            "drop" | "settle" | "settle_short" => self.end(setting, word, rest, out),
            _ => match &self.shared {
                Some(shared) => answer_by(
                    &rt,
                    setting,
                    shared,
                    &mut self.seats,
                    &mut self.lookers,
                    &mut self.receipts,
                    self.before,
                    asked,
                    out,
                ),
                None => Err(RowFault::NotSpelled),
            },
        }
    }

    // The guardian is dropped; or it is settled with all receipts, or those of these numbers, perhaps without a seat.
    fn end(
        &mut self,
        setting: Setting<'_>,
        word: &str,
        numbers: &str,
        out: &mut String<Room>,
    ) -> Result<()> {
        if word == "drop" {
            self.shared = None;
            return tell("done", out);
        }
        if word == "settle_short" {
            self.left_out = self.seats.pop();
        }
        name_receipts(
            setting.texts,
            self.receipts.as_slice(),
            numbers,
            &mut self.named,
        )?;
        self.settle(setting.texts, out)
    }

    fn settle(&mut self, texts: Heap, out: &mut String<Room>) -> Result<()> {
        let Some(shared) = self.shared.take() else {
            return Err(RowFault::NotSpelled);
        };
        let seats = replace(&mut self.seats, Vec::new(texts.room()));
        match shared.settle(seats, self.named.as_slice()) {
            Ok(guardian) => {
                self.guardian = guardian;
                tell("done", out)
            }
            Err(unsettled) => self.keep(unsettled, out),
        }
    }

    fn keep(&mut self, unsettled: Unsettled<N, R>, out: &mut String<Room>) -> Result<()> {
        let Unsettled {
            fault,
            shared,
            seats,
        } = unsettled;
        self.shared = Some(shared);
        self.seats = seats;
        if let Some(seat) = self.left_out.take() {
            // There was room for it before.
            let _ = self.seats.push(seat);
        }
        match fault {
            SettleFault::OutOfMemory => Err(RowFault::OutOfMemory),
            SettleFault::NotThere(_)
            | SettleFault::Twice(_)
            | SettleFault::Count { .. }
            | SettleFault::Folded(_) => tell(fault, out),
        }
    }
}

// A row that the shared guardian answers.
fn answer_by<N: Sharing + Send + Sync, R: Host>(
    rt: &R,
    setting: Setting<'_>,
    shared: &Shared<N, R>,
    seats: &mut Vec<Seat<N>, Room>,
    lookers: &mut Vec<Looker<N>, Room>,
    receipts: &mut Vec<Receipt, Room>,
    before: usize,
    asked: &str,
    out: &mut String<Room>,
) -> Result<()> {
    let (word, rest) = first_word(asked);
    match word {
        "while" => wait(rt, setting, shared, seats, receipts, rest, out),
        "run" => run(rt, setting, shared, seats, receipts, rest, out),
        "brief" => brief(rt, shared, lookers, rest, out),
        "refresh" => tell_shown(shared.refresh(rt), out),
        "checkpoint" => tell_checkpoint(shared.checkpoint(rt), out),
        _ => call(rt, setting, shared, seats, receipts, before, asked, out),
    }
}

// `3 commit a3, abort a4`: seat 1 waits for so many wake-ups, and seat 0 makes the others.
fn wait<N: Sharing + Send + Sync, R: Host>(
    rt: &R,
    setting: Setting<'_>,
    shared: &Shared<N, R>,
    seats: &mut [Seat<N>],
    receipts: &mut Vec<Receipt, Room>,
    text: &str,
    out: &mut String<Room>,
) -> Result<()> {
    let (patience, others) = first_word(text);
    let patience = patience.parse::<u32>()?;
    let [first, second] = seats else {
        return Err(RowFault::NotSpelled);
    };
    let waited = wait_meanwhile(
        rt, setting, shared, first, second, patience, others, receipts,
    );
    push_told(waited?, receipts, out)
}

// All seats run the test's script: `2 1000`.
fn run<N: Sharing + Send + Sync, R: Host>(
    rt: &R,
    setting: Setting<'_>,
    shared: &Shared<N, R>,
    seats: &mut [Seat<N>],
    receipts: &mut Vec<Receipt, Room>,
    words: &str,
    out: &mut String<Room>,
) -> Result<()> {
    match run_by_seats(rt, setting, shared, seats, words)? {
        Ok(report) => keep_report(report, receipts, out),
        Err(fault) => tell(fault, out),
    }
}

fn keep_report(
    report: RunReport,
    kept: &mut Vec<Receipt, Room>,
    out: &mut String<Room>,
) -> Result<()> {
    let RunReport { outcomes, receipts } = report;
    *kept = receipts;
    tell_run(kept.as_slice(), outcomes.as_slice(), out)
}

// What is pending is published, which the looker of this number sees then.
fn brief<N: Sharing, R: Host>(
    rt: &R,
    shared: &Shared<N, R>,
    lookers: &mut Vec<Looker<N>, Room>,
    number: &str,
    out: &mut String<Room>,
) -> Result<()> {
    let looker = lookers.get_mut(number.parse::<usize>()?);
    let looker = looker.ok_or(RowFault::NotSpelled)?;
    tell_shown(shared.brief(rt, looker), out)
}

// `seat 1 CALL`, or by seat 0.
fn call<N: Sharing, R: Host>(
    rt: &R,
    setting: Setting<'_>,
    shared: &Shared<N, R>,
    seats: &mut Vec<Seat<N>, Room>,
    receipts: &mut Vec<Receipt, Room>,
    before: usize,
    asked: &str,
    out: &mut String<Room>,
) -> Result<()> {
    let (number, text) = match asked.strip_prefix("seat ") {
        Some(rest) => first_word(rest),
        None => ("0", asked),
    };
    let seat = seats.get_mut(number.parse::<usize>()?);
    let seat = seat.ok_or(RowFault::NotSpelled)?;
    call_by_seat(rt, setting, shared, seat, text, before, receipts, out)
}

// What all lookers see of the first three objects.
fn sight<N: Sharing>(texts: Heap, lookers: &mut Vec<Looker<N>, Room>) -> Result<String<Room>> {
    let mut out = String::new(texts.room());
    for looker in lookers.iter_mut() {
        tell_look(looker, texts, &[ObjId(0), ObjId(1), ObjId(2)], &mut out)?;
    }
    Ok(out)
}

// Whether they see this.
fn is_seen<N: Sharing>(
    texts: Heap,
    lookers: &mut Vec<Looker<N>, Room>,
    before: &str,
) -> Result<bool> {
    let seen = sight(texts, lookers)?;
    Ok(seen.as_str() == before)
}

// `0 o0 o7`
fn look<N: Sharing>(
    setting: Setting<'_>,
    lookers: &mut Vec<Looker<N>, Room>,
    text: &str,
    out: &mut String<Room>,
) -> Result<()> {
    let (number, rest) = first_word(text);
    let objects = objects_of(setting.texts, rest)?;
    let number = number.parse::<usize>()?;
    let looker = lookers.get_mut(number).ok_or(RowFault::NotSpelled)?;
    tell_look(looker, setting.heap, objects.as_slice(), out)
}

// Adds what the looker finds in these objects.
fn tell_look<N: Sharing>(
    looker: &mut Looker<N>,
    heap: Heap,
    objects: &[ObjId],
    out: &mut String<Room>,
) -> Result<()> {
    match looker.look(heap, objects) {
        Ok(found) => {
            for content in &found {
                tell_content(content, out)?;
            }
            Ok(())
        }
        Err(LookFault::Memory) => Err(RowFault::OutOfMemory),
        Err(LookFault::Closed) => tell("closed", out),
    }
}

fn objects_of(texts: Heap, text: &str) -> Result<Vec<ObjId, Room>> {
    let mut objects = Vec::new(texts.room());
    for word in text.split(' ') {
        objects.push(object(word)?)?;
    }
    Ok(objects)
}

// `0 o5`: puts this reply into receipt 0.
fn forge(
    setting: Setting<'_>,
    receipts: &mut Vec<Receipt, Room>,
    text: &str,
    out: &mut String<Room>,
) -> Result<()> {
    let (number, rest) = first_word(text);
    let number = number.parse::<usize>()?;
    let receipt = receipts.get_mut(number).ok_or(RowFault::NotSpelled)?;
    receipt.reply = reply_of(setting.texts, rest)?;
    tell("done", out)
}

// How many calls the seat made.
fn tell_made<N: Sharing>(seats: &[Seat<N>], number: &str, out: &mut String<Room>) -> Result<()> {
    let seat = seats.get(number.parse::<usize>()?);
    tell(seat.ok_or(RowFault::NotSpelled)?.made(), out)
}

// Replaces the copies by those of the receipts of these numbers, or of all.
fn name_receipts(
    texts: Heap,
    receipts: &[Receipt],
    numbers: &str,
    named: &mut Vec<Receipt, Room>,
) -> Result<()> {
    named.clear();
    match numbers {
        "all" => copy_all(texts, receipts, named),
        "" => Ok(()),
        _ => copy_numbered(texts, receipts, numbers, named),
    }
}

fn copy_all(texts: Heap, receipts: &[Receipt], named: &mut Vec<Receipt, Room>) -> Result<()> {
    for receipt in receipts {
        named.push(copy_of(texts, receipt)?)?;
    }
    Ok(())
}

fn copy_numbered(
    texts: Heap,
    receipts: &[Receipt],
    numbers: &str,
    named: &mut Vec<Receipt, Room>,
) -> Result<()> {
    for number in numbers.split(' ') {
        let receipt = receipts.get(number.parse::<usize>()?);
        named.push(copy_of(texts, receipt.ok_or(RowFault::NotSpelled)?)?)?;
    }
    Ok(())
}

fn copy_of(texts: Heap, receipt: &Receipt) -> Result<Receipt> {
    receipt_of(texts, receipt.at, &receipt.call, &receipt.reply)
}
