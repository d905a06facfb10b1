//! How a host's questions are answered.

ghost use Rattle.std.specs.{Option.option_map, Prelude.{IfErr, IfOk, None, OnErr, ◌≡◌}};
ghost use Rattle.argus_embed.specs.Questions.{IsAnswerTo, IsText, IsUnanswered, IsFirstLive};
ghost use Rattle.argus_embed.specs.Questions.{IsStatus};
ghost use Rattle.argus_embed.specs.declared.embed_error.EmbedError.TheVariants.{NotThere};
ghost use Rattle.argus_guardian.specs.Statuses.{NoneLiveFrom, status_in};
ghost use Rattle.argus_journal.specs.{Call.{test_read, test_write}, Events.says_yes};
ghost use Rattle.argus_journal.specs.JournalView.{reply_to};

use crate::codes::{as_number, status_code};
use crate::counting::actions_begun;
use crate::embed_error::EmbedError;
use crate::embedded::Embedded;
use crate::journal_writing::{entry_text, listing_text};
use crate::kept_answer::KeptAnswer;
use crate::object_writing::{base_text, readers_text, shape_text, versions_text};
use crate::outcome::Outcome;
use crate::question::Question;
use argus_actions::ActionId;
use argus_values::{ObjId, Room};
use std::mem::replace;

impl Embedded {
    /// Answers a question, by what the journal says. A text is kept; nothing else changes.
    ///
    /// `NotThere` if the object isn't declared, the journal doesn't have the entry, the action
    /// wasn't begun, or no action from that number on is live; never of `CanRead` and `CanWrite`,
    /// which are false then. `OutOfMemory` comes only in place of a text that there is. After an
    /// error nothing has changed, and what was kept stays.
    pub fn answer_question(&mut self, question: Question) -> Result<Outcome, EmbedError>
        ensures told { IfOk result (λ outcome. IsAnswerTo question self.old self.new outcome) }
        ensures untold { IfErr result (λ e. IsUnanswered self.old.journal question e) }
        ensures err { OnErr result (self.new ≡ self.old) }
    {
        match question {
            Question::CanRead(a, o) => Ok(Outcome::Flag(self.may_read(a, o))),
            Question::CanWrite(a, o) => Ok(Outcome::Flag(self.may_write(a, o))),
            Question::Objects => Ok(Outcome::Number(i64::from(self.guardian.objects()))),
            Question::Actions => Ok(Outcome::Number(i64::from(actions_begun(&self.guardian)))),
            Question::Entries => {
                let entries = self.guardian.journal().journal().len();
                Ok(Outcome::Number(as_number(entries)))
            }
            Question::Base(o) => {
                let text = base_text(self.heap, &self.guardian, o)?;
                self.keep(text)
            }
            Question::Readers(o) => {
                let text = readers_text(self.heap, &self.guardian, o)?;
                self.keep(text)
            }
            Question::Versions(o) => {
                let text = versions_text(self.heap, &self.guardian, o)?;
                self.keep(text)
            }
            Question::Entry(at) => {
                let text = entry_text(self.heap, &self.guardian, at)?;
                self.keep(text)
            }
            Question::List(listing) => {
                let text = listing_text(self.heap, &self.guardian, listing)?;
                self.keep(Some(text))
            }
            Question::Shape(o) => {
                let text = shape_text(self.heap, &self.guardian, o)?;
                self.keep(text)
            }
            Question::Status(a) => self.tell_status(a),
            Question::Live(from) => self.tell_live(from),
            Question::FirstEntry => {
                let first = self.guardian.journal().journal().first_entry();
                Ok(Outcome::Number(as_number(first)))
            }
        }
    }

    fn tell_status(&self, a: ActionId) -> Result<Outcome, EmbedError>
        ensures told { IfOk result (λ outcome.
            IsStatus (status_in self.now.journal a.0) outcome) }
        ensures none { IfErr result (λ e.
            (e ≡ NotThere) × (status_in self.now.journal a.0 ≡ None)) }
    {
        match self.guardian.status(a) {
            Some(status) => Ok(Outcome::Number(status_code(status))),
            None => Err(EmbedError::NotThere),
        }
    }

    fn tell_live(&self, from: u32) -> Result<Outcome, EmbedError>
        ensures told { IfOk result (λ outcome. IsFirstLive self.now.journal from outcome) }
        ensures none { IfErr result (λ e. (e ≡ NotThere) × NoneLiveFrom self.now.journal from) }
    {
        match self.guardian.live(from) {
            Some(a) => Ok(Outcome::Action(a.0)),
            None => Err(EmbedError::NotThere),
        }
    }

    fn may_read(&self, a: ActionId, o: ObjId) -> bool
        ensures { result ≡ says_yes (reply_to self.now.journal (test_read a.0 o.0)) }
    {
        self.guardian.can_read(a, o)
    }

    fn may_write(&self, a: ActionId, o: ObjId) -> bool
        ensures { result ≡ says_yes (reply_to self.now.journal (test_write a.0 o.0)) }
    {
        self.guardian.can_write(a, o)
    }

    /// Keeps the text, if there is one.
    fn keep(&mut self, text: Option<Vec<u8, Room>>) -> Result<Outcome, EmbedError>
        ensures kept { IfOk result (λ outcome.
            IsText (option_map (λ t. t.items) text) self.old self.new outcome) }
        ensures none { IfErr result (λ e. (e ≡ NotThere) × (text ≡ None)) }
        ensures err { OnErr result (self.new ≡ self.old) }
    {
        match text {
            Some(text) => {
                let _before = replace(&mut self.kept, KeptAnswer::Text(text));
                Ok(Outcome::Text)
            }
            None => Err(EmbedError::NotThere),
        }
    }
}
