//! `Kept`: a guardian whose journal a log keeps.

ghost use Rattle.std.specs.Prelude.{◌≡◌, IfOk, IfSome, IsTrue, OnErr, OnOk, string_bytes};
ghost use Rattle.sqlite.specs.{State.HasCleanDisk, Held.state};
ghost use Rattle.argus_journal.specs.{Call.{commit, plain_call}, Reply.plain_reply};
ghost use Rattle.argus_journal.specs.JournalView.{after, reply_to};
ghost use Rattle.argus_guardian.specs.JournalText.{journal_text};
ghost use Rattle.argus_store.specs.{Chain.{IsChained, listing_of}, End.EndsAt, Journal.Journal, Store.HasLog};
ghost use Rattle.argus_store.specs.Kept.{HasAll, IsAcknowledged, IsKept, LeavesFront};

use crate::appending::append_ready;
use crate::end::End;
use crate::entry_lines::entry_lines;
use crate::keep_error::KeepError;
use crate::store::Store;
use argus_actions::ActionId;
use argus_guardian::Guardian;
use argus_journal::{Call, Reply};
use argus_values::{Heap, OutOfMemory, Room};
use sqlite::Alter;
use std::marker::Model;
use std::mem::replace;

/// A guardian, and the log that has its journal: all of it when a commit has returned `Ok`.
///
/// ```text
/// let mut bank = Kept::over(heap, Guardian::new(heap), store, name, end)?;
/// let begun = bank.call(Call::BeginTop)?;         // Reply::Begun(ActionId(0))
/// bank.commit(ActionId(0))?;                      // Ok: it is in the database
/// ```
#[derive(Drop)]
pub struct Kept<S: Alter> {
    heap: Heap,
    guardian: Guardian,
    store: Store<S>,
    name: String<Room>,
    end: End,
}

impl<S: Alter> Model for Kept<S> {
    ghost use Rattle.std.specs.Prelude.{string_bytes};
    ghost use Rattle.argus_store.specs.Kept.{KeptState, kept_code};

    ghost Value = { KeptState S };

    ghost coded = { kept_code S.code };

    ghost view = { λ k. record {
      journal = k.guardian;
      store = k.store;
      name = string_bytes k.name;
      end = k.end;
    } };
}

impl<S: Alter> Kept<S> {
    /// A guardian over the log of this name, which ends there. `None`: the log's next entry isn't
    /// the guardian's.
    pub fn over(
        heap: Heap,
        guardian: Guardian,
        store: Store<S>,
        name: String<Room>,
        end: End,
    ) -> Option<Kept<S>>
    where
        S: Drop,
        ensures over { IfSome result (λ kept. kept ≡ record {
          journal = guardian;
          store = store;
          name = string_bytes name;
          end = end;
        }) }
        ensures kept { (j : Journal) → HasLog (state S.Store store) j → IsChained j
            → EndsAt j (string_bytes name) end → listing_of j ≡ journal_text guardian
            → IfSome result (λ kept. HasAll S.Store kept j) }
    {
        if guardian.journal().journal().len() == end.next {
            Some(Kept {
                heap,
                guardian,
                store,
                name,
                end,
            })
        } else {
            None
        }
    }

    /// The guardian, for reading.
    pub fn guardian(&self) -> &Guardian
        ensures { result.now ≡ self.now.journal }
    {
        &self.guardian
    }

    /// Makes a call, as [`Guardian::call`] does. Its entry is in the log when the next commit is.
    pub fn call(&mut self, call: Call) -> Result<Reply, OutOfMemory>
        ensures log { (self.new.store ≡ self.old.store) × (self.new.name ≡ self.old.name)
            × (self.new.end ≡ self.old.end) }
        ensures reply { IfOk result (λ reply. plain_reply reply
            ≡ reply_to self.old.journal (plain_call call)) }
        ensures ok { OnOk result (self.new
            ≡ record self.old { journal = after self.old.journal (plain_call call) }) }
        ensures err { OnErr result (self.new ≡ self.old) }
        ensures kept { (j : Journal) → IsKept S.Store self.old j → IsKept S.Store self.new j }
    {
        self.guardian.call(call)
    }

    /// Commits an action, as [`Guardian::commit`] does, and returns when the log has that and all
    /// entries before it: then each crash leaves them there. A crash meanwhile leaves the log from
    /// before, or all of them. At an error the commit isn't made, and the log is as before, if it is
    /// still open; if it isn't, the next opening tells whether the log has the commit.
    pub fn commit(&mut self, action: ActionId) -> Result<Reply, KeepError>
        ensures reply { IfOk result (λ reply. plain_reply reply
            ≡ reply_to self.old.journal (commit action.0)) }
        ensures made { OnOk result (self.new.journal
            ≡ after self.old.journal (commit action.0)) }
        ensures unmade { OnErr result (self.new ≡ record self.old { store = self.new.store }) }
        ensures name { self.new.name ≡ self.old.name }
        ensures acknowledged { (j : Journal) → IsKept S.Store self.old j
            → HasCleanDisk (state S.Store self.new.store)
            → OnOk result (IsAcknowledged S.Store self.old.name self.old.end self.new j) }
        ensures failed { (j : Journal) → IsKept S.Store self.old j
            → HasCleanDisk (state S.Store self.new.store)
            → IsTrue (state S.Store self.new.store).is_open
            → OnErr result (IsKept S.Store self.new j) }
        ensures crash { (j : Journal) → IsKept S.Store self.old j
            → HasCleanDisk (state S.Store self.new.store)
            → LeavesFront S.Store self.old self.new.store
            (after self.old.journal (commit action.0)) j }
    {
        let lines = entry_lines(self.heap, self.guardian.journal().journal(), self.end.next)?;
        let guardian = replace(&mut self.guardian, Guardian::new(self.heap));
        let ready = match guardian.ready_commit(action) {
            Ok(ready) => ready,
            Err(guardian) => {
                self.guardian = guardian;
                return Err(KeepError::OutOfMemory);
            }
        };
        match append_ready(&mut self.store, self.name.as_str(), self.end, &ready, lines) {
            Ok(end) => {
                self.end = end;
                let (guardian, reply) = ready.make();
                self.guardian = guardian;
                Ok(reply)
            }
            Err(error) => {
                self.guardian = ready.cancel();
                Err(error)
            }
        }
    }

    /// The guardian, the store, and where its log ends.
    pub fn into_parts(self) -> (Guardian, Store<S>, End)
        ensures { (result.0 ≡ self.journal) × (result.1 ≡ self.store) × (result.2 ≡ self.end) }
    {
        let Kept {
            heap: _,
            guardian,
            store,
            name: _,
            end,
        } = self;
        (guardian, store, end)
    }
}
