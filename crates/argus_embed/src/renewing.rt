//! How a guardian starts over, with the same objects and action numbers from 0.

ghost use Rattle.std.specs.{Option.option_map, Prelude.{◌<◌, ◌↔◌, ◌≡◌, ◌⊎◌}, Result.result_err};
ghost use Rattle.std.specs.Prelude.{IfErr, IfOk, OnErr, OnOk, Some, false, map, slice_get, true};
ghost use Rattle.argus_embed.specs.Embedded.{IsBusy, IsFull, after_renewal, renewed};
ghost use Rattle.argus_embed.specs.declared.embed_error.EmbedError.TheVariants as error;
ghost use Rattle.argus_guardian.specs.Checkpoint.{is_quiet};
ghost use Rattle.argus_journal.specs.{Folding.fold, JournalView.next_entry, Opening.plain_object};
ghost use Rattle.argus_journal.specs.declared.limits.TheConstants.{MAX_FIRST_ENTRY};

use crate::embed_error::EmbedError;
use crate::embedded::Embedded;
use crate::laws::renewals_leave_listable;
use argus_guardian::Guardian;
use argus_guardian::resume_laws::guardians_are_listable;
use argus_journal::limits::MAX_FIRST_ENTRY;
use argus_values::{Content, Heap, ObjId, OutOfMemory, Room, Shape};
use std::mem::replace;

impl Embedded {
    /// Starts over: objects keep their numbers, their shapes and their bases, and entries their
    /// numbers; the next action is number 0 again. All that was journalled is folded away, as by a
    /// checkpoint. What is kept for the host stays.
    ///
    /// A guardian begins at most `MAX_ACTIONS` actions. A host that needs more renews it; from then
    /// on the number of an earlier action is that of another one, or of none.
    ///
    /// Errors, in this order: `Busy` if an action is live, `Full` if the next entry's number is
    /// above the greatest that a first entry may have, `OutOfMemory`. After an error nothing has
    /// changed.
    pub fn renew(&mut self) -> Result<(), EmbedError>
        ensures ok { OnOk result (self.new ≡ after_renewal self.old) }
        ensures busy { (result_err result ≡ Some error.Busy) ↔ IsBusy self.old }
        ensures full { (result_err result ≡ Some error.Full) ↔ IsFull self.old }
        ensures error { IfErr result (λ e. (e ≡ error.Busy) ⊎ (e ≡ error.Full)
            ⊎ (e ≡ error.OutOfMemory)) }
        ensures err { OnErr result (self.new ≡ self.old) }
    {
        guardians_are_listable(&self.guardian);
        renewals_leave_listable();
        let guardian = renewed(self.heap, &self.guardian)?;
        let _before = replace(&mut self.guardian, guardian);
        Ok(())
    }
}

/// A guardian that starts over where this one ends.
fn renewed(heap: Heap, guardian: &Guardian) -> Result<Guardian, EmbedError>
    ensures ok { IfOk result (λ next. next ≡ renewed guardian.now) }
    ensures busy { (result_err result ≡ Some error.Busy) ↔ (is_quiet guardian.now ≡ false) }
    ensures full { (result_err result ≡ Some error.Full) ↔ ((is_quiet guardian.now ≡ true)
        × (MAX_FIRST_ENTRY < next_entry guardian.now)) }
    ensures error { IfErr result (λ e. (e ≡ error.Busy) ⊎ (e ≡ error.Full)
        ⊎ (e ≡ error.OutOfMemory)) }
{
    if !is_quiet(guardian) {
        return Err(EmbedError::Busy);
    }
    let first_entry = guardian.journal().journal().len();
    if first_entry > MAX_FIRST_ENTRY {
        return Err(EmbedError::Full);
    }
    let objects = kept_objects(heap, guardian)?;
    Ok(Guardian::starting_at(heap, objects, 0, first_entry)?)
}

/// Whether no action is live.
fn is_quiet(guardian: &Guardian) -> bool
    ensures { result ≡ is_quiet guardian.now }
{
    guardian.live(0).is_none()
}

/// Copies of the objects: their shapes and bases.
fn kept_objects(
    heap: Heap,
    guardian: &Guardian,
) -> Result<Vec<(Shape, Option<Content>), Room>, OutOfMemory>
    ensures { IfOk result (λ objects. map plain_object objects.items
        ≡ (fold guardian.now.opening guardian.now.entries).objects) }
{
    let mut objects = Vec::new(heap.room());
    for o in 0..guardian.objects() {
        if let Some(object) = kept_object(heap, guardian, ObjId(o))? {
            objects.push(object)?;
        }
    }
    Ok(objects)
}

/// A copy of the object: its shape and its base. `None` if it isn't declared.
fn kept_object(
    heap: Heap,
    guardian: &Guardian,
    o: ObjId,
) -> Result<Option<(Shape, Option<Content>)>, OutOfMemory>
    ensures { IfOk result (λ object. option_map plain_object object
        ≡ slice_get (fold guardian.now.opening guardian.now.entries).objects o.0) }
{
    let Some(shape) = guardian.shape(o) else {
        return Ok(None);
    };
    let Some(base) = guardian.base(o) else {
        return Ok(None);
    };
    let shape = shape.duplicate(heap)?;
    let base = Content::duplicate_option(heap, base)?;
    Ok(Some((shape, base)))
}
