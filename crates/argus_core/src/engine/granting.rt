//! How a granted access takes its lock: first it gets everything that can run out, then it takes
//! the lock. The cell says whether the action holds the object already, so a holder's list isn't
//! touched.

ghost use Rattle.std.specs.Prelude.{◌≡◌, ◌<◌, false, length, IfOk, OnErr, OnOk, slice_index_or};
ghost use Rattle.std.specs.Prelude.{true};
ghost use Rattle.argus_contents.specs.{Answer.done_or, Change.{gives_value, outcome, plain_change}};
ghost use Rattle.argus_core.specs.Accessing.{CanAlter, HasReadRoom, HasListRoom, IsAccessed};
ghost use Rattle.argus_core.specs.Accessing.{IsAltered, IsAsBefore, IsFree, IsListedIfHeld, seen_at};
ghost use Rattle.argus_core.specs.Moving.{AreLawful, IsRead};
ghost use Rattle.argus_core.specs.GuardianState.{StateInvariant, journal_view_of};
ghost use Rattle.argus_core.specs.declared.engine.atomic_object.AtomicObject.{AtomicObject};
ghost use Rattle.argus_journal.specs.LegalJournal.{room_in};
ghost use Rattle.argus_objects.specs.Holdings.{Lists, SameLists, TakesOnePlace, noted};
ghost use Rattle.argus_objects.specs.{Holdings.objects_held_by, Rules.may_read};

use crate::engine::atomic_object::AtomicObject;
use crate::engine::guardian_state::GuardianState;
use argus_actions::{ActionId, ActionTree};
use argus_contents::{Change, ObjId, Signal};
use argus_memory::OutOfMemory;
use argus_objects::Holdings;

/// Makes room for one more object on the action's list, unless the action holds the object, and
/// says whether it is new.
#[inline(always)]
fn reserve_list(
    objects: &[AtomicObject],
    holdings: &mut Holdings,
    tree: &ActionTree,
    a: ActionId,
    o: ObjId,
) -> Result<bool, OutOfMemory>
    requires low { o.0 < length objects.now }
    requires granted { (d : AtomicObject)
        → may_read tree.now (slice_index_or objects.now o.0 d).cell a ≡ true }
    requires listed { IsListedIfHeld objects.now holdings.old a o }
    ensures same { SameLists holdings.old holdings.new }
    ensures ok { IfOk result (λ is_new. HasListRoom holdings.new a o is_new) }
{
    let object = &objects[o.0 as usize];
    if object.cell.is_held_by(tree, a) {
        return Ok(false);
    }
    holdings.reserve(a)?;
    Ok(true)
}

/// Puts the object on the action's list, if it is new there.
#[inline(always)]
pub(crate) fn note_if(is_new: bool, holdings: &mut Holdings, a: ActionId, o: ObjId)
    requires { HasListRoom holdings.old a o is_new }
    ensures list { Lists holdings.old a (noted o (objects_held_by holdings.old a)) holdings.new }
    ensures rooms { TakesOnePlace holdings.old a holdings.new }
{
    if is_new {
        holdings.note_new(a, o);
    }
}

/// Makes room for one more reader of the object, and for the object on the action's list, and says
/// whether it is new there. It makes no room for a version.
#[inline(always)]
fn reserve_read(
    objects: &mut [AtomicObject],
    holdings: &mut Holdings,
    tree: &ActionTree,
    a: ActionId,
    o: ObjId,
) -> Result<bool, OutOfMemory>
    requires low { o.0 < length objects.old }
    requires granted { (d : AtomicObject)
        → may_read tree.now (slice_index_or objects.old o.0 d).cell a ≡ true }
    requires listed { IsListedIfHeld objects.old holdings.old a o }
    ensures same { IsAsBefore o objects.old objects.new holdings.old holdings.new }
    ensures ok { IfOk result (λ is_new. HasReadRoom objects.new holdings.new a o is_new) }
    ensures version_room { (d : AtomicObject)
        → (slice_index_or objects.new o.0 d).cell.version_room
        ≡ (slice_index_or objects.old o.0 d).cell.version_room }
{
    let is_new = reserve_list(objects, holdings, tree, a, o)?;
    let object = &mut objects[o.0 as usize];
    object.cell.reserve_read()?;
    Ok(is_new)
}

/// Makes room for all that a granted read of the object needs, and says whether the object is new
/// on the action's list.
#[inline(always)]
pub(crate) fn reserve_granted_read(
    state: &mut GuardianState,
    a: ActionId,
    o: ObjId,
) -> Result<bool, OutOfMemory>
    requires kept { StateInvariant state.old }
    requires free { IsFree state.old.tree state.old.objects.items a o
        (λ cell. may_read state.old.tree cell a) }
    ensures kept { StateInvariant state.new }
    ensures journal { journal_view_of state.new ≡ journal_view_of state.old }
    ensures place { OnOk result (0 < room_in state.new.journal) }
    ensures room { IfOk result (λ is_new.
        HasReadRoom state.new.objects.items state.new.holdings a o is_new) }
{
    state.journal.reserve()?;
    let objects = state.objects.as_mut_slice();
    reserve_read(objects, &mut state.holdings, &state.tree, a, o)
}

/// Makes an action a reader of the object, which is noted on its list if it is new there.
#[inline(always)]
pub(crate) fn grant_read(
    objects: &mut [AtomicObject],
    holdings: &mut Holdings,
    tree: &ActionTree,
    a: ActionId,
    o: ObjId,
    is_new: bool,
)
    requires lawful { AreLawful tree.now objects.old }
    requires free { IsFree tree.now objects.old a o (λ cell. may_read tree.now cell a) }
    requires room { HasReadRoom objects.old holdings.old a o is_new }
    ensures { IsAccessed (IsRead tree.now a) a o objects.old objects.new holdings.old holdings.new }
{
    let object = &mut objects[o.0 as usize];
    object.cell.grant_read(tree, a);
    note_if(is_new, holdings, a, o);
}

/// Makes a change that returns no value in an action's version of the object, and notes the object
/// on its list: in place if the action has a version, otherwise on a copy. `None` if it was made,
/// else the signal.
#[inline(always)]
pub(crate) fn grant_change(
    objects: &mut [AtomicObject],
    holdings: &mut Holdings,
    tree: &ActionTree,
    a: ActionId,
    o: ObjId,
    change: &Change,
) -> Result<Option<Signal>, OutOfMemory>
    requires ready { CanAlter tree.now objects.old holdings.old a o }
    requires gives_none { gives_value (plain_change change.now) ≡ false }
    ensures ok { OnOk result (IsAccessed (IsAltered tree.now a (plain_change change.now)) a o
        objects.old objects.new holdings.old holdings.new) }
    ensures answer { (d : AtomicObject) → IfOk result (λ refusal. done_or refusal
        ≡ (outcome (plain_change change.now) (seen_at tree.now a objects.old o.0 d)).1) }
    ensures err { OnErr result (IsAsBefore o objects.old objects.new holdings.old holdings.new) }
{
    let is_new = reserve_list(objects, holdings, tree, a, o)?;
    let object = &mut objects[o.0 as usize];
    let refusal = object.cell.grant_change_by_reference(tree, a, change)?;
    note_if(is_new, holdings, a, o);
    Ok(refusal)
}

/// [`grant_change`] of any change, whose answer is already computed.
pub(crate) fn grant_removal(
    objects: &mut [AtomicObject],
    holdings: &mut Holdings,
    tree: &ActionTree,
    a: ActionId,
    o: ObjId,
    change: &Change,
) -> Result<(), OutOfMemory>
    requires { CanAlter tree.now objects.old holdings.old a o }
    ensures ok { OnOk result (IsAccessed (IsAltered tree.now a (plain_change change.now)) a o
        objects.old objects.new holdings.old holdings.new) }
    ensures err { OnErr result (IsAsBefore o objects.old objects.new holdings.old holdings.new) }
{
    let is_new = reserve_list(objects, holdings, tree, a, o)?;
    let object = &mut objects[o.0 as usize];
    object.cell.grant_change(tree, a, change)?;
    note_if(is_new, holdings, a, o);
    Ok(())
}
