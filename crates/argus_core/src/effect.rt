//! What an action would leave for good, before it commits.

ghost use Rattle.std.specs.{Option.{option_map, unwrap_or}, Prelude.{◌<◌, ◌∷◌, ◌≡◌}};
ghost use Rattle.std.specs.Prelude.{All, IfOk, None, OnOk, [], if◌then◌else◌, length, map, ◌++◌};
ghost use Rattle.argus_contents.specs.{Content.plain_option, Effect.plain_effect};
ghost use Rattle.argus_core.specs.Effect.{effect_if_live, version_in, written_in};
ghost use Rattle.argus_core.specs.Moving.{AreThere};
ghost use Rattle.argus_core.specs.GuardianState.{StateInvariant, journal_view_of};
ghost use Rattle.argus_core.specs.declared.engine.atomic_object.AtomicObject.{AtomicObject};
ghost use Rattle.argus_objects.specs.CellChanges.{has_version, version_of};
ghost use Rattle.argus_objects.specs.Object.{versions_newest_first};

use crate::engine::atomic_object::AtomicObject;
use crate::engine::discarding::is_live;
use crate::engine::guardian_state::GuardianState;
use crate::guardian::Guardian;
use argus_actions::ActionId;
use argus_contents::{Content, ObjId};
use argus_memory::{Heap, OutOfMemory, Room};
use argus_objects::Version;

impl Guardian {
    /// What a live action would leave for good if it and all its ancestors committed now: each
    /// object that it or a committed subaction has written, in increasing number, with what it sees
    /// there. `None` if the action isn't live. Nothing changes. `OutOfMemory`: there was no memory
    /// for the list or for the copies in it.
    ///
    /// Source: at a topaction's commit its versions become the bases (Argus Reference Manual,
    /// MIT/LCS/TR-400, 1987).
    pub fn effect(
        &self,
        a: ActionId,
    ) -> Result<Option<Vec<(ObjId, Option<Content>), Room>>, OutOfMemory>
        ensures { IfOk result (λ effect. option_map (λ pairs. plain_effect pairs.items) effect
            ≡ effect_if_live self.now a.0) }
    {
        effect_in(&self.state, a)
    }
}

/// The same of a guardian's state.
pub(crate) fn effect_in(
    state: &GuardianState,
    a: ActionId,
) -> Result<Option<Vec<(ObjId, Option<Content>), Room>>, OutOfMemory>
    requires { StateInvariant state.now }
    ensures { IfOk result (λ effect. option_map (λ pairs. plain_effect pairs.items) effect
        ≡ effect_if_live (journal_view_of state.now) a.0) }
{
    if !is_live(&state.tree, a) {
        return Ok(None);
    }
    let objects = state.objects.as_slice();
    let mut numbers = written_numbers(state.heap, objects, state.holdings.of(a), a)?;
    numbers.sort()?;
    let effect = contents_of(state.heap, objects, numbers.as_slice(), a)?;
    Ok(Some(effect))
}

/// The numbers of the objects on the list of which the action has a version.
fn written_numbers(
    heap: Heap,
    objects: &[AtomicObject],
    listed: &[ObjId],
    a: ActionId,
) -> Result<Vec<u32, Room>, OutOfMemory>
    requires { AreThere listed.now (length objects.now) }
    ensures { (d : AtomicObject) → IfOk result (λ numbers. numbers.items
        ≡ written_in a objects.now d listed.now) }
{
    let mut numbers = Vec::new(heap.room());
    for o in listed {
        let object = &objects[o.0 as usize];
        add_if_written(&mut numbers, object, *o, a)?;
    }
    Ok(numbers)
}

/// Adds the object's number if the action has a version of it.
fn add_if_written(
    numbers: &mut Vec<u32, Room>,
    object: &AtomicObject,
    o: ObjId,
    a: ActionId,
) -> Result<(), OutOfMemory>
    ensures { OnOk result (numbers.new.items ≡ numbers.old.items
        ++ (if has_version a object.now.cell.versions then o.0 ∷ [] else [])) }
{
    if is_writer(object.cell.versions(), a) {
        numbers.push(o.0)?;
    }
    Ok(())
}

/// Whether the action has a version.
fn is_writer(versions: &[Version], a: ActionId) -> bool
    ensures { result ≡ has_version a (versions_newest_first versions.now) }
{
    version_of(versions, a).is_some()
}

/// The content of the action's version, if it has one.
fn version_of(versions: &[Version], a: ActionId) -> Option<&Option<Content>>
    ensures { option_map (λ content. plain_option content.now) result
        ≡ version_of a (versions_newest_first versions.now) }
{
    match versions.split_last() {
        None => None,
        Some((newest, older)) => {
            if newest.holder == a {
                Some(&newest.content)
            } else {
                version_of(older, a)
            }
        }
    }
}

/// These objects, each with the content of the action's version of it.
fn contents_of(
    heap: Heap,
    objects: &[AtomicObject],
    numbers: &[u32],
    a: ActionId,
) -> Result<Vec<(ObjId, Option<Content>), Room>, OutOfMemory>
    requires { All (λ o. o < length objects.now) numbers.now }
    ensures { (d : AtomicObject) → IfOk result (λ pairs. plain_effect pairs.items
        ≡ map (λ o. (o, version_in a objects.now d o)) numbers.now) }
{
    let mut contents = Vec::new(heap.room());
    for number in numbers {
        let object = &objects[*number as usize];
        let content = version_content(heap, object.cell.versions(), a)?;
        contents.push((ObjId(*number), content))?;
    }
    Ok(contents)
}

/// A copy of the content of the action's version, absent if it has none.
fn version_content(
    heap: Heap,
    versions: &[Version],
    a: ActionId,
) -> Result<Option<Content>, OutOfMemory>
    ensures { IfOk result (λ content. plain_option content
        ≡ unwrap_or (version_of a (versions_newest_first versions.now)) None) }
{
    match version_of(versions, a) {
        Some(content) => Content::duplicate_option(heap, content),
        None => Ok(None),
    }
}
