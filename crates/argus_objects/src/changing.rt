//! A change of an object's version: in place if the action has one, otherwise on a copy.

ghost use Rattle.std.specs.Prelude.{◌≡◌, ◌≤◌, ◌+◌, false, true};
ghost use Rattle.argus_contents.specs.Answer.{done_or, plain_answer};
ghost use Rattle.argus_contents.specs.Change.{gives_value, plain_change};
ghost use Rattle.argus_contents.specs.Content.{KeepsLimits, plain_option};
ghost use Rattle.argus_objects.specs.Object.{spare_room, stack_of, versions_newest_first, writers};
ghost use Rattle.argus_objects.specs.Rules.{are_up_to, is_ascending};
ghost use Rattle.argus_objects.specs.CellChanges.{IsChangedOnTop, newest_content};

use crate::version::Version;
use crate::versions::reserve_version;
use argus_actions::ActionId;
use argus_contents::{Answer, Change, Content, Signal, alter, alter_by_reference, alter_in_place};
use argus_memory::{OutOfMemory, Room};

/// The content of the newest version, or the base.
pub(crate) fn content_on_top<'a>(
    base: &'a Option<Content>,
    versions: &'a [Version],
) -> &'a Option<Content>
    ensures { plain_option result.now ≡ newest_content (plain_option base.now)
        (versions_newest_first versions.now) }
{
    match versions.last() {
        Some(newest) => &newest.content,
        None => base,
    }
}

/// Changes the version of `a`, or pushes one for it: a changed copy of the content on top.
///
/// After `OutOfMemory` the versions are unchanged.
pub(crate) fn change_version(
    base: &Option<Content>,
    versions: &mut Vec<Version, Room>,
    a: ActionId,
    change: &Change,
) -> Result<Answer, OutOfMemory>
    requires ascending { is_ascending (writers versions.old.items) ≡ true }
    requires newest { are_up_to a (writers versions.old.items) ≡ true }
    requires limits { KeepsLimits (newest_content (plain_option base.now) (stack_of versions.old)) }
    ensures changed { IsChangedOnTop plain_answer a (plain_change change.now) (plain_option base.now)
        (stack_of versions.old) (stack_of versions.new) result }
    ensures room { spare_room versions.old ≤ spare_room versions.new + 1 }
{
    let held = versions.len();
    let heap = versions.allocator().heap();
    if held > 0 && versions[held - 1].holder.0 == a.0 {
        return alter_in_place(heap, &mut versions[held - 1].content, change);
    }
    let (content, answer) = alter(heap, content_on_top(base, versions.as_slice()), change)?;
    versions.push(Version { holder: a, content })?;
    Ok(answer)
}

/// [`change_version`] of a change that returns no value, and that the caller keeps: `None` if the
/// answer is `Done`, else the signal.
///
/// After `OutOfMemory` the versions are unchanged.
pub(crate) fn change_version_by_reference(
    base: &Option<Content>,
    versions: &mut Vec<Version, Room>,
    a: ActionId,
    change: &Change,
) -> Result<Option<Signal>, OutOfMemory>
    requires ascending { is_ascending (writers versions.old.items) ≡ true }
    requires newest { are_up_to a (writers versions.old.items) ≡ true }
    requires limits { KeepsLimits (newest_content (plain_option base.now) (stack_of versions.old)) }
    requires gives_none { gives_value (plain_change change.now) ≡ false }
    ensures changed { IsChangedOnTop done_or a (plain_change change.now) (plain_option base.now)
        (stack_of versions.old) (stack_of versions.new) result }
    ensures room { spare_room versions.old ≤ spare_room versions.new + 1 }
{
    let held = versions.len();
    let heap = versions.allocator().heap();
    if held > 0 && versions[held - 1].holder.0 == a.0 {
        return alter_by_reference(heap, &mut versions[held - 1].content, change);
    }
    reserve_version(versions)?;
    let mut content = Content::duplicate_option(heap, content_on_top(base, versions.as_slice()))?;
    let refusal = alter_by_reference(heap, &mut content, change)?;
    versions.push_reserved(Version { holder: a, content });
    Ok(refusal)
}
