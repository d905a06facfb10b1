//! Work on the versions of a cell, which go from ancestor to descendant.

ghost use Rattle.std.specs.Prelude.{◌≡◌, ◌<◌, ◌≤◌, ◌==◌, ◌+◌, ◌-◌, true, length, map, nat_lt, take};
ghost use Rattle.std.specs.{Prelude.{vec_len, OnOk}, List.{list_all, list_any}, Vec.vec_capacity};
ghost use Rattle.std.specs.Option.{option_map, unwrap_or};
ghost use Rattle.argus_contents.specs.Content.{plain_option};
ghost use Rattle.argus_objects.specs.Object.{holders, plain_version, spare_room, stack_of};
ghost use Rattle.argus_objects.specs.{Object.{versions_newest_first, writers}, Rules.{is_chain, is_strictly_above}};
ghost use Rattle.argus_objects.specs.Rules.{all_above, are_related, are_up_to, is_ascending};
ghost use Rattle.argus_objects.specs.CellChanges.{version_inherited, version_of, with_version};
ghost use Rattle.argus_objects.specs.CellChanges.{without_version, versions_inherited};

use crate::version::Version;
use argus_actions::{ActionId, ActionTree};
use argus_contents::Content;
use argus_memory::{OutOfMemory, Room};

pub(crate) fn has_version(versions: &[Version], a: ActionId) -> bool
    ensures { result ≡ list_any (λ v. v.holder.0 == a.0) versions.now }
{
    versions.iter().any(|version| version.holder == a)
}

/// Whether `a` has the newest version. Its caller knows that no holder is past `a`, so no other
/// version is its own.
#[inline(always)]
pub(crate) fn is_newest(versions: &[Version], a: ActionId) -> bool
    requires ascending { is_ascending (writers versions.now) ≡ true }
    requires newest { are_up_to a (writers versions.now) ≡ true }
    ensures { result ≡ list_any (λ v. v.holder.0 == a.0) versions.now }
{
    let held = versions.len();
    held > 0 && versions[held - 1].holder.0 == a.0
}

/// Whether all holders are ancestors of `a`. Each climb goes on where the last one ended, so all
/// cost no more than the depth of `a`.
#[inline(always)]
pub(crate) fn all_writers_above(versions: &[Version], tree: &ActionTree, a: ActionId) -> bool
    requires { is_ascending (writers versions.now) ≡ true }
    ensures { result ≡ all_above tree.now a (holders (versions_newest_first versions.now)) }
{
    let mut at = a;
    let mut left = versions.len();
    while left > 0 {
        left -= 1;
        let holder = versions[left].holder;
        if !tree.is_ancestor(holder, at) {
            return false;
        }
        at = holder;
    }
    true
}

/// Whether all holders are ancestors of `a`. Each is an ancestor of the next, so the newest
/// decides.
#[inline(always)]
pub(crate) fn is_newest_above(versions: &[Version], tree: &ActionTree, a: ActionId) -> bool
    requires { is_chain tree.now (holders (versions_newest_first versions.now)) ≡ true }
    ensures { result ≡ all_above tree.now a (holders (versions_newest_first versions.now)) }
{
    let held = versions.len();
    held == 0 || tree.is_ancestor(versions[held - 1].holder, a)
}

// Whether `a` is below all holders, and none of them.
fn is_below_all(versions: &[Version], tree: &ActionTree, a: ActionId) -> bool
    ensures { result ≡ list_all (λ v. is_strictly_above tree.now v.holder a) versions.now }
{
    versions.iter().all(|version| tree.is_ancestor(version.holder, a) && version.holder != a)
}

/// Whether each holder is another action than those before it, and below them all.
pub(crate) fn are_chained(versions: &[Version], tree: &ActionTree) -> bool
    ensures { result ≡ is_chain tree.now (holders (versions_newest_first versions.now)) }
{
    match versions.split_last() {
        None => true,
        Some((newest, older)) => {
            is_below_all(older, tree, newest.holder) && are_chained(older, tree)
        }
    }
}

/// Whether the action is an ancestor or a descendant of each holder.
fn is_related_to_all(versions: &[Version], tree: &ActionTree, x: ActionId) -> bool
    ensures { result ≡ list_all (λ v. are_related tree.now x v.holder) versions.now }
{
    versions.iter().all(|version| tree.is_ancestor(x, version.holder)
        || tree.is_ancestor(version.holder, x))
}

/// Whether each of these actions is an ancestor or a descendant of each holder.
pub(crate) fn are_all_related(readers: &[ActionId], versions: &[Version], tree: &ActionTree) -> bool
    ensures { result ≡ list_all (λ x. list_all (λ v. are_related tree.now x v.holder) versions.now)
        readers.now }
{
    readers
        .iter()
        .all(|reader| is_related_to_all(versions, tree, *reader))
}

/// Makes this the content of `a`'s version, which is pushed in the reserved room if `a` had none.
pub(crate) fn put_version(versions: &mut Vec<Version, Room>, a: ActionId, content: Option<Content>)
    requires room { vec_len versions.old < vec_capacity versions.old }
    requires ascending { is_ascending (writers versions.old.items) ≡ true }
    requires newest { are_up_to a (writers versions.old.items) ≡ true }
    ensures versions { stack_of versions.new
        ≡ with_version a (plain_option content) (stack_of versions.old) }
    ensures room { spare_room versions.old ≤ spare_room versions.new + 1 }
{
    let held = versions.len();
    if held > 0 && versions[held - 1].holder.0 == a.0 {
        versions[held - 1].content = content;
    } else {
        versions.push_reserved(Version { holder: a, content });
    }
}

// Looks for the version of `t` by halving, takes it out, and returns its content.
fn remove_version(versions: &mut Vec<Version, Room>, t: ActionId) -> Option<Option<Content>>
    requires { is_ascending (writers versions.old.items) ≡ true }
    ensures content { option_map plain_option result ≡ version_of t (stack_of versions.old) }
    ensures versions { stack_of versions.new ≡ without_version t (stack_of versions.old) }
    ensures room { spare_room versions.old ≤ spare_room versions.new }
{
    match versions.binary_search_by_key(&t.0, |version| version.holder.0) {
        Ok(at) => Some(versions.remove(at).content),
        Err(_) => None,
    }
}

/// Makes room for one more version, the first time for exactly one: most objects never have two
/// versions at once. Either way the versions stay, and no room is lost.
#[inline(always)]
pub(crate) fn reserve_version(versions: &mut Vec<Version, Room>) -> Result<(), OutOfMemory>
    ensures items { versions.new.items ≡ versions.old.items }
    ensures ok { OnOk result (vec_len versions.new < vec_capacity versions.new) }
    ensures capacity { vec_capacity versions.old ≤ vec_capacity versions.new }
{
    if versions.capacity() == 0 {
        versions.reserve_exact(1)?;
    } else {
        versions.reserve(1)?;
    }
    Ok(())
}

/// Takes the version of `t` out, and returns its content. It looks at the newest first.
#[inline(always)]
pub(crate) fn take_version(
    versions: &mut Vec<Version, Room>,
    t: ActionId,
) -> Option<Option<Content>>
    requires { is_ascending (writers versions.old.items) ≡ true }
    ensures content { option_map plain_option result ≡ version_of t (stack_of versions.old) }
    ensures versions { stack_of versions.new ≡ without_version t (stack_of versions.old) }
    ensures room { spare_room versions.old ≤ spare_room versions.new }
{
    let held = versions.len();
    if held > 0 && versions[held - 1].holder.0 == t.0 {
        return match versions.pop() {
            Some(newest) => Some(newest.content),
            None => None,
        };
    }
    remove_version(versions, t)
}

/// Makes the version of `t`, if it has one, the base.
#[inline(always)]
pub(crate) fn settle_version(
    base: &mut Option<Content>,
    versions: &mut Vec<Version, Room>,
    t: ActionId,
)
    requires { is_ascending (writers versions.old.items) ≡ true }
    ensures base { plain_option base.new ≡ unwrap_or
        (version_of t (stack_of versions.old)) (plain_option base.old) }
    ensures versions { stack_of versions.new ≡ without_version t (stack_of versions.old) }
    ensures room { spare_room versions.old ≤ spare_room versions.new }
{
    if let Some(content) = take_version(versions, t) {
        *base = content;
    }
}

fn drop_version(versions: &mut Vec<Version, Room>, a: ActionId)
    ensures versions { stack_of versions.new ≡ without_version a (stack_of versions.old) }
    ensures room { spare_room versions.old ≤ spare_room versions.new }
{
    versions.retain(|version| version.holder != a);
}

// Makes the versions of `s` the parent's.
fn inherit_holder(versions: &mut [Version], s: ActionId, parent: ActionId)
    ensures { map plain_version versions.new ≡ map (version_inherited s parent)
        (map plain_version versions.old) }
{
    for version in versions.iter_mut() {
        if version.holder.0 == s.0 {
            version.holder = parent;
        }
    }
}

// Looks for the version of `s`, and makes it, if there is one, the parent's only one.
fn hand_over(versions: &mut Vec<Version, Room>, s: ActionId, parent: ActionId)
    ensures versions { stack_of versions.new ≡ versions_inherited s parent (stack_of versions.old) }
    ensures room { spare_room versions.old ≤ spare_room versions.new }
{
    if has_version(versions.as_slice(), s) {
        drop_version(versions, parent);
        inherit_holder(versions.as_mut_slice(), s, parent);
    }
}

// Whether the parent is past all holders but the newest: it is past the one below the newest.
#[inline(always)]
fn is_past_older(versions: &[Version], parent: ActionId) -> bool
    requires { is_ascending (writers versions.now) ≡ true }
    ensures { result ≡ list_all (λ v. nat_lt v.holder.0 parent.0)
        (take (length versions.now - 1) versions.now) }
{
    let held = versions.len();
    held < 2 || versions[held - 2].holder.0 < parent.0
}

/// Makes the version of `s`, if it has one, the parent's only one. If it is the newest, and the one
/// below isn't the parent's, only its holder changes.
#[inline(always)]
pub(crate) fn inherit_version(versions: &mut Vec<Version, Room>, s: ActionId, parent: ActionId)
    requires { is_ascending (writers versions.old.items) ≡ true }
    ensures versions { stack_of versions.new ≡ versions_inherited s parent (stack_of versions.old) }
    ensures room { spare_room versions.old ≤ spare_room versions.new }
{
    let held = versions.len();
    if held > 0
        && versions[held - 1].holder.0 == s.0
        && parent.0 < s.0
        && is_past_older(versions.as_slice(), parent)
    {
        versions[held - 1].holder = parent;
    } else {
        hand_over(versions, s, parent);
    }
}
