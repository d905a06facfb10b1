//! The answers of granted accesses, before anything is changed.

ghost use Rattle.std.specs.Prelude.{◌≡◌, ◌<◌, length, slice_index_or, true, IfOk, IfSome};
ghost use Rattle.argus_contents.specs.{Answer.plain_answer, Query.reply};
ghost use Rattle.argus_contents.specs.Change.{gives_value, outcome, plain_change};
ghost use Rattle.argus_contents.specs.SmallAnswer.{plain_small};
ghost use Rattle.argus_entries.specs.Reply.{answered, plain_reply};
ghost use Rattle.argus_core.specs.{Accessing.{CanAsk, seen_at}, Moving.AreLawful};
ghost use Rattle.argus_core.specs.declared.engine.atomic_object.AtomicObject.{AtomicObject};
ghost use Rattle.argus_objects.specs.Rules.{may_read, may_write};

use crate::engine::atomic_object::AtomicObject;
use argus_actions::{ActionId, ActionTree};
use argus_contents::{Answer, Change, ObjId, Query, SmallAnswer, ask, ask_small, removal_answer};
use argus_entries::Reply;
use argus_memory::{Heap, OutOfMemory};

/// The answer to a query of the object, at what the action sees there.
pub(crate) fn query_answer(
    heap: Heap,
    objects: &[AtomicObject],
    tree: &ActionTree,
    a: ActionId,
    o: ObjId,
    query: &Query,
) -> Result<Answer, OutOfMemory>
    requires { CanAsk tree.now objects.now a o }
    ensures { (d : AtomicObject) → IfOk result (λ answer. plain_answer answer
        ≡ reply query.now (seen_at tree.now a objects.now o.0 d)) }
{
    let object = &objects[o.0 as usize];
    ask(heap, object.cell.visible(tree, a), query)
}

/// The answer to a query of the object, at what the action sees there, if it takes no memory.
#[inline(always)]
pub(crate) fn small_answer(
    objects: &[AtomicObject],
    tree: &ActionTree,
    a: ActionId,
    o: ObjId,
    query: &Query,
) -> Option<SmallAnswer>
    requires { CanAsk tree.now objects.now a o }
    ensures { (d : AtomicObject) → IfSome result (λ small. plain_small small
        ≡ reply query.now (seen_at tree.now a objects.now o.0 d)) }
{
    let object = &objects[o.0 as usize];
    ask_small(object.cell.visible(tree, a), query)
}

/// The answer to a change that removes an item of the object, at what the action sees there.
pub(crate) fn answer_of_removal(
    heap: Heap,
    objects: &[AtomicObject],
    tree: &ActionTree,
    a: ActionId,
    o: ObjId,
    change: &Change,
) -> Result<Answer, OutOfMemory>
    requires gives { gives_value (plain_change change.now) ≡ true }
    requires ready { CanAsk tree.now objects.now a o }
    ensures { (d : AtomicObject) → IfOk result (λ answer. plain_answer answer
        ≡ (outcome (plain_change change.now) (seen_at tree.now a objects.now o.0 d)).1) }
{
    let object = &objects[o.0 as usize];
    removal_answer(heap, object.cell.visible(tree, a), change)
}

/// A reply with this answer, and its duplicate: one for the caller, one for the journal.
pub(crate) fn reply_twice(heap: Heap, answer: Answer) -> Result<(Reply, Reply), OutOfMemory>
    ensures first { IfOk result (λ pair. plain_reply pair.0 ≡ answered (plain_answer answer)) }
    ensures second { IfOk result (λ pair. plain_reply pair.1 ≡ answered (plain_answer answer)) }
{
    let reply = Reply::Answered(answer);
    let again = reply.duplicate(heap)?;
    Ok((reply, again))
}

/// Whether the action may have the object's read lock.
pub(crate) fn is_readable(
    objects: &[AtomicObject],
    tree: &ActionTree,
    a: ActionId,
    o: ObjId,
) -> bool
    requires lawful { AreLawful tree.now objects.now }
    requires low { o.0 < length objects.now }
    ensures { (d : AtomicObject)
        → result ≡ may_read tree.now (slice_index_or objects.now o.0 d).cell a }
{
    let object = &objects[o.0 as usize];
    object.cell.is_readable(tree, a)
}

/// Whether the action may have the object's write lock.
pub(crate) fn is_writable(
    objects: &[AtomicObject],
    tree: &ActionTree,
    a: ActionId,
    o: ObjId,
) -> bool
    requires lawful { AreLawful tree.now objects.now }
    requires low { o.0 < length objects.now }
    ensures { (d : AtomicObject)
        → result ≡ may_write tree.now (slice_index_or objects.now o.0 d).cell a }
{
    let object = &objects[o.0 as usize];
    object.cell.is_writable(tree, a)
}
