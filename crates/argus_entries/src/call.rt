//! `Call`: what a guardian is asked to do.

ghost use Rattle.std.specs.Prelude.{◌≡◌, ◌↔◌, true, IfOk};
ghost use Rattle.argus_contents.specs.Decided.{said_equivalence};
ghost use Rattle.argus_entries.specs.{Call.plain_call, Decided.call_decided, Same.same_call};

use argus_actions::ActionId;
use argus_contents::{Change, ObjId, Query, Shape};
use argus_memory::{Heap, OutOfMemory};

/// What a guardian is asked to do.
///
/// | Call | What it asks for |
/// |---|---|
/// | `Declare` | an object of this shape, without content; it belongs to no action and stays |
/// | `BeginTop` | a topaction |
/// | `BeginSub` | a subaction of this parent |
/// | `BeginNested` | a topaction that this creator begins: it has no privilege from its creator |
/// | `Commit`, `Abort` | an end of this action |
/// | `AbortOthers` | an end of all live siblings of this action: other actions with the same parent
/// or creator |
/// | `Ask`, `Alter` | a query, a change of this object by this action |
/// | `TestRead`, `TestWrite` | whether the action may have the lock, and the lock if it may |
///
/// It is stored inline except for what is in a box: texts, lists, the value of a choice and the
/// content of a `Create`. A call without any of these takes no memory.
///
/// Source: actions, `enter` and the tests of locks of the Argus Reference Manual (MIT/LCS/TR-400,
/// 1987).
///
/// ```text
/// let set = Call::Alter(ActionId(1), ObjId(0), Change::SetField(0, Value::Int(1)));
/// let get = Call::Ask(ActionId(1), ObjId(0), Query::Field(0));
/// ```
#[derive(Debug, Drop)]
pub enum Call {
    Declare(Shape),
    BeginTop,
    BeginSub(ActionId),
    BeginNested(ActionId),
    Commit(ActionId),
    Abort(ActionId),
    AbortOthers(ActionId),
    Ask(ActionId, ObjId, Query),
    Alter(ActionId, ObjId, Change),
    TestRead(ActionId, ObjId),
    TestWrite(ActionId, ObjId),
}

// A tag, an action, an object and the widest of the rest: a change.
const _: () = prove!(size_of::<Call>() == 56);

impl Call {
    /// A call equal to this one. `OutOfMemory`: nothing was copied.
    pub fn duplicate(&self, heap: Heap) -> Result<Call, OutOfMemory>
        ensures { IfOk result (λ copy. plain_call copy ≡ plain_call self.now) }
    {
        match self {
            Call::Declare(shape) => Ok(Call::Declare(shape.duplicate(heap)?)),
            Call::BeginTop => Ok(Call::BeginTop),
            Call::BeginSub(parent) => Ok(Call::BeginSub(*parent)),
            Call::BeginNested(creator) => Ok(Call::BeginNested(*creator)),
            Call::Commit(a) => Ok(Call::Commit(*a)),
            Call::Abort(a) => Ok(Call::Abort(*a)),
            Call::AbortOthers(a) => Ok(Call::AbortOthers(*a)),
            Call::Ask(a, o, query) => Ok(Call::Ask(*a, *o, *query)),
            Call::Alter(a, o, change) => Ok(Call::Alter(*a, *o, change.duplicate(heap)?)),
            Call::TestRead(a, o) => Ok(Call::TestRead(*a, *o)),
            Call::TestWrite(a, o) => Ok(Call::TestWrite(*a, *o)),
        }
    }
}

impl PartialEq for Call {
    ghost eq = { λ a b. same_call (plain_call a) (plain_call b) };

    ghost laws = { said_equivalence plain_call same_call call_decided };

    /// Whether both say the same. It takes no memory.
    fn eq(&self, other: &Call) -> bool
        ensures { (result ≡ true) ↔ (plain_call self.now ≡ plain_call other.now) }
    {
        is_same(self, other)
    }
}

pub(crate) fn is_same(a: &Call, b: &Call) -> bool
    ensures { result ≡ same_call (plain_call a.now) (plain_call b.now) }
{
    match (a, b) {
        (Call::Declare(s), Call::Declare(t)) => s == t,
        (Call::BeginTop, Call::BeginTop) => true,
        (Call::BeginSub(x), Call::BeginSub(y)) => x == y,
        (Call::BeginNested(x), Call::BeginNested(y)) => x == y,
        (Call::Commit(x), Call::Commit(y)) => x == y,
        (Call::Abort(x), Call::Abort(y)) => x == y,
        (Call::AbortOthers(x), Call::AbortOthers(y)) => x == y,
        (Call::Ask(x, o, q), Call::Ask(y, p, r)) => x == y && o == p && q == r,
        (Call::Alter(x, o, c), Call::Alter(y, p, d)) => x == y && o == p && c == d,
        (Call::TestRead(x, o), Call::TestRead(y, p)) => x == y && o == p,
        (Call::TestWrite(x, o), Call::TestWrite(y, p)) => x == y && o == p,
        _ => false,
    }
}
