//! `Change`: an operation that changes a content.

ghost use Rattle.std.specs.Prelude.{◌≡◌, ◌↔◌, true, IfOk};
ghost use Rattle.argus_contents.specs.Change.{create, gives_value, plain_change};
ghost use Rattle.argus_contents.specs.{Content.plain_content, Same.same_change};
ghost use Rattle.argus_contents.specs.Decided.{said_equivalence, change_decided};

use crate::content::{self, Content};
use crate::value::Value;
use argus_memory::{Heap, OutOfMemory, Room};

/// An operation that changes a content. It needs a write lock.
///
/// Fields and tags are numbers from 0, in the order of the shape's names. Below, `high` is
/// `low + size - 1`. A signal leaves the content unchanged; if several are named, the first that
/// applies is returned. Every change except `Create` and `Touch` signals `Absent` on an absent
/// content, and on a content of another kind than its own.
///
/// | Change | Of | Effect | Answer |
/// |---|---|---|---|
/// | `Create(c)` | any | the content becomes `c` | `Done` |
/// | `SetField(i, v)` | a record | the field becomes `v` | `Done` |
/// | `Store(i, v)` | an array | the item becomes `v` | `Done` |
/// | `Addh(v)` | an array | `v` becomes the last | `Done` |
/// | `Addl(v)` | an array | `v` becomes the first and `low` falls by 1 | `Done` |
/// | `Remh` | an array | the last is removed | `Val` of it |
/// | `Reml` | an array | the first is removed and `low` rises by 1 | `Val` of it |
/// | `SetLow(i)` | an array | `low` becomes `i` | `Done` |
/// | `Trim(i, n)` | an array | what is from `i` on is kept, at most `n`; `low` becomes `i` | `Done`
/// |
/// | `ChangeTag(t, v)` | a variant | tag and value become these | `Done` |
/// | `Touch` | any, also absent | unchanged | `Done` |
///
/// | Change | Signals, in this order |
/// |---|---|
/// | `Create(c)` | `Exists` if there is a content |
/// | `SetField(i, v)` | `Absent` if there is no such field |
/// | `Store(i, v)` | `Bounds` if `i < low` or `i > high` |
/// | `Addh(v)` | `Limits` if there are 65,535 items or `low + size` is past the greatest bound |
/// | `Addl(v)` | `Limits` if there are 65,535 items or `low` is the least bound |
/// | `Remh` | `Bounds` if it is empty |
/// | `Reml` | `Bounds` if it is empty; `Limits` if `low` is the greatest bound |
/// | `SetLow(i)` | `Limits` if `i` isn't a bound, or `i + size - 1` is past the greatest bound |
/// | `Trim(i, n)` | `NegativeSize` if `n < 0` |
/// | | `Bounds` if `i < low` or `i > high + 1` |
/// | | `Limits` if `i` is past the greatest bound |
///
/// It can't be destructured outside this crate: take a part out by `&mut`, and leave an empty one.
///
/// Source: in the manner of the built-in atomic types of the Argus Reference Manual
/// (MIT/LCS/TR-400, 1987); the signals and their order are this project's own.
///
/// ```text
/// let answer = alter_in_place(heap, &mut content, &Change::Addh(Value::Int(5)))?;
/// ```
#[derive(Debug)]
pub enum Change {
    Create(Box<Content, Room>),
    SetField(u8, Value),
    Store(i64, Value),
    Addh(Value),
    Addl(Value),
    Remh,
    Reml,
    SetLow(i64),
    Trim(i64, i64),
    ChangeTag(u8, Value),
    Touch,
}

// Written by hand, so that dropping a change is one call; a derived `Drop` is expanded at each
// place.
impl Drop for Change {
    fn drop(self) {
        match self {
            Change::Create(_) => {}
            Change::SetField(_, _) | Change::ChangeTag(_, _) => {}
            Change::Store(_, _) => {}
            Change::Addh(_) | Change::Addl(_) => {}
            Change::Remh | Change::Reml | Change::Touch => {}
            Change::SetLow(_) | Change::Trim(_, _) => {}
        }
    }
}

impl Change {
    /// The change that makes this content. `OutOfMemory`: nothing is made, and the content is
    /// consumed.
    ///
    /// ```text
    /// let create = Change::create(heap, Content::Rec(vec![in heap.room(); Value::Int(5)]?))?;
    /// ```
    pub fn create(heap: Heap, content: Content) -> Result<Change, OutOfMemory>
        ensures { IfOk result (λ made. plain_change made ≡ create (plain_content content)) }
    {
        Ok(Change::Create(Box::new(heap.room(), content)?))
    }

    /// A change equal to this one. `OutOfMemory`: nothing was copied.
    pub fn duplicate(&self, heap: Heap) -> Result<Change, OutOfMemory>
        ensures { IfOk result (λ copy. plain_change copy ≡ plain_change self.now) }
    {
        match self {
            Change::Create(content) => Change::create(heap, content.duplicate(heap)?),
            Change::SetField(field, value) => Ok(Change::SetField(*field, value.duplicate(heap)?)),
            Change::Store(index, value) => Ok(Change::Store(*index, value.duplicate(heap)?)),
            Change::Addh(value) => Ok(Change::Addh(value.duplicate(heap)?)),
            Change::Addl(value) => Ok(Change::Addl(value.duplicate(heap)?)),
            Change::Remh => Ok(Change::Remh),
            Change::Reml => Ok(Change::Reml),
            Change::SetLow(bound) => Ok(Change::SetLow(*bound)),
            Change::Trim(from, count) => Ok(Change::Trim(*from, *count)),
            Change::ChangeTag(tag, value) => Ok(Change::ChangeTag(*tag, value.duplicate(heap)?)),
            Change::Touch => Ok(Change::Touch),
        }
    }

    /// Whether the change may return a value: only `Remh` and `Reml` may. Every other returns
    /// `Done` or a signal, and [`alter_by_reference`](crate::alter_by_reference) makes it.
    ///
    /// ```text
    /// assert_eq!(rt; Change::Remh.gives_value(), true);
    /// ```
    #[inline(always)]
    pub fn gives_value(&self) -> bool
        ensures { result ≡ gives_value (plain_change self.now) }
    {
        match self {
            Change::Remh | Change::Reml => true,
            Change::Create(_)
            | Change::SetField(_, _)
            | Change::Store(_, _)
            | Change::Addh(_)
            | Change::Addl(_)
            | Change::SetLow(_)
            | Change::Trim(_, _)
            | Change::ChangeTag(_, _)
            | Change::Touch => false,
        }
    }
}

impl PartialEq for Change {
    ghost eq = { λ a b. same_change (plain_change a) (plain_change b) };

    ghost laws = { said_equivalence plain_change same_change change_decided };

    /// Whether both say the same. It takes no memory.
    fn eq(&self, other: &Change) -> bool
        ensures { (result ≡ true) ↔ (plain_change self.now ≡ plain_change other.now) }
    {
        is_same(self, other)
    }
}

fn is_same(a: &Change, b: &Change) -> bool
    ensures { result ≡ same_change (plain_change a.now) (plain_change b.now) }
{
    match (a, b) {
        (Change::Create(a), Change::Create(b)) => content::is_same(a, b),
        (Change::SetField(i, a), Change::SetField(j, b)) => i == j && a == b,
        (Change::Store(i, a), Change::Store(j, b)) => i == j && a == b,
        (Change::Addh(a), Change::Addh(b)) => a == b,
        (Change::Addl(a), Change::Addl(b)) => a == b,
        (Change::Remh, Change::Remh) => true,
        (Change::Reml, Change::Reml) => true,
        (Change::SetLow(i), Change::SetLow(j)) => i == j,
        (Change::Trim(i, m), Change::Trim(j, n)) => i == j && m == n,
        (Change::ChangeTag(t, a), Change::ChangeTag(u, b)) => t == u && a == b,
        (Change::Touch, Change::Touch) => true,
        _ => false,
    }
}
