//! `Value`: an immutable value in a record, an array or a variant.

ghost use Rattle.std.specs.Prelude.{◌≡◌, ◌↔◌, true, ◌++◌, IfOk, OnOk, string_bytes};
ghost use Rattle.argus_contents.specs.Same.{same_value, same_values};
ghost use Rattle.argus_contents.specs.Value.{plain_value, plain_list, listed};
ghost use Rattle.argus_contents.specs.Decided.{said_equivalence, value_decided};
ghost use Rattle.argus_contents.specs.Value as said;

use crate::obj_id::ObjId;
use argus_memory::{Heap, OutOfMemory, Room};

/// An immutable value.
///
/// | Variant | Type | Meaning |
/// |---|---|---|
/// | `Null` | `null` | the one value of its type |
/// | `Bool` | `bool` | a truth value |
/// | `Int` | `int` | an integer of 64 bits |
/// | `Text` | `text` | Unicode text |
/// | `Atomic` | `atomic` | a reference to an object, by its number |
/// | `Sequence` | `sequence[..]` | values of one type, in order |
/// | `Fields` | `struct[..]` | a value for each name of the type, in order |
/// | `Choice` | `oneof[..]` | the number of a tag from 0, and a value of the tag's type |
///
/// A text, a list and the value of a choice are boxed, so that a value has 24 bytes. They are made
/// by [`text`](Value::text), [`sequence`](Value::sequence), [`fields`](Value::fields) and
/// [`choice`](Value::choice).
///
/// It can't be destructured outside this crate: take a part out by `&mut`, and leave an empty one.
///
/// Source: the built-in immutable types of the Argus Reference Manual (MIT/LCS/TR-400, 1987).
///
/// ```text
/// let mut fields = Vec::new(heap.room());
/// fields.push(Value::Int(5))?;
/// fields.push(Value::text(heap, String::from_str(heap.room(), "five")?)?)?;
/// let pair = Value::fields(heap, fields)?;
/// ```
#[derive(Debug)]
pub enum Value {
    Null,
    Bool(bool),
    Int(i64),
    Text(Box<String<Room>, Room>),
    Atomic(ObjId),
    Sequence(Box<Vec<Value, Room>, Room>),
    Fields(Box<Vec<Value, Room>, Room>),
    Choice(u8, Box<Value, Room>),
}

// A tag, then what is small inline, and a box for the rest: texts and lists are boxed, so that an
// integer in a list takes no extra room for them.
const _: () = prove!(size_of::<Value>() == 24);

// Written by hand, so that dropping a value is one call; a derived `Drop` is expanded at each
// place.
impl Drop for Value {
    fn drop(self) {
        match self {
            Value::Null | Value::Bool(_) | Value::Int(_) | Value::Atomic(_) => {}
            Value::Text(_) => {}
            Value::Sequence(_) | Value::Fields(_) => {}
            Value::Choice(_, _) => {}
        }
    }
}

impl Value {
    /// The text as a value. `OutOfMemory`: nothing is made, and the text is consumed.
    ///
    /// ```text
    /// let five = Value::text(heap, String::from_str(heap.room(), "five")?)?;
    /// ```
    pub fn text(heap: Heap, text: String<Room>) -> Result<Value, OutOfMemory>
        ensures { IfOk result (λ made. plain_value made ≡ said.text (string_bytes text)) }
    {
        Ok(Value::Text(Box::new(heap.room(), text)?))
    }

    /// The sequence of these values, in their order. `OutOfMemory`: nothing is made, and the values
    /// are consumed.
    ///
    /// ```text
    /// let digits = Value::sequence(heap, vec![in heap.room(); Value::Int(1), Value::Int(2)]?)?;
    /// ```
    pub fn sequence(heap: Heap, items: Vec<Value, Room>) -> Result<Value, OutOfMemory>
        ensures { IfOk result (λ made. plain_value made
            ≡ said.sequence (listed (plain_list items.items))) }
    {
        Ok(Value::Sequence(Box::new(heap.room(), items)?))
    }

    /// The struct of these values, one for each name of its type, in order. `OutOfMemory`: nothing
    /// is made, and the values are consumed.
    ///
    /// ```text
    /// let point = Value::fields(heap, vec![in heap.room(); Value::Int(3), Value::Int(4)]?)?;
    /// ```
    pub fn fields(heap: Heap, fields: Vec<Value, Room>) -> Result<Value, OutOfMemory>
        ensures { IfOk result (λ made. plain_value made
            ≡ said.fields (listed (plain_list fields.items))) }
    {
        Ok(Value::Fields(Box::new(heap.room(), fields)?))
    }

    /// The choice of the tag with this number, and its value. `OutOfMemory`: nothing is made, and
    /// the value is consumed.
    ///
    /// ```text
    /// let second = Value::choice(heap, 1, Value::Int(5))?;
    /// ```
    pub fn choice(heap: Heap, tag: u8, value: Value) -> Result<Value, OutOfMemory>
        ensures { IfOk result (λ made. plain_value made ≡ said.choice tag (plain_value value)) }
    {
        Ok(Value::Choice(tag, Box::new(heap.room(), value)?))
    }

    /// A value equal to this one. `OutOfMemory`: nothing was copied.
    pub fn duplicate(&self, heap: Heap) -> Result<Value, OutOfMemory>
        ensures { IfOk result (λ copy. plain_value copy ≡ plain_value self.now) }
    {
        duplicate_value(heap, self)
    }
}

impl PartialEq for Value {
    ghost eq = { λ a b. same_value (plain_value a) (plain_value b) };

    ghost laws = { said_equivalence plain_value same_value value_decided };

    /// Whether both say the same; texts by their bytes. It takes no memory.
    fn eq(&self, other: &Value) -> bool
        ensures { (result ≡ true) ↔ (plain_value self.now ≡ plain_value other.now) }
    {
        is_same(self, other)
    }
}

#[cycle(same)]
fn is_same(a: &Value, b: &Value) -> bool
    ensures { result ≡ same_value (plain_value a.now) (plain_value b.now) }
{
    match (a, b) {
        (Value::Null, Value::Null) => true,
        (Value::Bool(a), Value::Bool(b)) => a == b,
        (Value::Int(a), Value::Int(b)) => a == b,
        (Value::Text(a), Value::Text(b)) => a.as_str() == b.as_str(),
        (Value::Atomic(a), Value::Atomic(b)) => a == b,
        (Value::Sequence(a), Value::Sequence(b)) => are_same(a, b),
        (Value::Fields(a), Value::Fields(b)) => are_same(a, b),
        (Value::Choice(tag, a), Value::Choice(other_tag, b)) => tag == other_tag && is_same(a, b),
        _ => false,
    }
}

/// Whether these values say the same, one by one.
#[cycle(same)]
pub(crate) fn are_same(a: &[Value], b: &[Value]) -> bool
    ensures { result ≡ same_values (listed (plain_list a.now)) (listed (plain_list b.now)) }
{
    if a.len() != b.len() {
        return false;
    }
    for i in 0..a.len() {
        if !is_same(&a[i], &b[i]) {
            return false;
        }
    }
    true
}

#[cycle(duplicate)]
fn duplicate_value(heap: Heap, value: &Value) -> Result<Value, OutOfMemory>
    ensures { IfOk result (λ copy. plain_value copy ≡ plain_value value.now) }
{
    match value {
        Value::Null => Ok(Value::Null),
        Value::Bool(truth) => Ok(Value::Bool(*truth)),
        Value::Int(number) => Ok(Value::Int(*number)),
        Value::Text(text) => Value::text(heap, String::from_str(heap.room(), text.as_str())?),
        Value::Atomic(object) => Ok(Value::Atomic(*object)),
        Value::Sequence(items) => Value::sequence(heap, duplicate_all(heap, items)?),
        Value::Fields(fields) => Value::fields(heap, duplicate_all(heap, fields)?),
        Value::Choice(tag, part) => Value::choice(heap, *tag, duplicate_value(heap, part)?),
    }
}

/// Values equal to these, in the same order.
#[cycle(duplicate)]
#[inline(always)]
pub(crate) fn duplicate_all(heap: Heap, values: &[Value]) -> Result<Vec<Value, Room>, OutOfMemory>
    ensures { IfOk result (λ copies. plain_list copies.items ≡ plain_list values.now) }
{
    let mut copies = Vec::with_capacity(heap.room(), values.len())?;
    append_copies(heap, values, &mut copies)?;
    Ok(copies)
}

/// Appends values equal to these, in the same order.
//
// Scalars are copied in the loop itself: a call for each would take most of the time.
#[cycle(duplicate)]
pub(crate) fn append_copies(
    heap: Heap,
    values: &[Value],
    copies: &mut Vec<Value, Room>,
) -> Result<(), OutOfMemory>
    ensures { OnOk result (plain_list copies.new.items ≡ plain_list copies.old.items
        ++ plain_list values.now) }
{
    for value in values {
        copies.reserve(1)?;
        match value {
            Value::Null => copies.push_reserved(Value::Null),
            Value::Bool(truth) => copies.push_reserved(Value::Bool(*truth)),
            Value::Int(number) => copies.push_reserved(Value::Int(*number)),
            Value::Atomic(object) => copies.push_reserved(Value::Atomic(*object)),
            Value::Text(_) | Value::Sequence(_) | Value::Fields(_) | Value::Choice(_, _) => {
                copies.push_reserved(duplicate_value(heap, value)?)
            }
        }
    }
    Ok(())
}
