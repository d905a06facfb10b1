//! `Content`: what an atomic object holds.

ghost use Rattle.std.specs.Prelude.{[], ◌++◌, ◌≡◌, ◌↔◌, ◌∷◌, true, map, IfOk, OnErr, OnOk};
ghost use Rattle.argus_contents.specs.Content.{plain_content, plain_option};
ghost use Rattle.argus_contents.specs.Decided.{said_equivalence, content_decided};
ghost use Rattle.argus_contents.specs.Same.{same_content, same_values};
ghost use Rattle.argus_contents.specs.Value.{plain_list, listed};

use crate::value::{self, Value, append_copies, duplicate_all};
use argus_memory::{Heap, OutOfMemory, Room};
use std::collections::VecDeque;

/// What an atomic object holds: the fields of a record, an array or a variant.
///
/// The items of an array are in a double-ended queue, so that adding and removing at either end
/// takes constant time. A queue is made from a `Vec`, and turned back into one, without taking
/// memory.
///
/// It can't be destructured outside this crate: take a part out by `&mut`, and leave an empty one.
///
/// Source: the built-in atomic types of the Argus Reference Manual (MIT/LCS/TR-400, 1987).
///
/// ```text
/// let empty = Content::Arr { low: 1, items: VecDeque::new(heap.room()) };
/// let two = Content::Arr { low: 1, items: VecDeque::from_vec(items) };
/// ```
#[derive(Debug)]
pub enum Content {
    /// A value for each name of the record's shape, in order.
    Rec(Vec<Value, Room>),
    /// The index of the first item, and the items.
    Arr {
        low: i64,
        items: VecDeque<Value, Room>,
    },
    /// The number of a tag, and a value of the tag's type.
    Var {
        tag: u8,
        value: Value,
    },
}

// A tag, the low bound and the queue.
const _: () = prove!(size_of::<Content>() == 64);

// Written by hand, so that dropping a content is one call; a derived `Drop` is expanded at each
// place.
impl Drop for Content {
    fn drop(self) {
        match self {
            Content::Rec(_) => {}
            Content::Arr { low: _, items: _ } => {}
            Content::Var { tag: _, value: _ } => {}
        }
    }
}

impl Content {
    /// A content equal to this one. `OutOfMemory`: nothing was copied.
    pub fn duplicate(&self, heap: Heap) -> Result<Content, OutOfMemory>
        ensures { IfOk result (λ copy. plain_content copy ≡ plain_content self.now) }
    {
        match self {
            Content::Rec(fields) => Ok(Content::Rec(duplicate_all(heap, fields)?)),
            Content::Arr { low, items } => Ok(Content::Arr {
                low: *low,
                items: duplicate_items(heap, items)?,
            }),
            Content::Var { tag, value } => Ok(Content::Var {
                tag: *tag,
                value: value.duplicate(heap)?,
            }),
        }
    }

    /// A content equal to this one; none if there is none. `OutOfMemory`: nothing was copied.
    pub fn duplicate_option(
        heap: Heap,
        content: &Option<Content>,
    ) -> Result<Option<Content>, OutOfMemory>
        ensures { IfOk result (λ copy. plain_option copy ≡ plain_option content.now) }
    {
        match content {
            None => Ok(None),
            Some(content) => Ok(Some(content.duplicate(heap)?)),
        }
    }

    /// Appends a content equal to this one to the copies, or none if there is none. `OutOfMemory`:
    /// the copies are unchanged.
    ///
    /// The copy of a record is made in its place in the list: moving it there would take twice as
    /// long.
    ///
    /// ```text
    /// Content::append_copy(heap, &base, &mut copies)?;
    /// ```
    #[inline(always)]
    pub fn append_copy(
        heap: Heap,
        content: &Option<Content>,
        copies: &mut Vec<Option<Content>, Room>,
    ) -> Result<(), OutOfMemory>
        ensures ok { OnOk result (map plain_option copies.new.items
            ≡ map plain_option copies.old.items ++ plain_option content.now ∷ []) }
        ensures err { OnErr result (copies.new.items ≡ copies.old.items) }
    {
        copies.reserve(1)?;
        match content {
            None => copies.push_reserved(None),
            Some(Content::Rec(fields)) => {
                let fields = duplicate_all(heap, fields)?;
                copies.push_reserved(Some(Content::Rec(fields)))
            }
            Some(content @ Content::Arr { low: _, items: _ })
            | Some(content @ Content::Var { tag: _, value: _ }) => {
                copies.push_reserved(Some(content.duplicate(heap)?))
            }
        }
        Ok(())
    }
}

impl PartialEq for Content {
    ghost eq = { λ a b. same_content (plain_content a) (plain_content b) };

    ghost laws = { said_equivalence plain_content same_content content_decided };

    /// Whether both say the same. It takes no memory.
    fn eq(&self, other: &Content) -> bool
        ensures { (result ≡ true) ↔ (plain_content self.now ≡ plain_content other.now) }
    {
        is_same(self, other)
    }
}

/// Whether both say the same, for code that has a content in a box.
pub(crate) fn is_same(a: &Content, b: &Content) -> bool
    ensures { result ≡ same_content (plain_content a.now) (plain_content b.now) }
{
    match (a, b) {
        (Content::Rec(fields), Content::Rec(others)) => value::are_same(fields, others),
        (
            Content::Arr { low, items },
            Content::Arr {
                low: bound,
                items: others,
            },
        ) => { low == bound && have_same_items(items, others) }
        (
            Content::Var { tag, value },
            Content::Var {
                tag: other_tag,
                value: other,
            },
        ) => { tag == other_tag && value == other }
        _ => false,
    }
}

// Queues of the same items may be split at different places.
fn have_same_items(a: &VecDeque<Value, Room>, b: &VecDeque<Value, Room>) -> bool
    ensures { result ≡ same_values (listed (plain_list a.now.items))
        (listed (plain_list b.now.items)) }
{
    a == b
}

/// Items equal to these, in the same order.
pub(crate) fn duplicate_items(
    heap: Heap,
    items: &VecDeque<Value, Room>,
) -> Result<VecDeque<Value, Room>, OutOfMemory>
    ensures { IfOk result (λ copies. plain_list copies.items ≡ plain_list items.now.items) }
{
    let (front, back) = items.as_slices();
    let mut copies = Vec::with_capacity(heap.room(), items.len())?;
    append_copies(heap, front, &mut copies)?;
    append_copies(heap, back, &mut copies)?;
    Ok(VecDeque::from_vec(copies))
}
