//! `Answer`: what an operation returns.

ghost use Rattle.std.specs.Prelude.{◌≡◌, ◌↔◌, true, IfOk};
ghost use Rattle.argus_contents.specs.{Answer.{body, plain_answer}, Content.plain_content};
ghost use Rattle.argus_contents.specs.Decided.{said_equivalence, answer_decided};
ghost use Rattle.argus_contents.specs.Same.{same_answer};

use crate::content::{self, Content};
use crate::signal::Signal;
use crate::value::Value;
use argus_memory::{Heap, OutOfMemory, Room};

/// What an operation returns.
///
/// ```text
/// match ask(heap, &content, &Query::Size)? {
///     Answer::Num(size) => ..,
///     Answer::Signal(signal) => ..,
///     ..
/// }
/// ```
#[derive(Debug)]
pub enum Answer {
    /// The change was made.
    Done,
    /// A field, an item or a variant's value.
    Val(Value),
    /// A bound or a size.
    Num(i64),
    /// Whether the variant has the tag.
    Flag(bool),
    /// The whole content.
    Body(Box<Content, Room>),
    /// Nothing was changed, for this reason.
    Signal(Signal),
}

// Written by hand, so that dropping an answer is short: most answers hold nothing, and a value or a
// content is dropped by one call.
impl Drop for Answer {
    #[inline(always)]
    fn drop(self) {
        match self {
            Answer::Done | Answer::Num(_) | Answer::Flag(_) | Answer::Signal(_) => {}
            Answer::Val(_) => {}
            Answer::Body(_) => {}
        }
    }
}

impl Answer {
    /// The whole content as an answer. `OutOfMemory`: nothing is made, and the content is consumed.
    ///
    /// ```text
    /// let answer = Answer::body(heap, content.duplicate(heap)?)?;
    /// ```
    pub fn body(heap: Heap, content: Content) -> Result<Answer, OutOfMemory>
        ensures { IfOk result (λ made. plain_answer made ≡ body (plain_content content)) }
    {
        Ok(Answer::Body(Box::new(heap.room(), content)?))
    }
}

impl PartialEq for Answer {
    ghost eq = { λ a b. same_answer (plain_answer a) (plain_answer b) };

    ghost laws = { said_equivalence plain_answer same_answer answer_decided };

    /// Whether both say the same. It takes no memory.
    fn eq(&self, other: &Answer) -> bool
        ensures { (result ≡ true) ↔ (plain_answer self.now ≡ plain_answer other.now) }
    {
        is_same(self, other)
    }
}

fn is_same(a: &Answer, b: &Answer) -> bool
    ensures { result ≡ same_answer (plain_answer a.now) (plain_answer b.now) }
{
    match (a, b) {
        (Answer::Done, Answer::Done) => true,
        (Answer::Val(a), Answer::Val(b)) => a == b,
        (Answer::Num(a), Answer::Num(b)) => a == b,
        (Answer::Flag(a), Answer::Flag(b)) => a == b,
        (Answer::Body(a), Answer::Body(b)) => content::is_same(a, b),
        (Answer::Signal(a), Answer::Signal(b)) => a == b,
        _ => false,
    }
}
