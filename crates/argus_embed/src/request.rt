//! `Request`: a call by numbers.

/// A call by numbers; a text goes with it. [`kinds`](crate::kinds) says what each kind stands for, and
/// what it takes; what a call doesn't take is ignored.
///
/// The text is a shape, a content or a value. An integer or a truth value may be the second number
/// instead, under a kind of its own: that takes no text and no memory.
///
/// ```text
/// let commit = Request { kind: kinds::COMMIT, action: 0, object: 0, first: 0, second: 0 };
/// ```
#[derive(Clone, Copy, Debug)]
pub struct Request {
    pub kind: u32,
    pub action: u32,
    pub object: u32,
    pub first: i64,
    pub second: i64,
}
