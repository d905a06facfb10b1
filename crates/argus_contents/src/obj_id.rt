//! `ObjId`: the number of an object.

/// The number of an object, by which calls, references and journals name it.
///
/// Objects are numbered from 0 in the order of their declarations. A number may be that of an
/// object that isn't declared; each call that takes one says what follows.
///
/// ```text
/// let first = ObjId(0);
/// ```
#[derive(Clone, Copy, Debug, PartialEq, Eq, PartialOrd, Ord, Hash)]
pub struct ObjId(pub u32);
