//! `CallsEnd`: why no more of several calls were made.

/// Why no more of several calls were made.
#[derive(Clone, Copy, Debug, PartialEq, Eq)]
pub enum CallsEnd {
    /// All were made, and each reply met its demand.
    Whole,
    /// The last reply didn't meet its demand.
    Unmet,
    /// There was no memory: for the replies, and no call was made; or for the call after the last
    /// reply, and it wasn't made.
    OutOfMemory,
}
