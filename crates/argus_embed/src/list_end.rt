//! `ListEnd`: why no more calls of a list were made.

use crate::embed_error::EmbedError;

/// Why no more calls of a list were made.
#[derive(Clone, Copy, Debug)]
pub enum ListEnd {
    /// All were made, and each outcome is as demanded.
    Whole,
    /// The outcome of the last one that was made isn't as demanded.
    Unmet,
    /// The call after those that were made failed.
    Failed(EmbedError),
}
