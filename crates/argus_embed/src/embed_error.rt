//! `EmbedError`: why no call was made, or no question answered.

ghost use Rattle.std.specs.Prelude.{◌≡◌, ◌≤◌};
ghost use Rattle.argus_embed.specs.Codes.{error_codes};

use crate::codes::as_number;
use argus_values::OutOfMemory;
use thiserror::Error;

/// Why no call was made, or no question answered. Nothing has changed, except that `abort_live` keeps
/// the aborts that it has made.
///
/// ```text
/// match bank.call(&request, "[1,]") {
///     Err(EmbedError::BadText(at)) => ..,             // here 3
///     Err(EmbedError::OutOfMemory) => ..,
///     ..
/// }
/// ```
#[derive(Clone, Copy, Debug, Error)]
pub enum EmbedError {
    /// There was no memory.
    #[error("out of memory")]
    OutOfMemory,
    /// The text isn't UTF-8. Only a call of a list, whose text is bytes, says so.
    #[error("the text isn't UTF-8")]
    NotUtf8,
    /// The text isn't a written form, of a content for a creation and otherwise of a value: this
    /// many bytes of it begin one, and no more.
    #[error("no written form from byte {0} on")]
    BadText(usize),
    /// The text isn't the written form of a shape that can be made.
    #[error("no written form of a shape")]
    BadShape,
    /// The number of a field or a tag isn't within 0 to 255.
    #[error("no number of a field or a tag")]
    BadNumber,
    /// There is no call of this kind.
    #[error("no call of this kind")]
    BadKind,
    /// The object isn't declared, the journal doesn't have the entry, the action wasn't begun, or
    /// none is live.
    #[error("there is no such object, entry or action")]
    NotThere,
    /// A checkpoint, or a renewal, while an action is live.
    #[error("an action is live")]
    Busy,
    /// A checkpoint, or a renewal, past the greatest number that a journal's first entry may have.
    #[error("the journal is full")]
    Full,
    /// The call of the list that should have begun the action isn't an earlier one, or began none.
    #[error("no earlier call of the list began this action")]
    NotBegun,
    /// There is no demand with this number.
    #[error("no demand with this number")]
    BadDemand,
}

impl EmbedError {
    /// The status of the C header that it is, which is 10 or above, and the number that goes with
    /// it.
    pub fn codes(self) -> (u32, i64)
        ensures codes { result ≡ error_codes self }
        ensures unmade { 10 ≤ result.0 }
    {
        match self {
            EmbedError::OutOfMemory => (10, 0),
            EmbedError::NotUtf8 => (12, 0),
            EmbedError::BadText(at) => (13, as_number(at as u64)),
            EmbedError::BadShape => (14, 0),
            EmbedError::BadNumber => (15, 0),
            EmbedError::BadKind => (16, 0),
            EmbedError::NotThere => (18, 0),
            EmbedError::Busy => (19, 0),
            EmbedError::Full => (20, 0),
            EmbedError::NotBegun => (23, 0),
            EmbedError::BadDemand => (24, 0),
        }
    }
}

impl From<OutOfMemory> for EmbedError {
    ghost use Rattle.std.specs.Prelude.{◌≡◌};
    ghost use Rattle.argus_embed.specs.declared.embed_error.EmbedError.TheVariants as error;

    ghost from_gives = { λ _ given. given ≡ error.OutOfMemory };

    fn from(_refused: OutOfMemory) -> EmbedError {
        EmbedError::OutOfMemory
    }
}
