//! `ReadFault`: where a text stops being the beginning of a written form.

use thiserror::Error;

/// A text isn't an accepted form: at which byte, from 0, it stops being the beginning of one.
///
/// `at` is the length of the text's longest prefix that is a prefix of some accepted form. So for a
/// text that only ends too soon `at` is its length.
///
/// ```text
/// read_value(heap, "[1,]")      // Err(ReadError::Fault(ReadFault { at: 3 }))
/// read_value(heap, "[1,")       // Err(ReadError::Fault(ReadFault { at: 3 }))
/// ```
#[derive(Clone, Copy, Debug, PartialEq, Eq, Error)]
#[error("no written form from byte {at} on")]
pub struct ReadFault {
    pub at: usize,
}
