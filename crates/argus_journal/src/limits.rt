//! The limit of this crate; the others are those of `argus_contents`.

/// The greatest number that a journal's first entry may have, so that all entry numbers stay within
/// 64 bits.
pub const MAX_FIRST_ENTRY: u64 = 9_223_372_036_854_775_807;
