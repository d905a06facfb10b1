//! `VariantOperation`: an operation on a variant.

/// An operation on a variant, with a tag. A value is as it is in the line.
#[derive(Clone, Copy)]
pub(crate) enum VariantOperation<'a> {
    IsTag,
    TagValue,
    ChangeTag(&'a str),
}
