//! `Operation`: what an access does with its object, as its words say.

use crate::any_operation::AnyOperation;
use crate::array_operation::ArrayOperation;
use crate::record_operation::RecordOperation;
use crate::variant_operation::VariantOperation;

/// What an access does with its object, as its words say, by the kind of the object. Names of
/// fields and tags, contents and values are as they are in the line.
#[derive(Clone, Copy)]
pub(crate) enum Operation<'a> {
    Any(AnyOperation<'a>),
    Record(&'a str, RecordOperation<'a>),
    Array(ArrayOperation<'a>),
    Variant(&'a str, VariantOperation<'a>),
}
