//! The front of a text, read part by part: for crates whose own texts have these forms as parts.

pub use crate::content_reading::one_content;
pub use crate::number::{int, number};
pub use crate::reading::one_value;
pub use crate::scan::{expect, word};
pub use crate::shape_reading::one_shape;
pub use crate::stop::Stop;
pub use crate::unread::Unread;
