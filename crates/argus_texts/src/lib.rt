//! The written forms of values, contents and shapes: each has exactly one, which is written and
//! read.
//!
//! | Written form | Stands for |
//! |---|---|
//! | `null`, `true`, `-5` | a scalar |
//! | `"a\"b"` | a text; quote, backslash and line feed are written `\"`, `\\` and `\n` |
//! | `@3` | a reference to object number 3 |
//! | `[1,2]` | a sequence |
//! | `{1,"a"}` | the fields of a struct; as a content, of a record |
//! | `<1:"no">` | tag 1 of a oneof and its value; as a content, of a variant |
//! | `1[10,20]` | as a content, an array with low bound 1 |
//! | `atomic_record[n:int,s:sequence[text]]` | the shape of a record; others likewise |
#![tactic(auto)]

mod content_reading;
mod content_writing;
pub mod front;
mod laws;
mod number;
mod quoted;
mod read_error;
mod read_fault;
mod reading;
mod scan;
mod shape_reading;
mod shape_writing;
mod stop;
mod unread;
mod writing;

pub use content_reading::read_content;
pub use content_writing::write_content;
pub use laws::{
    content_texts_are_unambiguous, contents_are_read_back, fitting_contents_are_read_back,
    shape_texts_are_unambiguous, shapes_are_read_back, value_texts_are_unambiguous,
    values_are_read_back,
};
pub use read_error::ReadError;
pub use read_fault::ReadFault;
pub use reading::read_value;
pub use shape_reading::read_shape;
pub use shape_writing::write_shape;
pub use writing::write_value;
