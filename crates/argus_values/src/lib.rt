//! Values of atomic objects: the crate that users name.
//!
//! It re-exports `argus_contents` (types, values, contents, and what operations do), `argus_texts`
//! (their written forms) and the memory that all of them are in (`argus_memory`).
//!
//! ```text
//! use argus_values::{Change, Content, Heap, Name, Shape, Ty, Value, alter, fits, read_value};
//! ```
#![tactic(auto)]

pub use argus_contents::{
    Answer, Change, Content, Name, NameError, ObjId, Query, Shape, ShapeFault, ShapeView, Signal,
    SmallAnswer, Ty, Value, alter, alter_by_reference, alter_in_place, ask, ask_small, change_fits,
    fits, limits, query_fits, removal_answer, typed,
};
pub use argus_memory::{Budget, Heap, OutOfMemory, Room};
pub use argus_texts::{
    ReadError, ReadFault, content_texts_are_unambiguous, contents_are_read_back,
    fitting_contents_are_read_back, read_content, read_shape, read_value,
    shape_texts_are_unambiguous, shapes_are_read_back, value_texts_are_unambiguous,
    values_are_read_back, write_content, write_shape, write_value,
};
