//! Types, values and contents of atomic objects, and what the operations on them do.
#![tactic(auto)]

mod altering;
mod answer;
mod array;
mod asking;
mod change;
mod content;
pub mod limits;
mod name;
mod name_error;
mod obj_id;
mod query;
mod removing;
mod shape;
mod shape_fault;
mod shape_kind;
mod shape_view;
mod shaping;
mod signal;
mod small_answer;
mod ty;
mod typing;
mod value;

pub use altering::{alter, alter_by_reference, alter_in_place};
pub use answer::Answer;
pub use argus_memory::{Heap, OutOfMemory, Room};
pub use asking::ask;
pub use change::Change;
pub use content::Content;
pub use name::Name;
pub use name_error::NameError;
pub use obj_id::ObjId;
pub use query::Query;
pub use removing::removal_answer;
pub use shape::Shape;
pub use shape_fault::ShapeFault;
pub use shape_view::ShapeView;
pub use signal::Signal;
pub use small_answer::{SmallAnswer, ask_small};
pub use ty::Ty;
pub use typing::{change_fits, fits, query_fits, typed};
pub use value::Value;
