//! Scripts: the language, parsed.
//!
//! [`parse`] goes from the bytes of a script to its steps, or to its first faulty line.
#![tactic(auto)]

mod action_kind;
mod any_operation;
mod array_operation;
mod block_kind;
mod cut;
mod fault_kind;
mod fields;
mod int;
mod laws;
mod level;
pub mod limits;
mod line;
mod line_error;
mod line_reading;
mod lock;
mod numbering;
mod objects;
mod open_block;
mod operation;
mod operation_reading;
mod parse_error;
mod parsing;
mod place;
mod reading;
mod record_operation;
mod script;
mod script_fault;
mod step;
mod step_making;
mod taking;
mod variant_operation;
mod words;

pub use action_kind::ActionKind;
pub use block_kind::BlockKind;
pub use fault_kind::FaultKind;
pub use laws::{levels_tell_unmatched_lines, lines_spell_one_script};
pub use lock::Lock;
pub use parse_error::ParseError;
pub use parsing::parse;
pub use script::Script;
pub use script_fault::ScriptFault;
pub use step::Step;
