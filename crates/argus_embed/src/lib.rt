//! A guardian as a host in another language holds it: calls and questions by numbers and texts, and
//! the reply's text kept until the next one.
//!
//! ```text
//! let mut bank = Embedded::new(heap);
//! let declare = Request { kind: kinds::DECLARE, action: 0, object: 0, first: 0, second: 0 };
//! let outcome = bank.call(&declare, "atomic_record[balance:int]")?;     // Outcome::Object(0)
//! ```
#![tactic(auto)]

mod aborting_live;
mod answering;
mod calling;
mod calling_each;
mod calls_made;
mod checkpointing;
mod codes;
mod counting;
mod demand;
mod embed_error;
mod embedded;
mod held;
mod held_parsed;
mod held_ready;
mod journal_writing;
mod kept_answer;
pub mod kinds;
pub mod laws;
mod lines;
mod lines_writing;
mod list_end;
mod listed_call;
mod listed_reading;
mod object_writing;
mod opening;
mod outcome;
mod outcome_writing;
mod parsed_call;
mod parsed_slot;
mod question;
mod raw_box;
mod ready_embedded;
mod ready_guardian;
mod ready_slot;
mod readying;
mod renewing;
mod replying;
mod reporting;
mod request;
mod requesting;
mod resuming;
mod slot;
mod text_end;
mod text_taken;

pub use calls_made::CallsMade;
pub use embed_error::EmbedError;
pub use embedded::Embedded;
pub use held::Held;
pub use held_parsed::HeldParsed;
pub use held_ready::HeldReady;
pub use lines::Lines;
pub use list_end::ListEnd;
pub use listed_call::ListedCall;
pub use opening::opened_beside;
pub use outcome::Outcome;
pub use parsed_call::ParsedCall;
pub use parsed_slot::ParsedSlot;
pub use question::Question;
pub use ready_embedded::ReadyEmbedded;
pub use ready_guardian::ReadyGuardian;
pub use ready_slot::ReadySlot;
pub use request::Request;
pub use slot::Slot;
pub use text_end::TextEnd;
pub use text_taken::TextTaken;
