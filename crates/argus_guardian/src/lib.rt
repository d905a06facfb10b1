//! The guardian: the crate that users name.
//!
//! It re-exports `argus_core` (the guardian of one thread), `argus_sharing` (the guardian that
//! threads share, and receipts of its calls), `argus_board` (the readers' board), `argus_listings`
//! (listings of a guardian), `argus_audit` (what a journal's writes leave in an object),
//! `argus_reading` (a line of the journal's listing read back) and `argus_resume` (a guardian
//! rebuilt from such lines). It also re-exports `FailStop` of `argus_streams`, in which a listing's
//! reader or writer is passed.
//!
//! ```text
//! use argus_guardian::{Guardian, Keeper, Looker, Seat, Shared};
//! ```
#![tactic(auto)]

pub use argus_audit::{replay_base, replay_for};
pub use argus_board::{
    Board, BoardWriter, Effect, Keeper, LookFault, Looker, TellsEffects, duplicate_effect,
};
pub use argus_core::{CheckpointError, Guardian, ReadyCommit};
pub use argus_listings::{ListError, Listing, numbered_names, write_listing};
pub use argus_reading::{ReadEntryError, laws as reading_laws, read_entry};
pub use argus_resume::{
    LineError, LineFault, LinesTaken, ReadEnd, Resumed, ResumedGuardian, Resuming, TakenEnd,
    TakenFrom, laws as resume_laws, resume,
};
pub use argus_sharing::{
    Answered, CallsEnd, CallsMade, Demand, DemandedCall, NotShared, Parts, Receipt, Seat,
    SettleFault, Shared, Sharing, Unsettled, check, laws,
};
pub use argus_streams::FailStop;
