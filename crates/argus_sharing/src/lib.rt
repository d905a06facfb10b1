//! A guardian that threads share: calls under one mutex, receipts, and readers outside the mutex.
#![tactic(auto)]

mod answered;
mod calling;
mod calling_each;
mod calls_end;
mod calls_made;
mod checking;
mod demand;
mod demanded_call;
mod ghost_commit;
mod locked;
mod looking;
mod not_shared;
mod parts;
mod publishing_guardian;
mod receipt;
mod seat;
mod settle_fault;
mod settling;
mod shared;
mod sharing;
mod sharing_start;
mod taking;
mod unsettled;
mod waiting;
mod waking;

pub use answered::Answered;
pub use calls_end::CallsEnd;
pub use calls_made::CallsMade;
pub use checking::check;
pub use demand::Demand;
pub use demanded_call::DemandedCall;
pub use not_shared::NotShared;
pub use parts::Parts;
pub use receipt::Receipt;
pub use seat::Seat;
pub use settle_fault::SettleFault;
pub use shared::Shared;
pub use sharing::Sharing;
pub use unsettled::Unsettled;

/// The value behind the mutex, with the clauses of each call.
pub mod laws {
    pub use crate::locked::Locked;
}
