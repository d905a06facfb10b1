//! `CallsMade`: what came of several calls.

use crate::calls_end::CallsEnd;
use argus_entries::Reply;
use argus_memory::Room;

/// What came of several calls: the replies to those that were made, in order, and why no more were
/// made. `first` is the number of the entry of the first of them in the journal; the others follow
/// it, each by one. So the receipt of the call `calls[i]` has the number `first + i`, this call and
/// `replies[i]`.
#[derive(Debug, Drop)]
pub struct CallsMade {
    pub first: u64,
    pub replies: Vec<Reply, Room>,
    pub end: CallsEnd,
}
