//! `Node`: one action, as the tree keeps it.

use crate::origin::Origin;
use crate::status::Status;

/// The link to no action.
pub(crate) const NONE: u32 = u32::MAX;

/// One action: its row, and links and counts that save a walk over all actions.
#[derive(Clone, Copy)]
pub(crate) struct Node {
    pub(crate) origin: Origin,
    /// Its newest subaction; from there `older_sub` leads to all others.
    pub(crate) newest_sub: u32,
    /// The subaction of the same parent that was begun before it.
    pub(crate) older_sub: u32,
    /// Its newest subaction or nested topaction; from there `older_child` leads to all others.
    pub(crate) newest_child: u32,
    /// The action of the same parent or creator that was begun before it.
    pub(crate) older_child: u32,
    /// How many of its subactions and nested topactions are live.
    pub(crate) live_children: u32,
    pub(crate) status: Status,
    /// The number of its ancestors.
    pub(crate) depth: u8,
}

// A million nodes are 32 megabytes.
const _: () = prove!(size_of::<Node>() == 32);
