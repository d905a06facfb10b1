//! `HeldList`: a list of objects, and the action that it was given to.

use crate::object_list::ObjectList;
use argus_actions::ActionId;

/// A list of objects, and the action that it was given to. It is that action's list as long as the
/// action's place has its number.
#[derive(Drop)]
pub struct HeldList {
    pub holder: ActionId,
    pub objects: ObjectList,
}
