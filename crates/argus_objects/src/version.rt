//! `Version`: what an object is for an action that has changed it.

use argus_actions::ActionId;
use argus_contents::Content;

/// The content that an object has for its holder, and for the actions below the holder, until the
/// holder commits or aborts. `None` means that the object has no content yet.
///
/// Source: the version stack of the Argus Reference Manual (MIT/LCS/TR-400, 1987).
///
/// ```text
/// let version = Version { holder: ActionId(1), content: None };
/// ```
#[derive(Debug, Drop, PartialEq)]
pub struct Version {
    pub holder: ActionId,
    pub content: Option<Content>,
}
