//! The engine: one call over what a guardian keeps. First comes what can fail, which changes
//! nothing that contracts see; then the step and its entry in the journal, which can't fail.

pub(crate) mod accessing;
pub(crate) mod answering;
pub(crate) mod atomic_object;
pub(crate) mod beginning;
pub(crate) mod commit_step;
pub(crate) mod declaring;
pub(crate) mod discarding;
pub(crate) mod ending;
mod granting;
pub(crate) mod guardian_state;
mod inheriting;
mod moving;
pub(crate) mod refusing;
pub(crate) mod testing;
pub(crate) mod writing;
