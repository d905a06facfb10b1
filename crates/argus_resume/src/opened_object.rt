//! `OpenedObject`: an object of an opening that is being read.

ghost use Rattle.std.specs.Prelude.{Some, ◌≡◌};
ghost use Rattle.argus_contents.specs.Content.{plain_option};
ghost use Rattle.argus_journal.specs.Opening.{fits_shape};

use argus_contents::{Content, Shape, fits};

/// An object of an opening that is being read.
#[derive(Drop)]
pub(crate) struct OpenedObject {
    pub(crate) shape: Shape,
    pub(crate) content: Option<Content>,
    // How many bytes the lines have up to and with its own.
    pub(crate) end: u64,
}

impl OpenedObject {
    /// Whether the content fits the shape if there are this many objects.
    pub(crate) fn fits(&self, count: u32) -> bool
        ensures { result
            ≡ fits_shape (Some self.now.shape) count (plain_option self.now.content) }
    {
        match &self.content {
            Some(content) => fits(&self.shape, count, content),
            None => true,
        }
    }
}
