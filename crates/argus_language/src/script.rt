//! `Script`: a script that was read.

ghost use Rattle.std.specs.Prelude.{◌≡◌};
ghost use Rattle.argus_language.specs.{PlainStep.plain_steps, Script.plain_script};

use crate::step::Step;
use argus_contents::{Name, Shape};
use argus_memory::Room;

/// A script that was read: the objects that it declares, and its steps.
///
/// ```text
/// let script = parse(heap, b"declare x atomic_record[n:int]\n")?;
/// assert_eq!(rt; script.names().len(), 1);
/// ```
#[derive(Debug, Drop)]
pub struct Script {
    pub(crate) names: Vec<Name, Room>,
    pub(crate) shapes: Vec<Shape, Room>,
    pub(crate) steps: Vec<Step, Room>,
}

impl Script {
    /// The names of the declared objects, in the order of their declarations.
    pub fn names(&self) -> &[Name]
        ensures { result.now ≡ (plain_script self.now).objects.names }
    {
        self.names.as_slice()
    }

    /// The shapes of the declared objects, in the same order.
    pub fn shapes(&self) -> &[Shape]
        ensures { result.now ≡ (plain_script self.now).objects.shapes }
    {
        self.shapes.as_slice()
    }

    /// The steps, in order.
    pub fn steps(&self) -> &[Step]
        ensures { plain_steps result.now ≡ (plain_script self.now).parts }
    {
        self.steps.as_slice()
    }
}
