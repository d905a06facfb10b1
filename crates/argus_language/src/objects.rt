//! `Objects`: the declared objects, in order and by name.

ghost use Rattle.std.specs.Prelude.{◌≡◌, [], ◌∷◌, ◌++◌, ◌<◌, length, Some, None, OnOk};
ghost use Rattle.std.specs.Option.{option_map};
ghost use Rattle.argus_contents.specs.declared.limits.TheConstants.{MAX_OBJECTS};
ghost use Rattle.argus_language.specs.Objects.{no_objects, number_of, shape_at};

use argus_contents::{Name, Shape};
use argus_memory::{Heap, OutOfMemory, Room};
use std::collections::BTreeMap;
use std::marker::Model;

/// The declared objects: their names and shapes, in the order of their declarations, and the number
/// of each name. A look-up uses the order of the names' bytes, so no choice of names makes it slow;
/// the names in it are borrowed from the script.
#[derive(Drop)]
pub(crate) struct Objects<'a> {
    names: Vec<Name, Room>,
    shapes: Vec<Shape, Room>,
    numbers: BTreeMap<&'a str, u32, Room>,
}

impl<'a> Model for Objects<'a> {
    ghost use Rattle.argus_language.specs.Objects.{IsIndexed, PlainObjects, objects_coded};

    ghost Value = { PlainObjects };

    ghost coded = { objects_coded };

    ghost view = { λ o. record { names = o.names.items; shapes = o.shapes.items } };

    ghost invariant = { λ o. IsIndexed o.names.items o.shapes.items o.numbers };
}

impl<'a> Objects<'a> {
    /// No object is declared.
    pub(crate) fn new(heap: Heap) -> Objects<'a>
        ensures { result ≡ no_objects }
    {
        Objects {
            names: Vec::new(heap.room()),
            shapes: Vec::new(heap.room()),
            numbers: BTreeMap::new(heap.room()),
        }
    }

    /// How many objects are declared.
    pub(crate) fn len(&self) -> usize
        ensures { result ≡ length self.now.names }
    {
        self.names.len()
    }

    /// The number of the object with this name.
    pub(crate) fn number(&self, name: &'a str) -> Option<u32>
        ensures { result ≡ number_of name.now self.now }
    {
        match self.numbers.get(&name) {
            Some(number) => Some(*number),
            None => None,
        }
    }

    /// The shape of the object with this number.
    pub(crate) fn shape(&self, number: u32) -> Option<&Shape>
        ensures { option_map (λ shape. shape.now) result ≡ shape_at self.now number }
    {
        self.shapes.get(number as usize)
    }

    /// Declares one more object, whose name is new.
    pub(crate) fn declare(
        &mut self,
        text: &'a str,
        name: Name,
        shape: Shape,
    ) -> Result<(), OutOfMemory>
        requires named { name ≡ text.now }
        requires new { number_of text.now self.old ≡ None }
        requires room { length self.old.names < MAX_OBJECTS }
        ensures names { OnOk result (self.new.names ≡ self.old.names ++ text.now ∷ []) }
        ensures shapes { OnOk result (self.new.shapes ≡ self.old.shapes ++ shape ∷ []) }
    {
        self.names.reserve(1)?;
        self.shapes.reserve(1)?;
        self.numbers.insert(text, self.names.len() as u32)?;
        self.names.push_reserved(name);
        self.shapes.push_reserved(shape);
        Ok(())
    }

    /// The names and the shapes.
    pub(crate) fn into_lists(self) -> (Vec<Name, Room>, Vec<Shape, Room>)
        ensures names { result.0.items ≡ self.entry.names }
        ensures shapes { result.1.items ≡ self.entry.shapes }
    {
        let Objects {
            names,
            shapes,
            numbers: _,
        } = self;
        (names, shapes)
    }
}
