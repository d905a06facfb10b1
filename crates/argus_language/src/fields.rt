//! The number of a field.

ghost use Rattle.std.specs.Prelude.{◌≡◌};
ghost use Rattle.argus_contents.specs.{Shape.names_of, Ty.plain_fields};
ghost use Rattle.argus_language.specs.Fields.{field_of, place_from};

use argus_contents::{Name, Ty};

/// The number of the field with this name.
pub(crate) fn field_number(fields: &[(Name, Ty)], name: &str) -> Option<u8>
    ensures { result ≡ field_of name.now (plain_fields fields.now) }
{
    match field_place(fields, name) {
        Some(place) if place < 256 => Some(place as u8),
        Some(_) | None => None,
    }
}

fn field_place(fields: &[(Name, Ty)], name: &str) -> Option<usize>
    ensures { result ≡ place_from 0 name.now (names_of (plain_fields fields.now)) }
{
    for i in 0..fields.len() {
        let (field, _) = &fields[i];
        if field.as_str() == name {
            return Some(i);
        }
    }
    None
}
