//! `Name`: a name of a field or a tag.

ghost use lib.Pointwise.{pointwise};
ghost use Rattle.std.proofs.Common.{rules};
ghost use Rattle.std.specs.{Cmp.Rules.comparing, List.list_all};
ghost use Rattle.std.specs.Prelude.{◌≡◌, ◌↔◌, true, false, nat_eq, IfOk, IsErrOf};
ghost use Rattle.argus_contents.specs.Name.{is_name, is_name_byte};

use crate::limits::MAX_NAME_BYTES;
use crate::name_error::NameError;
use argus_memory::{Heap, OutOfMemory, Room};
use std::marker::Model;

/// A name of a field of a record or of a tag of a variant: 1 to 32 bytes of `[a-z0-9_]`.
///
/// Only types have names; values go by position.
///
/// ```text
/// let balance = Name::new(heap, "balance")?;
/// assert_eq!(rt; balance.as_str(), "balance");
/// ```
#[derive(Debug, Drop)]
pub struct Name {
    text: String<Room>,
}

impl Model for Name {
    ghost use Rattle.std.specs.Prelude.{◌≡◌, List, ℕ, true, string_bytes};
    ghost use Rattle.argus_contents.specs.Name.{is_name};

    ghost Value = { List ℕ };

    ghost view = { λ name. string_bytes name.text };

    ghost invariant = { λ name. is_name (string_bytes name.text) ≡ true };
}

impl Name {
    /// Whether the text has the form of a name: 1 to 32 bytes of `[a-z0-9_]`.
    pub fn is_name(text: &str) -> bool
        ensures { result ≡ is_name text.now }
    {
        if text.is_empty() || text.len() > MAX_NAME_BYTES {
            return false;
        }
        has_only_name_bytes(text.as_bytes())
    }

    /// The name with this text.
    ///
    /// `BadName` comes exactly if the text doesn't have the form of a name, `OutOfMemory` if there
    /// is no memory for the copy.
    pub fn new(heap: Heap, text: &str) -> Result<Name, NameError>
        ensures ok { IfOk result (λ name. name ≡ text.now) }
        ensures bad { IsErrOf result NameError.BadName ↔ (is_name text.now ≡ false) }
    {
        if !Name::is_name(text) {
            return Err(NameError::BadName);
        }
        Ok(Name {
            text: String::from_str(heap.room(), text)?,
        })
    }

    /// The text of the name.
    pub fn as_str(&self) -> &str
        ensures { result.now ≡ self.now }
    {
        self.text.as_str()
    }

    /// A law for proofs; it does nothing. The text has the form of a name.
    pub fn form_is_kept(&self)
        ensures { is_name self.now ≡ true }
    {
        let _ = &self.text;
    }

    /// A name equal to this one. `OutOfMemory`: nothing was copied.
    pub fn duplicate(&self, heap: Heap) -> Result<Name, OutOfMemory>
        ensures { IfOk result (λ name. name ≡ self.now) }
    {
        let text = &self.text;
        Ok(Name {
            text: String::from_str(heap.room(), text.as_str())?,
        })
    }
}

impl PartialEq for Name {
    ghost eq = { λ a b. pointwise nat_eq a b };

    ghost laws = { Prim.search (comparing, rules) };

    /// Whether both have the same bytes. It takes no memory.
    fn eq(&self, other: &Name) -> bool
        ensures { (result ≡ true) ↔ (self.now ≡ other.now) }
    {
        self.as_str() == other.as_str()
    }
}

fn has_only_name_bytes(text: &[u8]) -> bool
    ensures { result ≡ list_all is_name_byte text.now }
{
    text.iter().all(|b| may_stand_in_name(*b))
}

fn may_stand_in_name(byte: u8) -> bool
    ensures { result ≡ is_name_byte byte }
{
    matches!(byte, b'a'..=b'z' | b'0'..=b'9' | b'_')
}
