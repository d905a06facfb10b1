//! `Embedded`: a guardian with what is kept for its host.

ghost use Rattle.std.specs.Prelude.{◌≡◌};
ghost use Rattle.argus_embed.specs.Embedded.{empty_state};

use crate::kept_answer::KeptAnswer;
use argus_guardian::{Guardian, Resuming};
use argus_values::Heap;
use std::marker::Model;

/// A guardian as a host holds it. Each of its calls was read of numbers and a text, so the listing of
/// its journal can be taken again (`listing_is_resumed`). Contracts see its journal, the text that is kept, if any, and the
/// journal whose lines were taken so far, of which a guardian is to be made.
///
/// ```text
/// let mut bank = Embedded::new(heap);
/// let begun = bank.call(&begin_top, "")?;                 // Outcome::Action(0)
/// let stacks = bank.answer_question(Question::List(Listing::Stacks))?;
/// let size = bank.reply(&mut room)?;                      // its text, and again if it didn't fit
/// ```
#[derive(Drop)]
pub struct Embedded {
    pub(crate) heap: Heap,
    pub(crate) guardian: Guardian,
    pub(crate) kept: KeptAnswer,
    pub(crate) taken: Resuming,
}

impl Model for Embedded {
    ghost use Rattle.argus_embed.specs.Kept.{kept_text};
    ghost use Rattle.argus_embed.specs.Embedded.{EmbeddedState, embedded_state_coded};
    ghost use Rattle.argus_embed.specs.Listed.{CanBeRead};

    ghost Value = { EmbeddedState };

    ghost coded = { embedded_state_coded };

    ghost view = { λ e. record {
      journal = e.guardian;
      text = kept_text e.kept;
      taken = e.taken;
    } };

    ghost invariant = { λ e. CanBeRead e.guardian };
}

impl Embedded {
    /// A guardian without objects, actions and entries. It takes no memory.
    pub fn new(heap: Heap) -> Embedded
        ensures { result ≡ empty_state }
    {
        Embedded {
            heap,
            guardian: Guardian::new(heap),
            kept: KeptAnswer::Nothing,
            taken: Resuming::new(heap),
        }
    }

    /// Another one without objects, actions and entries, in the same heap. It takes no memory.
    pub fn beside(&self) -> Embedded
        ensures { result ≡ empty_state }
    {
        Embedded::new(self.heap)
    }
}
