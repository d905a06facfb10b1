//! Effects written into the contents of a table.

ghost use Rattle.std.specs.Prelude.{OnErr, OnOk, length, set, ◌<◌, ◌≡◌, ◌≤◌};
ghost use Rattle.argus_board.specs.Effects.{needed, padded, plain_contents, written};
ghost use Rattle.argus_contents.specs.Effect.{plain_effect};

use crate::effect::Effect;
use argus_contents::{Content, ObjId};
use argus_memory::Room;
use std::alloc::AllocError;

/// How many objects a table needs for all that the effect names.
pub(crate) fn needed(effect: &[(ObjId, Option<Content>)]) -> usize
    ensures { result ≡ needed (plain_effect effect.now) }
{
    let mut count = 0;
    for pair in effect {
        count = count.max(pair.0.0 as usize + 1);
    }
    count
}

/// Extends the contents to at least this many; the new ones are absent. At `Err` nothing changed.
pub(crate) fn pad(contents: &mut Vec<Option<Content>, Room>, count: usize) -> Result<(), AllocError>
    ensures ok { OnOk result (plain_contents contents.new.items
        ≡ padded (plain_contents contents.old.items) count) }
    ensures err { OnErr result (contents.new.items ≡ contents.old.items) }
{
    let missing = count.saturating_sub(contents.len());
    contents.reserve(missing)?;
    for _more in 0..missing {
        contents.push_reserved(None);
    }
    Ok(())
}

/// Writes each object of the effect. The list is long enough for all of them.
pub(crate) fn write(contents: &mut Vec<Option<Content>, Room>, effect: Effect)
    requires { needed (plain_effect effect.items) ≤ length contents.old.items }
    ensures { plain_contents contents.new.items
        ≡ written (plain_contents contents.old.items) (plain_effect effect.items) }
{
    let mut effect = effect;
    while let Some((object, content)) = effect.pop() {
        put(contents, object.0 as usize, content);
    }
}

/// Replaces a content by another.
fn put(contents: &mut Vec<Option<Content>, Room>, at: usize, content: Option<Content>)
    requires { at < length contents.old.items }
    ensures { contents.new.items ≡ set contents.old.items at content }
{
    contents[at] = content;
}
