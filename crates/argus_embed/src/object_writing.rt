//! An object's base, its shape and its holders, as texts.

ghost use Rattle.std.specs.{Fmt.decimal, Option.option_map};
ghost use Rattle.std.specs.Prelude.{IfOk, None, OnErr, OnOk, map, string_bytes, ◌++◌, ◌≡◌, ◌≢◌};
ghost use Rattle.argus_values.specs.Content.{plain_option};
ghost use Rattle.argus_embed.specs.Questions.{action_lines, seen_lines, text_to};
ghost use Rattle.argus_embed.specs.declared.question.Question.TheVariants as question;
ghost use Rattle.argus_guardian.specs.{Objects.version_pair, OpeningLanguages.content_text};

use argus_actions::ActionId;
use argus_guardian::Guardian;
use argus_objects::Version;
use argus_values::{Content, Heap, ObjId, OutOfMemory, Room, write_content, write_shape};

/// The object's base; `None` if it isn't declared.
pub(crate) fn base_text(
    heap: Heap,
    guardian: &Guardian,
    o: ObjId,
) -> Result<Option<Vec<u8, Room>>, OutOfMemory>
    ensures text { IfOk result (λ told. option_map (λ t. t.items) told
        ≡ text_to guardian.now (question.Base o)) }
    ensures there { OnErr result (text_to guardian.now (question.Base o) ≢ None) }
{
    let Some(content) = guardian.base(o) else {
        return Ok(None);
    };
    let mut text = String::new(heap.room());
    append_content(content, &mut text)?;
    Ok(Some(text.into_bytes()))
}

/// The shape with which the object was declared; `None` if it isn't.
pub(crate) fn shape_text(
    heap: Heap,
    guardian: &Guardian,
    o: ObjId,
) -> Result<Option<Vec<u8, Room>>, OutOfMemory>
    ensures text { IfOk result (λ told. option_map (λ t. t.items) told
        ≡ text_to guardian.now (question.Shape o)) }
    ensures there { OnErr result (text_to guardian.now (question.Shape o) ≢ None) }
{
    let Some(shape) = guardian.shape(o) else {
        return Ok(None);
    };
    let mut text = String::new(heap.room());
    write_shape(shape, &mut text)?;
    Ok(Some(text.into_bytes()))
}

/// A line for each reader; `None` if the object isn't declared.
pub(crate) fn readers_text(
    heap: Heap,
    guardian: &Guardian,
    o: ObjId,
) -> Result<Option<Vec<u8, Room>>, OutOfMemory>
    ensures text { IfOk result (λ told. option_map (λ t. t.items) told
        ≡ text_to guardian.now (question.Readers o)) }
    ensures there { OnErr result (text_to guardian.now (question.Readers o) ≢ None) }
{
    let Some(readers) = guardian.holders(o) else {
        return Ok(None);
    };
    let mut text = String::new(heap.room());
    append_readers(readers, &mut text)?;
    Ok(Some(text.into_bytes()))
}

/// A line for each version; `None` if the object isn't declared.
pub(crate) fn versions_text(
    heap: Heap,
    guardian: &Guardian,
    o: ObjId,
) -> Result<Option<Vec<u8, Room>>, OutOfMemory>
    ensures text { IfOk result (λ told. option_map (λ t. t.items) told
        ≡ text_to guardian.now (question.Versions o)) }
    ensures there { OnErr result (text_to guardian.now (question.Versions o) ≢ None) }
{
    let Some(versions) = guardian.versions(o) else {
        return Ok(None);
    };
    let mut text = String::new(heap.room());
    append_versions(versions, &mut text)?;
    Ok(Some(text.into_bytes()))
}

fn append_readers(readers: &[ActionId], text: &mut String<Room>) -> Result<(), OutOfMemory>
    ensures { OnOk result (string_bytes text.new
        ≡ string_bytes text.old ++ action_lines (map (λ a. a.0) readers.now)) }
{
    for reader in readers {
        append_number("a", reader.0, text)?;
        text.push_str("\n")?;
    }
    Ok(())
}

fn append_versions(versions: &[Version], text: &mut String<Room>) -> Result<(), OutOfMemory>
    ensures { OnOk result (string_bytes text.new
        ≡ string_bytes text.old ++ seen_lines (map version_pair versions.now)) }
{
    for version in versions {
        append_number("a", version.holder.0, text)?;
        text.push_str(" ")?;
        append_content(&version.content, text)?;
        text.push_str("\n")?;
    }
    Ok(())
}

fn append_content(content: &Option<Content>, text: &mut String<Room>) -> Result<(), OutOfMemory>
    ensures { OnOk result (string_bytes text.new
        ≡ string_bytes text.old ++ content_text (plain_option content.now)) }
{
    match content {
        Some(content) => write_content(content, text),
        None => {
            text.push_str("absent")?;
            Ok(())
        }
    }
}

/// A word and a number.
pub(crate) fn append_number(
    word: &str,
    number: u32,
    text: &mut String<Room>,
) -> Result<(), OutOfMemory>
    ensures { OnOk result (string_bytes text.new
        ≡ string_bytes text.old ++ (word.now ++ decimal number)) }
{
    text.push_str(word)?;
    let mut digits = itoa::Buffer::new();
    text.push_str(digits.format(number))?;
    Ok(())
}
