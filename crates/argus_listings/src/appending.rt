//! Pieces of lines, each appended to a text.

ghost use Rattle.std.specs.{Fmt.decimal, List.flat_map};
ghost use Rattle.std.specs.Prelude.{◌≡◌, ◌++◌, OnOk, map, string_bytes};
ghost use Rattle.argus_contents.specs.Content.{plain_option};
ghost use Rattle.argus_listings.specs.Listing.{object_line, reader_text, readers_line};
ghost use Rattle.argus_listings.specs.Listing.{readers_text, version_line};
ghost use Rattle.argus_reading.specs.OpeningLanguages.{content_text};

use argus_actions::ActionId;
use argus_contents::{Content, Name};
use argus_memory::{OutOfMemory, Room};
use argus_texts::write_content;

pub(crate) fn append(piece: &str, text: &mut String<Room>) -> Result<(), OutOfMemory>
    ensures { OnOk result (string_bytes text.new ≡ string_bytes text.old ++ piece.now) }
{
    text.push_str(piece)?;
    Ok(())
}

/// A word and a number.
pub(crate) fn append_number(
    word: &str,
    number: u64,
    text: &mut String<Room>,
) -> Result<(), OutOfMemory>
    ensures { OnOk result (string_bytes text.new
        ≡ string_bytes text.old ++ (word.now ++ decimal number)) }
{
    append(word, text)?;
    let mut digits = itoa::Buffer::new();
    append(digits.format(number), text)
}

pub(crate) fn append_content(
    content: &Option<Content>,
    text: &mut String<Room>,
) -> Result<(), OutOfMemory>
    ensures { OnOk result (string_bytes text.new
        ≡ string_bytes text.old ++ content_text (plain_option content.now)) }
{
    match content {
        Some(content) => write_content(content, text),
        None => append("absent", text),
    }
}

/// A line of an object: its name, words and a content.
pub(crate) fn append_object_line(
    name: &Name,
    words: &str,
    content: &Option<Content>,
    text: &mut String<Room>,
) -> Result<(), OutOfMemory>
    ensures { OnOk result (string_bytes text.new ≡ string_bytes text.old
        ++ object_line name.now words.now (plain_option content.now)) }
{
    append(name.as_str(), text)?;
    append(words, text)?;
    append_content(content, text)?;
    append("\n", text)
}

/// The line of a version.
pub(crate) fn append_version_line(
    name: &Name,
    holder: ActionId,
    content: &Option<Content>,
    text: &mut String<Room>,
) -> Result<(), OutOfMemory>
    ensures { OnOk result (string_bytes text.new ≡ string_bytes text.old
        ++ version_line name.now (holder.0, plain_option content.now)) }
{
    append(name.as_str(), text)?;
    append_number(" version a", u64::from(holder.0), text)?;
    append(" ", text)?;
    append_content(content, text)?;
    append("\n", text)
}

/// The line of an object's readers.
pub(crate) fn append_readers_line(
    name: &Name,
    readers: &[ActionId],
    text: &mut String<Room>,
) -> Result<(), OutOfMemory>
    ensures { OnOk result (string_bytes text.new ≡ string_bytes text.old
        ++ readers_line name.now (map (λ a. a.0) readers.now)) }
{
    append(name.as_str(), text)?;
    append(" readers", text)?;
    append_readers(readers, text)?;
    append("\n", text)
}

fn append_readers(readers: &[ActionId], text: &mut String<Room>) -> Result<(), OutOfMemory>
    ensures { OnOk result (string_bytes text.new ≡ string_bytes text.old
        ++ readers_text (map (λ a. a.0) readers.now)) }
{
    if readers.is_empty() {
        return append(" none", text);
    }
    append_each_reader(readers, text)
}

fn append_each_reader(readers: &[ActionId], text: &mut String<Room>) -> Result<(), OutOfMemory>
    ensures { OnOk result (string_bytes text.new ≡ string_bytes text.old
        ++ flat_map reader_text (map (λ a. a.0) readers.now)) }
{
    for reader in readers {
        append_number(" a", u64::from(reader.0), text)?;
    }
    Ok(())
}
