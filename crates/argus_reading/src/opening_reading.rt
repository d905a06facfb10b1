//! Reads what comes after the first word of an opening's lines.

ghost use Rattle.std.specs.List.{list_all};
ghost use Rattle.std.specs.Prelude.{IfErr, IfOk, nat_lt, true, ◌<◌, ◌^◌, ◌≡◌, ◌≢◌, ◌≤◌};
ghost use Rattle.argus_contents.specs.Content.{plain_option};
ghost use Rattle.argus_reading.specs.{Combined.Worded, OpeningLanguages.OptionContents};
ghost use Rattle.argus_reading.specs.OpeningLanguages.{FoldedLines, IsForm, ObjectLines};
ghost use Rattle.argus_texts.specs.{Language.{FormOf, OnLeft, Reads, Stops}, Languages.Numbers};
ghost use Rattle.argus_texts.specs.ShapeLanguages.{BeginsNo, Shapes};
ghost use Rattle.argus_texts.specs.declared.stop.Stop.TheVariants as stop;

use argus_contents::limits::MAX_ACTIONS;
use argus_contents::{Content, Shape};
use argus_journal::limits::MAX_FIRST_ENTRY;
use argus_memory::Heap;
use argus_texts::front::{Stop, Unread, expect, number, one_content, one_shape, word};

// The most actions that there may be, in the type of the reader's numbers.
const MOST_ACTIONS: u64 = MAX_ACTIONS as u64;

/// How many entries, at least one, and how many actions the opening stands for. `Left`: the text
/// isn't what comes after `opening ` in an opening's first line; which number comes with it isn't
/// promised. It takes no memory.
///
/// ```text
/// let (entries, actions) = folded_numbers("entries 11 actions 3")?;
/// ```
pub fn folded_numbers(text: &str) -> Result<(u64, u32), Stop>
    ensures read { IfOk result (λ r. IsForm FoldedLines (r.0, r.1) text.now) }
    ensures stops { IfErr result (λ e. OnLeft e (λ left. FormOf FoldedLines text.now → ⊥)) }
    ensures no_memory { IfErr result (λ e. e ≢ stop.Memory) }
{
    let (entries, rest) = number_behind(text, "entries ", 1, MAX_FIRST_ENTRY)?;
    let rest = expect(rest, b' ')?;
    let (actions, rest) = number_behind(rest, "actions ", 0, MOST_ACTIONS)?;
    if rest.len() > 0 {
        return Err(Stop::Left(rest.len()));
    }
    Ok((entries, actions as u32))
}

/// The number of an object, its shape and its content, which is `None` for `absent`. `Left`: the
/// text isn't what comes after `opening ` in an object's line; which number comes with it isn't
/// promised. `Memory`: there was none for the shape or the content.
///
/// ```text
/// let (o, shape, content) = object_line(heap, "o0 atomic_record[balance:int] {7}")?;
/// ```
pub fn object_line(heap: Heap, text: &str) -> Result<(u64, Shape, Option<Content>), Stop>
    ensures read { IfOk result
        (λ r. IsForm ObjectLines (r.0, (r.1, plain_option r.2)) text.now) }
    ensures stops { IfErr result (λ e. OnLeft e (λ left. FormOf ObjectLines text.now → ⊥)) }
{
    let (o, rest) = number_behind(text, "o", 0, 4_294_967_295)?;
    let rest = expect(rest, b' ')?;
    let (shape, rest) = shape_at(heap, rest)?;
    let rest = expect(rest, b' ')?;
    let content = content_line(heap, rest)?;
    Ok((o, shape, content))
}

/// The number after the word `before`, and what comes after the number.
fn number_behind<'a>(
    text: &'a str,
    before: &str,
    least: u8,
    most: u64,
) -> Result<(u64, &'a str), Stop>
    requires ascii { list_all (λ b. nat_lt b 128) before.now ≡ true }
    requires wide { (least ≤ 1) × (9 ≤ most) }
    ensures read { IfOk result
        (λ r. Reads (Worded before.now (Numbers least most)) text.now r.0 r.1.now) }
    ensures stops { IfErr result (λ e. OnLeft e
        (λ left. Stops (Worded before.now (Numbers least most)) text.now left)) }
    ensures no_memory { IfErr result (λ e. e ≢ stop.Memory) }
{
    let rest = word(text, before)?;
    let (number, rest) = number(rest, least, most)?;
    Ok((number, rest))
}

/// The shape at the front, and what comes after it.
fn shape_at(heap: Heap, text: &str) -> Result<(Shape, &str), Stop>
    ensures read { IfOk result (λ r. Reads Shapes text.now r.0 r.1.now) }
    ensures stops { IfErr result (λ e. OnLeft e (λ left. BeginsNo Shapes text.now)) }
{
    match one_shape(heap, text) {
        Ok(read) => Ok(read),
        Err(Unread::NoForm) => Err(Stop::Left(text.len())),
        Err(Unread::Memory) => Err(Stop::Memory),
    }
}

/// The content that the text is; `None` if it is `absent`.
fn content_line(heap: Heap, text: &str) -> Result<Option<Content>, Stop>
    ensures read { IfOk result (λ c. IsForm OptionContents (plain_option c) text.now) }
    ensures stops { IfErr result (λ e. OnLeft e (λ left. FormOf OptionContents text.now → ⊥)) }
{
    if text == "absent" {
        return Ok(None);
    }
    let (content, rest) = one_content(heap, text)?;
    if rest.len() > 0 {
        return Err(Stop::Left(rest.len()));
    }
    Ok(Some(content))
}
