//! The operation of an access, read from its words.

ghost use Rattle.std.specs.{Prelude.{◌≡◌, ℕ, ℤ, List, Some, None}, Option.option_map};
ghost use Rattle.argus_contents.specs.Name.{is_name};
ghost use Rattle.argus_language.specs.Command.{alone, any_operation, array_operation};
ghost use Rattle.argus_language.specs.Command.{long_array_operation, operation, record_operation};
ghost use Rattle.argus_language.specs.Command.{short_array_operation, variant_operation};
ghost use Rattle.argus_language.specs.Command.{with_int_and_text, with_ints, with_name};
ghost use Rattle.argus_language.specs.Command.{with_name_and_text, with_text};
ghost use Rattle.argus_language.specs.PlainLine.{plain_any, plain_array_operation, plain_operation};

use crate::any_operation::AnyOperation;
use crate::array_operation::ArrayOperation;
use crate::int::int_in;
use crate::operation::Operation;
use crate::record_operation::RecordOperation;
use crate::variant_operation::VariantOperation;
use crate::words::split_word;
use argus_contents::Name;

/// The operation that a verb says with the words after the object's name.
pub(crate) fn read_operation<'a>(verb: &str, rest: &'a str) -> Option<Operation<'a>>
    ensures { option_map plain_operation result ≡ operation verb.now rest.now }
{
    if let Some(operation) = on_record(verb, rest) {
        return Some(operation);
    }
    if let Some(operation) = on_any(verb, rest) {
        return Some(Operation::Any(operation));
    }
    if let Some(operation) = on_array(verb, rest) {
        return Some(Operation::Array(operation));
    }
    on_variant(verb, rest)
}

fn on_record<'a>(verb: &str, rest: &'a str) -> Option<Operation<'a>>
    ensures { option_map plain_operation result ≡ record_operation verb.now rest.now }
{
    if verb == "get" {
        let field = name_alone(rest)?;
        return Some(Operation::Record(field, RecordOperation::Get));
    }
    if verb == "set" {
        let (field, value) = name_and_text(rest)?;
        return Some(Operation::Record(field, RecordOperation::Set(value)));
    }
    None
}

fn on_any<'a>(verb: &str, rest: &'a str) -> Option<AnyOperation<'a>>
    ensures { option_map plain_any result ≡ any_operation verb.now rest.now }
{
    if verb == "create" {
        let content = some_text(rest)?;
        return Some(AnyOperation::Create(content));
    }
    if verb == "read" {
        return alone(rest, AnyOperation::Read);
    }
    if verb == "touch" {
        return alone(rest, AnyOperation::Touch);
    }
    None
}

fn on_array<'a>(verb: &str, rest: &'a str) -> Option<ArrayOperation<'a>>
    ensures { option_map plain_array_operation result ≡ array_operation verb.now rest.now }
{
    if let Some(operation) = short_on_array(verb) {
        return if rest.is_empty() {
            Some(operation)
        } else {
            None
        };
    }
    long_on_array(verb, rest)
}

fn short_on_array<'a>(verb: &str) -> Option<ArrayOperation<'a>>
    ensures { option_map plain_array_operation result ≡ short_array_operation verb.now }
{
    if verb == "low" {
        Some(ArrayOperation::Low)
    } else if verb == "high" {
        Some(ArrayOperation::High)
    } else if verb == "size" {
        Some(ArrayOperation::Size)
    } else if verb == "bottom" {
        Some(ArrayOperation::Bottom)
    } else if verb == "top" {
        Some(ArrayOperation::Top)
    } else if verb == "remh" {
        Some(ArrayOperation::Remh)
    } else if verb == "reml" {
        Some(ArrayOperation::Reml)
    } else {
        None
    }
}

fn long_on_array<'a>(verb: &str, rest: &'a str) -> Option<ArrayOperation<'a>>
    ensures { option_map plain_array_operation result ≡ long_array_operation verb.now rest.now }
{
    if verb == "fetch" {
        return Some(ArrayOperation::Fetch(int_in(rest.as_bytes())?));
    }
    if verb == "store" {
        let (index, value) = int_and_text(rest)?;
        return Some(ArrayOperation::Store(index, value));
    }
    if verb == "addh" {
        return Some(ArrayOperation::Addh(some_text(rest)?));
    }
    if verb == "addl" {
        return Some(ArrayOperation::Addl(some_text(rest)?));
    }
    if verb == "set_low" {
        return Some(ArrayOperation::SetLow(int_in(rest.as_bytes())?));
    }
    if verb == "trim" {
        let (from, count) = two_ints(rest)?;
        return Some(ArrayOperation::Trim(from, count));
    }
    None
}

fn on_variant<'a>(verb: &str, rest: &'a str) -> Option<Operation<'a>>
    ensures { option_map plain_operation result ≡ variant_operation verb.now rest.now }
{
    if verb == "is_tag" {
        let tag = name_alone(rest)?;
        return Some(Operation::Variant(tag, VariantOperation::IsTag));
    }
    if verb == "tag_value" {
        let tag = name_alone(rest)?;
        return Some(Operation::Variant(tag, VariantOperation::TagValue));
    }
    if verb == "change_tag" {
        let (tag, value) = name_and_text(rest)?;
        return Some(Operation::Variant(tag, VariantOperation::ChangeTag(value)));
    }
    None
}

fn alone<'a>(rest: &str, operation: AnyOperation<'a>) -> Option<AnyOperation<'a>>
    ensures { result ≡ alone rest.now operation.entry }
{
    if rest.is_empty() {
        Some(operation)
    } else {
        None
    }
}

fn some_text(rest: &str) -> Option<&str>
    ensures { option_map (λ text. text.now) result ≡ with_text rest.now (λ text. text) }
{
    if rest.is_empty() { None } else { Some(rest) }
}

/// A name, and no more words.
pub(crate) fn name_alone(rest: &str) -> Option<&str>
    ensures { option_map (λ name. name.now) result ≡ with_name rest.now (λ name. name) }
{
    if Name::is_name(rest) {
        Some(rest)
    } else {
        None
    }
}

fn name_and_text(rest: &str) -> Option<(&str, &str)>
    ensures { option_map {U = List ℕ × List ℕ} (λ r. (r.0.now, r.1.now)) result
        ≡ with_name_and_text rest.now (λ name text. (name, text)) }
{
    let (name, text) = split_word(rest);
    if Name::is_name(name) && !text.is_empty() {
        return Some((name, text));
    }
    None
}

fn int_and_text(rest: &str) -> Option<(i64, &str)>
    ensures { option_map {U = ℤ × List ℕ} (λ r. (r.0, r.1.now)) result
        ≡ with_int_and_text rest.now (λ i text. (i, text)) }
{
    let (word, text) = split_word(rest);
    let int = int_in(word.as_bytes())?;
    if text.is_empty() {
        None
    } else {
        Some((int, text))
    }
}

fn two_ints(rest: &str) -> Option<(i64, i64)>
    ensures { result ≡ with_ints rest.now (λ i j. (i, j)) }
{
    let (first, second) = split_word(rest);
    Some((int_in(first.as_bytes())?, int_in(second.as_bytes())?))
}
