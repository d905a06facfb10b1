//! The query at the front of a text.

ghost use Rattle.std.specs.Prelude.{IfErr, IfOk};
ghost use Rattle.argus_reading.specs.Operations.{NumberQueries, Queries, WordQueries};
ghost use Rattle.argus_texts.specs.Language.{OnLeft, Reads, Stops};

use crate::choosing::farther;
use crate::part_reading::{byte, int_behind};
use argus_contents::Query;
use argus_texts::front::{Stop, word};

/// The query at the front, and what comes after it.
pub(crate) fn query(text: &str) -> Result<(Query, &str), Stop>
    ensures read { IfOk result (λ r. Reads Queries text.now r.0 r.1.now) }
    ensures stops { IfErr result
        (λ e. OnLeft e (λ left. Stops Queries text.now left)) }
{
    let worded = match word_query(text) {
        Ok(read) => return Ok(read),
        Err(stop) => stop,
    };
    let numbered = match number_query(text) {
        Ok(read) => return Ok(read),
        Err(stop) => stop,
    };
    Err(farther(worded, numbered))
}

/// A query that is one word.
fn word_query(text: &str) -> Result<(Query, &str), Stop>
    ensures read { IfOk result (λ r. Reads Queries text.now r.0 r.1.now) }
    ensures stops { IfErr result
        (λ e. OnLeft e (λ left. Stops WordQueries text.now left)) }
{
    let whole = match word(text, "whole") {
        Ok(rest) => return Ok((Query::Whole, rest)),
        Err(stop) => stop,
    };
    let low = match word(text, "low") {
        Ok(rest) => return Ok((Query::Low, rest)),
        Err(stop) => stop,
    };
    let high = match word(text, "high") {
        Ok(rest) => return Ok((Query::High, rest)),
        Err(stop) => stop,
    };
    let size = match word(text, "size") {
        Ok(rest) => return Ok((Query::Size, rest)),
        Err(stop) => stop,
    };
    let bottom = match word(text, "bottom") {
        Ok(rest) => return Ok((Query::Bottom, rest)),
        Err(stop) => stop,
    };
    let top = match word(text, "top") {
        Ok(rest) => return Ok((Query::Top, rest)),
        Err(stop) => stop,
    };
    Err(farther(
        whole,
        farther(low, farther(high, farther(size, farther(bottom, top)))),
    ))
}

/// A query that has a number.
fn number_query(text: &str) -> Result<(Query, &str), Stop>
    ensures read { IfOk result (λ r. Reads Queries text.now r.0 r.1.now) }
    ensures stops { IfErr result
        (λ e. OnLeft e (λ left. Stops NumberQueries text.now left)) }
{
    let field = match byte(text, "field ") {
        Ok((field, rest)) => return Ok((Query::Field(field), rest)),
        Err(stop) => stop,
    };
    let fetch = match int_behind(text, "fetch ") {
        Ok((index, rest)) => return Ok((Query::Fetch(index), rest)),
        Err(stop) => stop,
    };
    let is_tag = match byte(text, "is_tag ") {
        Ok((tag, rest)) => return Ok((Query::IsTag(tag), rest)),
        Err(stop) => stop,
    };
    let tag_value = match byte(text, "tag_value ") {
        Ok((tag, rest)) => return Ok((Query::TagValue(tag), rest)),
        Err(stop) => stop,
    };
    Err(farther(field, farther(fetch, farther(is_tag, tag_value))))
}
