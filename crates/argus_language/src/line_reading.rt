//! `read_line`: what a line says.

ghost use Rattle.std.specs.Prelude.{◌≡◌, if◌then◌else◌};
ghost use Rattle.argus_language.specs.Command.{accessing, command, declaring, entering, leaving};
ghost use Rattle.argus_language.specs.Command.{command_of, testing, command_of_text};
ghost use Rattle.argus_language.specs.{Lines.is_word, PlainLine.plain_line};

use crate::action_kind::ActionKind;
use crate::line::Line;
use crate::lock::Lock;
use crate::operation_reading::{name_alone, read_operation};
use crate::words::split_word;
use argus_contents::Name;
use std::str::from_utf8;

/// What the line says, which has no blanks at its ends.
pub(crate) fn read_line(bytes: &[u8]) -> Line<'_>
    ensures { plain_line result ≡ command_of bytes.now }
{
    match from_utf8(bytes) {
        Ok(text) => read_text(text),
        Err(_) => Line::Bad,
    }
}

fn read_text(text: &str) -> Line<'_>
    ensures { plain_line result ≡ command_of_text text.now }
{
    let Some(first) = text.as_bytes().first() else {
        return Line::Nothing;
    };
    if *first == b'#' {
        return Line::Nothing;
    }
    let (verb, rest) = split_word(text);
    read_command(verb, rest)
}

fn read_command<'a>(verb: &str, rest: &'a str) -> Line<'a>
    ensures { plain_line result ≡ command verb.now rest.now }
{
    if verb == "declare" {
        read_declaration(rest)
    } else if verb == "enter" {
        read_enter(rest)
    } else if verb == "coenter" {
        if_so(rest.is_empty(), Line::Coenter)
    } else if verb == "topaction" {
        if_so(rest.is_empty(), Line::Arm(ActionKind::Topaction))
    } else if verb == "action" {
        if_so(rest.is_empty(), Line::Arm(ActionKind::Subaction))
    } else if verb == "if" {
        read_test(rest)
    } else if verb == "leave" {
        read_leave(rest)
    } else if verb == "abort" {
        if_so(rest == "leave", Line::AbortLeave)
    } else if verb == "end" {
        if_so(rest.is_empty(), Line::End)
    } else {
        read_access(verb, rest)
    }
}

fn if_so(is_so: bool, line: Line<'_>) -> Line<'_>
    ensures { result ≡ (if is_so then line.entry else Line.Bad) }
{
    if is_so { line } else { Line::Bad }
}

fn read_declaration(rest: &str) -> Line<'_>
    ensures { plain_line result ≡ declaring rest.now }
{
    let (name, shape) = split_word(rest);
    if Name::is_name(name) && has_one_word(shape) {
        return Line::Declare(name, shape);
    }
    Line::Bad
}

fn has_one_word(text: &str) -> bool
    ensures { result ≡ is_word text.now }
{
    let (_, others) = split_word(text);
    !text.is_empty() && others.is_empty()
}

fn read_enter(rest: &str) -> Line<'_>
    ensures { plain_line result ≡ entering rest.now }
{
    if rest == "topaction" {
        return Line::Enter(ActionKind::Topaction);
    }
    if_so(rest == "action", Line::Enter(ActionKind::Subaction))
}

fn read_test(rest: &str) -> Line<'_>
    ensures { plain_line result ≡ testing rest.now }
{
    let (test, words) = split_word(rest);
    let Some(name) = name_alone(words) else {
        return Line::Bad;
    };
    if test == "test_read" {
        return Line::If(Lock::Read, name);
    }
    if_so(test == "test_write", Line::If(Lock::Write, name))
}

fn read_leave(rest: &str) -> Line<'_>
    ensures { plain_line result ≡ leaving rest.now }
{
    if rest.is_empty() {
        return Line::Leave;
    }
    if_so(rest == "all", Line::LeaveAll)
}

fn read_access<'a>(verb: &str, rest: &'a str) -> Line<'a>
    ensures { plain_line result ≡ accessing verb.now rest.now }
{
    let (name, words) = split_word(rest);
    if !Name::is_name(name) {
        return Line::Bad;
    }
    match read_operation(verb, words) {
        Some(operation) => Line::Access(name, operation),
        None => Line::Bad,
    }
}
