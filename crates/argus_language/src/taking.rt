//! Taking one more line of a script.

ghost use Rattle.std.specs.Prelude.{◌≡◌, true, ◌+◌, ◌<◌, ◌^◌, ◌∷◌, ◌++◌, [], length, map, take};
ghost use Rattle.std.specs.Prelude.{IfErr, IfOk, OnOk};
ghost use Rattle.argus_contents.specs.{Name.is_name, declared.limits.TheConstants.MAX_OBJECTS};
ghost use Rattle.argus_texts.specs.ShapeSpelling.{IsMakeable, IsShapeText, shape_spelling};
ghost use Rattle.argus_language.specs.{Command.command_of, Fault.position_at, Objects.AllMakeable};
ghost use Rattle.argus_language.specs.Fault.{HasFault, HasWordFault, IsFine, WordsAreFine, is_bad};
ghost use Rattle.argus_language.specs.Fault.{is_one_too_many, is_too_long, opens_block};
ghost use Rattle.argus_language.specs.Levels.{depth_of, levels_after, may_follow, place_of};
ghost use Rattle.argus_language.specs.Lines.{before_blanks, behind_blanks, line_text, word};
ghost use Rattle.argus_language.specs.Numbered.{numbered, one_or_none, sentences_of};
ghost use Rattle.argus_language.specs.{PlainStep.plain_step, Reading.{levels_of, lines_so_far}};
ghost use Rattle.argus_language.specs.Reading.{IsWithinLimits, IsSound, OnKind, StandsInAction};
ghost use Rattle.argus_language.specs.PlainLine.{plain_line, plain_operation};
ghost use Rattle.argus_language.specs.Script.{name_declared, shape_declared};
ghost use Rattle.argus_language.specs.{Spelled.lines_of_part, Placement.{is_body, is_top}};
ghost use Rattle.argus_language.specs.declared.limits.TheConstants.{MAX_LINES, MAX_OPEN_BLOCKS};
ghost use Rattle.argus_language.specs.Command as command;
ghost use Rattle.argus_language.specs.Spelled as sentence;
ghost use Rattle.argus_language.specs.declared.line_error.LineError.TheVariants as LineError;

use crate::block_kind::BlockKind;
use crate::cut::{trimmed, without_end};
use crate::fault_kind::FaultKind;
use crate::limits::{MAX_LINE_BYTES, MAX_LINES, MAX_OPEN_BLOCKS, MAX_SCRIPT_BYTES};
use crate::line::Line;
use crate::line_error::LineError;
use crate::line_reading::read_line;
use crate::lock::Lock;
use crate::numbering::number_in;
use crate::objects::Objects;
use crate::operation::Operation;
use crate::reading::Reading;
use crate::step::Step;
use crate::step_making::access_step;
use crate::words::word_len;
use argus_contents::limits::MAX_OBJECTS;
use argus_contents::{Name, NameError, Shape};
use argus_memory::{Heap, OutOfMemory};
use argus_texts::read_shape;

impl<'a> Reading<'a> {
    /// Reads one more line, which comes after this many lines and bytes, or returns its fault.
    /// After an error don't read on.
    pub(crate) fn take(
        &mut self,
        heap: Heap,
        lines: u32,
        bytes: usize,
        line: &'a [u8],
    ) -> Result<(), LineError>
        requires sound { IsSound self.old.blocks.items self.old.steps.items }
        requires within { bytes + length line.now < 2 ^ 64 }
        ensures fault { IfErr result (λ e. OnKind e
            (HasFault (position_at lines bytes (levels_of self.old.blocks.items))
            self.old.objects line.now)) }
        ensures fine { OnOk result
            (IsFine (position_at lines bytes (levels_of self.old.blocks.items))
            self.old.objects line.now) }
        ensures names { OnOk result (self.new.objects.names
            ≡ self.old.objects.names ++ name_declared (command_of (line_text line.now))) }
        ensures shapes { OnOk result (map shape_spelling self.new.objects.shapes
            ≡ map shape_spelling self.old.objects.shapes
            ++ shape_declared (command_of (line_text line.now))) }
        ensures kept { OnOk result (take (length self.old.objects.shapes) self.new.objects.shapes
            ≡ self.old.objects.shapes) }
        ensures makeable { OnOk result (AllMakeable self.old.objects
            → AllMakeable self.new.objects) }
        ensures levels { OnOk result (levels_of self.new.blocks.items
            ≡ levels_after (command_of (line_text line.now)) (lines + 1)
            (levels_of self.old.blocks.items)) }
        ensures lines { OnOk result (lines_so_far self.new.blocks.items self.new.steps.items
            ≡ lines_so_far self.old.blocks.items self.old.steps.items
            ++ sentences_of self.old.objects line.now) }
        ensures sound { OnOk result (IsSound self.new.blocks.items self.new.steps.items) }
        ensures counted { OnOk result (lines < MAX_LINES) }
    {
        if self.is_too_long(lines, bytes, line) {
            return Err(LineError::Fault(FaultKind::TooLong));
        }
        let read = read_line(trimmed(without_end(line)));
        if is_bad(&read) {
            return Err(LineError::Fault(FaultKind::BadWord));
        }
        if !self.may_follow(&read) {
            return Err(LineError::Fault(FaultKind::Misplaced));
        }
        self.carry(heap, lines + 1, read)
    }

    /// Does what the line with this number says, which is allowed here.
    fn carry(&mut self, heap: Heap, number: u32, line: Line<'a>) -> Result<(), LineError>
        requires sound { IsSound self.old.blocks.items self.old.steps.items }
        requires may { may_follow (plain_line line) (levels_of self.old.blocks.items) ≡ true }
        requires room { IsWithinLimits (plain_line line)
            (levels_of self.old.blocks.items) self.old.objects }
        ensures fault { IfErr result
            (λ e. OnKind e (HasWordFault (plain_line line.entry) self.old.objects)) }
        ensures fine { OnOk result (WordsAreFine (plain_line line.entry) self.old.objects) }
        ensures names { OnOk result (self.new.objects.names
            ≡ self.old.objects.names ++ name_declared (plain_line line.entry)) }
        ensures shapes { OnOk result (map shape_spelling self.new.objects.shapes
            ≡ map shape_spelling self.old.objects.shapes ++ shape_declared
            (plain_line line.entry)) }
        ensures kept { OnOk result (take (length self.old.objects.shapes) self.new.objects.shapes
            ≡ self.old.objects.shapes) }
        ensures makeable { OnOk result (AllMakeable self.old.objects
            → AllMakeable self.new.objects) }
        ensures levels { OnOk result (levels_of self.new.blocks.items
            ≡ levels_after (plain_line line.entry) number (levels_of self.old.blocks.items)) }
        ensures lines { OnOk result (lines_so_far self.new.blocks.items self.new.steps.items
            ≡ lines_so_far self.old.blocks.items self.old.steps.items
            ++ one_or_none (numbered self.old.objects (plain_line line.entry))) }
        ensures sound { OnOk result (IsSound self.new.blocks.items self.new.steps.items) }
    {
        match line {
            Line::Nothing | Line::Bad => Ok(()),
            Line::Declare(name, shape) => self.declare(heap, name, shape),
            Line::Enter(kind) => self.begin_block(heap, BlockKind::Enter(kind), number),
            Line::Coenter => self.begin_block(heap, BlockKind::Coenter, number),
            Line::Arm(kind) => self.begin_arm(heap, kind),
            Line::If(lock, name) => self.test(heap, lock, name, number),
            Line::Leave => self.push(Step::Leave),
            Line::AbortLeave => self.push(Step::AbortLeave),
            Line::LeaveAll => self.push(Step::LeaveAll),
            Line::End => self.end(),
            Line::Access(name, operation) => self.access(heap, name, operation),
        }
    }

    /// Whether a limit is passed at this line, which comes after this many lines and bytes.
    fn is_too_long(&self, lines: u32, bytes: usize, line: &[u8]) -> bool
        requires { bytes + length line.now < 2 ^ 64 }
        ensures { result ≡ is_too_long
            (position_at lines bytes (levels_of self.now.blocks.items))
            (length self.now.objects.names) line.now }
    {
        let text = without_end(line);
        if text.len() > MAX_LINE_BYTES || bytes + line.len() > MAX_SCRIPT_BYTES {
            return true;
        }
        lines >= MAX_LINES || self.is_one_too_many(lines, bytes, text)
    }

    /// Whether a line with this text opens or declares one more than the limit.
    fn is_one_too_many(&self, lines: u32, bytes: usize, text: &[u8]) -> bool
        ensures { result ≡ is_one_too_many
            (position_at lines bytes (levels_of self.now.blocks.items))
            (length self.now.objects.names)
            (word (before_blanks (behind_blanks text.now))) }
    {
        let is_deep = self.depth() >= MAX_OPEN_BLOCKS;
        let is_full = self.objects.len() >= MAX_OBJECTS as usize;
        if !is_deep && !is_full {
            return false;
        }
        let text = trimmed(text);
        let verb = &text[..word_len(text)];
        is_deep && opens_block(verb) || is_full && verb == b"declare".as_slice()
    }

    /// Declares an object, with the shape of a written form.
    fn declare(&mut self, heap: Heap, name: &'a str, shape: &'a str) -> Result<(), LineError>
        requires sound { IsSound self.old.blocks.items self.old.steps.items }
        requires may { is_top (place_of (levels_of self.old.blocks.items)) ≡ true }
        requires room { (length self.old.objects.names < MAX_OBJECTS)
            × (is_name name.now ≡ true) }
        ensures fault { IfErr result
            (λ e. OnKind e (HasWordFault (command.declare name.now shape.now) self.old.objects)) }
        ensures fine { OnOk result
            (WordsAreFine (command.declare name.now shape.now) self.old.objects) }
        ensures names { OnOk result (self.new.objects.names
            ≡ self.old.objects.names ++ name.now ∷ []) }
        ensures shapes { OnOk result (map shape_spelling self.new.objects.shapes
            ≡ map shape_spelling self.old.objects.shapes ++ shape.now ∷ []) }
        ensures kept { OnOk result (take (length self.old.objects.shapes) self.new.objects.shapes
            ≡ self.old.objects.shapes) }
        ensures makeable { OnOk result (AllMakeable self.old.objects
            → AllMakeable self.new.objects) }
        ensures levels { OnOk result (levels_of self.new.blocks.items
            ≡ levels_of self.old.blocks.items) }
        ensures lines { OnOk result (lines_so_far self.new.blocks.items self.new.steps.items
            ≡ lines_so_far self.old.blocks.items self.old.steps.items ++ sentence.declare ∷ []) }
        ensures sound { OnOk result (IsSound self.new.blocks.items self.new.steps.items) }
    {
        if let Some(_) = self.objects.number(name) {
            return Err(LineError::Fault(FaultKind::NameTwice));
        }
        let made = shape_of(heap, shape)?;
        self.objects.declare(name, name_of(heap, name)?, made)?;
        self.push(Step::Declare)
    }

    /// A block begins that is run if a lock is free.
    fn test(&mut self, heap: Heap, lock: Lock, name: &'a str, number: u32) -> Result<(), LineError>
        requires sound { IsSound self.old.blocks.items self.old.steps.items }
        requires may { is_body (place_of (levels_of self.old.blocks.items)) ≡ true }
        requires room { depth_of (levels_of self.old.blocks.items) < MAX_OPEN_BLOCKS }
        ensures fault { IfErr result
            (λ e. OnKind e (HasWordFault (command.test lock name.now) self.old.objects)) }
        ensures fine { OnOk result (WordsAreFine (command.test lock name.now) self.old.objects) }
        ensures objects { self.new.objects ≡ self.old.objects }
        ensures levels { OnOk result (levels_of self.new.blocks.items
            ≡ levels_after (command.test lock name.now) number
            (levels_of self.old.blocks.items)) }
        ensures lines { OnOk result (lines_so_far self.new.blocks.items self.new.steps.items
            ≡ lines_so_far self.old.blocks.items self.old.steps.items
            ++ one_or_none (numbered self.old.objects (command.test lock name.now))) }
        ensures sound { OnOk result (IsSound self.new.blocks.items self.new.steps.items) }
    {
        let Some(object) = self.objects.number(name) else {
            return Err(LineError::Fault(FaultKind::UnknownName));
        };
        self.begin_block(heap, BlockKind::If(lock, object), number)
    }

    /// An access to an object.
    fn access(
        &mut self,
        heap: Heap,
        name: &'a str,
        operation: Operation<'a>,
    ) -> Result<(), LineError>
        requires sound { IsSound self.old.blocks.items self.old.steps.items }
        requires may { is_body (place_of (levels_of self.old.blocks.items)) ≡ true }
        ensures fault { IfErr result (λ e. OnKind e
            (HasWordFault (command.access name.now (plain_operation operation.entry))
            self.old.objects)) }
        ensures fine { OnOk result
            (WordsAreFine (command.access name.now (plain_operation operation.entry))
            self.old.objects) }
        ensures objects { self.new.objects ≡ self.old.objects }
        ensures levels { OnOk result (levels_of self.new.blocks.items
            ≡ levels_of self.old.blocks.items) }
        ensures lines { OnOk result (lines_so_far self.new.blocks.items self.new.steps.items
            ≡ lines_so_far self.old.blocks.items self.old.steps.items
            ++ one_or_none (numbered self.old.objects
            (command.access name.now (plain_operation operation.entry)))) }
        ensures sound { OnOk result (IsSound self.new.blocks.items self.new.steps.items) }
    {
        let step = access_in(heap, &self.objects, name, operation)?;
        self.push(step)
    }
}

/// The access to the object with this name.
fn access_in<'a>(
    heap: Heap,
    objects: &Objects<'a>,
    name: &'a str,
    operation: Operation<'a>,
) -> Result<Step, LineError>
    ensures fault { IfErr result (λ e. OnKind e
        (HasWordFault (command.access name.now (plain_operation operation.entry)) objects.now)) }
    ensures fine { OnOk result
        (WordsAreFine (command.access name.now (plain_operation operation.entry)) objects.now) }
    ensures line { IfOk result (λ s. lines_of_part (plain_step s)
        ≡ one_or_none (numbered objects.now
        (command.access name.now (plain_operation operation.entry)))) }
    ensures stands { IfOk result (λ s. StandsInAction (plain_step s)) }
{
    let Some(object) = objects.number(name) else {
        return Err(LineError::Fault(FaultKind::UnknownName));
    };
    let Some(shape) = objects.shape(object) else {
        return Err(LineError::Fault(FaultKind::UnknownName));
    };
    match number_in(shape, &operation) {
        Ok(number) => access_step(heap, object, number, operation),
        Err(kind) => Err(LineError::Fault(kind)),
    }
}

/// The shape with this written form.
fn shape_of(heap: Heap, text: &str) -> Result<Shape, LineError>
    ensures makeable { IfOk result (λ shape. IsMakeable shape) }
    ensures form { IfOk result (λ shape. text.now ≡ shape_spelling shape) }
    ensures fine { OnOk result (IsShapeText text.now) }
    ensures fault { IfErr result
        (λ e. OnKind e (λ k. (k ≡ FaultKind.BadType) × (IsShapeText text.now → ⊥))) }
{
    match read_shape(heap, text) {
        Ok(Some(shape)) => Ok(shape),
        Ok(None) => Err(LineError::Fault(FaultKind::BadType)),
        Err(OutOfMemory) => Err(LineError::OutOfMemory),
    }
}

/// The name with this text, which has the form of a name.
fn name_of(heap: Heap, text: &str) -> Result<Name, LineError>
    requires { is_name text.now ≡ true }
    ensures name { IfOk result (λ name. name ≡ text.now) }
    ensures fault { IfErr result (λ e. e ≡ LineError.OutOfMemory) }
{
    match Name::new(heap, text) {
        Ok(name) => Ok(name),
        Err(NameError::OutOfMemory) => Err(LineError::OutOfMemory),
        Err(NameError::BadName) => Err(LineError::Fault(FaultKind::BadWord)),
    }
}

/// Whether the first word opens a block.
fn opens_block(verb: &[u8]) -> bool
    ensures { result ≡ opens_block verb.now }
{
    verb == b"enter".as_slice() || verb == b"coenter".as_slice() || verb == b"if".as_slice()
}

fn is_bad(line: &Line<'_>) -> bool
    ensures { result ≡ is_bad (plain_line line.now) }
{
    match line {
        Line::Bad => true,
        Line::Nothing | Line::Declare(_, _) | Line::Enter(_) | Line::Coenter => false,
        Line::Arm(_) | Line::If(_, _) | Line::Leave | Line::AbortLeave => false,
        Line::LeaveAll | Line::End | Line::Access(_, _) => false,
    }
}
