//! `Reading`: a script that is being read, line by line.

ghost use Rattle.std.specs.Prelude.{◌≡◌, true, false, ◌+◌, ◌<◌, [], ◌∷◌, ◌++◌, drop, IfErr, OnOk};
ghost use Rattle.argus_language.specs.declared.line_error.LineError.TheVariants as LineError;
ghost use Rattle.argus_language.specs.declared.limits.TheConstants.{MAX_OPEN_BLOCKS};
ghost use Rattle.argus_language.specs.Levels.{behind_arm, depth_of, is_arm, place_of, with_arm};
ghost use Rattle.argus_language.specs.{Levels.{may_follow, with_block}, Objects.no_objects};
ghost use Rattle.argus_language.specs.{PlainStep.plain_step, Reading.lines_so_far};
ghost use Rattle.argus_language.specs.Reading.{IsSound, closing_at, is_arm_line, levels_of};
ghost use Rattle.argus_language.specs.{PlainLine.plain_line, Spelled.{begin, lines_of_part}};
ghost use Rattle.argus_language.specs.Placement.{MayStand, in_arm, is_coenter, is_top, may_begin};
ghost use Rattle.argus_language.specs.Placement.{is_body, place_in, takes_arm};
ghost use Rattle.argus_language.specs.declared.block_kind.BlockKind.TheVariants as BlockKind;
ghost use Rattle.argus_language.specs.Spelled as sentence;

use crate::action_kind::ActionKind;
use crate::block_kind::BlockKind;
use crate::level::Level;
use crate::line::Line;
use crate::line_error::LineError;
use crate::objects::Objects;
use crate::open_block::OpenBlock;
use crate::place::Place;
use crate::step::Step;
use argus_memory::{Heap, OutOfMemory, Room};
use std::mem;

/// A script that is being read: its objects so far, what is open, and the steps in the innermost.
#[derive(Drop)]
pub(crate) struct Reading<'a> {
    pub objects: Objects<'a>,
    pub blocks: Vec<OpenBlock, Room>,
    pub steps: Vec<Step, Room>,
}

impl<'a> Reading<'a> {
    /// Nothing has been read yet.
    pub(crate) fn new(heap: Heap) -> Reading<'a>
        ensures objects { result.objects ≡ no_objects }
        ensures none_open { result.blocks.items ≡ [] }
        ensures no_steps { result.steps.items ≡ [] }
    {
        Reading {
            objects: Objects::new(heap),
            blocks: Vec::new(heap.room()),
            steps: Vec::new(heap.room()),
        }
    }

    /// The place of the next line.
    pub(crate) fn place(&self) -> Place
        ensures { result ≡ place_of (levels_of self.now.blocks.items) }
    {
        match self.blocks.last() {
            Some(block) => block.level.place,
            None => Place::Top,
        }
    }

    /// How many blocks are open.
    pub(crate) fn depth(&self) -> u32
        ensures { result ≡ depth_of (levels_of self.now.blocks.items) }
    {
        match self.blocks.last() {
            Some(block) => block.level.depth,
            None => 0,
        }
    }

    /// One more step, which is allowed here.
    pub(crate) fn push(&mut self, step: Step) -> Result<(), LineError>
        requires sound { IsSound self.old.blocks.items self.old.steps.items }
        requires stands { MayStand (place_of (levels_of self.old.blocks.items)) (plain_step step) }
        ensures fault { IfErr result (λ e. e ≡ LineError.OutOfMemory) }
        ensures objects { self.new.objects ≡ self.old.objects }
        ensures blocks { self.new.blocks ≡ self.old.blocks }
        ensures lines { OnOk result (lines_so_far self.new.blocks.items self.new.steps.items
            ≡ lines_so_far self.old.blocks.items self.old.steps.items
            ++ lines_of_part (plain_step step)) }
        ensures sound { OnOk result (IsSound self.new.blocks.items self.new.steps.items) }
    {
        self.steps.push(step)?;
        Ok(())
    }

    /// A block or an arm begins, which is allowed here.
    pub(crate) fn begin(
        &mut self,
        heap: Heap,
        opening: BlockKind,
        level: Level,
    ) -> Result<(), LineError>
        requires sound { IsSound self.old.blocks.items self.old.steps.items }
        requires may { may_begin opening (place_of (levels_of self.old.blocks.items)) ≡ true }
        requires place { level.place
            ≡ place_in opening (place_of (levels_of self.old.blocks.items)) }
        requires arm { is_arm level.place ≡ is_arm_line opening }
        ensures fault { IfErr result (λ e. e ≡ LineError.OutOfMemory) }
        ensures objects { self.new.objects ≡ self.old.objects }
        ensures levels { OnOk result (levels_of self.new.blocks.items
            ≡ level ∷ levels_of self.old.blocks.items) }
        ensures lines { OnOk result (lines_so_far self.new.blocks.items self.new.steps.items
            ≡ lines_so_far self.old.blocks.items self.old.steps.items
            ++ begin opening ∷ []) }
        ensures sound { OnOk result (IsSound self.new.blocks.items self.new.steps.items) }
    {
        self.blocks.reserve(1)?;
        let before = mem::replace(&mut self.steps, Vec::new(heap.room()));
        self.blocks.push_reserved(OpenBlock {
            opening,
            level,
            before,
        });
        Ok(())
    }

    /// The innermost block or arm ends.
    pub(crate) fn close(&mut self) -> Result<(), LineError>
        requires sound { IsSound self.old.blocks.items self.old.steps.items }
        requires within { is_top (place_of (levels_of self.old.blocks.items)) ≡ false }
        ensures fault { IfErr result (λ e. e ≡ LineError.OutOfMemory) }
        ensures objects { self.new.objects ≡ self.old.objects }
        ensures levels { OnOk result (levels_of self.new.blocks.items
            ≡ drop 1 (levels_of self.old.blocks.items)) }
        ensures lines { OnOk result (lines_so_far self.new.blocks.items self.new.steps.items
            ≡ lines_so_far self.old.blocks.items self.old.steps.items
            ++ closing_at (place_of (levels_of self.old.blocks.items))) }
        ensures sound { OnOk result (IsSound self.new.blocks.items self.new.steps.items) }
        ensures outer { OnOk result (is_arm (place_of (levels_of self.old.blocks.items)) ≡ true
            → is_coenter (place_of (levels_of self.new.blocks.items)) ≡ true) }
    {
        let Some(block) = self.blocks.pop() else {
            return Ok(());
        };
        let OpenBlock {
            opening,
            level: _,
            before,
        } = block;
        let steps = mem::replace(&mut self.steps, before);
        self.steps.push(Step::Block(opening, steps))?;
        Ok(())
    }

    /// The arm that is innermost ends, if one is.
    pub(crate) fn end_arm(&mut self) -> Result<(), LineError>
        requires { IsSound self.old.blocks.items self.old.steps.items }
        ensures fault { IfErr result (λ e. e ≡ LineError.OutOfMemory) }
        ensures objects { self.new.objects ≡ self.old.objects }
        ensures levels { OnOk result (levels_of self.new.blocks.items
            ≡ behind_arm (levels_of self.old.blocks.items)) }
        ensures lines { OnOk result (lines_so_far self.new.blocks.items self.new.steps.items
            ≡ lines_so_far self.old.blocks.items self.old.steps.items) }
        ensures sound { OnOk result (IsSound self.new.blocks.items self.new.steps.items) }
        ensures closed { OnOk result (is_arm (place_of (levels_of self.new.blocks.items)) ≡ false) }
        ensures within { OnOk result (is_top (place_of (levels_of self.old.blocks.items)) ≡ false
            → is_top (place_of (levels_of self.new.blocks.items)) ≡ false) }
    {
        match self.place() {
            Place::Arm(_) => self.close(),
            Place::Top | Place::Body(_) | Place::Coenter(_) => Ok(()),
        }
    }

    /// The innermost block ends.
    pub(crate) fn end(&mut self) -> Result<(), LineError>
        requires sound { IsSound self.old.blocks.items self.old.steps.items }
        requires within { is_top (place_of (levels_of self.old.blocks.items)) ≡ false }
        ensures fault { IfErr result (λ e. e ≡ LineError.OutOfMemory) }
        ensures objects { self.new.objects ≡ self.old.objects }
        ensures levels { OnOk result (levels_of self.new.blocks.items
            ≡ drop 1 (behind_arm (levels_of self.old.blocks.items))) }
        ensures lines { OnOk result (lines_so_far self.new.blocks.items self.new.steps.items
            ≡ lines_so_far self.old.blocks.items self.old.steps.items ++ sentence.«end» ∷ []) }
        ensures sound { OnOk result (IsSound self.new.blocks.items self.new.steps.items) }
    {
        self.end_arm()?;
        self.close()
    }

    /// The next arm of a coenter begins.
    pub(crate) fn begin_arm(&mut self, heap: Heap, kind: ActionKind) -> Result<(), LineError>
        requires sound { IsSound self.old.blocks.items self.old.steps.items }
        requires may { takes_arm kind (place_of (behind_arm (levels_of self.old.blocks.items)))
            ≡ true }
        ensures fault { IfErr result (λ e. e ≡ LineError.OutOfMemory) }
        ensures objects { self.new.objects ≡ self.old.objects }
        ensures levels { OnOk result (levels_of self.new.blocks.items
            ≡ with_arm (behind_arm (levels_of self.old.blocks.items))) }
        ensures lines { OnOk result (lines_so_far self.new.blocks.items self.new.steps.items
            ≡ lines_so_far self.old.blocks.items self.old.steps.items
            ++ begin (BlockKind.Arm kind) ∷ []) }
        ensures sound { OnOk result (IsSound self.new.blocks.items self.new.steps.items) }
    {
        self.end_arm()?;
        let Some(coenter) = self.blocks.last() else {
            return Ok(());
        };
        let level = arm_of(coenter.level);
        self.begin(heap, BlockKind::Arm(kind), level)
    }

    /// A block begins at the line with this number.
    pub(crate) fn begin_block(
        &mut self,
        heap: Heap,
        opening: BlockKind,
        number: u32,
    ) -> Result<(), LineError>
        requires sound { IsSound self.old.blocks.items self.old.steps.items }
        requires block { is_arm_line opening ≡ false }
        requires may { may_begin opening (place_of (levels_of self.old.blocks.items)) ≡ true }
        requires room { depth_of (levels_of self.old.blocks.items) < MAX_OPEN_BLOCKS }
        ensures fault { IfErr result (λ e. e ≡ LineError.OutOfMemory) }
        ensures objects { self.new.objects ≡ self.old.objects }
        ensures levels { OnOk result (levels_of self.new.blocks.items
            ≡ with_block (place_in opening (place_of (levels_of self.old.blocks.items))) number
            (levels_of self.old.blocks.items)) }
        ensures lines { OnOk result (lines_so_far self.new.blocks.items self.new.steps.items
            ≡ lines_so_far self.old.blocks.items self.old.steps.items ++ begin opening ∷ []) }
        ensures sound { OnOk result (IsSound self.new.blocks.items self.new.steps.items) }
    {
        let level = Level {
            place: self.place().within(opening),
            line: number,
            depth: self.depth() + 1,
        };
        self.begin(heap, opening, level)
    }
}

impl<'a> Reading<'a> {
    /// Whether a line that says this is allowed here; the innermost arm ends before another arm.
    pub(crate) fn may_follow(&self, line: &Line<'a>) -> bool
        requires { IsSound self.now.blocks.items self.now.steps.items }
        ensures { result ≡ may_follow (plain_line line.now) (levels_of self.now.blocks.items) }
    {
        let place = self.place();
        match line {
            Line::Nothing | Line::Bad => true,
            Line::Declare(_, _) => place.is_top(),
            Line::Enter(ActionKind::Topaction) | Line::Coenter => !place.is_coenter(),
            Line::Enter(ActionKind::Subaction) | Line::If(_, _) => place.is_body(),
            Line::Leave | Line::AbortLeave | Line::Access(_, _) => place.is_body(),
            Line::LeaveAll => place.may_leave_all(),
            Line::Arm(kind) => self.place_behind_arm().takes_arm(*kind),
            Line::End => !place.is_top(),
        }
    }

    /// The place of a line after the innermost arm: in that arm's coenter.
    fn place_behind_arm(&self) -> Place
        requires { IsSound self.now.blocks.items self.now.steps.items }
        ensures { result ≡ place_of (behind_arm (levels_of self.now.blocks.items)) }
    {
        let place = self.place();
        match place {
            Place::Arm(in_action) => Place::Coenter(in_action),
            Place::Top | Place::Body(_) | Place::Coenter(_) => place,
        }
    }
}

/// The level of an arm of a coenter.
fn arm_of(coenter: Level) -> Level
    ensures { result ≡ record coenter { place = in_arm coenter.place } }
{
    Level {
        place: coenter.place.in_arm(),
        ..coenter
    }
}
