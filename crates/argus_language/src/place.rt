//! `Place`: where a line is.

ghost use Rattle.std.specs.Prelude.{◌≡◌};
ghost use Rattle.argus_language.specs.Placement.{in_arm, is_body, is_coenter, is_top};
ghost use Rattle.argus_language.specs.Placement.{may_leave_all, place_in, takes_arm};

use crate::action_kind::ActionKind;
use crate::block_kind::BlockKind;

/// Where a line is, which decides what it may say.
#[derive(Clone, Copy, Debug, PartialEq, Eq)]
pub(crate) enum Place {
    /// In no block.
    Top,
    /// In an `enter` or an `if` block; and whether `leave all` is allowed there.
    Body(bool),
    /// In an arm, and in none of its blocks; and whether `leave all` is allowed there.
    Arm(bool),
    /// In a coenter, before its first arm; and whether the coenter is in an action.
    Coenter(bool),
}

impl Place {
    /// In no block.
    pub(crate) fn is_top(self) -> bool
        ensures { result ≡ is_top self }
    {
        match self {
            Place::Top => true,
            Place::Body(_) | Place::Arm(_) | Place::Coenter(_) => false,
        }
    }

    /// In an action: in an `enter` block, an arm or an `if` block.
    pub(crate) fn is_body(self) -> bool
        ensures { result ≡ is_body self }
    {
        match self {
            Place::Body(_) | Place::Arm(_) => true,
            Place::Top | Place::Coenter(_) => false,
        }
    }

    /// In a coenter, before its first arm.
    pub(crate) fn is_coenter(self) -> bool
        ensures { result ≡ is_coenter self }
    {
        match self {
            Place::Coenter(_) => true,
            Place::Top | Place::Body(_) | Place::Arm(_) => false,
        }
    }

    /// Whether `leave all` is allowed there.
    pub(crate) fn may_leave_all(self) -> bool
        ensures { result ≡ may_leave_all self }
    {
        match self {
            Place::Body(may) | Place::Arm(may) => may,
            Place::Top | Place::Coenter(_) => false,
        }
    }

    /// Whether an arm of this kind may begin there.
    pub(crate) fn takes_arm(self, kind: ActionKind) -> bool
        ensures { result ≡ takes_arm kind self }
    {
        match self {
            Place::Coenter(in_action) => match kind {
                ActionKind::Topaction => true,
                ActionKind::Subaction => in_action,
            },
            Place::Top | Place::Body(_) | Place::Arm(_) => false,
        }
    }

    /// The place in an arm of a coenter.
    pub(crate) fn in_arm(self) -> Place
        ensures { result ≡ in_arm self }
    {
        match self {
            Place::Coenter(in_action) => Place::Arm(in_action),
            Place::Top | Place::Body(_) | Place::Arm(_) => self,
        }
    }

    /// The place in a block or an arm that begins there.
    pub(crate) fn within(self, opening: BlockKind) -> Place
        ensures { result ≡ place_in opening self }
    {
        match opening {
            BlockKind::Enter(_) => Place::Body(false),
            BlockKind::If(_, _) => Place::Body(self.may_leave_all()),
            BlockKind::Coenter => Place::Coenter(!self.is_top()),
            BlockKind::Arm(_) => self.in_arm(),
        }
    }
}
