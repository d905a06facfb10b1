//! `Line`: what a line says.

use crate::action_kind::ActionKind;
use crate::lock::Lock;
use crate::operation::Operation;

/// What a line says, with the names and the texts as they are in it. Names have the form of a name,
/// and no text is empty.
#[derive(Clone, Copy)]
pub(crate) enum Line<'a> {
    Nothing,
    Bad,
    Declare(&'a str, &'a str),
    Enter(ActionKind),
    Coenter,
    Arm(ActionKind),
    If(Lock, &'a str),
    Leave,
    AbortLeave,
    LeaveAll,
    End,
    Access(&'a str, Operation<'a>),
}
