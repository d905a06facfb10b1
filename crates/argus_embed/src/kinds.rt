//! The kinds of requests, which are those of the C header: what each stands for, and takes.
//!
//! What isn't named is ignored.

/// `Declare`; the text is a shape.
pub const DECLARE: u32 = 0;
/// `BeginTop`.
pub const BEGIN_TOP: u32 = 1;
/// `BeginSub` of the action, the parent.
pub const BEGIN_SUB: u32 = 2;
/// `BeginNested` of the action, the creator.
pub const BEGIN_NESTED: u32 = 3;
/// `Commit` of the action.
pub const COMMIT: u32 = 4;
/// `Abort` of the action.
pub const ABORT: u32 = 5;
/// `AbortOthers` of the action.
pub const ABORT_OTHERS: u32 = 6;
/// `TestRead` by the action, of the object.
pub const TEST_READ: u32 = 7;
/// `TestWrite` by the action, of the object.
pub const TEST_WRITE: u32 = 8;
/// `Ask`, as all down to `TAG_VALUE`: by the action, of the object; here `Whole`.
pub const WHOLE: u32 = 9;
/// `Field` of the first number.
pub const FIELD: u32 = 10;
/// `Low`.
pub const LOW: u32 = 11;
/// `High`.
pub const HIGH: u32 = 12;
/// `Size`.
pub const SIZE: u32 = 13;
/// `Fetch` of the first number.
pub const FETCH: u32 = 14;
/// `Bottom`.
pub const BOTTOM: u32 = 15;
/// `Top`.
pub const TOP: u32 = 16;
/// `IsTag` of the first number.
pub const IS_TAG: u32 = 17;
/// `TagValue` of the first number.
pub const TAG_VALUE: u32 = 18;
/// `Alter`, as all from here on: by the action, of the object; here `Create` of the text's content.
pub const CREATE: u32 = 19;
/// `SetField` of the first number; the text is the value.
pub const SET_FIELD: u32 = 20;
/// `Store` at the first number; the text is the value.
pub const STORE: u32 = 21;
/// `Addh`; the text is the value.
pub const ADDH: u32 = 22;
/// `Addl`; the text is the value.
pub const ADDL: u32 = 23;
/// `Remh`.
pub const REMH: u32 = 24;
/// `Reml`.
pub const REML: u32 = 25;
/// `SetLow` to the first number.
pub const SET_LOW: u32 = 26;
/// `Trim` from the first number on, to the second.
pub const TRIM: u32 = 27;
/// `ChangeTag` to the first number; the text is the value.
pub const CHANGE_TAG: u32 = 28;
/// `Touch`.
pub const TOUCH: u32 = 29;
/// `SetField` of the first number; the second is the value, an integer.
pub const SET_FIELD_INT: u32 = 30;
/// `Store` at the first number; the second is the value, an integer.
pub const STORE_INT: u32 = 31;
/// `Addh`; the second number is the value, an integer.
pub const ADDH_INT: u32 = 32;
/// `Addl`; the second number is the value, an integer.
pub const ADDL_INT: u32 = 33;
/// `ChangeTag` to the first number; the second is the value, an integer.
pub const CHANGE_TAG_INT: u32 = 34;
/// `SetField` of the first number; the value is false if the second is 0, and otherwise true.
pub const SET_FIELD_BOOL: u32 = 35;
/// `Store` at the first number, of such a truth value.
pub const STORE_BOOL: u32 = 36;
/// `Addh` of such a truth value.
pub const ADDH_BOOL: u32 = 37;
/// `Addl` of such a truth value.
pub const ADDL_BOOL: u32 = 38;
/// `ChangeTag` to the first number, with such a truth value.
pub const CHANGE_TAG_BOOL: u32 = 39;
