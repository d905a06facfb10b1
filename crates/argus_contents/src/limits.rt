//! The limits of contents, actions and objects, by name.
//!
//! | What | Limit |
//! |---|---|
//! | low bound of an array | `MIN_BOUND` to `MAX_BOUND` |
//! | high bound of an array | `MAX_BOUND`; an empty array at `MIN_BOUND` has the high bound
//! `MIN_BOUND - 1` |
//! | elements of an array | `MAX_ITEMS` |
//! | depth of a value or a type | `MAX_VALUE_DEPTH`: a scalar has 1, a compound 1 more than its
//! deepest part |
//! | names of a record, variant, struct or oneof | 1 to `MAX_NAMES`, all distinct |
//! | bytes of a name | 1 to `MAX_NAME_BYTES`, of `[a-z0-9_]` |
//! | ancestors of an action, itself included | `MAX_ACTION_DEPTH` |
//! | actions begun, also before checkpoints | `MAX_ACTIONS`, with the numbers 0 to 999,999 |
//! | objects ever declared | `MAX_OBJECTS`, with the numbers 0 to 65,534 |

/// The least low bound of an array.
pub const MIN_BOUND: i64 = -2147483648;

/// The greatest bound of an array, low or high.
pub const MAX_BOUND: i64 = 2147483647;

/// The greatest number of elements of an array.
pub const MAX_ITEMS: usize = 65535;

/// The greatest depth of a value or a type.
pub const MAX_VALUE_DEPTH: usize = 16;

/// The greatest number of names in one list of names.
pub const MAX_NAMES: usize = 64;

/// The greatest length of a name in bytes.
pub const MAX_NAME_BYTES: usize = 32;

/// The greatest depth of an action.
pub const MAX_ACTION_DEPTH: u32 = 64;

/// How many actions may be begun, with those before checkpoints.
pub const MAX_ACTIONS: u32 = 1_000_000;

/// How many objects may ever be declared.
pub const MAX_OBJECTS: u32 = 65_535;
