//! The limits of a script, by name.
//!
//! | What | Limit |
//! |---|---|
//! | bytes of a script | `MAX_SCRIPT_BYTES` |
//! | bytes of a line, without its line feed and a carriage return before it | `MAX_LINE_BYTES` |
//! | lines | `MAX_LINES` |
//! | blocks that are open at once (`enter`, `coenter`, `if`) | `MAX_OPEN_BLOCKS` |
//! | objects | `argus_contents::limits::MAX_OBJECTS` |

/// The greatest number of bytes of a script.
pub const MAX_SCRIPT_BYTES: usize = 16_777_216;

/// The greatest number of bytes of a line, without its line feed and a carriage return before it.
pub const MAX_LINE_BYTES: usize = 65_535;

/// The greatest number of lines.
pub const MAX_LINES: u32 = 100_000;

/// The greatest number of blocks that are open at once: `enter`, `coenter` and `if`.
pub const MAX_OPEN_BLOCKS: u32 = 128;
