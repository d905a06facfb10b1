//! `Lock`: which lock a test asks for.

/// Which lock a test asks for.
///
/// ```text
/// BlockKind::If(Lock::Write, 0)                     // if test_write x
/// ```
#[derive(Clone, Copy, Debug, PartialEq, Eq)]
pub enum Lock {
    Read,
    Write,
}
