//! `Turn`: a topaction, which is made again and again.

/// A topaction, which is made again and again; the program's help says what each is.
///
/// ```text
/// let outcome = time_turns(&rt, &mut client, Turn::Flat, 1000, 9900)?;
/// ```
#[derive(Clone, Copy)]
pub(crate) enum Turn {
    Flat,
    Nested,
    Chain,
    Commit,
    Abort,
}
