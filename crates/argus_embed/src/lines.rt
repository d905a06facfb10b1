//! `Lines`: how many lines of the journal a room has taken.

/// How many whole lines of the journal a room has taken.
///
/// ```text
/// let lines = bank.lines(3, &mut room)?;                  // Lines { count: 2, size: 41 }
/// let more = bank.lines(3 + lines.count, &mut room)?;     // Lines { count: 0, size: 0 }: that was all
/// ```
#[derive(Clone, Copy, Debug)]
pub struct Lines {
    /// Of this many entries; 0 if there is none from that number on, or the room is too small for
    /// the first.
    pub count: u64,
    /// This many bytes are at the front of the room. If `count` is 0, the size of the first line; 0
    /// if there is none.
    pub size: usize,
}
