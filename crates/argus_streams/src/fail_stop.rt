//! `FailStop`: a reader or a writer that is never tried again after a failure.

ghost use Rattle.std.specs.Prelude.{◌≡◌, ◌≤◌, ◌<◌, length, take, true, false, IfSome, IfNone};
ghost use Rattle.std.specs.{Prelude.OnSome, Io.KnownBytes.{Appends, Consumes, IsAtEnd, Keeps}};
ghost use Rattle.argus_streams.specs.FailStop.{has_failed, inner_of, unless_failed};

use std::io::{Read, Write};

/// A reader or a writer, and whether it has failed. It is called only through this, and never again
/// once it has failed. Any error counts, also an interruption and a write that accepts nothing.
///
/// Nothing outside can change what it remembers: a stream that has failed isn't returned.
///
/// ```text
/// let mut reader = FailStop::new(rt.stdin());
/// ```
#[derive(Drop)]
pub struct FailStop<T: Drop> {
    inner: T,
    failed: bool,
}

impl<T: Drop> FailStop<T> {
    /// It hasn't failed yet.
    pub fn new(inner: T) -> FailStop<T>
        ensures inner { inner_of result ≡ inner }
        ensures fine { has_failed result ≡ false }
    {
        FailStop {
            inner,
            failed: false,
        }
    }

    /// The reader or the writer, for looking at.
    pub fn get_ref(&self) -> &T
        ensures { result.now ≡ inner_of self.now }
    {
        &self.inner
    }

    /// Whether a call of it has failed.
    pub fn has_failed(&self) -> bool
        ensures { result ≡ has_failed self.now }
    {
        self.failed
    }

    /// The reader or the writer; `None` if it has failed.
    pub fn into_inner(self) -> Option<T>
        ensures { result ≡ unless_failed (has_failed self) (inner_of self) }
    {
        let FailStop { inner, failed } = self;
        if failed { None } else { Some(inner) }
    }
}

impl<R: Read + Drop> FailStop<R> {
    /// Reads once: this many bytes are in the buffer. `None` if the reader failed.
    ///
    /// Condition: the reader hasn't failed before.
    pub fn read_once(&mut self, buffer: &mut [u8]) -> Option<usize>
        requires { has_failed self.old ≡ false }
        ensures some { IfSome result (λ n. (n ≤ length buffer.new)
            × Consumes (R.remaining (inner_of self.old)) (R.remaining (inner_of self.new))
            (take n buffer.new)) }
        ensures end { IfSome result (λ n. n ≡ 0 → 0 < length buffer.new
            → IsAtEnd (R.remaining (inner_of self.new))) }
        ensures fine { OnSome result (has_failed self.new ≡ false) }
        ensures failed { IfNone result ((has_failed self.new ≡ true)
            × Keeps (R.remaining (inner_of self.old)) (R.remaining (inner_of self.new))) }
    {
        match self.inner.read(buffer) {
            Ok(n) => Some(n),
            Err(_) => {
                self.failed = true;
                None
            }
        }
    }
}

impl<W: Write + Drop> FailStop<W> {
    /// Writes once: this many bytes were accepted, at least one. `None` if the writer failed or
    /// accepted nothing.
    ///
    /// Conditions: there is a byte to write, and the writer hasn't failed before.
    pub fn write_once(&mut self, bytes: &[u8]) -> Option<usize>
        requires some { 0 < length bytes.now }
        requires fine { has_failed self.old ≡ false }
        ensures some { IfSome result (λ n. (0 < n) × (n ≤ length bytes.now)
            × Appends (W.contents (inner_of self.old)) (W.contents (inner_of self.new))
            (take n bytes.now)) }
        ensures fine { OnSome result (has_failed self.new ≡ false) }
        ensures failed { IfNone result ((has_failed self.new ≡ true)
            × Keeps (W.contents (inner_of self.old)) (W.contents (inner_of self.new))) }
    {
        match self.inner.write(bytes) {
            Ok(n) if n > 0 => Some(n),
            Ok(_) | Err(_) => {
                self.failed = true;
                None
            }
        }
    }
}
