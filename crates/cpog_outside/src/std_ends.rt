ghost use Rattle.std.specs.Prelude.{◌≡◌, ◌≤◌, ◌<◌, false, None, length, take, is_err, IfOk, IfSome};
ghost use Rattle.std.specs.Io.{ReadsAtMost};
ghost use Rattle.std.specs.Io.KnownBytes.{Appends, ReadConsumes};
ghost use Rattle.cpog_outside.specs.Causes.{HasCause, count_after};

use crate::{Failed, Sink, Source};
use std::io::{Read, Write};

/// Standard input, or any reader. It tells the bytes that its reader tells, and counts a fault at each error of the
/// reader. Standard input tells none.
#[derive(Drop)]
pub struct StdSource<R> {
    inner: R,
    faults: u64,
}

impl<R: Read> StdSource<R> {
    /// No fault was met yet.
    pub fn new(inner: R) -> StdSource<R>
        ensures { result.faults ≡ 0 }
    {
        StdSource { inner, faults: 0 }
    }
}

impl<R: Read> Source for StdSource<R> {
    ghost left = { λ s. R.remaining s.inner };

    ghost faults = { λ s. s.faults };

    // A reader may fail at any call.
    ghost steady = { λ _. false };

    fn read(&mut self, buffer: &mut [u8]) -> Result<usize, Failed>
        requires { 0 < length buffer.old }
        ensures bound { ReadsAtMost result buffer.new }
        ensures bytes { ReadConsumes (R.remaining self.old.inner) (R.remaining self.new.inner) result buffer.new }
        ensures cause { HasCause self.old.faults self.new.faults result }
        ensures counted { self.new.faults ≡ count_after self.old.faults (is_err result) }
    {
        match self.inner.read(buffer) {
            Ok(count) => Ok(count),
            Err(_) => {
                self.faults = self.faults.saturating_add(1);
                Err(Failed)
            }
        }
    }
}

/// Standard output, or any writer. It tells no bytes, and counts a fault at each write that fails, can't be flushed, or
/// takes no byte.
#[derive(Drop)]
pub struct StdSink<W> {
    inner: W,
    faults: u64,
}

impl<W: Write> StdSink<W> {
    /// No fault was met yet.
    pub fn new(inner: W) -> StdSink<W>
        ensures { result.faults ≡ 0 }
    {
        StdSink { inner, faults: 0 }
    }

    /// Writes and flushes once, and says how many bytes were taken.
    fn write_once(&mut self, piece: &[u8]) -> Option<usize>
        ensures count { IfSome result (λ n. (0 < n) × (n ≤ length piece.now)) }
        ensures bytes { IfSome result (λ n. Appends (W.contents self.old.inner) (W.contents self.new.inner) (take n piece.now)) }
        ensures same { self.new.faults ≡ self.old.faults }
    {
        let count = self.inner.write(piece).ok()?;
        self.inner.flush().ok()?;
        if count == 0 { None } else { Some(count) }
    }
}

impl<W: Write> Sink for StdSink<W> {
    ghost taken = { λ s. None };

    ghost faults = { λ s. s.faults };

    // A writer may fail at any call.
    ghost room = { λ _. None };

    fn write(&mut self, piece: &[u8]) -> Result<usize, Failed>
        requires { 0 < length piece.now }
        ensures some { IfOk result (λ n. 0 < n) }
        ensures bound { IfOk result (λ n. n ≤ length piece.now) }
        // The writer took the front of the piece that is answered.
        ensures written { IfOk result (λ n. Appends (W.contents self.old.inner) (W.contents self.new.inner) (take n piece.now)) }
        ensures cause { HasCause self.old.faults self.new.faults result }
        ensures counted { self.new.faults ≡ count_after self.old.faults (is_err result) }
    {
        match self.write_once(piece) {
            Some(count) => Ok(count),
            None => {
                self.faults = self.faults.saturating_add(1);
                Err(Failed)
            }
        }
    }
}
