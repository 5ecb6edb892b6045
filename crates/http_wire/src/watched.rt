//! Readers and writers that remember a failure.
ghost use Rattle.std.specs.Prelude.{◌≡◌, ◌<◌, ◌≤◌, ◌||◌, ◌&&◌, not, false, true, length, take, is_err, is_ok, nat_eq, OnOk, OnErr, IfOk, IfErr};
ghost use Rattle.std.specs.Io.{ReadsAtMost, WritesAtMost};
ghost use Rattle.std.specs.Io.KnownBytes.{Appends, Keeps, ReadConsumes, WriteAppends};
ghost use Rattle.http_wire.specs.Watched.{inner_of, has_failed, is_bad_write};

use std::io;
use std::io::{Read, Write};

/// A reader or a writer, and whether a call of it failed.
#[derive(Drop)]
pub struct Watched<T> {
    inner: T,
    failed: bool,
}

/// What went out before a write failed.
#[derive(Clone, Copy)]
pub struct Cut {
    pub written: usize,
}

impl<T> Watched<T> {
    pub fn new(inner: T) -> Watched<T>
        ensures inner { inner_of result ≡ inner }
        ensures failed { has_failed result ≡ false }
    {
        Watched {
            inner,
            failed: false,
        }
    }

    /// Whether a call answered an error, or a write took nothing of a rest that isn't empty.
    pub fn failed(&self) -> bool
        ensures { result ≡ has_failed self.now }
    {
        self.failed
    }
}

impl<R: Read> Watched<R> {
    pub fn read(&mut self, buf: &mut [u8]) -> io::Result<usize>
        ensures bound { ReadsAtMost result buf.new }
        ensures bytes { ReadConsumes (R.remaining (inner_of self.old)) (R.remaining (inner_of self.new)) result buf.new }
        ensures failed { has_failed self.new ≡ (has_failed self.old || is_err result) }
    {
        let result = self.inner.read(buf);
        if result.is_err() {
            self.failed = true;
        }
        result
    }
}

impl<W: Write> Watched<W> {
    pub fn write(&mut self, buf: &[u8]) -> io::Result<usize>
        ensures bound { WritesAtMost result buf.now }
        ensures bytes { WriteAppends (W.contents (inner_of self.old)) (W.contents (inner_of self.new)) result buf.now }
        ensures failed { has_failed self.new ≡ (has_failed self.old || is_bad_write result buf.now) }
    {
        let result = self.inner.write(buf);
        match &result {
            Ok(count) => {
                if *count == 0 && !buf.is_empty() {
                    self.failed = true;
                }
            }
            Err(_) => self.failed = true,
        }
        result
    }

    pub fn flush(&mut self) -> io::Result<()>
        ensures bytes { Keeps (W.contents (inner_of self.old)) (W.contents (inner_of self.new)) }
        ensures failed { has_failed self.new ≡ (has_failed self.old || is_err result) }
    {
        let result = self.inner.flush();
        if result.is_err() {
            self.failed = true;
        }
        result
    }
}

/// Writes all the bytes in order, or says how many went out before a write failed.
pub fn write_all_counted<W: Write>(writer: &mut Watched<W>, bytes: &[u8]) -> Result<(), Cut>
    ensures ok { OnOk result (Appends (W.contents (inner_of writer.old)) (W.contents (inner_of writer.new)) bytes.now) }
    ensures not_failed { OnOk result (has_failed writer.new ≡ has_failed writer.old) }
    ensures cut { IfErr result (λ cut. Appends (W.contents (inner_of writer.old)) (W.contents (inner_of writer.new)) (take cut.written bytes.now)) }
    ensures some_left { IfErr result (λ cut. cut.written < length bytes.now) }
    ensures failed { OnErr result (has_failed writer.new ≡ true) }
{
    let mut written = 0;
    while written < bytes.len() {
        let Ok(count) = writer.write(&bytes[written..]) else {
            return Err(Cut { written });
        };
        if count == 0 {
            return Err(Cut { written });
        }
        written += count;
    }
    Ok(())
}
