//! Readers and writers that remember a failure.

use http_wire::{Cut, Watched, write_all_counted};
use std::io;
use std::io::{Read, Write};

/// Takes a byte a call for as long as there is room, and then none, or is interrupted. Its flush and its read fail.
#[derive(Drop)]
struct Slow {
    room: usize,
    is_interrupted: bool,
}

impl Write for Slow {
    fn write(&mut self, buf: &[u8]) -> io::Result<usize> {
        if self.room > 0 && !buf.is_empty() {
            self.room -= 1;
            return Ok(1);
        }
        if self.is_interrupted {
            Err(io::Error::from(io::ErrorKind::Interrupted))
        } else {
            Ok(0)
        }
    }

    fn flush(&mut self) -> io::Result<()> {
        Err(io::Error::from(io::ErrorKind::Other))
    }
}

impl Read for Slow {
    fn read(&mut self, _buf: &mut [u8]) -> io::Result<usize> {
        Err(io::Error::from(io::ErrorKind::Interrupted))
    }
}

fn watched_slow(room: usize, is_interrupted: bool) -> Watched<Slow> {
    Watched::new(Slow {
        room,
        is_interrupted,
    })
}

/// How many bytes went out before a write failed, or none where it didn't.
fn cut_of(written: Result<(), Cut>) -> Option<usize> {
    match written {
        Ok(()) => None,
        Err(cut) => Some(cut.written),
    }
}

/// Whether a writer with room for five takes three bytes, and then two of four.
fn counts_five(is_interrupted: bool) -> bool {
    let mut writer = watched_slow(5, is_interrupted);
    cut_of(write_all_counted(&mut writer, b"abc")).is_none()
        && !writer.failed()
        && cut_of(write_all_counted(&mut writer, b"defg")) == Some(2)
        && writer.failed()
}

#[test]
fn writes_that_are_cut(rt: HostRuntime) {
    assert!(rt; counts_five(false));
    assert!(rt; counts_five(true));
}

#[test]
fn a_flush_and_a_read_that_fail(rt: HostRuntime) {
    let mut flushed = watched_slow(0, false);
    assert!(rt; flushed.flush().is_err());
    assert!(rt; flushed.failed());
    let mut read = watched_slow(0, false);
    assert!(rt; read.read(&mut [0; 4]).is_err());
    assert!(rt; read.failed());
}
