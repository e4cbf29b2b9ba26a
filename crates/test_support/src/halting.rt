use std::io::{self, ErrorKind, Read, Write};

/// A reader or writer over another. It moves few octets a call, and one of its calls fails and moves nothing. Calls are
/// counted from 1: reads, writes and flushes alike.
#[derive(Drop)]
pub struct Halting<T> {
    inner: T,
    most: usize,
    failing: Option<(u64, ErrorKind)>,
    calls: u64,
}

impl<T> Halting<T> {
    /// No call fails, and each moves at most `most` octets.
    pub fn new(inner: T, most: usize) -> Halting<T> {
        Halting {
            inner,
            most,
            failing: None,
            calls: 0,
        }
    }

    /// The same, but the call with this number fails with this error.
    pub fn failing_at(self, call: u64, kind: ErrorKind) -> Halting<T> {
        Halting {
            inner: self.inner,
            most: self.most,
            failing: Some((call, kind)),
            calls: self.calls,
        }
    }

    /// How many calls there were.
    pub fn calls(&self) -> u64 {
        self.calls
    }

    /// The reader or writer below.
    pub fn into_inner(self) -> T {
        self.inner
    }

    // Counts a call; an `Err` if it is the one to fail.
    fn count(&mut self) -> io::Result<()> {
        self.calls = self.calls.wrapping_add(1);
        match self.failing {
            Some((call, kind)) if call == self.calls => Err(io::Error::from(kind)),
            _ => Ok(()),
        }
    }
}

impl<T: Read> Read for Halting<T> {
    fn read(&mut self, buf: &mut [u8]) -> io::Result<usize> {
        self.count()?;
        let n = self.most.min(buf.len());
        self.inner.read(&mut buf[..n])
    }
}

impl<T: Write> Write for Halting<T> {
    fn write(&mut self, buf: &[u8]) -> io::Result<usize> {
        self.count()?;
        let n = self.most.min(buf.len());
        self.inner.write(&buf[..n])
    }

    fn flush(&mut self) -> io::Result<()> {
        self.count()?;
        self.inner.flush()
    }
}

/// A reader that gives the same octet for ever.
#[derive(Drop)]
pub struct Endless {
    octet: u8,
}

impl Endless {
    pub fn new(octet: u8) -> Endless {
        Endless { octet }
    }
}

impl Read for Endless {
    fn read(&mut self, buf: &mut [u8]) -> io::Result<usize> {
        buf.fill(self.octet);
        Ok(buf.len())
    }
}
