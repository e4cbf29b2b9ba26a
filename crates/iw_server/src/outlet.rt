use libc::net::{POLLERR, POLLHUP, POLLOUT, poll};
use libc::types::pollfd;
use std::io::{self, ErrorKind, Write};

// A pipe that can be written takes so many octets at once (PIPE_BUF).
const MOST_AT_ONCE: usize = 4_096;

// How long a flush waits at once, in milliseconds, and how often all of them do: a second in all.
const WAIT: i32 = 10;

const MOST_WAITS: u32 = 100;

/// Standard output as a writer that does not wait: a write that would wait for a reader fails with `WouldBlock`, one that no reader
/// is left for with `BrokenPipe`. A write takes at most 4,096 octets, for which a pipe has room once it can be written. A `flush` waits
/// until it can be written: for a second in all, after which it fails with `TimedOut`.
///
/// It may wait where the system says too much: at a terminal that is stopped, or at a pipe that another process fills too.
#[derive(Drop)]
pub struct Outlet<W> {
    inner: W,
    // How often it may still wait.
    waits: u32,
}

impl<W: Write> Outlet<W> {
    /// Over what writes to standard output.
    pub fn new(inner: W) -> Outlet<W> {
        Outlet {
            inner,
            waits: MOST_WAITS,
        }
    }
}

// Fails unless standard output can be written in so many milliseconds.
fn check_ready(milliseconds: i32) -> io::Result<()> {
    let mut asked = [pollfd {
        fd: libc::STDOUT_FILENO,
        events: POLLOUT,
        revents: 0,
    }];
    if poll(&mut asked, milliseconds) < 1 {
        return Err(io::Error::from(ErrorKind::WouldBlock));
    }
    if asked[0].revents & (POLLERR | POLLHUP) != 0 {
        return Err(io::Error::from(ErrorKind::BrokenPipe));
    }
    Ok(())
}

impl<W: Write> Write for Outlet<W> {
    fn write(&mut self, buf: &[u8]) -> io::Result<usize> {
        check_ready(0)?;
        self.inner.write(&buf[..buf.len().min(MOST_AT_ONCE)])
    }

    fn flush(&mut self) -> io::Result<()> {
        for _ in 0..MOST_WAITS {
            if self.waits == 0 {
                break;
            }
            self.waits -= 1;
            match check_ready(WAIT) {
                Err(error) if error.kind() == ErrorKind::WouldBlock => {}
                Err(error) => return Err(error),
                Ok(()) => return self.inner.flush(),
            }
        }
        Err(io::Error::from(ErrorKind::TimedOut))
    }
}
