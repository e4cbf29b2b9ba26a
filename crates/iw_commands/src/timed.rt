//! Streams whose reads and writes end in time.

use iw_links::Output;
use std::cell::Cell;
use std::io::{self, ErrorKind, Read, Write};
use std::net::{OpenStream, Shutdown};
use std::time::{Clock, Duration};

/// How long a connection may take, and when it writes.
#[derive(Clone, Copy, Debug, PartialEq, Eq)]
pub struct Pace {
    /// So many seconds, from before the connection is made or from when it was accepted; as long as it takes, if there are none.
    pub seconds: Option<u64>,
    /// So many milliseconds pass between the first octets that are written, a start-up frame, and the next.
    pub pause: u64,
}

impl Pace {
    /// As long as it takes, and without a pause.
    pub const UNBOUNDED: Pace = Pace {
        seconds: None,
        pause: 0,
    };
}

/// The time that a connection has.
#[derive(Drop)]
pub(crate) struct Time<'a, C> {
    clock: &'a C,
    // When it is over, by the clock.
    deadline: Option<Duration>,
    // The connection has done in time what it had to.
    is_met: &'a Cell<bool>,
}

impl<'a, C: Clock> Time<'a, C> {
    /// The time of a connection that begins now.
    pub(crate) fn new(clock: &'a C, pace: Pace, is_met: &'a Cell<bool>) -> io::Result<Time<'a, C>> {
        let deadline = match pace.seconds {
            Some(seconds) => {
                Some(
                    clock
                        .monotonic()?
                        .saturating_add(Duration::from_secs(seconds)),
                )
            }
            None => None,
        };
        Ok(Time {
            clock,
            deadline,
            is_met,
        })
    }

    /// What is left of it; `None` if it has no end. The error is of the kind `TimedOut` if it is over.
    pub(crate) fn left(&self) -> io::Result<Option<Duration>> {
        let Some(deadline) = self.deadline else {
            return Ok(None);
        };
        if self.is_met.get() {
            return Ok(None);
        }
        match deadline.checked_sub(self.clock.monotonic()?) {
            Some(left) if !left.is_zero() => Ok(Some(left)),
            _ => Err(io::Error::from(ErrorKind::TimedOut)),
        }
    }

    fn again(&self) -> Time<'a, C> {
        Time {
            clock: self.clock,
            deadline: self.deadline,
            is_met: self.is_met,
        }
    }
}

/// The reading half of a connection's stream: a read fails once the time is over.
#[derive(Drop)]
pub struct TimedInput<'a, S, C> {
    stream: S,
    time: Time<'a, C>,
}

/// The writing half: a write fails once the time is over.
#[derive(Drop)]
pub struct TimedOutput<'a, S, C> {
    stream: S,
    time: Time<'a, C>,
    pause: Duration,
    // Once the first octets are written, the connection has done in time what it had to.
    meets: bool,
    has_written: bool,
}

/// What the two halves of a stream are to do.
#[derive(Clone, Copy, Debug, PartialEq, Eq)]
pub(crate) struct Manner {
    pub(crate) pause: u64,
    pub(crate) meets: bool,
}

/// The two halves of a stream, with TCP_NODELAY set.
pub(crate) fn halves<'a, S: Read + Write + OpenStream + Drop, C: Clock>(
    stream: S,
    time: Time<'a, C>,
    manner: Manner,
) -> io::Result<(TimedInput<'a, S, C>, TimedOutput<'a, S, C>)> {
    stream.set_nodelay(true)?;
    let other = stream.try_clone()?;
    let output = TimedOutput {
        stream: other,
        time: time.again(),
        pause: Duration::from_millis(manner.pause),
        meets: manner.meets,
        has_written: false,
    };
    Ok((TimedInput { stream, time }, output))
}

impl<S: Read + OpenStream, C: Clock> Read for TimedInput<'_, S, C> {
    fn read(&mut self, buf: &mut [u8]) -> io::Result<usize> {
        if self.time.deadline.is_some() {
            self.stream.set_read_timeout(self.time.left()?)?;
        }
        self.stream.read(buf)
    }
}

impl<S: OpenStream, C: Clock> TimedOutput<'_, S, C> {
    // Waits before the second write, and sets the time that a write has.
    fn prepare(&mut self) -> io::Result<()> {
        if self.has_written && !self.pause.is_zero() {
            self.time.clock.sleep(self.pause);
            self.pause = Duration::ZERO;
        }
        if self.time.deadline.is_some() {
            self.stream.set_write_timeout(self.time.left()?)?;
        }
        Ok(())
    }
}

impl<S: Write + OpenStream, C: Clock> Write for TimedOutput<'_, S, C> {
    fn write(&mut self, buf: &[u8]) -> io::Result<usize> {
        self.prepare()?;
        let written = self.stream.write(buf)?;
        self.has_written = true;
        if self.meets {
            self.time.is_met.set(true);
        }
        Ok(written)
    }

    fn flush(&mut self) -> io::Result<()> {
        self.stream.flush()
    }
}

impl<S: Write + OpenStream, C: Clock> Output for TimedOutput<'_, S, C> {
    fn end(&mut self) -> io::Result<()> {
        self.stream.shutdown(Shutdown::Write)
    }
}
