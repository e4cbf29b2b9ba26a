//! What a read in place answers, and why no place is lent.
use thiserror::Error;

/// The most octets that one read takes.
pub const MOST_READ: usize = 65_536;

/// What one read of octets in place came to.
#[derive(Clone, Copy, Debug, PartialEq, Eq)]
pub enum Intake {
    /// So many octets came, one at least.
    Came(usize),
    /// The input has ended: nothing more comes.
    End,
    /// The window has no room, and nothing was read: [`Stream::work`](crate::Stream::work) makes room.
    Full,
}

/// Why no place is lent to read to.
#[derive(Clone, Copy, Debug, PartialEq, Eq, Error)]
pub enum LendRefusal {
    /// The window has no room: [`Stream::work`](crate::Stream::work) makes room.
    #[error("the window has no room: work until idle makes some")]
    Full,
    /// The stream has ended: what comes is dropped.
    #[error("the stream has ended: what comes is dropped")]
    Ended,
    /// Out of memory: the call may be made again.
    #[error("no memory: the call may be made again")]
    NoMemory,
}

/// Why octets that were read to a lent place do not count as come: the first reason that holds.
#[derive(Clone, Copy, Debug, PartialEq, Eq, Error)]
pub enum TakeLentRefusal {
    /// They are none.
    #[error("there are no octets")]
    Nothing,
    /// They are more than a place is lent for.
    #[error("no place is lent for so many octets")]
    TooMany,
    /// No place was lent for so many since the last call on the stream, and there is no memory for one.
    #[error("no place was lent for so many octets, and there is no memory for one")]
    NoMemory,
}
