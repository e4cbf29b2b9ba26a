//! Why calls on an endpoint are refused.
use iw_memory::RegisterRefusal;
use std::fmt::Display;
use thiserror::Error;

/// No stream was opened under this number, or it was closed.
#[derive(Clone, Copy, Debug, PartialEq, Eq, Error)]
#[error("no stream was opened under this number, or it was closed")]
pub struct NoSuchStream;

/// Why a call on a stream is refused: the first reason that holds.
#[derive(Clone, Copy, Debug, PartialEq, Eq, Error)]
#[error_bound(R: Display)]
pub enum CallRefusal<R> {
    /// No stream was opened under this number, or it was closed.
    #[error("no stream was opened under this number, or it was closed")]
    NoSuchStream,
    /// The stream refuses the call.
    #[error("{0}")]
    Refused(R),
}

/// Why octets are not registered for one stream: the first reason that holds.
#[derive(Clone, Copy, Debug, PartialEq, Eq, Error)]
pub enum LimitRefusal {
    /// The stream has ended: close it.
    #[error("the stream has ended: close it")]
    Ended,
    /// The stream's domain refuses them ([`Endpoint::register`](crate::Endpoint::register)).
    #[error("{0}")]
    Refused(RegisterRefusal),
}

/// Why no place is lent to read to.
#[derive(Clone, Copy, Debug, PartialEq, Eq, Error)]
pub enum PlaceRefusal {
    /// The stream's window has no room: [`Endpoint::work`](crate::Endpoint::work) makes room.
    #[error("the window has no room: work until idle makes some")]
    Full,
    /// Out of memory: the call may be made again.
    #[error("no memory: the call may be made again")]
    NoMemory,
}

/// The stream is open, or has something left to hand back or to emit.
#[derive(Clone, Copy, Debug, PartialEq, Eq, Error)]
#[error("the stream is open, or has something left to hand back or to emit")]
pub struct NotAtRest;

/// Why a domain is not given a pool: the first reason that holds.
#[derive(Clone, Copy, Debug, PartialEq, Eq, Error)]
pub enum ShareRefusal {
    /// The domain was not added.
    #[error("the domain was not added: add it first")]
    NoDomain,
    /// The domain already has a pool.
    #[error("the domain has a pool already")]
    AlreadyShared,
    /// Out of memory: the call may be made again.
    #[error("no memory: the call may be made again")]
    NoMemory,
}

/// Why a buffer is not posted to a pool: the first reason that holds.
#[derive(Clone, Copy, Debug, PartialEq, Eq, Error)]
pub enum PoolRefusal {
    /// The domain was not added.
    #[error("the domain was not added: add it first")]
    NoDomain,
    /// The domain has no pool.
    #[error("the domain has no pool: share it first")]
    NotShared,
    /// The pool has 1,024 buffers.
    #[error("the pool has 1,024 buffers")]
    Full,
    /// Out of memory: the call may be made again.
    #[error("no memory: the call may be made again")]
    NoMemory,
}

/// Why no buffer is taken out of a pool: the first reason that holds.
#[derive(Clone, Copy, Debug, PartialEq, Eq, Error)]
pub enum TakeRefusal {
    /// The domain was not added.
    #[error("the domain was not added: add it first")]
    NoDomain,
    /// The domain has no pool.
    #[error("the domain has no pool: share it first")]
    NotShared,
}

/// Why a stream that shares the pool of its domain is not opened: the first reason that holds.
#[derive(Clone, Copy, Debug, PartialEq, Eq, Error)]
pub enum OpenSharedRefusal {
    /// A stream was opened under this number before: use `open_shared_next`.
    #[error("a stream was opened under this number before: use `open_shared_next`")]
    NumberTaken,
    /// The number is greater than 63: `open_shared_next` gives others.
    #[error("a number that is picked is 0 to 63: `open_shared_next` gives others")]
    BadNumber,
    /// The domain was not added.
    #[error("the domain was not added: add it first")]
    NoDomain,
    /// The domain has no pool.
    #[error("the domain has no pool: share it first")]
    NotShared,
    /// An initiator that asks for revision 2 has over 508 octets of private data (RFC 6581 9).
    #[error("private data has at most 512 octets, and 508 in an enhanced start-up frame")]
    PrivateTooLong,
    /// Out of memory: the call may be made again.
    #[error("no memory: the call may be made again")]
    NoMemory,
}

/// Why a stream is not opened under the next number: the first reason that holds.
#[derive(Clone, Copy, Debug, PartialEq, Eq, Error)]
pub enum OpenNextRefusal {
    /// The domain was not added.
    #[error("the domain was not added: add it first")]
    NoDomain,
    /// The stream was to share its domain's pool, and the domain has none.
    #[error("the domain has no pool: share it first")]
    NotShared,
    /// All numbers up to 2^32 - 1 were given: use another endpoint.
    #[error("all numbers of streams were given: use another endpoint")]
    NumbersSpent,
    /// An initiator that asks for revision 2 has over 508 octets of private data (RFC 6581 9).
    #[error("private data has at most 512 octets, and 508 in an enhanced start-up frame")]
    PrivateTooLong,
    /// Out of memory: the call may be made again.
    #[error("no memory: the call may be made again")]
    NoMemory,
}
