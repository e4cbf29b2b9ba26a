use iw_endpoint::{Message, Request};
use std::alloc::{AllocError, AllocFailed, Global};
use test_support::FailsAt;
use thiserror::Error;

/// The allocator of both endpoints.
pub type Heap<'h> = &'h FailsAt<Global>;

/// The calls of an endpoint.
#[derive(Clone, Copy, Debug, PartialEq, Eq)]
pub enum Call {
    New,
    Register,
    Open,
    PostWrite,
    PostSend,
    PostRead,
    PostRecv,
    Deliver,
    Emit,
    Work,
    AddDomain,
    Deregister,
    Invalidate,
    Store,
    Accept,
    Reject,
    FirstNumber,
    SetMulpdu,
    BreakLink,
    Private,
    Local,
    Share,
    PostShared,
    TakeShared,
    OpenShared,
    OpenNext,
    OpenSharedNext,
    RegisterFor,
}

/// Each call, and whether it allocates.
pub const CALLS: [(Call, bool); 28] = [
    (Call::New, false),
    (Call::Register, true),
    (Call::Open, true),
    (Call::PostWrite, true),
    (Call::PostSend, true),
    (Call::PostRead, true),
    (Call::PostRecv, true),
    (Call::Deliver, true),
    (Call::Emit, true),
    (Call::Work, true),
    (Call::AddDomain, true),
    (Call::Deregister, false),
    (Call::Invalidate, false),
    (Call::Store, false),
    (Call::Accept, false),
    (Call::Reject, false),
    (Call::FirstNumber, false),
    (Call::SetMulpdu, false),
    (Call::BreakLink, false),
    (Call::Private, false),
    (Call::Local, false),
    (Call::Share, true),
    (Call::PostShared, true),
    (Call::TakeShared, false),
    (Call::OpenShared, true),
    (Call::OpenNext, true),
    (Call::OpenSharedNext, true),
    (Call::RegisterFor, true),
];

impl Call {
    /// The call that posts this.
    pub(crate) fn posting<O>(request: &Request<O>) -> Call {
        match request {
            Request::Message(Message::Write { .. }) => Call::PostWrite,
            Request::Message(Message::Send { .. }) => Call::PostSend,
            Request::Read(_) => Call::PostRead,
        }
    }
}

/// Why an event has no entry.
#[derive(Clone, Copy, Debug, PartialEq, Eq, Error)]
pub enum Stopped {
    /// It delivers octets that were not emitted, or are no longer kept.
    #[error("octets that are not there are delivered")]
    NotSent,
    /// It names a stream that was never opened.
    #[error("a stream was never opened")]
    NoSuchStream,
    /// Out of memory, though none was refused.
    #[error("there is no memory")]
    NoMemory,
    /// The call was refused memory and does not say so, or allocates and should not.
    #[error("{0:?} was refused memory, and told nothing")]
    Ignored(Call),
    /// The call runs out of memory however often it is made.
    #[error("{0:?} has no memory, however often it is made")]
    Endless(Call),
}

impl From<AllocError> for Stopped {
    fn from(_error: AllocError) -> Stopped {
        Stopped::NoMemory
    }
}

impl<T: Drop> From<AllocFailed<T>> for Stopped {
    fn from(_error: AllocFailed<T>) -> Stopped {
        Stopped::NoMemory
    }
}

/// The most times that one call is made.
pub(crate) const MOST_TRIES: u64 = 100;

/// Refuses memory while calls are made, and counts.
#[derive(Drop)]
pub struct Meter<'h> {
    heap: Heap<'h>,
    is_refusing: bool,
    /// For each call: how often it was made, and how many of its requests for memory were refused.
    counts: [(u64, u64); 28],
}

impl<'h> Meter<'h> {
    /// No call was made yet. If it is not refusing, each call gets all the memory that it asks for.
    pub fn new(heap: Heap<'h>, is_refusing: bool) -> Meter<'h> {
        heap.refuse_after(u64::MAX);
        Meter {
            heap,
            is_refusing,
            counts: [(0, 0); 28],
        }
    }

    pub fn heap(&self) -> Heap<'h> {
        self.heap
    }

    /// How often the call was made, and how many of its requests for memory were refused.
    pub fn counted(&self, call: Call) -> (u64, u64) {
        match self.counts.get(call as usize) {
            Some(counts) => *counts,
            None => (0, 0),
        }
    }

    /// A call begins: its request after the next `n` is refused.
    pub(crate) fn begin(&self, n: u64) {
        if self.is_refusing {
            self.heap.refuse_after(n);
        }
    }

    /// The call succeeded, after this many that were refused.
    pub(crate) fn end(&mut self, call: Call, n: u64) -> Result<(), Stopped> {
        let is_ignored = self.is_refusing && self.heap.has_refused();
        self.heap.refuse_after(u64::MAX);
        if let Some(counts) = self.counts.get_mut(call as usize) {
            counts.0 = counts.0.saturating_add(1);
            counts.1 = counts.1.saturating_add(n);
        }
        if is_ignored {
            return Err(Stopped::Ignored(call));
        }
        Ok(())
    }
}
