use thiserror::Error;

/// Why a call on a buffer did nothing.
#[derive(Clone, Copy, Debug, PartialEq, Eq, Error)]
pub enum BufferRefusal {
    /// The buffer was never made, or was freed.
    #[error("the buffer was not made, or was freed")]
    BufferMissing,
    /// The buffer was made before, and not freed: free it first.
    #[error("the buffer was made before, and not freed: free it first")]
    BufferExists,
    /// Out of memory: the call may be made again.
    #[error("no memory: the call may be made again")]
    NoMemory,
}

impl BufferRefusal {
    /// The older name of [`BufferRefusal::BufferMissing`]. **Deprecated**: it goes with the next release.
    #[allow(non_upper_case_globals)]
    pub const NoBuffer: BufferRefusal = BufferRefusal::BufferMissing;
    /// The older name of [`BufferRefusal::BufferExists`]. **Deprecated**: it goes with the next release.
    #[allow(non_upper_case_globals)]
    pub const AlreadyMade: BufferRefusal = BufferRefusal::BufferExists;
}
