//! Why calls are refused.
ghost use Rattle.std.specs.Prelude.{◌≡◌, ◌<◌, ◌^◌, ◌↔◌, None, pos};
ghost use Rattle.iw_handle.specs.Refusals.{domain_reason, register_reason, store_reason, code_of, refusal_code};
ghost use Rattle.iw_handle.specs.Refusals.{open_reason, answer_reason, post_reason, recv_reason, first_reason, size_reason};
ghost use Rattle.iw_handle.specs.Refusals.{next_reason, close_reason, limit_reason, deregister_reason};
ghost use Rattle.iw_handle.specs.Refusals.{share_reason, pool_reason, take_reason, open_shared_reason, buffer_reason};

use iw_buffer::BufferRefusal;
use iw_codes::numbers;
use iw_endpoint::{
    AnswerRefusal, CallRefusal, DeregisterRefusal, DomainRefusal, FirstRefusal, LimitRefusal,
    NotAtRest, OpenNextRefusal, OpenRefusal, OpenSharedRefusal, PoolRefusal, PostRefusal,
    RecvRefusal, RegisterRefusal, ShareRefusal, SizeRefusal, StoreRefusal, TakeRefusal,
};
use thiserror::Error;

/// Why a call did nothing: the first reason that holds.
#[derive(Clone, Copy, Debug, PartialEq, Eq, Error)]
pub enum Refusal {
    /// The handle has no endpoint.
    #[error("the handle has no endpoint: open it first")]
    Closed,
    /// The handle already has an endpoint.
    #[error("the handle has an endpoint already: free it first")]
    AlreadyOpen,
    /// Out of memory.
    #[error("no memory: the call may be made again")]
    NoMemory,
    /// The caller's buffer is too short.
    #[error("the caller's buffer is too short: the call tells the length that is needed")]
    NoRoom,
    /// No stream was opened under this number.
    #[error("no stream was opened under this number, or it was closed")]
    NoSuchStream,
    /// The STag names no region.
    #[error("the STag names no region")]
    NoRegion,
    /// Not all the octets lie in the region.
    #[error("not all the octets lie in the region: `facts` tells where it lies")]
    Outside,
    /// 0 is not a domain's number.
    #[error("a domain's number is 1 to 255")]
    BadDomain,
    /// The domain was added before.
    #[error("the domain was added before")]
    DomainTaken,
    /// The domain was not added.
    #[error("the domain was not added: add it first")]
    NoDomain,
    /// The domain has 1,024 regions.
    #[error("the domain has 1,024 regions: deregister one, or use another domain")]
    DomainFull,
    /// More than 16,777,216 octets, the most that a region may have.
    #[error("a region has at most 16,777,216 octets: register them in parts")]
    RegionTooLong,
    /// The base plus the number of octets is more than 2^64.
    #[error("the region reaches past tagged offset 2^64: use a lower base")]
    BaseWrap,
    /// A stream was opened under this number before.
    #[error("a stream was opened under this number before: use `open_next`")]
    NumberTaken,
    /// The stream's number is greater than 63.
    #[error("a number that is picked is 0 to 63: `open_next` gives others")]
    BadNumber,
    /// The role is not 0, 1 or 2.
    #[error("a role is 0, 1 or 2")]
    BadRole,
    /// Private data has at most 512 octets, and 508 in an enhanced start-up frame.
    #[error("private data has at most 512 octets, and 508 in an enhanced start-up frame")]
    PrivateTooLong,
    /// No MPA Request is pending.
    #[error("no MPA Request waits for an answer")]
    NotAsked,
    /// The stream is not open yet, or has ended.
    #[error("the stream is not open yet, or has ended")]
    NotOpen,
    /// 256 messages are posted and not yet handed back.
    #[error("256 messages are posted and not yet done: emit, and work until one is")]
    MessagesFull,
    /// More than 16,777,216 octets in a message or Read.
    #[error("a message or Read has at most 16,777,216 octets: post it in parts")]
    MessageTooLong,
    /// 256 receive buffers are posted and not yet handed back.
    #[error("256 receive buffers are posted: work until one is handed back")]
    BuffersFull,
    /// The stream has ended.
    #[error("the stream has ended: close it")]
    Ended,
    /// The maximum ULPDU is outside 128 to 64,512 octets.
    #[error("the maximum ULPDU is 128 to 64,512 octets")]
    BadSize,
    /// The stream has emitted more than 2^62 octets, or its in-order point is past 2^62.
    #[error("the stream has taken in, or emitted, more than 2^62 octets")]
    TooFar,
    /// Octets were delivered on the stream before.
    #[error("octets were delivered on the stream before: set the first number before that")]
    Late,
    /// The domain already has a pool of receive buffers.
    #[error("the domain has a pool already")]
    AlreadyShared,
    /// The domain has no pool of receive buffers.
    #[error("the domain has no pool: share it first")]
    NotShared,
    /// The domain's pool has 1,024 buffers.
    #[error("the pool has 1,024 buffers")]
    PoolFull,
    /// The stream takes its receive buffers from its domain's pool.
    #[error("the stream takes its receive buffers from its domain's pool: post them there")]
    Shared,
    /// The buffer was never made, or was freed.
    #[error("the buffer was not made, or was freed")]
    BufferMissing,
    /// The buffer was made before, and not freed.
    #[error("the buffer was made before, and not freed: free it first")]
    BufferExists,
    /// A receive buffer has at most 16,777,216 octets.
    #[error("a receive buffer has at most 16,777,216 octets")]
    BufferTooLong,
    /// A bit is set that has no meaning.
    #[error("a bit is set that has no meaning")]
    BadBits,
    /// The peer takes no Reads: its IRD is 0.
    #[error("the peer takes no Reads")]
    NoReads,
    /// All numbers of streams up to 2^32 - 1 were given.
    #[error("all numbers of streams were given: use another handle")]
    NumbersSpent,
    /// The stream has not ended, or has something left to hand back or to emit.
    #[error("the stream is open, or has something left to hand back or to emit")]
    NotAtRest,
    /// The window has no room before `work` makes some.
    #[error("the window has no room: work until idle makes some")]
    WindowFull,
    /// No place was lent for so many octets, or they are none.
    #[error("no place is lent for so many octets: ask for room right before")]
    NotLent,
    /// A struct is shorter than that of the first version, or has a kind that the call does not take.
    #[error("a struct's size is less than that of its first version, or the call takes no such kind")]
    BadStruct,
    /// The region's octets are in memory that the program keeps, or are not: another call hands them back.
    #[error("the region's octets are in memory of the other kind: another call hands them back")]
    OtherMemory,
}

impl Refusal {
    /// The older name of [`Refusal::BufferMissing`]. **Deprecated**: it goes with the next release.
    #[allow(non_upper_case_globals)]
    pub const NoBuffer: Refusal = Refusal::BufferMissing;
    /// The older name of [`Refusal::BufferExists`]. **Deprecated**: it goes with the next release.
    #[allow(non_upper_case_globals)]
    pub const AlreadyMade: Refusal = Refusal::BufferExists;
}

pub(crate) fn domain_reason(refusal: DomainRefusal) -> Refusal
    ensures { result ≡ domain_reason refusal }
{
    match refusal {
        DomainRefusal::BadDomain => Refusal::BadDomain,
        DomainRefusal::DomainTaken => Refusal::DomainTaken,
        DomainRefusal::NoMemory => Refusal::NoMemory,
    }
}

pub(crate) fn register_reason(refusal: RegisterRefusal) -> Refusal
    ensures { result ≡ register_reason refusal }
{
    match refusal {
        RegisterRefusal::NoDomain => Refusal::NoDomain,
        RegisterRefusal::DomainFull => Refusal::DomainFull,
        RegisterRefusal::TooLong => Refusal::RegionTooLong,
        RegisterRefusal::BaseWrap => Refusal::BaseWrap,
        RegisterRefusal::NoMemory => Refusal::NoMemory,
    }
}

pub(crate) fn deregister_reason(refusal: DeregisterRefusal) -> Refusal
    ensures { result ≡ deregister_reason refusal }
{
    match refusal {
        DeregisterRefusal::NoRegion => Refusal::NoRegion,
        DeregisterRefusal::OtherMemory => Refusal::OtherMemory,
    }
}

pub(crate) fn limit_reason(refusal: CallRefusal<LimitRefusal>) -> Refusal
    ensures { result ≡ limit_reason refusal }
{
    match refusal {
        CallRefusal::NoSuchStream => Refusal::NoSuchStream,
        CallRefusal::Refused(LimitRefusal::Ended) => Refusal::Ended,
        CallRefusal::Refused(LimitRefusal::Refused(refusal)) => register_reason(refusal),
    }
}

pub(crate) fn store_reason(refusal: StoreRefusal) -> Refusal
    ensures { result ≡ store_reason refusal }
{
    match refusal {
        StoreRefusal::NoRegion => Refusal::NoRegion,
        StoreRefusal::Outside => Refusal::Outside,
    }
}

pub(crate) fn open_reason(refusal: OpenRefusal) -> Refusal
    ensures { result ≡ open_reason refusal }
{
    match refusal {
        OpenRefusal::NumberTaken => Refusal::NumberTaken,
        OpenRefusal::BadNumber => Refusal::BadNumber,
        OpenRefusal::NoDomain => Refusal::NoDomain,
        OpenRefusal::PrivateTooLong => Refusal::PrivateTooLong,
        OpenRefusal::NoMemory => Refusal::NoMemory,
    }
}

pub(crate) fn answer_reason(refusal: CallRefusal<AnswerRefusal>) -> Refusal
    ensures { result ≡ answer_reason refusal }
{
    match refusal {
        CallRefusal::NoSuchStream => Refusal::NoSuchStream,
        CallRefusal::Refused(AnswerRefusal::NotAsked) => Refusal::NotAsked,
        CallRefusal::Refused(AnswerRefusal::PrivateTooLong) => Refusal::PrivateTooLong,
    }
}

pub(crate) fn post_reason(refusal: CallRefusal<PostRefusal>) -> Refusal
    ensures { result ≡ post_reason refusal }
{
    match refusal {
        CallRefusal::NoSuchStream => Refusal::NoSuchStream,
        CallRefusal::Refused(PostRefusal::Full) => Refusal::MessagesFull,
        CallRefusal::Refused(PostRefusal::TooLong) => Refusal::MessageTooLong,
        CallRefusal::Refused(PostRefusal::NotOpen) => Refusal::NotOpen,
        CallRefusal::Refused(PostRefusal::NoReads) => Refusal::NoReads,
        CallRefusal::Refused(PostRefusal::NoMemory) => Refusal::NoMemory,
    }
}

pub(crate) fn recv_reason(refusal: CallRefusal<RecvRefusal>) -> Refusal
    ensures { result ≡ recv_reason refusal }
{
    match refusal {
        CallRefusal::NoSuchStream => Refusal::NoSuchStream,
        CallRefusal::Refused(RecvRefusal::Full) => Refusal::BuffersFull,
        CallRefusal::Refused(RecvRefusal::Ended) => Refusal::Ended,
        CallRefusal::Refused(RecvRefusal::NoMemory) => Refusal::NoMemory,
        CallRefusal::Refused(RecvRefusal::Shared) => Refusal::Shared,
    }
}

pub(crate) fn first_reason(refusal: CallRefusal<FirstRefusal>) -> Refusal
    ensures { result ≡ first_reason refusal }
{
    match refusal {
        CallRefusal::NoSuchStream => Refusal::NoSuchStream,
        CallRefusal::Refused(FirstRefusal::Late) => Refusal::Late,
    }
}

pub(crate) fn size_reason(refusal: CallRefusal<SizeRefusal>) -> Refusal
    ensures { result ≡ size_reason refusal }
{
    match refusal {
        CallRefusal::NoSuchStream => Refusal::NoSuchStream,
        CallRefusal::Refused(SizeRefusal::BadSize) => Refusal::BadSize,
    }
}

pub(crate) fn close_reason(refusal: CallRefusal<NotAtRest>) -> Refusal
    ensures { result ≡ close_reason refusal }
{
    match refusal {
        CallRefusal::NoSuchStream => Refusal::NoSuchStream,
        CallRefusal::Refused(NotAtRest) => Refusal::NotAtRest,
    }
}

pub(crate) fn next_reason(refusal: OpenNextRefusal) -> Refusal
    ensures { result ≡ next_reason refusal }
{
    match refusal {
        OpenNextRefusal::NoDomain => Refusal::NoDomain,
        OpenNextRefusal::NotShared => Refusal::NotShared,
        OpenNextRefusal::NumbersSpent => Refusal::NumbersSpent,
        OpenNextRefusal::PrivateTooLong => Refusal::PrivateTooLong,
        OpenNextRefusal::NoMemory => Refusal::NoMemory,
    }
}

pub(crate) fn share_reason(refusal: ShareRefusal) -> Refusal
    ensures { result ≡ share_reason refusal }
{
    match refusal {
        ShareRefusal::NoDomain => Refusal::NoDomain,
        ShareRefusal::AlreadyShared => Refusal::AlreadyShared,
        ShareRefusal::NoMemory => Refusal::NoMemory,
    }
}

pub(crate) fn pool_reason(refusal: PoolRefusal) -> Refusal
    ensures { result ≡ pool_reason refusal }
{
    match refusal {
        PoolRefusal::NoDomain => Refusal::NoDomain,
        PoolRefusal::NotShared => Refusal::NotShared,
        PoolRefusal::Full => Refusal::PoolFull,
        PoolRefusal::NoMemory => Refusal::NoMemory,
    }
}

pub(crate) fn take_reason(refusal: TakeRefusal) -> Refusal
    ensures { result ≡ take_reason refusal }
{
    match refusal {
        TakeRefusal::NoDomain => Refusal::NoDomain,
        TakeRefusal::NotShared => Refusal::NotShared,
    }
}

pub(crate) fn open_shared_reason(refusal: OpenSharedRefusal) -> Refusal
    ensures { result ≡ open_shared_reason refusal }
{
    match refusal {
        OpenSharedRefusal::NumberTaken => Refusal::NumberTaken,
        OpenSharedRefusal::BadNumber => Refusal::BadNumber,
        OpenSharedRefusal::NoDomain => Refusal::NoDomain,
        OpenSharedRefusal::NotShared => Refusal::NotShared,
        OpenSharedRefusal::PrivateTooLong => Refusal::PrivateTooLong,
        OpenSharedRefusal::NoMemory => Refusal::NoMemory,
    }
}

/// The reason of a call on a buffer.
pub fn buffer_reason(refusal: BufferRefusal) -> Refusal
    ensures { result ≡ buffer_reason refusal }
{
    match refusal {
        BufferRefusal::BufferMissing => Refusal::BufferMissing,
        BufferRefusal::BufferExists => Refusal::BufferExists,
        BufferRefusal::NoMemory => Refusal::NoMemory,
    }
}

// The number of a refusal.
fn number(refusal: Refusal) -> u32
    ensures number { result ≡ refusal_code refusal }
    ensures few { result < 2 ^ 31 }
{
    match refusal {
        Refusal::Closed => numbers::IS_CLOSED,
        Refusal::AlreadyOpen => numbers::ALREADY_OPEN,
        Refusal::NoMemory => numbers::NO_MEMORY,
        Refusal::NoRoom => numbers::NO_ROOM,
        Refusal::NoSuchStream => numbers::NO_SUCH_STREAM,
        Refusal::NoRegion => numbers::NO_REGION,
        Refusal::Outside => numbers::OUTSIDE,
        Refusal::BadDomain => numbers::BAD_DOMAIN,
        Refusal::DomainTaken => numbers::DOMAIN_TAKEN,
        Refusal::NoDomain => numbers::NO_DOMAIN,
        Refusal::DomainFull => numbers::DOMAIN_FULL,
        Refusal::RegionTooLong => numbers::REGION_TOO_LONG,
        Refusal::BaseWrap => numbers::BASE_WRAP,
        Refusal::NumberTaken => numbers::NUMBER_TAKEN,
        Refusal::BadNumber => numbers::BAD_NUMBER,
        Refusal::BadRole => numbers::BAD_ROLE,
        Refusal::PrivateTooLong => numbers::PRIVATE_TOO_LONG,
        Refusal::NotAsked => numbers::NOT_ASKED,
        Refusal::NotOpen => numbers::NOT_OPEN,
        Refusal::MessagesFull => numbers::MESSAGES_FULL,
        Refusal::MessageTooLong => numbers::MESSAGE_TOO_LONG,
        Refusal::BuffersFull => numbers::BUFFERS_FULL,
        Refusal::Ended => numbers::ENDED,
        Refusal::BadSize => numbers::BAD_SIZE,
        Refusal::TooFar => numbers::TOO_FAR,
        Refusal::Late => numbers::LATE,
        Refusal::AlreadyShared => numbers::ALREADY_SHARED,
        Refusal::NotShared => numbers::NOT_SHARED,
        Refusal::PoolFull => numbers::POOL_FULL,
        Refusal::Shared => numbers::SHARED,
        Refusal::BufferMissing => numbers::BUFFER_MISSING,
        Refusal::BufferExists => numbers::BUFFER_EXISTS,
        Refusal::BufferTooLong => numbers::BUFFER_TOO_LONG,
        Refusal::BadBits => numbers::BAD_BITS,
        Refusal::NoReads => numbers::NO_READS,
        Refusal::NumbersSpent => numbers::NUMBERS_SPENT,
        Refusal::NotAtRest => numbers::NOT_AT_REST,
        Refusal::WindowFull => numbers::WINDOW_FULL,
        Refusal::NotLent => numbers::NOT_LENT,
        Refusal::BadStruct => numbers::BAD_STRUCT,
        Refusal::OtherMemory => numbers::OTHER_MEMORY,
    }
}

/// The number that C gets: 0 if the call was not refused, else the number of the refusal.
pub fn code(refusal: Option<Refusal>) -> i32
    ensures code { result ≡ pos (code_of refusal) }
    ensures done { (result ≡ pos 0) ↔ (refusal ≡ None) }
{
    match refusal {
        None => numbers::OK as i32,
        Some(refusal) => number(refusal) as i32,
    }
}
