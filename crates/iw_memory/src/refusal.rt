//! Why calls are refused, and why a peer may not use or invalidate a region.
use thiserror::Error;

/// Why a domain was not added: the first reason that holds.
#[derive(Clone, Copy, Debug, PartialEq, Eq, Error)]
pub enum DomainRefusal {
    /// The number is 0: a domain's is 1 to 255.
    #[error("a domain's number is 1 to 255")]
    BadDomain,
    /// The domain was added before.
    #[error("the domain was added before")]
    DomainTaken,
    /// Out of memory: the call may be made again.
    #[error("no memory: the call may be made again")]
    NoMemory,
}

/// Why a region was not registered: the first reason that holds.
#[derive(Clone, Copy, Debug, PartialEq, Eq, Error)]
pub enum RegisterRefusal {
    /// The domain was not added.
    #[error("the domain was not added: add it first")]
    NoDomain,
    /// The domain has 1,024 regions, valid or not: deregister one, or use another domain.
    #[error("the domain has 1,024 regions: deregister one, or use another domain")]
    DomainFull,
    /// There are more octets than a region has, 16,777,216, or 2^46 in memory that a program keeps: register them in parts.
    #[error("a region has at most 16,777,216 octets: register them in parts")]
    TooLong,
    /// The base and the number of octets come to more than 2^64: use a lower base.
    #[error("the region reaches past tagged offset 2^64: use a lower base")]
    BaseWrap,
    /// Out of memory: the call may be made again.
    #[error("no memory: the call may be made again")]
    NoMemory,
}

/// Why octets were not stored: the first reason that holds.
#[derive(Clone, Copy, Debug, PartialEq, Eq, Error)]
pub enum StoreRefusal {
    /// The STag names no region.
    #[error("the STag names no region")]
    NoRegion,
    /// Not all the octets would stand in the region: [`Memory::facts`](crate::Memory::facts) tells where it lies.
    #[error("not all the octets lie in the region: `facts` tells where it lies")]
    Outside,
}

/// Why a peer may not use a part of a region (RFC 5040 and RFC 5042): the first reason that holds.
#[derive(Clone, Copy, Debug, PartialEq, Eq, Error)]
pub enum Deny {
    /// The STag is another domain's, whether it names a region there or not, or names a region that is limited to
    /// another stream.
    #[error("the STag is another domain's or another stream's")]
    NotAssociated,
    /// The STag names no region, or one that was invalidated.
    #[error("the STag names no valid region")]
    Invalid,
    /// The part ends past tagged offset 2^64 - 1.
    #[error("the tagged offsets wrap")]
    ToWrap,
    /// The part is not within the region.
    #[error("the part is not within the region")]
    Bounds,
    /// The region does not grant this use.
    #[error("the region does not grant this use")]
    Rights,
}

/// Why a peer may not invalidate a region: the first reason that holds.
#[derive(Clone, Copy, Debug, PartialEq, Eq, Error)]
pub enum InvalidateDeny {
    /// The STag is another domain's, whether it names a region there or not, or names a region that is limited to
    /// another stream.
    #[error("the STag is another domain's or another stream's")]
    NotAssociated,
    /// The STag names no region, or one that was invalidated.
    #[error("the STag names no valid region")]
    Invalid,
    /// The region does not grant it.
    #[error("the region may not be invalidated")]
    NotAllowed,
}

/// Why a region's octets are not handed back as they are wanted: as a vector, or as memory that a program keeps.
#[derive(Clone, Copy, Debug, PartialEq, Eq, Error)]
pub enum DeregisterRefusal {
    /// The STag names no region.
    #[error("the STag names no region")]
    NoRegion,
    /// The octets are in memory of the other kind.
    #[error("the region's octets are in memory of the other kind")]
    OtherMemory,
}

/// The STag names no region.
#[derive(Clone, Copy, Debug, PartialEq, Eq, Error)]
#[error("the STag names no region")]
pub struct NoRegion;
