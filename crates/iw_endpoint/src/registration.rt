//! How octets become a region, as a struct.
use iw_memory::Rights;

/// For whom a region is registered.
#[derive(Clone, Copy, Debug, PartialEq, Eq)]
pub enum Scope {
    /// All streams of the protection domain of this number.
    Domain(u8),
    /// The stream of this number alone, in its domain (RFC 5042 6.1.1).
    Stream(u32),
}

/// How octets become a region: what [`Endpoint::register_as`](crate::Endpoint::register_as) is told. Here a region for one peer
/// alone, which may write it, under an STag that nobody guesses:
///
/// ```text
/// let registration = Registration {
///     scope: Scope::Stream(number),
///     base: 0,
///     rights: Rights { write: true, ..Rights::default() },
///     drawn: Some(random),
/// };
/// endpoint.register_as(registration, RegionOctets::Own(octets))
/// ```
#[derive(Clone, Copy, Debug, PartialEq, Eq)]
pub struct Registration {
    /// Who may use it.
    pub scope: Scope,
    /// The tagged offset of its first octet.
    pub base: u64,
    /// What it may be used for.
    pub rights: Rights,
    /// 32 random bits that choose its STag, so that no peer guesses it ([`Endpoint::register_drawn`](crate::Endpoint::register_drawn));
    /// without them it is the domain's next one.
    pub drawn: Option<u32>,
}
