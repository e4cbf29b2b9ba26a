ghost use Rattle.std.specs.Prelude.{IfOk, Some, codes, ◌≡◌, ◌+◌, ◌<◌, ◌≤◌, length, take, drop};
ghost use Rattle.std.specs.Int.{w32, w64, from_be_bytes};
ghost use Rattle.iw_octets.specs.Head.{first_octet, is_tagged, is_last};
ghost use Rattle.iw_octets.specs.Head.{tagged_octets, read_tagged, FitsTagged};
ghost use Rattle.iw_octets.specs.Head.{untagged_octets, read_untagged, FitsUntagged};
ghost use Rattle.iw_octets.specs.Shown.{shown};
ghost use Rattle.iw_octets.specs.Stag.{stag_at};

use crate::constants::{TAGGED_HEADER, UNTAGGED_HEADER};
use crate::stag::Stag;
use std::error::Error;
use std::fmt;

/// There are too few octets for what was to be read.
#[derive(Clone, Copy, Debug, PartialEq, Eq)]
pub struct Short;

impl fmt::Display for Short {
    ghost output = { λ short. Some (codes "too few octets") };

    fn fmt<W: fmt::Write>(&self, f: &mut fmt::Formatter<W>) -> fmt::Result {
        f.write_str("too few octets")
    }
}

impl Error for Short {}

/// The header of a segment for a region: an STag and a tagged offset (RFC 5041 4.2, 14 octets).
///
/// `control` is RDMAP's octet, as received.
#[derive(Clone, Copy, Debug, PartialEq, Eq)]
pub struct TaggedHead {
    pub last: bool,
    pub ddp_version: u8,
    pub control: u8,
    pub stag: Stag,
    pub to: u64,
}

/// The header of a segment for a queue of buffers (RFC 5041 4.3, 18 octets).
///
/// `control` and `tail` are RDMAP's five octets, as received; `msn` is the message sequence number, `mo` the message
/// offset.
#[derive(Clone, Copy, Debug, PartialEq, Eq)]
pub struct UntaggedHead {
    pub last: bool,
    pub ddp_version: u8,
    pub control: u8,
    pub tail: u32,
    pub queue: u32,
    pub msn: u32,
    pub mo: u32,
}

/// Whether a segment that begins with this octet is tagged.
pub fn is_tagged(first: u8) -> bool
    ensures { result ≡ is_tagged first }
{
    first >= 0x80
}

/// Whether the segment that begins with this octet is its message's last.
fn is_last(first: u8) -> bool
    ensures { result ≡ is_last first }
{
    first >> 6 & 1 == 1
}

/// The first control octet. The four bits between the flags and the version are reserved, and zero.
fn first_octet(tagged: bool, last: bool, ddp_version: u8) -> u8
    requires { ddp_version < 4 }
    ensures { result ≡ first_octet tagged last ddp_version }
{
    let tagged_bit = if tagged { 0x80 } else { 0 };
    let last_bit = if last { 0x40 } else { 0 };
    tagged_bit + last_bit + ddp_version
}

/// The number in the four octets from a place on.
pub(crate) fn number_32(octets: &[u8], at: usize) -> u32
    requires { at + 4 ≤ length octets.now }
    ensures { result ≡ from_be_bytes w32 (take 4 (drop at octets.now)) }
{
    u32::from_be_bytes([octets[at], octets[at + 1], octets[at + 2], octets[at + 3]])
}

/// The number in the eight octets from a place on.
pub(crate) fn number_64(octets: &[u8], at: usize) -> u64
    requires { at + 8 ≤ length octets.now }
    ensures { result ≡ from_be_bytes w64 (take 8 (drop at octets.now)) }
{
    u64::from_be_bytes([
        octets[at],
        octets[at + 1],
        octets[at + 2],
        octets[at + 3],
        octets[at + 4],
        octets[at + 5],
        octets[at + 6],
        octets[at + 7],
    ])
}

/// The STag in the four octets from a place on.
pub(crate) fn read_stag(octets: &[u8], at: usize) -> Stag
    requires { at + 4 ≤ length octets.now }
    ensures { result ≡ stag_at octets.now at }
{
    Stag::from_octets([octets[at], octets[at + 1], octets[at + 2], octets[at + 3]])
}

impl TaggedHead {
    /// Reads the header at the front, and answers it with the octets after it.
    /// `Short` if there are fewer than 14 octets.
    #[tactic(auto, unfolding(crate::specs::Head::read_tagged))]
    #[inline(always)]
    pub fn read(octets: &[u8]) -> Result<(TaggedHead, &[u8]), Short>
        ensures read { shown result ≡ read_tagged octets.now }
        ensures fits { IfOk result (λ read. FitsTagged read.0) }
    {
        if octets.len() < TAGGED_HEADER {
            return Err(Short);
        }
        let head = TaggedHead {
            last: is_last(octets[0]),
            ddp_version: octets[0] & 3,
            control: octets[1],
            stag: read_stag(octets, 2),
            to: number_64(octets, 6),
        };
        Ok((head, &octets[TAGGED_HEADER..]))
    }

    /// The header's 14 octets.
    #[tactic(auto, unfolding(crate::specs::Head::tagged_octets))]
    #[inline(always)]
    pub fn write(&self) -> [u8; TAGGED_HEADER]
        requires { self.now.ddp_version < 4 }
        ensures { result ≡ tagged_octets self.now }
    {
        let mut out = [0; TAGGED_HEADER];
        out[0] = first_octet(true, self.last, self.ddp_version);
        out[1] = self.control;
        out[2..6].copy_from_slice(&self.stag.to_octets());
        out[6..].copy_from_slice(&self.to.to_be_bytes());
        out
    }
}

impl UntaggedHead {
    /// Reads the header at the front, and answers it with the octets after it.
    /// `Short` if there are fewer than 18 octets.
    #[tactic(auto, unfolding(crate::specs::Head::read_untagged))]
    #[inline(always)]
    pub fn read(octets: &[u8]) -> Result<(UntaggedHead, &[u8]), Short>
        ensures read { shown result ≡ read_untagged octets.now }
        ensures fits { IfOk result (λ read. FitsUntagged read.0) }
    {
        if octets.len() < UNTAGGED_HEADER {
            return Err(Short);
        }
        let head = UntaggedHead {
            last: is_last(octets[0]),
            ddp_version: octets[0] & 3,
            control: octets[1],
            tail: number_32(octets, 2),
            queue: number_32(octets, 6),
            msn: number_32(octets, 10),
            mo: number_32(octets, 14),
        };
        Ok((head, &octets[UNTAGGED_HEADER..]))
    }

    /// The header's 18 octets.
    #[tactic(auto, unfolding(crate::specs::Head::untagged_octets))]
    #[inline(always)]
    pub fn write(&self) -> [u8; UNTAGGED_HEADER]
        requires { self.now.ddp_version < 4 }
        ensures { result ≡ untagged_octets self.now }
    {
        let mut out = [0; UNTAGGED_HEADER];
        out[0] = first_octet(false, self.last, self.ddp_version);
        out[1] = self.control;
        out[2..6].copy_from_slice(&self.tail.to_be_bytes());
        out[6..10].copy_from_slice(&self.queue.to_be_bytes());
        out[10..14].copy_from_slice(&self.msn.to_be_bytes());
        out[14..].copy_from_slice(&self.mo.to_be_bytes());
        out
    }
}
