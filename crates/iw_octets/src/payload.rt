ghost use Rattle.std.specs.Prelude.{IfOk, ◌≡◌, ◌<◌};
ghost use Rattle.iw_octets.specs.Payload.{request_octets, read_request, FitsRequest};
ghost use Rattle.iw_octets.specs.Payload.{word_octets, read_word, flags_octet, FitsWord};
ghost use Rattle.iw_octets.specs.Shown.{shown};

use crate::constants::READ_REQUEST_HEADER;
use crate::fault::Fault;
use crate::head::{Short, number_32, number_64, read_stag};
use crate::stag::Stag;
use arrayvec::ArrayVec;

/// The payload of a Read Request (RFC 5040 4.4, 28 octets): `size` octets go to the sink, and come from the source.
#[derive(Clone, Copy, Debug, PartialEq, Eq)]
pub struct ReadRequest {
    /// The region of the requester that the octets go to.
    pub sink: Stag,
    /// The tagged offset of the first octet there.
    pub sink_to: u64,
    /// How many octets are asked for.
    pub size: u32,
    /// The region of the responder that the octets come from.
    pub source: Stag,
    /// The tagged offset of the first octet there.
    pub source_to: u64,
}

/// The first word of a Terminate's payload (RFC 5040 4.8, 4 octets): a fault, and which parts of the segment at fault
/// follow.
#[derive(Clone, Copy, Debug, PartialEq, Eq)]
pub struct TerminateWord {
    /// The layer: 0 is RDMAP, 1 is DDP, 2 is MPA.
    pub layer: u8,
    /// The error type within the layer.
    pub kind: u8,
    /// The error code within the type.
    pub code: u8,
    /// Whether the segment's length follows.
    pub has_length: bool,
    /// Whether its DDP header follows.
    pub has_ddp: bool,
    /// Whether its Read Request follows.
    pub has_request: bool,
}

impl ReadRequest {
    /// Reads the request at the front, and answers it with the octets after it.
    /// `Short` if there are fewer than 28 octets.
    #[tactic(auto, unfolding(crate::specs::Payload::read_request))]
    pub fn read(octets: &[u8]) -> Result<(ReadRequest, &[u8]), Short>
        ensures read { shown result ≡ read_request octets.now }
        ensures fits { IfOk result (λ read. FitsRequest read.0) }
    {
        if octets.len() < READ_REQUEST_HEADER {
            return Err(Short);
        }
        let request = ReadRequest {
            sink: read_stag(octets, 0),
            sink_to: number_64(octets, 4),
            size: number_32(octets, 12),
            source: read_stag(octets, 16),
            source_to: number_64(octets, 20),
        };
        Ok((request, &octets[READ_REQUEST_HEADER..]))
    }

    /// The request's 28 octets.
    #[tactic(auto, unfolding(crate::specs::Payload::request_octets))]
    pub fn write(&self) -> ArrayVec<u8, 28>
        ensures { result.items ≡ request_octets self.now }
    {
        let mut out = ArrayVec::new();
        let _ = out.try_extend_from_slice(&self.sink.to_octets());
        let _ = out.try_extend_from_slice(&self.sink_to.to_be_bytes());
        let _ = out.try_extend_from_slice(&self.size.to_be_bytes());
        let _ = out.try_extend_from_slice(&self.source.to_octets());
        let _ = out.try_extend_from_slice(&self.source_to.to_be_bytes());
        out
    }
}

/// The octet of the three flags. The other five bits are reserved, and zero.
fn flags_octet(has_length: bool, has_ddp: bool, has_request: bool) -> u8
    ensures { result ≡ flags_octet has_length has_ddp has_request }
{
    let length_bit = if has_length { 0x80 } else { 0 };
    let ddp_bit = if has_ddp { 0x40 } else { 0 };
    let request_bit = if has_request { 0x20 } else { 0 };
    length_bit + ddp_bit + request_bit
}

impl TerminateWord {
    /// Reads the word at the front, and answers it with the octets after it. `Short` if there are fewer than 4 octets.
    #[tactic(auto, unfolding(crate::specs::Payload::read_word))]
    pub fn read(octets: &[u8]) -> Result<(TerminateWord, &[u8]), Short>
        ensures read { shown result ≡ read_word octets.now }
        ensures fits { IfOk result (λ read. FitsWord read.0) }
    {
        if octets.len() < 4 {
            return Err(Short);
        }
        let word = TerminateWord {
            layer: octets[0] >> 4,
            kind: octets[0] & 0xf,
            code: octets[1],
            has_length: octets[2] >> 7 & 1 == 1,
            has_ddp: octets[2] >> 6 & 1 == 1,
            has_request: octets[2] >> 5 & 1 == 1,
        };
        Ok((word, &octets[4..]))
    }

    /// The word's 4 octets.
    #[tactic(auto, unfolding(crate::specs::Payload::word_octets))]
    pub fn write(&self) -> ArrayVec<u8, 28>
        requires layer { self.now.layer < 16 }
        requires kind { self.now.kind < 16 }
        ensures { result.items ≡ word_octets self.now }
    {
        let mut out = ArrayVec::new();
        out.push(self.layer * 16 + self.kind);
        out.push(self.code);
        out.push(flags_octet(self.has_length, self.has_ddp, self.has_request));
        out.push(0);
        out
    }

    /// The fault that the word carries.
    pub fn fault(&self) -> Fault
        ensures { result ≡ record { layer = self.now.layer; kind = self.now.kind; code = self.now.code } }
    {
        Fault {
            layer: self.layer,
            kind: self.kind,
            code: self.code,
        }
    }
}
