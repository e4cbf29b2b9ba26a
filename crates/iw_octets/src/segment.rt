ghost use Rattle.std.specs.Prelude.{◌≡◌};
ghost use Rattle.iw_octets.specs.Segment.{read_segment};
ghost use Rattle.iw_octets.specs.ShownSegment.{shown_segment};

use crate::head::{Short, TaggedHead, UntaggedHead, is_tagged};

/// A header and its payload: what one FPDU carries (RFC 5041 4).
#[derive(Clone, Copy, Debug, PartialEq)]
pub enum Segment<P> {
    Tagged(TaggedHead, P),
    Untagged(UntaggedHead, P),
}

impl<'a> Segment<&'a [u8]> {
    /// Reads a segment; its payload is borrowed from the octets.
    /// `Short` if there are no octets, fewer than 14 with the tagged flag set, or fewer than 18 without it.
    #[tactic(auto, unfolding(crate::specs::Segment::read_segment))]
    #[inline(always)]
    pub fn read(octets: &'a [u8]) -> Result<Segment<&'a [u8]>, Short>
        ensures { shown_segment result ≡ read_segment octets.now }
    {
        if octets.is_empty() {
            return Err(Short);
        }
        if is_tagged(octets[0]) {
            match TaggedHead::read(octets) {
                Ok((head, payload)) => Ok(Segment::Tagged(head, payload)),
                Err(short) => Err(short),
            }
        } else {
            match UntaggedHead::read(octets) {
                Ok((head, payload)) => Ok(Segment::Untagged(head, payload)),
                Err(short) => Err(short),
            }
        }
    }
}
