ghost use Rattle.std.specs.Prelude.{◌≡◌};
ghost use Rattle.iw_fpdu.specs.Reading.{end_at};
ghost use Rattle.iw_fpdu.specs.Found.{octet_in, ulpdu_len};

use iw_fpdu::Fpdu;
use std::alloc::Allocator;

/// A frame that can be judged.
#[derive(Clone, Copy, Debug, PartialEq, Eq)]
pub struct Frame {
    /// The frame place where it begins.
    pub start: u64,
    /// How many octets its ULPDU has.
    pub length: u16,
    /// The frame place where it ends: the first that isn't its own.
    pub end: u64,
    /// It isn't at the in-order point.
    pub early: bool,
}

/// Which frame can be judged next.
#[derive(Clone, Copy, Debug, PartialEq, Eq)]
pub enum Next {
    Frame(Frame),
    /// None can be.
    Nothing,
    /// The frame at the in-order point is whole, and one that was placed lies over it.
    Mismatch,
}

/// The frame that was read at `start`.
pub(crate) fn frame_of<A: Allocator>(fpdu: &Fpdu<'_, A>, start: u64, early: bool) -> Frame
    ensures { result ≡ record { start = start; length = ulpdu_len fpdu.now; end = end_at (octet_in fpdu.now.arrived fpdu.now.base) fpdu.now.layout.markers fpdu.now.start; early = early } }
{
    Frame {
        start,
        length: fpdu.len() as u16,
        end: fpdu.end(),
        early,
    }
}
