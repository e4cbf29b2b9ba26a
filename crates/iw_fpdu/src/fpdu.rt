ghost use Rattle.std.specs.Prelude.{◌≡◌, ◌<◌, ◌≤◌, ◌+◌, ◌-◌, ◌^◌, ℕ, length, drop, true, false, MatchBool, MatchOption};
ghost use Rattle.std.specs.Bool.{OnTrue};
ghost use Rattle.std.specs.Result.{result_err};
ghost use Rattle.iw_ranges.specs.Arrived.{cell_at, has_come};
ghost use Rattle.iw_fpdu.specs.Places.{IsStart};
ghost use Rattle.iw_fpdu.specs.Reading.{end_at, length_at};
ghost use Rattle.iw_fpdu.specs.Found.{octet_in, IsWhole, LacksOctet, IsKept, HoldsSpan, ulpdu_len, ulpdu, mismatch};

use crate::check::check_span;
use crate::layout::{Layout, end_of, place_past, span_of};
use crate::pieces::Pieces;
use iw_octets::gather;
use iw_ranges::Islands;
use std::alloc::{Allocator, Global};
use std::marker::Model;
use thiserror::Error;

/// What is wrong with a frame (RFC 5044 8, errors 2 and 3).
#[derive(Clone, Copy, Debug, PartialEq, Eq, Error)]
pub enum Mismatch {
    /// The CRC field is not the CRC of the octets before it.
    #[error("the CRC does not match")]
    CrcMismatch,
    /// A marker does not point to the beginning of the frame.
    #[error("a marker does not match")]
    MarkerMismatch,
}

/// A whole frame: every octet of it came, with its markers and the marker directly before it.
#[derive(Drop)]
pub struct Fpdu<'a, A: Allocator = Global> {
    islands: &'a Islands<A>,
    layout: Layout,
    base: u64,
    start: u64,
    len: u16,
    end: u64,
}

impl<'a, A: Allocator> Model for Fpdu<'a, A> {
    ghost use Rattle.iw_fpdu.specs.Reading.{end_at};
    ghost use Rattle.iw_fpdu.specs.Found.{Found};

    ghost Value = { Found };

    ghost use Rattle.iw_fpdu.specs.Reading.{end_at};
    ghost use Rattle.iw_fpdu.specs.FoundView.{found_by, IsSound};

    ghost view = { λ a. found_by a };

    ghost invariant = { λ a. IsSound a };
}

/// Whether all octets at the frame places from `from` up to `to` came. Frame place 0 is place `base` of the stream.
#[inline(always)]
pub fn all_came<A: Allocator>(islands: &Islands<A>, base: u64, from: u64, to: u64) -> bool
    requires { from < to }
    ensures came { MatchBool result ((p : ℕ) → from ≤ p → p < to → has_come islands.now.arrived (base + p) ≡ true)
        ((p : ℕ) × (from ≤ p) × (p < to) × (has_come islands.now.arrived (base + p) ≡ false)) }
    ensures fits { OnTrue result (base + to < 2 ^ 64) }
{
    let missing = islands.missing();
    let Some(end) = base.checked_add(to) else {
        return false;
    };
    if end <= missing {
        return true;
    }
    // A part of a frame came, as most often if it is not whole.
    if end > islands.end() {
        return false;
    }
    islands.came(base + from, end)
}

impl<'a, A: Allocator> Fpdu<'a, A> {
    /// The frame that begins at frame place `start`; frame place 0 is place `base` of the stream that came into
    /// `islands`. `None` if an octet of the frame, of its markers or of the marker directly before it has not come.
    #[inline(always)]
    pub fn read(
        layout: Layout,
        base: u64,
        start: u64,
        islands: &'a Islands<A>,
    ) -> Option<Fpdu<'a, A>>
        requires low { start < 2 ^ 63 }
        requires start { IsStart layout.markers start }
        requires length_kept { (p : ℕ) → start ≤ p → p < start + 2 → IsKept (cell_at islands.now.arrived (base + p)) }
        ensures { MatchOption result (LacksOctet islands.now.arrived layout.markers base start)
            (λ found. (found ≡ record { arrived = islands.now.arrived; layout = layout; base = base; start = start })
            × IsWhole islands.now.arrived layout.markers base start) }
    {
        if !all_came(islands, base, start, start + 2) {
            return None;
        }
        let at = base + start;
        let len = u16::from_be_bytes([islands.octet(at), islands.octet(at + 1)]);
        let from = span_of(layout.markers, start);
        let to = end_of(layout.markers, start, len);
        if !all_came(islands, base, from, to) {
            return None;
        }
        Some(Fpdu {
            islands,
            layout,
            base,
            start,
            len,
            end: to,
        })
    }

    /// The frame that is known to be whole, to begin at frame place `start`, to end at frame place `end`, and to have a
    /// ULPDU of `len` octets. It is what [`read`](Fpdu::read) returns, but without looking again.
    #[inline(always)]
    pub fn found(
        layout: Layout,
        base: u64,
        start: u64,
        len: u16,
        end: u64,
        islands: &'a Islands<A>,
    ) -> Fpdu<'a, A>
        requires low { start < 2 ^ 63 }
        requires start { IsStart layout.markers start }
        requires whole { IsWhole islands.now.arrived layout.markers base start }
        requires len { len ≡ length_at (octet_in islands.now.arrived base) start }
        requires end { end ≡ end_at (octet_in islands.now.arrived base) layout.markers start }
        requires fits { base + end < 2 ^ 64 }
        ensures { result ≡ record { arrived = islands.now.arrived; layout = layout; base = base; start = start } }
    {
        Fpdu {
            islands,
            layout,
            base,
            start,
            len,
            end,
        }
    }

    /// The length of the ULPDU in octets.
    pub fn len(&self) -> usize
        ensures len { result ≡ ulpdu_len self.now }
        ensures short { result < 2 ^ 16 }
    {
        usize::from(self.len)
    }

    /// The frame place of the first octet after the frame.
    pub fn end(&self) -> u64
        ensures { result ≡ end_at (octet_in self.now.arrived self.now.base) self.now.layout.markers self.now.start }
    {
        self.end
    }

    /// The octets of the ULPDU from its octet `k` on, lent piece by piece, between the markers.
    ///
    /// No octet of the frame may have been given up.
    #[inline(always)]
    pub fn pieces(&self, k: usize) -> Pieces<'a>
        requires { HoldsSpan self.now }
        ensures { result ≡ drop k (ulpdu self.now) }
    {
        let k = k.min(usize::from(self.len));
        let markers = self.layout.markers;
        let from = place_past(markers, self.start, 2 + k as u64);
        let octets = self.islands.part(self.base + from, self.base + self.end);
        Pieces::new(octets, from, markers, usize::from(self.len) - k)
    }

    /// Copies the octets of the ULPDU from its octet `k` on to `out`, which must have as many octets. No octet of the
    /// frame may have been given up.
    pub fn copy_from(&self, k: usize, out: &mut [u8])
        requires held { HoldsSpan self.now }
        requires room { length out.old ≡ ulpdu_len self.now - k }
        ensures { out.new ≡ drop k (ulpdu self.now) }
    {
        gather(self.pieces(k), out);
    }

    /// Checks the CRC, if CRCs are used, and then the markers, if there are any. The CRC covers the octets as they
    /// came, pad and reserved octets of the markers included; these two are not checked otherwise.
    ///
    /// No octet of the frame may have been given up.
    #[tactic(auto, unfolding(crate::specs::Reading::mismatch_at))]
    #[inline(always)]
    pub fn check(&self) -> Result<(), Mismatch>
        requires { HoldsSpan self.now }
        ensures { result_err result ≡ mismatch self.now }
    {
        if !self.layout.markers && !self.layout.crc {
            return Ok(());
        }
        self.check_octets()
    }

    /// Checks a frame of any layout.
    #[inline(always)]
    fn check_octets(&self) -> Result<(), Mismatch>
        requires { HoldsSpan self.now }
        ensures { result_err result ≡ mismatch self.now }
    {
        let from = span_of(self.layout.markers, self.start);
        let octets = self.islands.part(self.base + from, self.base + self.end);
        check_span(self.layout, self.start, self.len, octets)
    }
}
