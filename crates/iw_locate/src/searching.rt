ghost use Rattle.std.specs.Prelude.{◌≡◌, ◌<◌, ◌≤◌, ◌+◌, ◌%◌, ◌^◌, ℕ, true, false, MatchBool, MatchOption};
ghost use Rattle.std.specs.List.{Contains};
ghost use Rattle.iw_ranges.specs.Arrived.{IsHere, cell_at, has_come};
ghost use Rattle.iw_fpdu.specs.Frame.{frame_end};
ghost use Rattle.iw_fpdu.specs.Places.{IsStart};
ghost use Rattle.iw_fpdu.specs.Reading.{length_at, pointer_at};
ghost use Rattle.iw_fpdu.specs.Found.{octet_in};
ghost use Rattle.iw_locate.specs.declared.judged.Record.{Record};
ghost use Rattle.iw_locate.specs.Free.{scene_of, point_of, front_of, IsOpen, CanLocate};
ghost use Rattle.iw_locate.specs.Free.{IsMarkerSeen, PointsTo, EndsBefore, IsFound};
ghost use Rattle.iw_locate.specs.Next.{frame_at};
ghost use Rattle.iw_locate.specs.Among.{IsWithin, IsLowestAmong, lower_of};
ghost use Rattle.iw_locate.specs.Among.{IsPointedWithin, IsPastWithin, IsFoundWithin};

use crate::frame::Frame;
use crate::judged::Judged;
use crate::locator::Locator;
use iw_fpdu::{MARKER, SPACING, all_came, span_of};
use iw_ranges::Islands;
use std::alloc::Allocator;

impl Locator {
    /// The frame at the lowest free place from `low` up to `high`. No marker from `end` on points to a lower one than `high`.
    pub(crate) fn lowest_in<T, A: Allocator, B: Allocator>(
        &self,
        islands: &Islands<A>,
        judged: &Judged<T, B>,
        point: u64,
        low: u64,
        high: u64,
        end: u64,
    ) -> Option<Frame>
        requires can { CanLocate (scene_of self.now.layout self.now.base islands.now.arrived judged.now.records) }
        requires point { point ≡ point_of (scene_of self.now.layout self.now.base islands.now.arrived judged.now.records) }
        requires markers { self.now.layout.markers ≡ true }
        requires high { high ≤ 2 ^ 63 }
        requires end { let v = scene_of self.now.layout self.now.base islands.now.arrived judged.now.records in
            (p s : ℕ) → IsMarkerSeen v p → PointsTo v p s → s < high → p < end }
        requires near { end ≤ 2 ^ 62 + 262144 }
        ensures { let v = scene_of self.now.layout self.now.base islands.now.arrived judged.now.records in IsLowestAmong (IsFoundWithin v low high) v result }
    {
        let past = self.lowest_past(islands, judged, point, low, high);
        let below = start_or(past, high);
        let pointed = self.lowest_pointed(islands, judged, point, low, below, end);
        lower(pointed, past)
    }

    /// The lowest frame from `low` up to `high` that begins where one with a record ends.
    fn lowest_past<T, A: Allocator, B: Allocator>(
        &self,
        islands: &Islands<A>,
        judged: &Judged<T, B>,
        point: u64,
        low: u64,
        high: u64,
    ) -> Option<Frame>
        requires can { CanLocate (scene_of self.now.layout self.now.base islands.now.arrived judged.now.records) }
        requires point { point ≡ point_of (scene_of self.now.layout self.now.base islands.now.arrived judged.now.records) }
        requires markers { self.now.layout.markers ≡ true }
        ensures { let v = scene_of self.now.layout self.now.base islands.now.arrived judged.now.records in IsLowestAmong (IsPastWithin v low high) v result }
    {
        if judged.ends_past(high) {
            return None;
        }
        let count = judged.len();
        let mut index = judged.first_past(low.saturating_sub(MARKER + 1));
        'ends: while index < count {
            let end = judged.end_at(index);
            if high <= end {
                return None;
            }
            if let Some(frame) = self.past_end(islands, judged, point, end, low, high) {
                return Some(frame);
            }
            index += 1;
        }
        None
    }

    /// The lowest frame from `low` up to `high` to which a marker points, none from `end` on.
    fn lowest_pointed<T, A: Allocator, B: Allocator>(
        &self,
        islands: &Islands<A>,
        judged: &Judged<T, B>,
        point: u64,
        low: u64,
        high: u64,
        end: u64,
    ) -> Option<Frame>
        requires can { CanLocate (scene_of self.now.layout self.now.base islands.now.arrived judged.now.records) }
        requires point { point ≡ point_of (scene_of self.now.layout self.now.base islands.now.arrived judged.now.records) }
        requires markers { self.now.layout.markers ≡ true }
        requires high { high ≤ 2 ^ 63 }
        requires end { let v = scene_of self.now.layout self.now.base islands.now.arrived judged.now.records in
            (p s : ℕ) → IsMarkerSeen v p → PointsTo v p s → s < high → p < end }
        requires near { end ≤ 2 ^ 62 + 262144 }
        ensures { let v = scene_of self.now.layout self.now.base islands.now.arrived judged.now.records in IsLowestAmong (IsPointedWithin v low high) v result }
    {
        if high <= low {
            return None;
        }
        islands.limits();
        let mut place = round_up(low.saturating_sub(MARKER).max(point));
        let mut lowest = None;
        'markers: while place < end {
            let pointed = self.pointed_by(islands, judged, point, place, low, high);
            lowest = lower(lowest, pointed);
            if begins_at(lowest, low) {
                return lowest;
            }
            place += SPACING;
        }
        lowest
    }

    /// The frame from `low` up to `high` to which the marker at `place` points.
    #[inline(always)]
    pub(crate) fn pointed_by<T, A: Allocator, B: Allocator>(
        &self,
        islands: &Islands<A>,
        judged: &Judged<T, B>,
        point: u64,
        place: u64,
        low: u64,
        high: u64,
    ) -> Option<Frame>
        requires can { CanLocate (scene_of self.now.layout self.now.base islands.now.arrived judged.now.records) }
        requires point { point ≡ point_of (scene_of self.now.layout self.now.base islands.now.arrived judged.now.records) }
        requires markers { self.now.layout.markers ≡ true }
        requires marker { place % 512 ≡ 0 }
        requires past { point ≤ place }
        requires low { place < 2 ^ 63 }
        ensures { let v = scene_of self.now.layout self.now.base islands.now.arrived judged.now.records in
            IsLowestAmong (λ s. IsWithin low high s × IsMarkerSeen v place × PointsTo v place s) v result }
    {
        let back = pointer(islands, self.base, place);
        if place < back {
            return None;
        }
        let start = pointed_from(place, back);
        if start < low || high <= start || start % SPACING < MARKER {
            return None;
        }
        self.seen_at(islands, judged, point, place, start)
    }

    /// The frame at `start`, where it can be judged early and the marker at `place` is seen. A frame of which octets lack is
    /// told before the marker is looked at.
    #[inline(never)]
    fn seen_at<T, A: Allocator, B: Allocator>(
        &self,
        islands: &Islands<A>,
        judged: &Judged<T, B>,
        point: u64,
        place: u64,
        start: u64,
    ) -> Option<Frame>
        requires can { CanLocate (scene_of self.now.layout self.now.base islands.now.arrived judged.now.records) }
        requires point { point ≡ point_of (scene_of self.now.layout self.now.base islands.now.arrived judged.now.records) }
        requires markers { self.now.layout.markers ≡ true }
        requires marker { place % 512 ≡ 0 }
        requires low { place < 2 ^ 63 }
        requires near { start < 2 ^ 63 }
        requires start { IsStart self.now.layout.markers start }
        ensures { let v = scene_of self.now.layout self.now.base islands.now.arrived judged.now.records in
            MatchOption result (IsMarkerSeen v place → IsOpen v start → ⊥) (λ f. (f ≡ frame_at v start true) × IsMarkerSeen v place × IsOpen v start) }
    {
        let len = length(islands, self.base, start);
        let end = self.layout.end_of(start, len);
        if !all_came(islands, self.base, start, end) {
            return None;
        }
        if !did_come_too(islands, self.base, place, place + MARKER, start, end) {
            return None;
        }
        if judged.overlaps_placed(place, place + MARKER) {
            return None;
        }
        self.open_to(islands, judged, point, start, len, end)
    }

    /// The frame from `low` up to `high` that begins where one ends.
    fn past_end<T, A: Allocator, B: Allocator>(
        &self,
        islands: &Islands<A>,
        judged: &Judged<T, B>,
        point: u64,
        end: u64,
        low: u64,
        high: u64,
    ) -> Option<Frame>
        requires can { CanLocate (scene_of self.now.layout self.now.base islands.now.arrived judged.now.records) }
        requires point { point ≡ point_of (scene_of self.now.layout self.now.base islands.now.arrived judged.now.records) }
        requires markers { self.now.layout.markers ≡ true }
        ensures { let v = scene_of self.now.layout self.now.base islands.now.arrived judged.now.records in
            IsLowestAmong (λ s. IsWithin low high s × EndsBefore end s) v result }
    {
        islands.limits();
        if end >= 1 << 63 {
            return None;
        }
        let start = start_past(end);
        if start < low || high <= start {
            return None;
        }
        self.open_at(islands, judged, point, start)
    }

    /// The frame at `start`, where it can be judged early.
    pub(crate) fn open_at<T, A: Allocator, B: Allocator>(
        &self,
        islands: &Islands<A>,
        judged: &Judged<T, B>,
        point: u64,
        start: u64,
    ) -> Option<Frame>
        requires can { CanLocate (scene_of self.now.layout self.now.base islands.now.arrived judged.now.records) }
        requires point { point ≡ point_of (scene_of self.now.layout self.now.base islands.now.arrived judged.now.records) }
        requires markers { self.now.layout.markers ≡ true }
        ensures { let v = scene_of self.now.layout self.now.base islands.now.arrived judged.now.records in
            MatchOption result (IsOpen v start → ⊥) (λ f. (f ≡ frame_at v start true) × IsOpen v start) }
    {
        islands.limits();
        if start >= 1 << 63 || start % 4 != 0 || start % SPACING < MARKER {
            return None;
        }
        let len = length(islands, self.base, start);
        let end = self.layout.end_of(start, len);
        if !all_came(islands, self.base, start, end) {
            return None;
        }
        self.open_to(islands, judged, point, start, len, end)
    }

    /// The frame at `start`, where it can be judged early: its octets up to `end` came, which its length, `len`, says where it
    /// was not given up.
    #[inline(always)]
    fn open_to<T, A: Allocator, B: Allocator>(
        &self,
        islands: &Islands<A>,
        judged: &Judged<T, B>,
        point: u64,
        start: u64,
        len: u16,
        end: u64,
    ) -> Option<Frame>
        requires can { CanLocate (scene_of self.now.layout self.now.base islands.now.arrived judged.now.records) }
        requires point { point ≡ point_of (scene_of self.now.layout self.now.base islands.now.arrived judged.now.records) }
        requires markers { self.now.layout.markers ≡ true }
        requires low { start < 2 ^ 63 }
        requires start { IsStart self.now.layout.markers start }
        requires len { IsHere (cell_at islands.now.arrived (self.now.base + start)) → IsHere (cell_at islands.now.arrived (self.now.base + (start + 1)))
            → len ≡ length_at (octet_in islands.now.arrived self.now.base) start }
        requires end { end ≡ frame_end self.now.layout.markers start len }
        requires came { (p : ℕ) → start ≤ p → p < end → has_come islands.now.arrived (self.now.base + p) ≡ true }
        requires fits { self.now.base + end < 2 ^ 64 }
        ensures { let v = scene_of self.now.layout self.now.base islands.now.arrived judged.now.records in
            MatchOption result (IsOpen v start → ⊥) (λ f. (f ≡ frame_at v start true) × IsOpen v start) }
    {
        let span = span_of(true, start);
        if span <= point {
            return None;
        }
        let clear = judged.clear_to(start);
        if clear < start + 2 {
            return None;
        }
        if clear < end {
            return None;
        }
        if !did_marker_come(islands, self.base, span, start) {
            return None;
        }
        Some(Frame {
            start,
            length: len,
            end,
            early: true,
        })
    }
}

/// Whether all octets from `from` up to `to` came, where those from `start` up to `end` did.
#[inline(always)]
fn did_come_too<A: Allocator>(
    islands: &Islands<A>,
    base: u64,
    from: u64,
    to: u64,
    start: u64,
    end: u64,
) -> bool
    requires some { from < to }
    requires came { (p : ℕ) → start ≤ p → p < end → has_come islands.now.arrived (base + p) ≡ true }
    requires fits { base + from < 2 ^ 64 }
    ensures { MatchBool result ((p : ℕ) → from ≤ p → p < to → has_come islands.now.arrived (base + p) ≡ true)
        ((p : ℕ) × (from ≤ p) × (p < to) × (has_come islands.now.arrived (base + p) ≡ false)) }
{
    if start <= from && to <= end {
        return true;
    }
    all_came(islands, base, from, to)
}

/// Whether the octets came from where a frame's span begins, at `span`, up to where the frame begins, at `start`.
#[inline(always)]
fn did_marker_come<A: Allocator>(islands: &Islands<A>, base: u64, span: u64, start: u64) -> bool
    requires low { span ≤ start }
    requires fits { base + start < 2 ^ 64 }
    ensures { MatchBool result ((p : ℕ) → span ≤ p → p < start → has_come islands.now.arrived (base + p) ≡ true)
        ((p : ℕ) × (span ≤ p) × (p < start) × (has_come islands.now.arrived (base + p) ≡ false)) }
{
    if span == start {
        return true;
    }
    all_came(islands, base, span, start)
}

/// How far back the marker at frame place `place` points, where it came and was not given up.
#[inline]
pub(crate) fn pointer<A: Allocator>(islands: &Islands<A>, base: u64, place: u64) -> u64
    requires fits { base + place + 4 < 2 ^ 64 }
    ensures value { IsHere (cell_at islands.now.arrived (base + (place + 2))) → IsHere (cell_at islands.now.arrived (base + (place + 3)))
        → result ≡ pointer_at (octet_in islands.now.arrived base) place }
    ensures small { result < 2 ^ 16 }
    ensures aligned { result % 4 ≡ 0 }
{
    let at = base + place;
    u64::from(u16::from_be_bytes([islands.peek(at + 2), islands.peek(at + 3)])) / 4 * 4
}

/// The length of the ULPDU in the frame that begins at `start`, where it came and was not given up.
#[inline(always)]
fn length<A: Allocator>(islands: &Islands<A>, base: u64, start: u64) -> u16
    requires fits { base + start + 2 < 2 ^ 64 }
    ensures { IsHere (cell_at islands.now.arrived (base + start)) → IsHere (cell_at islands.now.arrived (base + (start + 1)))
        → result ≡ length_at (octet_in islands.now.arrived base) start }
{
    let at = base + start;
    u16::from_be_bytes([islands.peek(at), islands.peek(at + 1)])
}

/// Where the marker at `place` points that says `back`.
fn pointed_from(place: u64, back: u64) -> u64
    requires within { back ≤ place }
    requires low { place < 2 ^ 63 }
    ensures none { back ≡ 0 → result ≡ place + 4 }
    ensures some { 0 < back → result + back ≡ place }
{
    if back == 0 {
        place + MARKER
    } else {
        place - back
    }
}

/// Where the next frame begins past one that ends at `end`: there, or past the marker there.
pub(crate) fn start_past(end: u64) -> u64
    requires { end < 2 ^ 63 }
    ensures ends { EndsBefore end result }
    ensures only { (s : ℕ) → EndsBefore end s → 4 ≤ s % 512 → s ≡ result }
{
    if end % SPACING == 0 {
        end + MARKER
    } else {
        end
    }
}

/// The lower of two frames.
fn lower(a: Option<Frame>, b: Option<Frame>) -> Option<Frame>
    ensures { result ≡ lower_of a b }
{
    match a {
        None => b,
        Some(f) => match b {
            None => Some(f),
            Some(g) => { if g.start < f.start { Some(g) } else { Some(f) } }
        },
    }
}

/// Where a frame begins, or `high` where there is none.
pub(crate) fn start_or(frame: Option<Frame>, high: u64) -> u64
    ensures { MatchOption frame (result ≡ high) (λ f. result ≡ f.start) }
{
    match frame {
        Some(frame) => frame.start,
        None => high,
    }
}

/// Whether there is a frame, and it begins at `low`.
fn begins_at(frame: Option<Frame>, low: u64) -> bool
    ensures { MatchBool result (MatchOption frame ⊥ (λ f. f.start ≡ low)) (Unit {0}) }
{
    match frame {
        Some(frame) => frame.start == low,
        None => false,
    }
}

/// The first place from `place` on where a frame may begin, or any before it.
pub(crate) fn first_start(place: u64) -> u64
    requires { place ≤ 2 ^ 63 }
    ensures { (s : ℕ) → IsStart true s → place ≤ s → result ≤ s }
{
    let aligned = place.div_ceil(4) * 4;
    if aligned % SPACING == 0 {
        aligned + MARKER
    } else {
        aligned
    }
}

/// The first place from `place` on where a marker stands.
pub(crate) fn round_up(place: u64) -> u64
    requires { place ≤ 2 ^ 63 }
    ensures marker { result % 512 ≡ 0 }
    ensures low { place ≤ result }
    ensures near { result < place + 512 }
{
    place.div_ceil(SPACING) * SPACING
}
