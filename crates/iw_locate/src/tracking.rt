ghost use Rattle.std.specs.Prelude.{◌≡◌, ◌<◌, ◌≤◌, ◌+◌, ◌%◌, ◌^◌, ℕ, true, false, length, MatchBool, MatchOption, IsTrue};
ghost use Rattle.iw_ranges.specs.Arrived.{has_come};
ghost use Rattle.iw_locate.specs.Free.{scene_of, point_of, octet_of, end_of, IsOpen, CanLocate};
ghost use Rattle.iw_locate.specs.Next.{CanBeEarly, IsLowest, IsNone, IsNext, frame_at};
ghost use Rattle.iw_locate.specs.Among.{IsLowestAmong, IsFoundWithin};
ghost use Rattle.iw_locate.specs.Unsearched.{Tells, IsTouched, IsFollowed, IsLeftBy, only_from};

use crate::frame::{Frame, Next};
use crate::judged::{Judged, MAX_RECORDS};
use crate::locator::Locator;
use crate::searching::{pointer, round_up, start_or, start_past};
use crate::unsearched::Unsearched;
use iw_fpdu::{MARKER, SPACING};
use iw_ranges::{Islands, WINDOW};
use std::alloc::Allocator;

/// More than any frame reaches past its first octet, or any pointer back, in octets.
const LONGEST: u64 = 66_080;

/// How far past the in-order point it is looked whether a search can be spared: over eight markers.
const NEAR: u64 = 8 * SPACING;

impl Locator {
    /// The same as [`next`](Locator::next). It looks only at what is unsearched, and leaves what still is.
    pub fn next_since<T, A: Allocator, B: Allocator>(
        &self,
        islands: &Islands<A>,
        judged: &Judged<T, B>,
        unsearched: &mut Unsearched,
    ) -> Next
        requires can { CanLocate (scene_of self.now.layout self.now.base islands.now.arrived judged.now.records) }
        requires tells { Tells (scene_of self.now.layout self.now.base islands.now.arrived judged.now.records) unsearched.old }
        ensures next { IsNext (scene_of self.now.layout self.now.base islands.now.arrived judged.now.records) result }
        ensures tells { Tells (scene_of self.now.layout self.now.base islands.now.arrived judged.now.records) unsearched.new }
        ensures followed { (f : Frame) → result ≡ Next.Frame f → f.early ≡ true → IsFollowed unsearched.new f }
    {
        match self.at_point(islands, judged) {
            Some(next) => next,
            None => match self.early_since(islands, judged, unsearched) {
                Some(frame) => Next::Frame(frame),
                None => Next::Nothing,
            },
        }
    }

    /// Whether it is plain without a search that no place is free, or that none may be taken. `false` may come at any time, and
    /// says nothing: a search that could be spared costs speed alone.
    #[inline(always)]
    pub fn is_quiet<T, A: Allocator, B: Allocator>(
        &self,
        islands: &Islands<A>,
        judged: &Judged<T, B>,
        unsearched: &Unsearched,
    ) -> bool
        requires can { CanLocate (scene_of self.now.layout self.now.base islands.now.arrived judged.now.records) }
        requires tells { Tells (scene_of self.now.layout self.now.base islands.now.arrived judged.now.records) unsearched.now }
        ensures { IsTrue result → IsNone (scene_of self.now.layout self.now.base islands.now.arrived judged.now.records) }
    {
        if !self.layout.markers || judged.len() >= MAX_RECORDS {
            return true;
        }
        let point = islands.floor() - self.base;
        if unsearched.high <= unsearched.low.max(point)
            && unsearched.to <= unsearched.from.max(point)
        {
            return true;
        }
        // Past a gap, or where frames have records, a search is likely to find a frame: to look twice would cost more than it spares.
        if judged.len() > 0 || islands.missing() < islands.end() {
            return false;
        }
        self.points_nowhere_else(islands, judged, point, unsearched.reach)
    }

    /// Whether it is plain by the markers alone, where no frame has a record: little came past the in-order point, none of it from
    /// `reach` on, and no marker there points past the frame at the point. So it is while a frame comes piece by piece.
    #[inline(never)]
    fn points_nowhere_else<T, A: Allocator, B: Allocator>(
        &self,
        islands: &Islands<A>,
        judged: &Judged<T, B>,
        point: u64,
        reach: u64,
    ) -> bool
        requires can { CanLocate (scene_of self.now.layout self.now.base islands.now.arrived judged.now.records) }
        requires point { point ≡ point_of (scene_of self.now.layout self.now.base islands.now.arrived judged.now.records) }
        requires markers { self.now.layout.markers ≡ true }
        requires none { length judged.now.records ≡ 0 }
        requires reach { (q : ℕ) → reach ≤ q → has_come islands.now.arrived (self.now.base + q) ≡ false }
        ensures { IsTrue result → IsNone (scene_of self.now.layout self.now.base islands.now.arrived judged.now.records) }
    {
        islands.limits();
        if reach > point + NEAR {
            return false;
        }
        let front = start_past(point);
        let mut place = round_up(point);
        'markers: while place < reach {
            let back = pointer(islands, self.base, place);
            if points_past(place, back, front) {
                return false;
            }
            place += SPACING;
        }
        true
    }

    /// The frame at the lowest free place, while there is room for a record, as [`next_since`](Locator::next_since) finds it where
    /// the frame at the in-order point is not whole.
    pub fn early_since<T, A: Allocator, B: Allocator>(
        &self,
        islands: &Islands<A>,
        judged: &Judged<T, B>,
        unsearched: &mut Unsearched,
    ) -> Option<Frame>
        requires can { CanLocate (scene_of self.now.layout self.now.base islands.now.arrived judged.now.records) }
        requires tells { Tells (scene_of self.now.layout self.now.base islands.now.arrived judged.now.records) unsearched.old }
        ensures next { let v = scene_of self.now.layout self.now.base islands.now.arrived judged.now.records in
            MatchOption result (IsNone v) (λ f. (f ≡ frame_at v f.start true) × CanBeEarly v × IsLowest v f.start) }
        ensures tells { Tells (scene_of self.now.layout self.now.base islands.now.arrived judged.now.records) unsearched.new }
        ensures followed { MatchOption result (Unit {0}) (λ f. IsFollowed unsearched.new f) }
    {
        if !self.layout.markers || judged.len() >= MAX_RECORDS {
            return None;
        }
        let point = islands.floor() - self.base;
        let narrowed = self.narrowed(islands, judged, point, *unsearched);
        let found = self.search(islands, judged, point, narrowed);
        *unsearched = left_after(narrowed, found);
        found
    }

    /// What is unsearched, as places where a frame may begin.
    fn narrowed<T, A: Allocator, B: Allocator>(
        &self,
        islands: &Islands<A>,
        judged: &Judged<T, B>,
        point: u64,
        unsearched: Unsearched,
    ) -> Unsearched
        requires can { CanLocate (scene_of self.now.layout self.now.base islands.now.arrived judged.now.records) }
        requires point { point ≡ point_of (scene_of self.now.layout self.now.base islands.now.arrived judged.now.records) }
        requires markers { self.now.layout.markers ≡ true }
        requires tells { Tells (scene_of self.now.layout self.now.base islands.now.arrived judged.now.records) unsearched }
        ensures tells { Tells (scene_of self.now.layout self.now.base islands.now.arrived judged.now.records) result }
        ensures none { result.to ≡ 0 }
        ensures high { result.high ≤ 2 ^ 63 }
    {
        let taken = self.taken_in(islands, judged, point, unsearched);
        let mut left = only_from(taken, taken.low.max(point + 1), taken.high);
        left.pass_judged(judged);
        left
    }

    /// What is unsearched, without octets that came since.
    fn taken_in<T, A: Allocator, B: Allocator>(
        &self,
        islands: &Islands<A>,
        judged: &Judged<T, B>,
        point: u64,
        unsearched: Unsearched,
    ) -> Unsearched
        requires can { CanLocate (scene_of self.now.layout self.now.base islands.now.arrived judged.now.records) }
        requires point { point ≡ point_of (scene_of self.now.layout self.now.base islands.now.arrived judged.now.records) }
        requires markers { self.now.layout.markers ≡ true }
        requires tells { Tells (scene_of self.now.layout self.now.base islands.now.arrived judged.now.records) unsearched }
        ensures tells { Tells (scene_of self.now.layout self.now.base islands.now.arrived judged.now.records) result }
        ensures none { result.to ≡ 0 }
        ensures high { result.high ≤ 2 ^ 63 }
    {
        islands.limits();
        let from = unsearched.from.max(point);
        let to = unsearched.to.min(point + WINDOW);
        let high = unsearched.high.min(1 << 63);
        if to <= from {
            return only_from(unsearched, unsearched.low, high);
        }
        let low = self.first_touched(islands, judged, point, from, to);
        if high <= unsearched.low {
            return only_from(unsearched, low, to + MARKER);
        }
        only_from(unsearched, low.min(unsearched.low), high.max(to + MARKER))
    }

    /// A place before which no frame begins that can be judged early and was touched by the octets that came from `from` up
    /// to `to`.
    fn first_touched<T, A: Allocator, B: Allocator>(
        &self,
        islands: &Islands<A>,
        judged: &Judged<T, B>,
        point: u64,
        from: u64,
        to: u64,
    ) -> u64
        requires can { CanLocate (scene_of self.now.layout self.now.base islands.now.arrived judged.now.records) }
        requires point { point ≡ point_of (scene_of self.now.layout self.now.base islands.now.arrived judged.now.records) }
        requires markers { self.now.layout.markers ≡ true }
        requires octets { (q : ℕ) → octet_of (scene_of self.now.layout self.now.base islands.now.arrived judged.now.records) q < 256 }
        requires from { point ≤ from }
        requires some { from < to }
        requires to { to ≤ point + 262144 }
        ensures { let v = scene_of self.now.layout self.now.base islands.now.arrived judged.now.records in
            (s : ℕ) → IsOpen v s → IsTouched v from to s → result ≤ s }
    {
        let mut low = self.first_over(islands, judged, point, from);
        let mut place = round_up(from.saturating_sub(MARKER - 1).max(point));
        'markers: while place < to {
            let pointed = self.pointed_by(islands, judged, point, place, 0, low);
            low = start_or(pointed, low);
            place += SPACING;
        }
        low
    }

    /// A place before which no frame begins that can be judged early and reaches past `from`.
    fn first_over<T, A: Allocator, B: Allocator>(
        &self,
        islands: &Islands<A>,
        judged: &Judged<T, B>,
        point: u64,
        from: u64,
    ) -> u64
        requires can { CanLocate (scene_of self.now.layout self.now.base islands.now.arrived judged.now.records) }
        requires point { point ≡ point_of (scene_of self.now.layout self.now.base islands.now.arrived judged.now.records) }
        requires markers { self.now.layout.markers ≡ true }
        requires octets { (q : ℕ) → octet_of (scene_of self.now.layout self.now.base islands.now.arrived judged.now.records) q < 256 }
        requires from { point ≤ from }
        requires near { from ≤ point + 262144 }
        ensures { let v = scene_of self.now.layout self.now.base islands.now.arrived judged.now.records in
            (s : ℕ) → IsOpen v s → from < end_of v s → result ≤ s }
    {
        judged.limits();
        let at = self.base + from;
        if point < from && !islands.came(at - 1, at) {
            return from;
        }
        let near = from.saturating_sub(LONGEST);
        match judged.last_end(from) {
            Some(end) => near.max(end),
            None => near,
        }
    }

    /// The lowest frame that can be judged early and begins at one of the places that are unsearched.
    fn search<T, A: Allocator, B: Allocator>(
        &self,
        islands: &Islands<A>,
        judged: &Judged<T, B>,
        point: u64,
        unsearched: Unsearched,
    ) -> Option<Frame>
        requires can { CanLocate (scene_of self.now.layout self.now.base islands.now.arrived judged.now.records) }
        requires point { point ≡ point_of (scene_of self.now.layout self.now.base islands.now.arrived judged.now.records) }
        requires markers { self.now.layout.markers ≡ true }
        requires tells { Tells (scene_of self.now.layout self.now.base islands.now.arrived judged.now.records) unsearched }
        requires high { unsearched.high ≤ 2 ^ 63 }
        ensures { let v = scene_of self.now.layout self.now.base islands.now.arrived judged.now.records in
            IsLowestAmong (IsFoundWithin v unsearched.low unsearched.high) v result }
    {
        let low = unsearched.low;
        let high = unsearched.high;
        if high <= low {
            return None;
        }
        if high <= low + 4 && low % 4 == 0 {
            // It is the only one.
            match self.open_at(islands, judged, point, low) {
                None => return None,
                Some(_) => {}
            }
        }
        islands.limits();
        let end = unsearched.reach.min(point + WINDOW).min(high + LONGEST);
        self.lowest_in(islands, judged, point, low, high, end)
    }
}

/// Whether the place that the marker at `place` points to, where it says `back`, lies past `front`.
#[inline(always)]
fn points_past(place: u64, back: u64, front: u64) -> bool
    requires low { place < 2 ^ 63 }
    requires near { front < 2 ^ 63 }
    requires small { back < 2 ^ 16 }
    ensures { let is_pointed = λ (s : ℕ). (back ≡ 0 → s ≡ place + 4) × (0 < back → s + back ≡ place) in
        MatchBool result ((s : ℕ) → is_pointed s → front < s) ((s : ℕ) → is_pointed s → s ≤ front) }
{
    if back == 0 {
        place + MARKER > front
    } else {
        place > front + back
    }
}

/// No octets that came since, and frames that begin from `low` up to `high`.
fn only_from(unsearched: Unsearched, low: u64, high: u64) -> Unsearched
    ensures { result ≡ only_from unsearched low high }
{
    Unsearched {
        from: 0,
        to: 0,
        low,
        high,
        ..unsearched
    }
}

/// What is unsearched once this frame was found, and once none was.
fn left_after(unsearched: Unsearched, found: Option<Frame>) -> Unsearched
    requires { MatchOption found (Unit {0}) (λ f. f.end < 2 ^ 63) }
    ensures { MatchOption found (result ≡ only_from unsearched 0 0) (λ f. IsLeftBy unsearched result f) }
{
    match found {
        Some(frame) => only_from(
            unsearched,
            frame.start,
            unsearched.high.max(start_past(frame.end) + 1),
        ),
        None => only_from(unsearched, 0, 0),
    }
}
