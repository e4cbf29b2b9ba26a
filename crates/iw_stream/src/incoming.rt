//! The octets that came, the in-order point, and the records of frames that were judged early.
ghost use Rattle.std.specs.Prelude.{◌≡◌, ◌+◌, ◌-◌, ◌<◌, ◌≤◌, ◌^◌, ◌⊎◌, ℕ, [], length, true};
ghost use Rattle.std.specs.Prelude.{IfOk, IfSome, OnOk, OnErr, IsTrue, MatchOption, Some, None};
ghost use Rattle.std.specs.Option.{option_map};
ghost use Rattle.iw_ranges.specs.Arrived.{Missing, cell_at, has_come, IsWithinLimits};
ghost use Rattle.iw_ranges.specs.Arrived.{delivery, delivered, advanced, emptied, BringsOctets};
ghost use Rattle.iw_fpdu.specs.Places.{frame_start, span_start};
ghost use Rattle.iw_fpdu.specs.Found.{HoldsSpan, IsKept};
ghost use Rattle.iw_fpdu.specs.Laws.{IsBetween, found_at};
ghost use Rattle.iw_locate.specs.Records.{AreApart, max_records, added, kept_from};
ghost use Rattle.iw_locate.specs.Free.{scene_of};
ghost use Rattle.iw_locate.specs.Next.{IsNext, IsFrontWhole};
ghost use Rattle.iw_locate.specs.Lowest.{overlaps_placed, early_place};
ghost use Rattle.iw_locate.specs.Keeping.{IsFrontUnplaced, IsPassed, record_of};
ghost use Rattle.iw_locate.specs.Unsearched.{IsFollowed};
ghost use Rattle.iw_stream.specs.Incoming.{IsClearAt};
ghost use Rattle.iw_stream.specs.Frames.{IsNext as IsNextFrame, frame_at, frame_by, placed_at, without};

mod lending;
mod reading;

use crate::landing::{Header, PlacedFrame, copy_of};
use iw_fpdu::{Fpdu, Layout, span_of};
use iw_locate::{Frame, Judged, Locator, Next, RecordRefusal, State, Unsearched};
use iw_ranges::{Delivery, Islands};
use std::alloc::{AllocError, Allocator};
use std::marker::Model;

/// What came from the peer, from the in-order point on, and the frames among it that were judged before their turn.
#[derive(Drop)]
pub(crate) struct Incoming<A: Allocator> {
    islands: Islands<A>,
    judged: Judged<Header, A>,
    // What must be searched for a frame that can be judged early.
    unsearched: Unsearched,
    // How the peer's frames are laid out, and where the first of them begins.
    locator: Locator,
}

impl<A: Allocator> Model for Incoming<A> {
    ghost use Rattle.iw_stream.specs.Incoming.{Coming, IsTracked, coming_of};

    ghost Value = { Coming };

    ghost view = { λ i. coming_of i };

    ghost invariant = { λ i. IsTracked (coming_of i) };
}

impl<A: Allocator> Incoming<A> {
    ghost use Rattle.iw_stream.specs.Incoming.{scene_in, IsTracked, IsBegun, IsSameStart, IsSameScene};

    /// Nothing came; frames begin at place 0.
    pub(crate) fn new(alloc: A, layout: Layout) -> Result<Incoming<A>, AllocError>
    where
        A: Copy,
        ensures { IfOk result (λ incoming. IsBegun incoming layout) }
    {
        let islands = Islands::new(alloc)?;
        Ok(Incoming {
            islands,
            judged: Judged::new(alloc),
            unsearched: Unsearched::nothing(),
            locator: Locator::new(layout, 0),
        })
    }

    /// What came, octet by octet.
    #[inline(always)]
    pub(crate) fn islands(&self) -> &Islands<A>
        ensures { result.now.arrived ≡ self.now.arrived }
    {
        &self.islands
    }

    /// For the prover alone: it does nothing. Its clauses state what always holds of what came, and of the records.
    #[inline(always)]
    pub(crate) fn limits(&self)
        ensures arrived { IsWithinLimits self.now.arrived }
        ensures few { length self.now.early ≤ max_records }
        ensures apart { AreApart self.now.early }
        ensures tracked { IsTracked self.now }
    {
        self.islands.limits();
        self.judged.limits();
    }

    /// The in-order point.
    #[inline(always)]
    pub(crate) fn floor(&self) -> u64
        ensures { result ≡ self.now.arrived.floor }
    {
        self.islands.floor()
    }

    /// The first place from the in-order point on that hasn't come.
    #[inline(always)]
    pub(crate) fn missing(&self) -> u64
        ensures come { (p : ℕ) → p < result → has_come self.now.arrived p ≡ true }
        ensures missing { cell_at self.now.arrived result ≡ Missing }
    {
        self.islands.missing()
    }

    /// How many frames were judged early.
    pub(crate) fn records(&self) -> usize
        ensures { result ≡ length self.now.early }
    {
        self.judged.len()
    }

    // Whether the `n` octets from `place` on came before. The first that hasn't come is not looked up.
    #[inline(always)]
    fn has_come(&self, place: u64, n: usize) -> bool
        ensures { IsTrue result → (p : ℕ) → place ≤ p → p < place + n → p + 1 < 2 ^ 64 → has_come self.now.arrived p ≡ true }
    {
        place != self.islands.missing() && self.islands.came(place, place.saturating_add(n as u64))
    }

    /// Takes in octets that came, or drops them, as [`Islands::add`] does. If all of them came before, nothing need be searched
    /// again.
    pub(crate) fn add(&mut self, place: u64, octets: &[u8]) -> Result<Delivery, AllocError>
        ensures answer { IfOk result (λ answer. answer ≡ delivery self.old.arrived place (length octets.now)) }
        ensures ok { OnOk result (self.new.arrived ≡ delivered self.old.arrived place octets.now) }
        ensures err { OnErr result (self.new.arrived ≡ self.old.arrived) }
        ensures memory { OnErr result (BringsOctets self.old.arrived place (length octets.now)) }
        ensures early { self.new.early ≡ self.old.early }
        ensures same { IsSameStart self.old self.new }
    {
        self.islands.limits();
        let came = self.has_come(place, octets.len());
        match self.islands.add(place, octets) {
            Ok(Delivery::Kept) => {
                if came {
                    return Ok(Delivery::Kept);
                }
                let from = place.saturating_sub(self.locator.base);
                let to = (place + octets.len() as u64).saturating_sub(self.locator.base);
                self.unsearched.delivered(from, to);
                Ok(Delivery::Kept)
            }
            Ok(Delivery::Dropped) => Ok(Delivery::Dropped),
            Err(error) => Err(error),
        }
    }

    /// The peer's start-up frame ends at `place`, and its frames begin there, with this layout.
    pub(crate) fn begin(&mut self, layout: Layout, place: u64)
        requires none { self.old.early ≡ [] }
        requires first { self.old.arrived.floor ≡ 0 }
        requires come { (p : ℕ) → p < place → has_come self.old.arrived p ≡ true }
        requires near { place ≤ 2 ^ 63 }
        ensures arrived { self.new.arrived ≡ advanced self.old.arrived place }
        ensures early { self.new.early ≡ [] }
        ensures layout { self.new.layout ≡ layout }
        ensures base { self.new.base ≡ place }
    {
        self.islands.advance(place);
        self.unsearched.start_up_ended(place);
        self.locator = Locator::new(layout, place);
    }

    /// Both ends agreed that the peer's frames have this layout; none of them had its turn.
    pub(crate) fn lay_out(&mut self, layout: Layout)
        requires none { self.old.early ≡ [] }
        requires first { self.old.arrived.floor ≡ self.old.base }
        ensures arrived { self.new.arrived ≡ self.old.arrived }
        ensures early { self.new.early ≡ [] }
        ensures layout { self.new.layout ≡ layout }
        ensures base { self.new.base ≡ self.old.base }
    {
        // The frames begin where octets are counted from: no start-up frame stands before them.
        self.unsearched.start_up_ended(0);
        self.locator.layout = layout;
    }

    /// Moves the in-order point on to `place`, where the frame there ends, and drops the records of the frames before it.
    #[inline(always)]
    pub(crate) fn advance(&mut self, place: u64)
        requires passed { IsPassed (scene_in self.old) place }
        requires near { place ≤ 2 ^ 63 }
        ensures arrived { self.new.arrived ≡ advanced self.old.arrived place }
        ensures early { self.new.early ≡ kept_from (place - self.old.base) self.old.early }
        ensures same { IsSameStart self.old self.new }
    {
        let frame_place = place - self.locator.base;
        self.unsearched.passed(&self.judged, frame_place);
        self.islands.advance(place);
        self.judged.drop_to(frame_place);
    }

    /// Gives up what came from the in-order point on, and the records, and gives back their memory.
    pub(crate) fn give_up(&mut self)
        ensures arrived { self.new.arrived ≡ emptied self.old.arrived }
        ensures early { self.new.early ≡ [] }
        ensures same { IsSameStart self.old self.new }
    {
        let point = self.islands.floor() - self.locator.base;
        self.islands.give_up();
        self.judged.give_up();
        self.unsearched.gave_up(point);
    }

    /// What is kept of the frame that begins at frame place `start`, if it was placed early.
    pub(crate) fn placed_at(&self, start: u64) -> Option<PlacedFrame>
        ensures { result ≡ placed_at self.now.early start }
    {
        self.judged.limits();
        match self.judged.at(start) {
            None => None,
            Some(record) => match &record.state {
                State::Tried => None,
                State::Placed(header) => Some(PlacedFrame {
                    header: copy_of(header),
                    start: record.start,
                    len: record.length,
                }),
            },
        }
    }

    /// Whether the frame from frame place `start` to `end` lies over one that was placed early.
    pub(crate) fn overlaps_placed(&self, start: u64, end: u64) -> bool
        ensures { result ≡ overlaps_placed self.now.early start end }
    {
        self.judged.overlaps_placed(start, end)
    }

    /// Whether it is clear without a search that no frame can be judged early. `false` is always a right answer: it only costs
    /// time.
    #[inline(always)]
    pub(crate) fn is_quiet(&self) -> bool
        requires low { self.now.arrived.floor ≤ 2 ^ 62 }
        requires turn { IsFrontUnplaced (scene_in self.now) }
        ensures { IsTrue result → early_place (scene_in self.now) ≡ None }
    {
        self.locator
            .is_quiet(&self.islands, &self.judged, &self.unsearched)
    }

    /// The frame at the lowest place where one can be judged early, if the frame at the in-order point is not whole.
    pub(crate) fn next_early(&mut self) -> Option<Frame>
        requires low { self.old.arrived.floor ≤ 2 ^ 62 }
        requires turn { IsFrontUnplaced (scene_in self.old) }
        requires lacking { IsFrontWhole (scene_in self.old) → ⊥ }
        ensures found { option_map (λ f. f.start) result ≡ early_place (scene_in self.old) }
        ensures next { IfSome result (λ f. IsNext (scene_in self.new) (Next.Frame f) × (f.early ≡ true) × IsFollowed self.new.unsearched f) }
        ensures few { IfSome result (λ f. length self.new.early < max_records) }
        ensures near { IfSome result (λ f. self.old.base + f.start < 2 ^ 63) }
        ensures same { IsSameScene self.old self.new }
    {
        self.islands.limits();
        self.locator
            .early_since(&self.islands, &self.judged, &mut self.unsearched)
    }

    /// Makes room for one record and one release. An `Err` means out of memory, and comes only if there is no room for one of
    /// them.
    pub(crate) fn ready(&mut self) -> Result<(), AllocError>
        requires { length self.old.early < max_records }
        ensures room { OnOk result (0 < self.new.room) }
        ensures releases { OnOk result (0 < self.new.releases) }
        ensures wants { OnErr result ((self.old.room ≡ 0) ⊎ (self.old.releases ≡ 0)) }
        ensures same { IsSameScene self.old self.new }
        ensures unsearched { self.new.unsearched ≡ self.old.unsearched }
    {
        self.islands.ready()?;
        match self.judged.ready() {
            Ok(()) => Ok(()),
            Err(_) => Err(AllocError),
        }
    }

    /// The frame that was found to be the one that can be judged early.
    pub(crate) fn read_early(&self, frame: &Frame) -> Fpdu<'_, A>
        requires low { self.now.arrived.floor ≤ 2 ^ 62 }
        requires next { IsNext (scene_in self.now) (Next.Frame frame.now) }
        requires early { frame.now.early ≡ true }
        ensures found { result ≡ found_at self.now.arrived self.now.layout self.now.base frame.now.start }
        ensures holds { HoldsSpan result }
    {
        self.islands.limits();
        let Locator { layout, base } = self.locator;
        Fpdu::found(
            layout,
            base,
            frame.start,
            frame.length,
            frame.end,
            &self.islands,
        )
    }

    /// Adds the record of the frame that can be judged early. If it was placed, its octets are given up: its record has what
    /// its turn needs. This takes the room that one `ready` made.
    pub(crate) fn keep(&mut self, frame: Frame, state: State<Header>)
        requires room { 0 < self.old.room }
        requires releases { 0 < self.old.releases }
        requires few { length self.old.early < max_records }
        requires next { IsNext (scene_in self.old) (Next.Frame frame) }
        requires early { frame.early ≡ true }
        requires followed { IsFollowed self.old.unsearched frame }
        ensures early { self.new.early ≡ added self.old.early (record_of frame state) }
        ensures arrived { self.new.arrived ≡ without self.old.base self.old.arrived (record_of frame state) state }
        ensures same { IsSameStart self.old self.new }
    {
        self.add_record(frame, state);
        self.pass_judged();
    }

    /// No frame need be searched for among those with a record. Leaving what must be searched as it is would only cost time.
    #[inline(always)]
    fn pass_judged(&mut self)
        ensures same { IsSameScene self.old self.new }
    {
        self.unsearched.pass_judged(&self.judged);
    }

    /// The same; what must be searched begins where the frame ends, though a frame with a record may begin there.
    #[inline(always)]
    fn add_record(&mut self, frame: Frame, state: State<Header>)
        requires room { 0 < self.old.room }
        requires releases { 0 < self.old.releases }
        requires few { length self.old.early < max_records }
        requires next { IsNext (scene_in self.old) (Next.Frame frame) }
        requires early { frame.early ≡ true }
        requires followed { IsFollowed self.old.unsearched frame }
        ensures early { self.new.early ≡ added self.old.early (record_of frame state) }
        ensures arrived { self.new.arrived ≡ without self.old.base self.old.arrived (record_of frame state) state }
        ensures same { IsSameStart self.old self.new }
    {
        self.islands.limits();
        self.unsearched.recorded(&frame);
        match state {
            State::Tried => self.judged.add(frame, State::Tried),
            State::Placed(header) => {
                self.judged.add(frame, State::Placed(header));
                let Locator { base, .. } = self.locator;
                self.islands
                    .release(base + span_of(true, frame.start), base + frame.end);
            }
        }
    }

    /// The header that is kept of the frame that begins at frame place `start`, and the length of its ULPDU, if it was placed
    /// early.
    #[inline(always)]
    pub(crate) fn placed_header(&self, start: u64) -> Option<(&Header, u16)>
        ensures { MatchOption result (placed_at self.now.early start ≡ None)
            (λ kept. placed_at self.now.early start ≡ Some (record { header = kept.0.now; start = start; len = kept.1 })) }
    {
        self.judged.limits();
        match self.judged.at(start) {
            None => None,
            Some(record) => match &record.state {
                State::Tried => None,
                State::Placed(header) => Some((header, record.length)),
            },
        }
    }
}

/// The frame that begins at frame place `start`, which is the in-order point, if it is whole; frame place 0 is place `base`
/// of the stream.
#[inline(always)]
pub(crate) fn frame_at<'a, A: Allocator>(
    layout: Layout,
    arrived: &'a Incoming<A>,
    base: u64,
    start: u64,
) -> Option<Fpdu<'a, A>>
    requires beyond { base ≤ arrived.now.arrived.floor }
    requires between { IsBetween layout.markers (arrived.now.arrived.floor - base) }
    requires start { start ≡ frame_start layout.markers (arrived.now.arrived.floor - base) }
    requires kept { (p : ℕ) → start ≤ p → p < start + 2 → IsKept (cell_at arrived.now.arrived (base + p)) }
    requires place { arrived.now.arrived.floor + 2 ^ 18 ≤ 2 ^ 63 }
    ensures frame { option_map frame_by result ≡ frame_at layout arrived.now.arrived base start }
    ensures next { IfSome result (λ found. IsNextFrame layout arrived.now.arrived base found) }
{
    arrived.limits();
    // Nothing of it came, as is so behind the last frame that came.
    if arrived.missing() <= base + start {
        return None;
    }
    Fpdu::read(layout, base, start, arrived.islands())
}

/// The same, if no frame that was placed early lies over it, so that none of its octets was given up.
#[inline(always)]
pub(crate) fn held_at<'a, A: Allocator>(
    layout: Layout,
    arrived: &'a Incoming<A>,
    base: u64,
    start: u64,
) -> Option<Fpdu<'a, A>>
    requires beyond { base ≤ arrived.now.arrived.floor }
    requires between { IsBetween layout.markers (arrived.now.arrived.floor - base) }
    requires start { start ≡ frame_start layout.markers (arrived.now.arrived.floor - base) }
    requires kept { (p : ℕ) → start ≤ p → p < start + 2 → IsKept (cell_at arrived.now.arrived (base + p)) }
    requires clear { IsClearAt arrived.now start }
    requires layout { layout ≡ arrived.now.layout }
    requires base { base ≡ arrived.now.base }
    requires place { arrived.now.arrived.floor + 2 ^ 18 ≤ 2 ^ 63 }
    ensures frame { option_map frame_by result ≡ frame_at layout arrived.now.arrived base start }
    ensures next { IfSome result (λ found. IsNextFrame layout arrived.now.arrived base found) }
    ensures holds { IfSome result (λ found. HoldsSpan found) }
{
    arrived.limits();
    frame_at(layout, arrived, base, start)
}
