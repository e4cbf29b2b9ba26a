//! The octets of a stream that came, in whatever order they came.
//!
//! [`Islands`] takes in octets at any places of a stream, keeps the first copy of each octet that lies within a
//! window past the in-order point, and hands the octets out in order.
#![tactic(auto)]

ghost use Rattle.std.specs.Prelude.{◌≡◌, ◌<◌, ◌≤◌, ◌+◌, ◌^◌, ℕ, length, map, All};
ghost use Rattle.std.specs.Prelude.{true, false, MatchBool, IfOk, OnOk, OnErr};
ghost use Rattle.std.specs.List.{concat};
ghost use Rattle.std.specs.Iterator.{YieldsFirstBy, item_count};
ghost use Rattle.iw_ranges.specs.Arrived.{nothing, cell_at, has_come, end_of, cells_between, window, IsHere, Here, Missing};
ghost use Rattle.iw_ranges.specs.Arrived.{delivery, delivered, advanced, released, emptied, BringsOctets};
ghost use Rattle.iw_ranges.specs.Arrived.{IsWithinLimits, IsIdleWithin, max_held};

mod buffer;
mod in_place;
pub mod laws;
pub mod nearest;
mod spans;

use buffer::{fits_after, let_go, put, put_after, shorten};
use spans::{
    Span, end_of_first, first_reaching, forget, holds_all, is_before_second, is_one_too_many, join,
};
use std::alloc::{AllocError, Allocator, Global};
use std::collections::VecDeque;
use std::marker::Model;

/// How far past the in-order point an octet may lie, in octets.
pub const WINDOW: u64 = 262_144;

/// No memory could be had, and nothing changed: the call may be made again.
pub type NoMemory = AllocError;

/// What became of octets that were delivered.
#[derive(Debug, Clone, Copy, PartialEq, Eq)]
pub enum Delivery {
    /// Its octets count as come.
    Kept,
    /// It was dropped whole, and nothing changed.
    Dropped,
}

/// The octets of a stream from the in-order point on, as far as they came.
///
/// Places are counted in octets from the beginning of the stream. The in-order point is below 2^63, or is 2^63.
#[derive(Drop)]
pub struct Islands<A: Allocator = Global> {
    /// The place of the first octet of `octets`.
    base: u64,
    /// The in-order point.
    floor: u64,
    /// The first place that didn't come.
    missing: u64,
    /// The place past the last that came.
    end: u64,
    /// Octets side by side, 327,680 at most; those at places that didn't come mean nothing. They may reach past `end`.
    octets: Vec<u8, A>,
    /// The places that came, the first span from place 0 on.
    spans: VecDeque<Span, A>,
    /// The places whose octets were given up, as far as they may lie past the in-order point.
    gone: VecDeque<Span, A>,
}

impl<A: Allocator> Model for Islands<A> {
    ghost use Rattle.iw_ranges.specs.Arrived.{Held};

    ghost Value = { Held };

    ghost use Rattle.iw_ranges.specs.Fields.{held_by, fields_of, IsKept};
    ghost use Rattle.std.specs.Prelude.{vec_capacity};

    ghost view = { λ a. held_by a };

    ghost invariant = { λ a. IsKept (fields_of a) (vec_capacity a.octets) };
}

impl<A: Allocator> Islands<A> {
    /// A stream of which nothing came, its in-order point at place 0.
    pub fn new(alloc: A) -> Result<Islands<A>, NoMemory>
    where
        A: Copy,
        ensures { IfOk result (λ islands. islands.arrived ≡ nothing) }
    {
        let mut spans = VecDeque::new(alloc);
        spans.push_back(Span { from: 0, to: 0 })?;
        Ok(Islands {
            base: 0,
            floor: 0,
            missing: 0,
            end: 0,
            octets: Vec::new(alloc),
            spans,
            gone: VecDeque::new(alloc),
        })
    }

    /// Takes in octets that came, the first of them at place `place`, or drops them all.
    ///
    /// They are dropped if one of them lies 262,144 or more past the in-order point, or if there would then be more
    /// than 1,024 islands: runs of octets apart from those that came without a gap from the in-order point on.
    /// Otherwise octets before the in-order point are ignored, and of an octet that came before the first copy stays.
    /// A delivery without octets is kept at any place.
    ///
    /// `NoMemory` leaves all as it was. It comes only where the octets would be kept and one of them is new.
    #[inline]
    pub fn add(&mut self, place: u64, octets: &[u8]) -> Result<Delivery, NoMemory>
        ensures answer { IfOk result (λ answer. answer ≡ delivery self.old.arrived place (length octets.now)) }
        ensures ok { OnOk result (self.new.arrived ≡ delivered self.old.arrived place octets.now) }
        ensures err { OnErr result (self.new.arrived ≡ self.old.arrived) }
        ensures memory { OnErr result (BringsOctets self.old.arrived place (length octets.now)) }
        ensures room { self.new.room ≡ self.old.room }
    {
        if octets.is_empty() {
            return Ok(Delivery::Kept);
        }
        if is_beyond(self.floor, place, octets.len()) {
            return Ok(Delivery::Dropped);
        }
        if place == self.missing
            && place == self.end
            && fits_after(&self.octets, self.base, place, octets)
        {
            put_after(&mut self.octets, self.base, &mut self.spans, place, octets);
            self.missing = place + octets.len() as u64;
            self.end = self.missing;
            return Ok(Delivery::Kept);
        }
        self.add_among(place, octets)
    }

    /// The same, for octets in the window that may stand anywhere.
    #[inline(never)]
    fn add_among(&mut self, place: u64, octets: &[u8]) -> Result<Delivery, NoMemory>
        requires some { 0 < length octets.now }
        requires near { place + length octets.now ≤ self.old.arrived.floor + window }
        ensures answer { IfOk result (λ answer. answer ≡ delivery self.old.arrived place (length octets.now)) }
        ensures ok { OnOk result (self.new.arrived ≡ delivered self.old.arrived place octets.now) }
        ensures err { OnErr result (self.new.arrived ≡ self.old.arrived) }
        ensures memory { OnErr result (BringsOctets self.old.arrived place (length octets.now)) }
        ensures room { self.new.room ≡ self.old.room }
    {
        if place == self.missing
            && is_before_second(&self.spans, place + octets.len() as u64)
            && fits_after(&self.octets, self.base, place, octets)
        {
            put_after(&mut self.octets, self.base, &mut self.spans, place, octets);
            self.missing = place + octets.len() as u64;
            self.end = self.end.max(self.missing);
            return Ok(Delivery::Kept);
        }
        self.add_slow(place, octets)
    }

    /// The slow path of `add_among`: the octets may touch other spans than the first.
    #[inline(always)]
    fn add_slow(&mut self, place: u64, octets: &[u8]) -> Result<Delivery, NoMemory>
        requires some { 0 < length octets.now }
        requires near { place + length octets.now ≤ self.old.arrived.floor + window }
        ensures answer { IfOk result (λ answer. answer ≡ delivery self.old.arrived place (length octets.now)) }
        ensures ok { OnOk result (self.new.arrived ≡ delivered self.old.arrived place octets.now) }
        ensures err { OnErr result (self.new.arrived ≡ self.old.arrived) }
        ensures memory { OnErr result (BringsOctets self.old.arrived place (length octets.now)) }
        ensures room { self.new.room ≡ self.old.room }
    {
        let before = self.missing.saturating_sub(place);
        let to = place + octets.len() as u64;
        if to <= self.missing {
            return Ok(Delivery::Kept);
        }
        let (_, fresh) = octets.split_at(before as usize);
        let from = place + before;
        let low = first_reaching(&self.spans, from);
        if holds_all(&self.spans, low, from, to) {
            return Ok(Delivery::Kept);
        }
        if is_one_too_many(&self.spans, low, from, to) {
            return Ok(Delivery::Dropped);
        }
        shorten(&mut self.octets, &mut self.base, self.floor, self.end, to);
        put(
            &mut self.octets,
            self.base,
            &mut self.spans,
            low,
            from,
            fresh,
        )?;
        self.missing = end_of_first(&self.spans);
        self.end = self.end.max(to);
        Ok(Delivery::Kept)
    }

    /// The in-order point.
    pub fn floor(&self) -> u64
        ensures floor { result ≡ self.now.arrived.floor }
        ensures limits { IsWithinLimits self.now.arrived }
    {
        self.floor
    }

    /// The first place from the in-order point on that hasn't come.
    pub fn missing(&self) -> u64
        ensures come { (p : ℕ) → p < result → has_come self.now.arrived p ≡ true }
        ensures missing { cell_at self.now.arrived result ≡ Missing }
        ensures limits { IsWithinLimits self.now.arrived }
        ensures near { end_of self.now.arrived ≤ self.now.arrived.floor + window }
    {
        self.missing
    }

    /// The place past the last that came.
    pub fn end(&self) -> u64
        ensures end { result ≡ end_of self.now.arrived }
        ensures near { result ≤ self.now.arrived.floor + window }
        ensures limits { IsWithinLimits self.now.arrived }
    {
        self.end
    }

    /// For the prover alone: it does nothing. Its clause states the limits that what came keeps.
    pub fn limits(&self)
        ensures { IsWithinLimits self.now.arrived }
    {
        let _ = &self.spans;
    }

    /// For how many octets there is memory: for 327,680 at most, and for 131,072 where nothing came past the in-order point.
    pub fn memory(&self) -> usize
        ensures memory { result ≡ self.now.memory }
        ensures most { self.now.memory ≤ max_held }
        ensures idle { IsIdleWithin self.now }
    {
        self.octets.capacity()
    }

    /// Whether all octets from place `from` up to place `to` came, given up or not.
    #[inline(never)]
    pub fn came(&self, from: u64, to: u64) -> bool
        ensures { MatchBool result ((p : ℕ) → from ≤ p → p < to → has_come self.now.arrived p ≡ true)
            ((p : ℕ) × (from ≤ p) × (p < to) × (has_come self.now.arrived p ≡ false)) }
    {
        if to <= self.missing || to <= from {
            return true;
        }
        if let Some(second) = self.spans.get(1)
            && from <= second.to
        {
            if from < second.from {
                return false;
            }
            return to <= second.to;
        }
        self.came_slow(from, to)
    }

    /// The slow path of `came`: the last place may lie past the second span.
    #[inline(never)]
    fn came_slow(&self, from: u64, to: u64) -> bool
        requires { from < to }
        ensures { MatchBool result ((p : ℕ) → from ≤ p → p < to → has_come self.now.arrived p ≡ true)
            ((p : ℕ) × (from ≤ p) × (p < to) × (has_come self.now.arrived p ≡ false)) }
    {
        if let Some(last) = self.spans.back()
            && last.from <= from
        {
            return to <= last.to;
        }
        holds_all(&self.spans, first_reaching(&self.spans, from), from, to)
    }

    /// The octets from place `from` up to place `to`, which came and were not given up.
    pub fn part(&self, from: u64, to: u64) -> &[u8]
        requires { (p : ℕ) → from ≤ p → p < to → IsHere (cell_at self.now.arrived p) }
        ensures { map Here result.now ≡ cells_between self.now.arrived from to }
    {
        if from >= to {
            return &[];
        }
        let (_, rest) = self.octets.as_slice().split_at((from - self.base) as usize);
        let (octets, _) = rest.split_at((to - from) as usize);
        octets
    }

    /// The octets from place `from` up to place `to`, which came and were not given up, in order, part by part.
    pub fn parts(&self, from: u64, to: u64) -> Parts<'_>
        requires { (p : ℕ) → from ≤ p → p < to → IsHere (cell_at self.now.arrived p) }
        ensures octets { map Here (concat result) ≡ cells_between self.now.arrived from to }
        ensures filled { All (λ part. 0 < length part) result }
    {
        Parts {
            octets: self.part(from, to),
        }
    }

    /// The octet at a place, which came and was not given up.
    pub fn octet(&self, place: u64) -> u8
        requires { IsHere (cell_at self.now.arrived place) }
        ensures { cell_at self.now.arrived place ≡ Here result }
    {
        self.octets[(place - self.base) as usize]
    }

    /// The octet at a place, where it came and was not given up; elsewhere any number.
    #[inline]
    pub fn peek(&self, place: u64) -> u8
        ensures { (x : ℕ) → cell_at self.now.arrived place ≡ Here x → result ≡ x }
    {
        match self.octets.get(place.wrapping_sub(self.base) as usize) {
            Some(octet) => *octet,
            None => 0,
        }
    }

    /// Makes room for one release, where there is none. The room stays until it is used.
    pub fn ready(&mut self) -> Result<(), NoMemory>
        ensures same { self.new.arrived ≡ self.old.arrived }
        ensures ok { OnOk result (0 < self.new.room) }
        ensures full { OnErr result (self.old.room ≡ 0) }
        ensures room { self.old.room ≤ self.new.room }
    {
        self.gone.reserve(1)
    }

    /// Gives up the octets from place `from` up to place `to`, which came. Their places still count as come. It takes
    /// the room that one `ready` made.
    pub fn release(&mut self, from: u64, to: u64)
        requires room { 0 < self.old.room }
        requires come { (p : ℕ) → from ≤ p → p < to → has_come self.old.arrived p ≡ true }
        ensures arrived { self.new.arrived ≡ released self.old.arrived from to }
        ensures room { self.old.room ≤ self.new.room + 1 }
    {
        let from = from.max(self.floor);
        if from < to {
            let low = first_reaching(&self.gone, from);
            join(&mut self.gone, low, from, to);
        }
    }

    /// Moves the in-order point on to `to`, before which all came, and gives up what lies before it. An in-order point
    /// that lies further on stays. Where nothing came past it, memory for more than 131,072 octets is given back.
    #[inline(always)]
    pub fn advance(&mut self, to: u64)
        requires come { (p : ℕ) → p < to → has_come self.old.arrived p ≡ true }
        requires place { to ≤ 2 ^ 63 }
        ensures arrived { self.new.arrived ≡ advanced self.old.arrived to }
        ensures room { self.old.room ≤ self.new.room }
    {
        if to <= self.floor {
            return;
        }
        self.floor = to;
        forget(&mut self.gone, to);
        let_go(&mut self.octets, &mut self.base, self.end, to);
    }

    /// Gives up what came past the in-order point, as though it had not come, and gives back the memory. The in-order
    /// point stays.
    pub fn give_up(&mut self)
        ensures arrived { self.new.arrived ≡ emptied self.old.arrived }
        ensures memory { self.new.memory ≡ 0 }
        ensures room { self.new.room ≡ 0 }
    {
        buffer::clear(&mut self.octets);
        spans::clear(&mut self.gone);
        spans::keep_before(&mut self.spans, self.floor);
        self.base = self.floor;
        self.missing = self.floor;
        self.end = self.floor;
    }
}

/// Whether one of the `n` octets from `place` on lies 262,144 or more past `floor`.
fn is_beyond(floor: u64, place: u64, n: usize) -> bool
    requires floor { floor ≤ 2 ^ 63 }
    requires some { 0 < n }
    ensures { MatchBool result (floor + 262144 < place + n) (place + n ≤ floor + 262144) }
{
    let end = floor + WINDOW;
    end <= place || end - place < n as u64
}

/// Octets in order, part by part.
#[derive(Drop)]
pub struct Parts<'a> {
    octets: &'a [u8],
}

impl<'a> Model for Parts<'a> {
    ghost use Rattle.std.specs.Prelude.{List, ℕ};
    ghost use Rattle.iw_ranges.specs.Parts.{parts_of};

    ghost Value = { List (List ℕ) };

    ghost view = { λ a. parts_of a.octets.now };
}

impl<'a> Iterator for Parts<'a> {
    type Item = &'a [u8];

    ghost next_gives = { YieldsFirstBy (λ part. part.now) (λ parts. parts) };

    ghost remaining = { item_count (λ parts. parts) };

    fn next(&mut self) -> Option<&'a [u8]> {
        if self.octets.is_empty() {
            return None;
        }
        let part = self.octets;
        self.octets = &[];
        Some(part)
    }
}
