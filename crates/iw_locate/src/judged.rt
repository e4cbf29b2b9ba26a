ghost use Rattle.std.specs.Prelude.{◌≡◌, ◌<◌, ◌≤◌, ◌+◌, ◌^◌, ℕ, [], true, length, drop, slice_index_or};
ghost use Rattle.std.specs.Prelude.{MatchBool, MatchOption, IsOkAnd, OnOk, OnErr, IfErr};
ghost use Rattle.std.specs.List.{Contains, count_by, insert};
ghost use Rattle.iw_fpdu.specs.Places.{span_start};
ghost use Rattle.std.specs.VecDeque.{deque_len, deque_capacity};
ghost use Rattle.iw_locate.specs.Records.{from_of, IsFirstPast, IsPlaceFor, kept_from};
ghost use Rattle.iw_locate.specs.Records.{IsPlaced, AreApart, OverlapsPlaced, IsClearOfPlaced};
ghost use Rattle.std.specs.Prelude.{nat_lt, nat_le};
ghost use Rattle.std.specs.Bool.{OnTrue};

use crate::frame::Frame;
use iw_fpdu::span_of;
use std::alloc::{AllocError, Allocator, Global};
use std::collections::VecDeque;
use std::marker::Model;
use thiserror::Error;

/// How many records there may be.
pub(crate) const MAX_RECORDS: usize = 4_096;

/// What became of a frame that was judged before its turn.
#[derive(Clone, Copy, Debug, PartialEq, Eq, Drop)]
pub enum State<T> {
    /// Nothing was changed: it is judged again at its turn.
    Tried,
    /// It was placed, and this is kept for its turn.
    Placed(T),
}

/// A frame that was judged before its turn.
#[derive(Clone, Copy, Debug, PartialEq, Eq, Drop)]
pub struct Record<T> {
    /// The frame place where it begins.
    pub start: u64,
    /// How many octets its ULPDU has.
    pub length: u16,
    /// The frame place where it ends.
    pub end: u64,
    pub state: State<T>,
}

/// Why there is no room for a record: the first reason that holds.
#[derive(Clone, Copy, Debug, PartialEq, Eq, Error)]
pub enum RecordRefusal {
    /// There are 4,096 records.
    #[error("there are 4,096 records")]
    Full,
    /// There is no memory.
    #[error("no memory")]
    NoMemory,
}

/// The frames that were judged before their turn, no two of which overlap.
#[derive(Drop)]
pub struct Judged<T, A: Allocator = Global> {
    records: VecDeque<Record<T>, A>,
}

impl<T, A: Allocator> Model for Judged<T, A> {
    ghost use Rattle.std.specs.Prelude.{◌-◌};
    ghost use Rattle.std.specs.VecDeque.{deque_len, deque_capacity};
    ghost use Rattle.iw_locate.specs.Records.{Held, IsWithinLimits};

    ghost Value = { Held T };

    ghost view = { λ j. record { records = j.records.items; room = deque_capacity j.records - deque_len j.records } };

    ghost invariant = { λ j. IsWithinLimits j.records.items };
}

impl<T, A: Allocator> Judged<T, A> {
    ghost use Rattle.iw_locate.specs.Records.{max_records, IsWithinLimits, OverlapsOne, IsClear, added};
    ghost use Rattle.iw_fpdu.specs.Places.{IsStart};

    /// No record.
    pub fn new(alloc: A) -> Self
        ensures { result.records ≡ [] }
    {
        Judged {
            records: VecDeque::new(alloc),
        }
    }

    /// Makes room for one record. The room stays until it is used, and while there is any no memory is asked for. A refusal
    /// changes nothing.
    pub fn ready(&mut self) -> Result<(), RecordRefusal>
        ensures records { self.new.records ≡ self.old.records }
        ensures room { self.old.room ≤ self.new.room }
        ensures ok { OnOk result (0 < self.new.room) }
        ensures few { OnOk result (length self.new.records < max_records) }
        ensures full { max_records ≤ length self.old.records → result ≡ Err RecordRefusal.Full }
        ensures memory { length self.old.records < max_records → IfErr result (λ refusal. refusal ≡ RecordRefusal.NoMemory) }
        ensures wants { length self.old.records < max_records → OnErr result (self.old.room ≡ 0) }
    {
        if self.records.len() >= MAX_RECORDS {
            return Err(RecordRefusal::Full);
        }
        if self.records.reserve(1).is_err() {
            return Err(RecordRefusal::NoMemory);
        }
        Ok(())
    }

    /// How many records there are.
    pub fn len(&self) -> usize
        ensures len { result ≡ length self.now.records }
        ensures limits { IsWithinLimits self.now.records }
    {
        self.records.len()
    }

    /// For the prover alone: it does nothing. Its clause states the limits that the records keep: no two frames overlap, and
    /// there are 4,096 at most.
    pub fn limits(&self)
        ensures { IsWithinLimits self.now.records }
    {
        let _ = &self.records;
    }

    /// Where the frame of the record at an index ends.
    pub(crate) fn end_at(&self, index: usize) -> u64
        requires { index < length self.now.records }
        ensures { (d : Record T) → result ≡ (slice_index_or self.now.records index d).end }
    {
        self.records[index].end
    }

    /// The index of the first record whose frame ends past `place`, or the number of records if there is none.
    pub(crate) fn first_past(&self, place: u64) -> usize
        ensures { IsFirstPast self.now.records place result }
    {
        first_ending_past(&self.records, place)
    }

    /// Where the last of the frames ends that end at `place` or before it.
    pub(crate) fn last_end(&self, place: u64) -> Option<u64>
        ensures { MatchOption result (Unit {0}) (λ end. (end ≤ place) × ((r : Record T) × Contains self.now.records r × (r.end ≡ end))) }
    {
        let past = first_ending_past(&self.records, place);
        if past == 0 {
            return None;
        }
        Some(self.records[past - 1].end)
    }

    /// Whether a frame whose span begins before `place` ends past it.
    #[inline]
    pub fn reaches_over(&self, place: u64) -> bool
        ensures { MatchBool result ((r : Record T) × Contains self.now.records r × (from_of r < place) × (place < r.end))
            ((r : Record T) → Contains self.now.records r → from_of r < place → r.end ≤ place) }
    {
        match self.records.get(0) {
            None => false,
            Some(first) => {
                if first.end < place {
                    return is_one_over(&self.records, place);
                }
                if first.end == place {
                    return false;
                }
                if span_of(true, first.start) < place {
                    return true;
                }
                false
            }
        }
    }

    /// Where the frames end that lie at `place` and on from there without a gap, as far as `limit`; or `place` where none does.
    /// It may stop earlier, or at `place`, at any time: a shorter run costs speed alone.
    pub(crate) fn run_to(&self, place: u64, limit: u64) -> u64
        ensures covered { (q : ℕ) → place ≤ q → q < result → (r : Record T) × Contains self.now.records r × (from_of r ≤ q) × (q < r.end) }
        ensures low { place ≤ result }
    {
        let count = self.records.len();
        if count == 0 || self.records[count - 1].end <= place {
            return place;
        }
        if place < span_of(true, self.records[0].start) {
            return place;
        }
        run_among(&self.records, place, limit)
    }

    /// Whether it is plain that no frame with a record ends before `place`.
    #[inline]
    pub(crate) fn ends_past(&self, place: u64) -> bool
        ensures { OnTrue result ((r : Record T) → Contains self.now.records r → place ≤ r.end) }
    {
        does_none_end_before(&self.records, place)
    }

    /// The record of the frame that begins at `start`.
    pub fn at(&self, start: u64) -> Option<&Record<T>>
        ensures { MatchOption result ((r : Record T) → Contains self.now.records r → r.start ≡ start → ⊥)
            (λ r. Contains self.now.records r.now × (r.now.start ≡ start)) }
    {
        let at = first_ending_past(&self.records, start);
        match self.records.get(at) {
            Some(record) => {
                if record.start == start {
                    Some(record)
                } else {
                    None
                }
            }
            None => None,
        }
    }

    /// The last place where a frame that begins at `start` may end and overlap no frame with a record.
    pub(crate) fn clear_to(&self, start: u64) -> u64
        ensures clear { (end : ℕ) → end ≤ result → IsClear self.now.records start end }
        ensures over { (end : ℕ) → result < end → end < 2 ^ 64 → OverlapsOne self.now.records start end }
    {
        let at = first_ending_past(&self.records, span_of(true, start));
        match self.records.get(at) {
            Some(record) => span_of(true, record.start),
            None => u64::MAX,
        }
    }

    /// Whether the span of the frame from `start` to `end` overlaps that of a frame with a record.
    pub fn overlaps(&self, start: u64, end: u64) -> bool
        ensures { MatchBool result (OverlapsOne self.now.records start end) (IsClear self.now.records start end) }
    {
        let at = first_ending_past(&self.records, span_of(true, start));
        match self.records.get(at) {
            Some(record) => {
                if span_of(true, record.start) < end {
                    return true;
                }
                false
            }
            None => false,
        }
    }

    /// Whether the span of the frame from `start` to `end` overlaps that of a frame that was placed.
    pub fn overlaps_placed(&self, start: u64, end: u64) -> bool
        ensures { MatchBool result (OverlapsPlaced self.now.records start end) (IsClearOfPlaced self.now.records start end) }
    {
        is_one_placed_over(&self.records, start, end)
    }

    /// Drops the records of the frames whose spans begin before `place`.
    #[inline(always)]
    pub fn drop_to(&mut self, place: u64)
    where
        T: Drop,
        ensures records { self.new.records ≡ kept_from place self.old.records }
        ensures room { self.old.room ≤ self.new.room }
    {
        if self.records.is_empty() {
            return;
        }
        forget(&mut self.records, place);
    }

    /// Drops every record, and gives back the memory.
    pub fn give_up(&mut self)
    where
        T: Drop,
        ensures records { self.new.records ≡ [] }
        ensures room { self.new.room ≡ 0 }
    {
        self.records.clear();
        self.records.shrink_to_fit();
    }

    /// Adds a record of a frame that overlaps none with a record. It takes the room that one `ready` made.
    pub fn add(&mut self, frame: Frame, state: State<T>)
    where
        T: Drop,
        requires room { 0 < self.old.room }
        requires few { length self.old.records < max_records }
        requires start { IsStart true frame.start }
        requires some { frame.start < frame.end }
        requires clear { IsClear self.old.records frame.start frame.end }
        ensures records { self.new.records ≡ added self.old.records (record { start = frame.start; length = frame.length; end = frame.end; state = state }) }
        ensures room { self.old.room ≤ self.new.room + 1 }
    {
        let at = count_before(&self.records, frame.start);
        let record = Record {
            start: frame.start,
            length: frame.length,
            end: frame.end,
            state,
        };
        insert_in_room(&mut self.records, at, record);
    }
}

/// The first record that ends past `place`, or the number of records if there is none.
#[inline]
fn first_ending_past<T, A: Allocator>(records: &VecDeque<Record<T>, A>, place: u64) -> usize
    requires { AreApart records.now.items }
    ensures { IsFirstPast records.now.items place result }
{
    let count = records.len();
    if count == 0 {
        return 0;
    }
    if place < records[0].end {
        return 0;
    }
    if records[count - 1].end <= place {
        return count;
    }
    first_among(records, place)
}

/// The same, for a place that may be any.
#[inline(never)]
fn first_among<T, A: Allocator>(records: &VecDeque<Record<T>, A>, place: u64) -> usize
    requires { AreApart records.now.items }
    ensures { IsFirstPast records.now.items place result }
{
    if records.len() > 1 && records[0].end <= place && place < records[1].end {
        return 1;
    }
    records.partition_point(
        |record: &Record<T>| -> bool
            ensures { result ≡ nat_le record.now.end place }
        { record.end <= place },
    )
}

/// Whether a frame whose span begins before `place` ends past it.
fn is_one_over<T, A: Allocator>(records: &VecDeque<Record<T>, A>, place: u64) -> bool
    requires { AreApart records.now.items }
    ensures { MatchBool result ((r : Record T) × Contains records.now.items r × (from_of r < place) × (place < r.end))
        ((r : Record T) → Contains records.now.items r → from_of r < place → r.end ≤ place) }
{
    let at = first_ending_past(records, place);
    match records.get(at) {
        Some(record) => {
            if span_of(true, record.start) < place {
                return true;
            }
            false
        }
        None => false,
    }
}

/// How many records there are of frames that begin before `start`.
fn count_before<T, A: Allocator>(records: &VecDeque<Record<T>, A>, start: u64) -> usize
    requires { AreApart records.now.items }
    ensures count { result ≡ count_by (λ r. nat_lt r.start start) records.now.items }
    ensures place { IsPlaceFor records.now.items start result }
{
    let count = records.len();
    if count == 0 {
        return 0;
    }
    if records[count - 1].start < start {
        return count;
    }
    if start <= records[0].start {
        return 0;
    }
    records.partition_point(
        |record: &Record<T>| -> bool
            ensures { result ≡ nat_lt record.now.start start }
        { record.start < start },
    )
}

/// Puts a record in where there is room for it.
fn insert_in_room<T: Drop, A: Allocator>(
    records: &mut VecDeque<Record<T>, A>,
    at: usize,
    new: Record<T>,
)
    requires at { at ≤ deque_len records.old }
    requires room { deque_len records.old < deque_capacity records.old }
    ensures items { records.new.items ≡ insert records.old.items at new }
    ensures len { deque_len records.new ≡ deque_len records.old + 1 }
    ensures capacity { deque_capacity records.old ≤ deque_capacity records.new }
{
    let _ = records.insert(at, new);
}

/// Whether no frame ends before `place`, as the first record says.
#[inline]
fn does_none_end_before<T, A: Allocator>(records: &VecDeque<Record<T>, A>, place: u64) -> bool
    requires { AreApart records.now.items }
    ensures { OnTrue result ((r : Record T) → Contains records.now.items r → place ≤ r.end) }
{
    match records.get(0) {
        None => true,
        Some(first) => {
            if first.end < place {
                return false;
            }
            true
        }
    }
}

/// Whether the span of the frame from `start` to `end` overlaps that of a frame that was placed: of none where it ends before
/// the first.
#[inline]
fn is_one_placed_over<T, A: Allocator>(
    records: &VecDeque<Record<T>, A>,
    start: u64,
    end: u64,
) -> bool
    requires { AreApart records.now.items }
    ensures { MatchBool result (OverlapsPlaced records.now.items start end) (IsClearOfPlaced records.now.items start end) }
{
    if let Some(first) = records.get(0)
        && end <= span_of(true, first.start)
    {
        return false;
    }
    let first = first_ending_past(records, span_of(true, start));
    has_placed(records, start, end, first)
}

/// Whether a record from that at `first` on is of a frame that was placed and overlaps the frame from `start` to `end`.
#[inline(never)]
fn has_placed<T, A: Allocator>(
    records: &VecDeque<Record<T>, A>,
    start: u64,
    end: u64,
    first: usize,
) -> bool
    requires apart { AreApart records.now.items }
    requires first { IsFirstPast records.now.items (span_start true start) first }
    ensures { MatchBool result (OverlapsPlaced records.now.items start end) (IsClearOfPlaced records.now.items start end) }
{
    let mut at = first;
    'overlapping: while at < records.len() {
        let found = &records[at];
        if end <= span_of(true, found.start) {
            return false;
        }
        if is_placed(&found.state) {
            return true;
        }
        at += 1;
    }
    false
}

/// Where the frames end that lie at `place` and on from there without a gap, as far as `limit`.
#[inline(never)]
fn run_among<T, A: Allocator>(records: &VecDeque<Record<T>, A>, place: u64, limit: u64) -> u64
    requires { AreApart records.now.items }
    ensures covered { (q : ℕ) → place ≤ q → q < result → (r : Record T) × Contains records.now.items r × (from_of r ≤ q) × (q < r.end) }
    ensures low { place ≤ result }
{
    let first = first_among(records, place);
    end_of_run(records, place, limit, first)
}

/// Where the frames end that lie at `place` and on from there without a gap, as far as `limit`. The first record whose frame
/// ends past `place` is that at `first`.
fn end_of_run<T, A: Allocator>(
    records: &VecDeque<Record<T>, A>,
    place: u64,
    limit: u64,
    first: usize,
) -> u64
    requires { IsFirstPast records.now.items place first }
    ensures covered { (q : ℕ) → place ≤ q → q < result → (r : Record T) × Contains records.now.items r × (from_of r ≤ q) × (q < r.end) }
    ensures low { place ≤ result }
{
    let mut at = first;
    let mut to = place;
    'run: while at < records.len() && to < limit {
        let found = &records[at];
        if to < span_of(true, found.start) {
            return to;
        }
        to = found.end;
        at += 1;
    }
    to
}

/// Whether the frame was placed.
fn is_placed<T>(state: &State<T>) -> bool
    ensures { MatchBool result (IsPlaced state.now) (IsPlaced state.now → ⊥) }
{
    match state {
        State::Tried => false,
        State::Placed(_) => true,
    }
}

/// Drops the records at the front of the frames whose spans begin before `place`.
fn forget<T: Drop, A: Allocator>(records: &mut VecDeque<Record<T>, A>, place: u64)
    requires { AreApart records.old.items }
    ensures items { records.new.items ≡ kept_from place records.old.items }
    ensures apart { AreApart records.new.items }
    ensures capacity { deque_capacity records.new ≡ deque_capacity records.old }
    ensures len { deque_len records.new ≤ deque_len records.old }
{
    'passed: while !records.is_empty() && span_of(true, records[0].start) < place {
        drop_first(records);
    }
}

/// Drops the first record.
fn drop_first<T: Drop, A: Allocator>(records: &mut VecDeque<Record<T>, A>)
    requires { 0 < deque_len records.old }
    ensures items { records.new.items ≡ drop 1 records.old.items }
    ensures len { deque_len records.new + 1 ≡ deque_len records.old }
    ensures capacity { deque_capacity records.new ≡ deque_capacity records.old }
{
    let _ = records.pop_front();
}
