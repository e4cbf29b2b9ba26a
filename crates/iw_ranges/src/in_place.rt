//! Octets that are read in place: a caller has them written where they are to stand, and then counts them as come.
ghost use Rattle.std.specs.Prelude.{◌≡◌, ◌≤◌, ◌<◌, ◌+◌, ℕ, length, take, slice_index, true, IfOk, OnErr, MatchBool};
ghost use Rattle.std.specs.Borrow.{sem};
ghost use Rattle.iw_ranges.specs.Arrived.{delivery, delivered, end_of, window, most_ahead, IsReadyFor};
ghost use Rattle.iw_ranges.specs.declared.Delivery.TheVariants.{Kept};
ghost use Rattle.iw_ranges.specs.Lending.{LendsAhead};

use crate::buffer::{MAX_IDLE, grow, let_go, shorten};
use crate::spans::{end_of_first, lengthen_last};
use crate::{Islands, NoMemory, WINDOW, is_beyond};
use std::alloc::Allocator;

impl<A: Allocator> Islands<A> {
    /// Makes room for `n` octets past the last place that came, and tells whether there is room for them.
    ///
    /// There is none if one of them would lie 262,144 or more past the in-order point, or if nothing came past that point
    /// and they are more than 131,072.
    ///
    /// `NoMemory` leaves all as it was. It comes only if there was no room for so many octets before.
    #[inline]
    pub fn make_room(&mut self, n: usize) -> Result<bool, NoMemory>
        ensures same { self.new.arrived ≡ self.old.arrived }
        ensures room { self.new.room ≡ self.old.room }
        ensures ready { IfOk result (λ ready. ready ≡ true → IsReadyFor n self.new) }
        ensures can { IfOk result (λ ready. n ≤ most_ahead self.old.arrived → ready ≡ true) }
        ensures memory { OnErr result (length self.old.ahead < n) }
    {
        if n as u64 > self.most_ahead() {
            return Ok(false);
        }
        if n <= self.ahead().len() {
            return Ok(true);
        }
        self.grow_ahead(n)
    }

    /// What stands past the last place that came.
    #[inline(always)]
    fn ahead(&self) -> &[u8]
        ensures { result.now ≡ self.now.ahead }
    {
        let (_, ahead) = self
            .octets
            .as_slice()
            .split_at((self.end - self.base) as usize);
        ahead
    }

    /// For how many octets there can be room past the last place that came.
    #[inline(always)]
    fn most_ahead(&self) -> u64
        ensures most { result ≡ most_ahead self.now.arrived }
        ensures near { end_of self.now.arrived + result ≤ self.now.arrived.floor + window }
    {
        if self.floor < self.end {
            self.floor + WINDOW - self.end
        } else {
            MAX_IDLE as u64
        }
    }

    /// The same as [`make_room`](Islands::make_room), if less room is there.
    #[inline(never)]
    fn grow_ahead(&mut self, n: usize) -> Result<bool, NoMemory>
        requires most { n ≤ most_ahead self.old.arrived }
        ensures same { self.new.arrived ≡ self.old.arrived }
        ensures room { self.new.room ≡ self.old.room }
        ensures ready { IfOk result (λ ready. ready ≡ true → IsReadyFor n self.new) }
        ensures can { IfOk result (λ ready. ready ≡ true) }
    {
        let_go(&mut self.octets, &mut self.base, self.end, self.floor);
        let to = self.end + n as u64;
        shorten(&mut self.octets, &mut self.base, self.floor, self.end, to);
        grow(&mut self.octets, (to - self.base) as usize)?;
        Ok(true)
    }

    /// Lends the `n` octets past the last place that came, to be written. They do not count as come until
    /// [`came_in_place`](Islands::came_in_place) counts them.
    pub fn lend(&mut self, n: usize) -> &mut [u8]
        requires { n ≤ length self.old.ahead }
        ensures* lends { sem 𝓛 (LendsAhead A.row A.Allocator self.entry result) }
        ensures value { result.now ≡ take n self.old.ahead }
        ensures len { length result.now ≡ n }
    {
        let at = (self.end - self.base) as usize;
        self.octets.slice_mut(at..at + n)
    }

    /// Counts the first `n` of the octets that stand past the last place that came as come at place `place`, as
    /// [`add`](Islands::add) takes in octets, and tells whether it did.
    ///
    /// It does not if `n` is 0, if `place` is not the place past the last that came, if one of the octets lies 262,144 or
    /// more past the in-order point, or if fewer octets stand there.
    #[inline]
    pub fn came_in_place(&mut self, place: u64, n: usize) -> bool
        ensures counted { MatchBool result (self.new.arrived ≡ delivered self.old.arrived place (take n self.old.ahead))
            (self.new.arrived ≡ self.old.arrived) }
        ensures kept { result ≡ true → delivery self.old.arrived place n ≡ Kept }
        ensures stood { result ≡ true → n ≤ length self.old.ahead }
        ensures octets { result ≡ true → (k : ℕ) → slice_index (take n self.old.ahead) k < 256 }
        ensures can { 0 < n → IsReadyFor n self.old → place ≡ end_of self.old.arrived → result ≡ true }
        ensures room { self.new.room ≡ self.old.room }
    {
        if n == 0 || place != self.end {
            return false;
        }
        if is_beyond(self.floor, place, n) {
            return false;
        }
        let ahead = self.ahead();
        if n > ahead.len() {
            return false;
        }
        are_octets(ahead);
        lengthen_last(&mut self.spans, place, place + n as u64);
        self.missing = end_of_first(&self.spans);
        self.end = place + n as u64;
        true
    }
}

/// For the prover alone: it does nothing. An octet is below 256: so much is known of a slice that is passed to a function.
#[inline(always)]
fn are_octets(octets: &[u8])
    ensures { (k : ℕ) → slice_index octets.now k < 256 }
{
    let _ = octets;
}
