//! The place past the last octet that came, lent to an owner that reads by a call of its own.
ghost use Rattle.std.specs.Prelude.{◌≡◌, ◌<◌, ◌≤◌, min, length, None, MatchBool, IfOk, IfErr, OnOk, OnErr};
ghost use Rattle.iw_stream.specs.Reading.{Brings, Reads, LacksRoom, IsNotTakenOf, most_ahead, room_ahead};

use super::Incoming;
use crate::intake::{Intake, LendRefusal, MOST_READ, TakeLentRefusal};
use iw_ranges::Islands;
use std::alloc::Allocator;
use std::ptr::{NonNull, null_mut};

// The address of the first octet; null if there is none.
fn address(octets: &[u8]) -> *mut u8 {
    match octets.first() {
        Some(first) => NonNull::from_ref(first).as_ptr(),
        None => null_mut(),
    }
}

// The address of the octets past the last that came.
fn place_ahead<A: Allocator>(islands: &mut Islands<A>, n: usize) -> *mut u8
    requires { n ≤ length islands.old.ahead }
    ensures arrived { islands.new.arrived ≡ islands.old.arrived }
    ensures room { islands.new.room ≡ islands.old.room }
{
    address(islands.lend(n))
}

// Counts the first `n` octets that stand past the last that came as come, and tells whether it did.
fn count_ahead<A: Allocator>(islands: &mut Islands<A>, n: usize) -> bool
    ensures counted { MatchBool result
        ((0 < n) × Brings islands.old.arrived islands.new.arrived None None n)
        (islands.new.arrived ≡ islands.old.arrived) }
{
    if n == 0 {
        return false;
    }
    let place = islands.end();
    islands.came_in_place(place, n)
}

impl<A: Allocator> Incoming<A> {
    ghost use Rattle.iw_stream.specs.Incoming.{IsSameStart};

    /// Tells the address of the place past the last octet that came, and for how many octets it is: as many as are wanted,
    /// 65,536 at most, and no more than the window has room for. An `Err` tells nothing.
    pub(crate) fn lend(&mut self, want: usize, at: &mut *mut u8) -> Result<usize, LendRefusal>
        ensures lent { IfOk result (λ n. n ≡ min want (min MOST_READ (room_ahead self.old.arrived))) }
        ensures refused { IfErr result (λ refusal. LacksRoom self.old.arrived refusal) }
        ensures kept { OnErr result (at.new ≡ at.old) }
        ensures arrived { self.new.arrived ≡ self.old.arrived }
        ensures early { self.new.early ≡ self.old.early }
        ensures same { IsSameStart self.old self.new }
    {
        let most = self.room().min(MOST_READ);
        if most == 0 {
            return Err(LendRefusal::Full);
        }
        let n = want.min(most);
        match self.islands.make_room(n) {
            Ok(true) => {
                *at = place_ahead(&mut self.islands, n);
                Ok(n)
            }
            Ok(false) => Err(LendRefusal::Full),
            Err(_) => Err(LendRefusal::NoMemory),
        }
    }

    /// Counts the first `n` octets that stand there as come, and tells whether it did.
    pub(crate) fn came(&mut self, n: usize) -> bool
        ensures counted { MatchBool result
            (Reads self.old.arrived self.new.arrived None None (Intake.Came n))
            (self.new.arrived ≡ self.old.arrived) }
        ensures early { self.new.early ≡ self.old.early }
        ensures same { IsSameStart self.old self.new }
    {
        if n > self.room().min(MOST_READ) {
            return false;
        }
        let place = self.islands.end();
        if !count_ahead(&mut self.islands, n) {
            return false;
        }
        let from = place.saturating_sub(self.locator.base);
        let to = (place + n as u64).saturating_sub(self.locator.base);
        self.unsearched.delivered(from, to);
        true
    }

    /// The same, and makes room for so many octets where none was lent. An `Err` tells why not, and counts none.
    pub(crate) fn take_lent(&mut self, n: usize) -> Result<(), TakeLentRefusal>
        ensures ok { OnOk result (Reads self.old.arrived self.new.arrived None None (Intake.Came n)) }
        ensures refused { IfErr result (λ refusal. IsNotTakenOf (most_ahead self.old.arrived) n refusal) }
        ensures err { OnErr result (self.new.arrived ≡ self.old.arrived) }
        ensures early { self.new.early ≡ self.old.early }
        ensures same { IsSameStart self.old self.new }
    {
        if n == 0 {
            return Err(TakeLentRefusal::Nothing);
        }
        if n > self.room().min(MOST_READ) {
            return Err(TakeLentRefusal::TooMany);
        }
        let Ok(true) = self.islands.make_room(n) else {
            return Err(TakeLentRefusal::NoMemory);
        };
        if self.came(n) {
            Ok(())
        } else {
            Err(TakeLentRefusal::NoMemory)
        }
    }
}
