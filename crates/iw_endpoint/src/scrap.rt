//! The place that is lent for streams that have ended. What comes there is dropped.
ghost use Rattle.std.specs.Prelude.{◌≡◌, ◌≤◌, ◌<◌, min, vec_len, vec_capacity, IfOk, IfErr, OnOk, OnErr};

use crate::refusal::PlaceRefusal;
use std::alloc::{AllocError, Allocator};
use std::marker::Model;

/// How many octets are lent at most.
const SCRAP: usize = 4096;

/// Octets that are looked at nowhere. Their memory is taken when they are first lent.
#[derive(Drop)]
pub(crate) struct Scrap<A: Allocator> {
    octets: Vec<u8, A>,
}

impl<A: Allocator> Model for Scrap<A> {
    ghost use Rattle.std.specs.Prelude.{ℕ, ◌≤◌, vec_capacity};

    // For how many octets there is memory.
    ghost Value = { ℕ };

    ghost view = { λ s. vec_capacity s.octets };

    ghost invariant = { λ s. vec_capacity s.octets ≤ 4096 };
}

// Makes 4,096 octets of none or of as many. An `Err` changes nothing.
fn fill<A: Allocator>(octets: &mut Vec<u8, A>) -> Result<(), AllocError>
    requires { vec_capacity octets.old ≤ 4096 }
    ensures len { OnOk result (vec_len octets.new ≡ 4096) }
    ensures memory { vec_capacity octets.new ≤ 4096 }
    ensures err { OnErr result (vec_capacity octets.new ≡ vec_capacity octets.old) }
{
    octets.reserve_exact(SCRAP - octets.len())?;
    'zeros: while octets.len() < SCRAP {
        octets.push_reserved(0);
    }
    Ok(())
}

impl<A: Allocator> Scrap<A> {
    /// No memory was taken.
    pub(crate) fn new(alloc: A) -> Scrap<A>
        ensures { result ≡ 0 }
    {
        Scrap {
            octets: Vec::new(alloc),
        }
    }

    /// Tells the address, and how many octets may be written there: as many as are wanted, 4,096 at most. An `Err` means out
    /// of memory, and changes nothing.
    pub(crate) fn lend(&mut self, want: usize, at: &mut *mut u8) -> Result<usize, PlaceRefusal>
        ensures lent { IfOk result (λ n. n ≡ min want 4096) }
        ensures refused { IfErr result (λ refusal. refusal ≡ PlaceRefusal.NoMemory) }
        ensures kept { OnErr result (at.new ≡ at.old) }
        ensures memory { self.new ≤ 4096 }
        ensures err { OnErr result (self.new ≡ self.old) }
    {
        match fill(&mut self.octets) {
            Ok(()) => {
                *at = self.octets.as_mut_ptr();
                Ok(want.min(SCRAP))
            }
            Err(_) => Err(PlaceRefusal::NoMemory),
        }
    }
}
