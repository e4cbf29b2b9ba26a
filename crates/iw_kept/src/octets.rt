ghost use Rattle.std.specs.Prelude.{◌≡◌, ◌+◌, ◌≤◌, true, false, length, slice_range, Option, Some, None, IfOk, IfErr};
ghost use Rattle.std.specs.Borrow.{sem};
ghost use Rattle.iw_kept.specs.Octets.{octets_of, is_kept, own_result};
ghost use Rattle.iw_kept.specs.Lending.{LendsPart, LendsAll};

use crate::kept::Kept;
use std::alloc::{AllocError, Allocator, Global};
use std_alloc::vec::Lodged;

/// The octets of a region.
#[derive(Drop)]
pub enum RegionOctets<A: Allocator = Global> {
    /// A vector of the application's own.
    Own(Vec<u8, A>),
    /// Memory that a program keeps. It is not freed.
    Kept(Vec<u8, Lodged>),
}

impl<A: Allocator> RegionOctets<A> {
    /// How many they are.
    #[inline(always)]
    pub fn len(&self) -> usize
        ensures { result ≡ length (octets_of self.now) }
    {
        match self {
            RegionOctets::Own(octets) => octets.len(),
            RegionOctets::Kept(octets) => octets.len(),
        }
    }

    /// Whether a program keeps them.
    pub fn is_kept(&self) -> bool
        ensures { result ≡ is_kept self.now }
    {
        matches!(self, RegionOctets::Kept(_))
    }

    /// All of them.
    #[inline(always)]
    pub fn as_slice(&self) -> &[u8]
        ensures { result.now ≡ octets_of self.now }
    {
        match self {
            RegionOctets::Own(octets) => octets.as_slice(),
            RegionOctets::Kept(octets) => octets.as_slice(),
        }
    }

    /// All of them, for writing.
    pub fn as_mut_slice(&mut self) -> &mut [u8]
        ensures* lends { sem 𝓛 (LendsAll A.row A.Allocator self.entry result) }
        ensures value { result.now ≡ octets_of self.old }
    {
        match self {
            RegionOctets::Own(octets) => octets.as_mut_slice(),
            RegionOctets::Kept(octets) => octets.as_mut_slice(),
        }
    }

    /// The `n` octets from place `at` on, for writing.
    #[inline(always)]
    pub fn part_mut(&mut self, at: usize, n: usize) -> &mut [u8]
        requires { at + n ≤ length (octets_of self.old) }
        ensures* lends { sem 𝓛 (LendsPart A.row A.Allocator self.entry at result) }
        ensures value { result.now ≡ slice_range (octets_of self.old) at (at + n) }
    {
        match self {
            RegionOctets::Own(octets) => octets.slice_mut(at..at + n),
            RegionOctets::Kept(octets) => octets.slice_mut(at..at + n),
        }
    }

    /// The octets as a vector of the application's own: those that a program keeps are copied. An `Err` means out of memory; then
    /// they are gone.
    pub fn into_vec(self, alloc: A) -> Result<Vec<u8, A>, AllocError>
        ensures { IfOk result (λ v. v.items ≡ octets_of self) }
    {
        match self {
            RegionOctets::Own(octets) => Ok(octets),
            RegionOctets::Kept(octets) => Vec::from_slice(alloc, octets.as_slice()),
        }
    }

    /// Octets that a program keeps.
    pub fn of_kept(kept: Kept) -> RegionOctets<A>
        ensures octets { octets_of result ≡ kept.octets }
        ensures kept { is_kept result ≡ true }
    {
        match kept.into_vec() {
            Some(octets) => RegionOctets::Kept(octets),
            None => RegionOctets::Kept(Vec::new(Lodged)),
        }
    }

    /// Octets that a program keeps, for the program.
    pub fn into_kept(self) -> Kept
        requires { is_kept self ≡ true }
        ensures { result.octets ≡ octets_of self }
    {
        match self {
            RegionOctets::Kept(octets) => Kept::of_vec(octets),
            RegionOctets::Own(_) => unreachable!(),
        }
    }
}

/// What a call answers that was handed a vector: what it hands back is that vector.
pub fn own_back<A: Allocator, T, R: Drop>(
    done: Result<T, (R, RegionOctets<A>)>,
) -> Result<T, (R, Vec<u8, A>)>
    requires { IfErr done (λ e. is_kept e.1 ≡ false) }
    ensures { own_result result ≡ done }
{
    match done {
        Ok(answer) => Ok(answer),
        Err((refusal, octets)) => match octets {
            RegionOctets::Own(octets) => Err((refusal, octets)),
            RegionOctets::Kept(_) => unreachable!(),
        },
    }
}
