//! One region: its octets, where they lie, who may use them, and whether it is valid.
ghost use Rattle.std.specs.Prelude.{◌≡◌, ◌+◌, ◌-◌, ◌<◌, ◌≤◌, ◌↔◌, IsTrue, length, IfOk};
ghost use Rattle.std.specs.Result.{result_err};
ghost use Rattle.std.specs.Borrow.{sem};
ghost use Rattle.iw_memory.specs.Region.{region_denial_for, is_in_scope, is_bound_to, retired_region, octets_from, Spans};
ghost use Rattle.iw_memory.specs.Lending.{LendsOctets};
ghost use Rattle.iw_kept.specs.Octets.{octets_of, is_kept};

use crate::refusal::Deny;
use crate::rights::{Right, Rights};
use iw_kept::RegionOctets;
use std::alloc::{Allocator, Global};
use std::marker::Model;

/// What is told of a region.
#[derive(Clone, Copy, Debug, PartialEq, Eq)]
pub struct Facts {
    /// The tagged offset of its first octet.
    pub base: u64,
    /// Its length in octets.
    pub len: usize,
    /// What it may be used for.
    pub rights: Rights,
    /// The number of the stream that it is limited to (RFC 5042 6.1.1), if it is limited to one.
    pub bound: Option<u32>,
    /// Whether peers may use it: false once it is invalidated.
    pub valid: bool,
}

/// A region as it is stored, with the slot that it belongs to.
#[derive(Drop)]
pub(crate) struct Stored<A: Allocator = Global> {
    pub(crate) domain: u8,
    pub(crate) slot: u16,
    pub(crate) base: u64,
    pub(crate) octets: RegionOctets<A>,
    pub(crate) rights: Rights,
    pub(crate) bound: Option<u32>,
    pub(crate) valid: bool,
}

impl<A: Allocator> Model for Stored<A> {
    ghost use Rattle.iw_memory.specs.Held.{Held};
    ghost use Rattle.iw_kept.specs.Octets.{octets_of, is_kept};

    ghost Value = { Held };

    ghost view = { λ s. record {
      domain = s.domain;
      slot = s.slot;
      region = record { base = s.base; octets = octets_of s.octets; rights = s.rights; bound = s.bound; valid = s.valid; kept = is_kept s.octets };
    } };
}

impl<A: Allocator> Stored<A> {
    /// Whether this stream of the region's domain is in its scope.
    #[inline(always)]
    pub(crate) fn is_in_scope(&self, stream: Option<u32>) -> bool
        ensures { result ≡ is_in_scope self.now.region.bound stream }
    {
        self.bound.is_none() || self.is_bound_to(stream)
    }

    // Whether the region is limited to this stream.
    #[inline(always)]
    fn is_bound_to(&self, stream: Option<u32>) -> bool
        ensures { result ≡ is_bound_to self.now.region.bound stream }
    {
        match (self.bound, stream) {
            (Some(bound), Some(stream)) => bound == stream,
            _ => false,
        }
    }

    /// Puts the region out of use if it is limited to this stream.
    pub(crate) fn retire(&mut self, stream: Option<u32>)
        ensures { self.new ≡ record self.old { region = retired_region stream self.old.region } }
    {
        if self.is_bound_to(stream) {
            self.valid = false;
        }
    }

    /// The index of the octet at tagged offset `to`, if this stream may use the `n` octets from there on so.
    #[inline(always)]
    pub(crate) fn place(
        &self,
        stream: Option<u32>,
        to: u64,
        n: usize,
        right: Right,
    ) -> Result<usize, Deny>
        requires { 0 < n }
        ensures denied { result_err result ≡ region_denial_for self.now.region stream to n right }
        ensures at { IfOk result (λ at. at ≡ to - self.now.region.base) }
        ensures within { IfOk result (λ at. at + n ≤ length self.now.region.octets) }
    {
        if !self.is_in_scope(stream) {
            return Err(Deny::NotAssociated);
        }
        if !self.valid {
            return Err(Deny::Invalid);
        }
        // `to + n` is above 2^64
        if n as u64 - 1 > u64::MAX - to {
            return Err(Deny::ToWrap);
        }
        if to < self.base {
            return Err(Deny::Bounds);
        }
        let at = to - self.base;
        let len = self.octets.len();
        if at > len as u64 || n > len - at as usize {
            return Err(Deny::Bounds);
        }
        if !self.rights.grant(right) {
            return Err(Deny::Rights);
        }
        Ok(at as usize)
    }

    /// Whether the region has the `n` tagged offsets from `to` on.
    pub(crate) fn spans(&self, to: u64, n: usize) -> bool
        ensures { IsTrue result ↔ Spans self.now.region to n }
    {
        if to < self.base {
            return false;
        }
        let at = to - self.base;
        let len = self.octets.len();
        at <= len as u64 && n <= len - at as usize
    }

    /// Whether a program keeps the region's octets.
    pub(crate) fn is_kept(&self) -> bool
        ensures { result ≡ self.now.region.kept }
    {
        self.octets.is_kept()
    }

    /// The region's octets, once it is stored no longer.
    pub(crate) fn into_octets(self) -> RegionOctets<A>
        ensures octets { octets_of result ≡ self.region.octets }
        ensures kept { is_kept result ≡ self.region.kept }
    {
        self.octets
    }

    /// All octets, for writing.
    #[tactic(auto, using(crate::proofs::KeptLemmas::octets_overwritten, crate::proofs::KeptLemmas::kept_overwritten))]
    pub(crate) fn octets_mut(&mut self) -> &mut [u8]
        ensures* lends { sem 𝓛 (LendsOctets A.row A.Allocator self.entry 0 result) }
        ensures value { result.now ≡ self.old.region.octets }
    {
        self.octets.as_mut_slice()
    }

    /// The `n` octets from `to` on, for writing.
    #[tactic(auto, using(crate::proofs::KeptLemmas::octets_written, crate::proofs::KeptLemmas::kept_written))]
    #[inline(always)]
    pub(crate) fn part_mut(&mut self, to: u64, n: usize) -> &mut [u8]
        requires { Spans self.old.region to n }
        ensures* lends { sem 𝓛 (LendsOctets A.row A.Allocator self.entry (to - self.old.region.base) result) }
        ensures value { result.now ≡ octets_from self.old.region to n }
    {
        let at = (to - self.base) as usize;
        self.octets.part_mut(at, n)
    }
}
