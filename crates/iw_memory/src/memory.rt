//! The registered regions of an endpoint, by STag.
ghost use Rattle.std.specs.Prelude.{◌≡◌, ◌+◌, ◌-◌, ◌<◌, ◌≤◌, ◌^◌, [], true, length, vec_len};
ghost use Rattle.std.specs.Prelude.{None, Some, option_copied, is_some, IsSome, IfSome, IfNone, IsTrue, if◌then◌else◌};
ghost use Rattle.std.specs.Prelude.{is_ok, IfOk, IfErr, IsErr, OnOk, OnErr};
ghost use Rattle.std.specs.Result.{result_err, result_ok};
ghost use Rattle.std.specs.Option.{option_map};
ghost use Rattle.std.specs.Borrow.{sem};
ghost use Rattle.iw_kept.specs.Octets.{octets_of, is_kept};
ghost use Rattle.iw_memory.specs.Forms.{region_of, octets_refusal, own_refusal, kept_refusal};
ghost use Rattle.iw_memory.specs.Inside.{IsSound, AreShared, link_of, table_of};
ghost use Rattle.iw_memory.specs.Region.{most_octets};
ghost use Rattle.iw_memory.specs.Table.{region_at, deregistered};

use crate::domain_slots::MAX_SLOTS;
use crate::peer::Peer;
use crate::refusal::{
    Deny, DeregisterRefusal, DomainRefusal, InvalidateDeny, NoRegion, RegisterRefusal, StoreRefusal,
};
use crate::region::{Facts, Stored};
use crate::retiring::{is_limited, retire_all};
use crate::rights::{Right, Rights};
use crate::slots::{Domains, Slot};
use iw_kept::{Lodged, RegionOctets, own_back};
use iw_octets::{MAX_OCTETS, Stag};
use slab::Slab;
use std::alloc::{Allocator, Global};
use std::marker::Model;

/// How many octets a region has at most in memory that a program keeps: as many as a processor addresses.
const MOST_KEPT: usize = 1 << 46;

/// The registered regions of an endpoint, by domain. An STag names a region by its domain, its slot there, and a key
/// that tells the uses of the slot apart.
#[derive(Drop)]
pub struct Memory<A: Allocator = Global> {
    domains: Domains<A>,
    regions: Slab<Stored<A>, A>,
    // Whether a region was ever limited to a stream.
    limited: bool,
    // Empty: the part of no octets.
    nothing: Vec<u8, A>,
}

impl<A: Allocator> Model for Memory<A> {
    ghost use Rattle.iw_memory.specs.Table.{Table};

    ghost Value = { Table };

    ghost use Rattle.iw_memory.specs.Inside.{table_of, Keeps};

    ghost view = { λ m. table_of m.domains m.regions };

    ghost invariant = { λ m. Keeps m.domains m.regions m.limited m.nothing.items };
}

impl<A: Allocator> Memory<A> {
    ghost use Rattle.iw_memory.specs.Region.{facts_of, new_region, bound_region, in_domain, most_octets, IsWithinLimits};
    ghost use Rattle.iw_memory.specs.Part.{free_slot};
    ghost use Rattle.iw_memory.specs.Table.{empty, is_added, slots_of, domain_refusal, added};
    ghost use Rattle.iw_memory.specs.Table.{region_at, register_refusal, register_refusal_within, next_stag, registered, deregistered};
    ghost use Rattle.iw_memory.specs.Table.{drawn_stag, registered_at, registered_drawn};
    ghost use Rattle.iw_memory.specs.Inside.{IsVacant};
    ghost use Rattle.iw_memory.specs.Table.{denial, denial_for, octets_at, put, store_refusal};
    ghost use Rattle.iw_memory.specs.Table.{invalidate_denial, invalidate_denial_for, invalidated, retired};
    ghost use Rattle.iw_memory.specs.Laws.{IsWithin, HoldsLimits};
    ghost use Rattle.iw_memory.specs.TableLending.{LendsPart, LendsNothing, LendsOctetsAt, LendsLocal};

    /// A memory with no domain. It takes no memory.
    pub fn new(alloc: A) -> Memory<A>
    where
        A: Copy,
        ensures { result ≡ empty }
    {
        Memory {
            domains: Domains::new(alloc),
            regions: Slab::new(alloc),
            limited: false,
            nothing: Vec::new(alloc),
        }
    }

    /// Adds a domain with no region. It takes memory for a place for each number up to `pd`, if they have none yet.
    /// `NoMemory` comes only if no other refusal applies. An `Err` changes nothing.
    pub fn add_domain(&mut self, pd: u8) -> Result<(), DomainRefusal>
    where
        A: Copy,
        // The refusal that applies, or out of memory.
        ensures refused { IfSome (domain_refusal self.old pd) (λ refusal. IfErr result (λ e. e ≡ refusal) × IsErr result) }
        ensures memory { IfNone (domain_refusal self.old pd) (IfErr result (λ e. e ≡ DomainRefusal.NoMemory)) }
        ensures ok { OnOk result (self.new ≡ added self.old pd) }
        ensures err { OnErr result (self.new ≡ self.old) }
    {
        if pd == 0 {
            return Err(DomainRefusal::BadDomain);
        }
        if self.domains.has(pd) {
            return Err(DomainRefusal::DomainTaken);
        }
        let Ok(()) = self.domains.add(pd) else {
            return Err(DomainRefusal::NoMemory);
        };
        Ok(())
    }

    /// Whether the domain was added.
    pub fn has_domain(&self, pd: u8) -> bool
        ensures { result ≡ is_added self.now pd }
    {
        self.domains.has(pd)
    }

    /// Registers octets as a valid region in the domain's lowest free slot, and answers its STag. Its tagged offsets
    /// begin at `base`. The key is 0 at the slot's first use, and one more, modulo 256, at each later use.
    /// `NoMemory` comes only if no other refusal applies. An `Err` changes nothing, and gives the octets back.
    pub fn register(
        &mut self,
        pd: u8,
        base: u64,
        octets: Vec<u8, A>,
        rights: Rights,
    ) -> Result<Stag, (RegisterRefusal, Vec<u8, A>)>
        // The refusal that applies, or out of memory.
        ensures refused { IfSome (register_refusal self.old pd base (length octets.items))
            (λ refusal. IfErr result (λ e. e.0 ≡ refusal) × IsErr result) }
        ensures memory { IfNone (register_refusal self.old pd base (length octets.items))
            (IfErr result (λ e. e.0 ≡ RegisterRefusal.NoMemory)) }
        ensures back { IfErr result (λ e. e.1 ≡ octets) }
        ensures err { OnErr result (self.new ≡ self.old) }

        ensures stag { IfOk result (λ stag. stag ≡ next_stag self.old pd) }
        ensures ok { OnOk result (self.new ≡ registered self.old pd (new_region base octets.items rights)) }
    {
        own_back(self.register_octets(pd, None, base, RegionOctets::Own(octets), rights))
    }

    /// Registers octets as [`register`](Self::register) does, for one stream of the domain alone (RFC 5042 6.1.1). To
    /// the peer of any other stream the region is as one of another domain. The refusals are those of `register`. An
    /// `Err` changes nothing, and gives the octets back.
    pub fn register_for(
        &mut self,
        pd: u8,
        stream: u32,
        base: u64,
        octets: Vec<u8, A>,
        rights: Rights,
    ) -> Result<Stag, (RegisterRefusal, Vec<u8, A>)>
        // The refusal that applies, or out of memory.
        ensures refused { IfSome (register_refusal self.old pd base (length octets.items))
            (λ refusal. IfErr result (λ e. e.0 ≡ refusal) × IsErr result) }
        ensures memory { IfNone (register_refusal self.old pd base (length octets.items))
            (IfErr result (λ e. e.0 ≡ RegisterRefusal.NoMemory)) }
        ensures back { IfErr result (λ e. e.1 ≡ octets) }
        ensures err { OnErr result (self.new ≡ self.old) }

        ensures stag { IfOk result (λ stag. stag ≡ next_stag self.old pd) }
        ensures ok { OnOk result (self.new ≡ registered self.old pd (bound_region stream base octets.items rights)) }
    {
        own_back(self.register_octets(pd, Some(stream), base, RegionOctets::Own(octets), rights))
    }

    /// Registers octets as [`register`](Self::register) does, under an STag that a number draws, so that no peer guesses it
    /// (RFC 5042 6.1.1): hand in 32 random bits, others at each call, which nobody can foresee.
    ///
    /// The region gets the first free slot from the place on that the low ten bits tell, of the domain's 1,024, or the
    /// lowest if none is free there. The other bits choose the key, any of the 255 that are not the slot's last one. The
    /// first such region of a domain may take the memory for all its slots, 1,024 of 24 octets. It takes constant time.
    ///
    /// The refusals are those of `register`. An `Err` changes nothing, and gives the octets back.
    pub fn register_drawn(
        &mut self,
        pd: u8,
        base: u64,
        octets: Vec<u8, A>,
        rights: Rights,
        drawn: u32,
    ) -> Result<Stag, (RegisterRefusal, Vec<u8, A>)>
        // The refusal that applies, or out of memory.
        ensures refused { IfSome (register_refusal self.old pd base (length octets.items))
            (λ refusal. IfErr result (λ e. e.0 ≡ refusal) × IsErr result) }
        ensures memory { IfNone (register_refusal self.old pd base (length octets.items))
            (IfErr result (λ e. e.0 ≡ RegisterRefusal.NoMemory)) }
        ensures back { IfErr result (λ e. e.1 ≡ octets) }
        ensures err { OnErr result (self.new ≡ self.old) }

        ensures stag { IfOk result (λ stag. stag ≡ drawn_stag self.old pd drawn) }
        ensures ok { OnOk result (self.new ≡ registered_drawn self.old pd drawn (new_region base octets.items rights)) }
    {
        own_back(self.draw_octets(pd, None, base, RegionOctets::Own(octets), rights, drawn))
    }

    /// Registers octets as [`register_drawn`](Self::register_drawn) does, for one stream of the domain alone, as
    /// [`register_for`](Self::register_for) does. The refusals are those of `register`. An `Err` changes nothing, and gives
    /// the octets back.
    pub fn register_drawn_for(
        &mut self,
        pd: u8,
        stream: u32,
        base: u64,
        octets: Vec<u8, A>,
        rights: Rights,
        drawn: u32,
    ) -> Result<Stag, (RegisterRefusal, Vec<u8, A>)>
        // The refusal that applies, or out of memory.
        ensures refused { IfSome (register_refusal self.old pd base (length octets.items))
            (λ refusal. IfErr result (λ e. e.0 ≡ refusal) × IsErr result) }
        ensures memory { IfNone (register_refusal self.old pd base (length octets.items))
            (IfErr result (λ e. e.0 ≡ RegisterRefusal.NoMemory)) }
        ensures back { IfErr result (λ e. e.1 ≡ octets) }
        ensures err { OnErr result (self.new ≡ self.old) }

        ensures stag { IfOk result (λ stag. stag ≡ drawn_stag self.old pd drawn) }
        ensures ok { OnOk result (self.new ≡ registered_drawn self.old pd drawn (bound_region stream base octets.items rights)) }
    {
        own_back(self.draw_octets(
            pd,
            Some(stream),
            base,
            RegionOctets::Own(octets),
            rights,
            drawn,
        ))
    }

    /// Registers octets in either form under the STag that is drawn, for this stream of the domain, or for all of them.
    pub fn draw_octets(
        &mut self,
        pd: u8,
        bound: Option<u32>,
        base: u64,
        octets: RegionOctets<A>,
        rights: Rights,
        drawn: u32,
    ) -> Result<Stag, (RegisterRefusal, RegionOctets<A>)>
        ensures refused { IfSome (octets_refusal self.old pd base octets) (λ refusal. IfErr result (λ e. e.0 ≡ refusal) × IsErr result) }
        ensures memory { IfNone (octets_refusal self.old pd base octets) (IfErr result (λ e. e.0 ≡ RegisterRefusal.NoMemory)) }
        ensures back { IfErr result (λ e. e.1 ≡ octets) }
        ensures err { OnErr result (self.new ≡ self.old) }
        ensures stag { IfOk result (λ stag. stag ≡ drawn_stag self.old pd drawn) }
        ensures ok { OnOk result (self.new ≡ registered_drawn self.old pd drawn (region_of base octets rights bound)) }
    {
        match self.drawn_stag(pd, base, octets.len(), octets.is_kept(), drawn) {
            Err(refusal) => Err((refusal, octets)),
            Ok(stag) => self.hold(stag, bound, base, octets, rights),
        }
    }

    // The STag that is drawn for the next region of the domain.
    fn drawn_stag(
        &self,
        pd: u8,
        base: u64,
        len: usize,
        kept: bool,
        drawn: u32,
    ) -> Result<Stag, RegisterRefusal>
        ensures refused { result_err result ≡ register_refusal_within (most_octets kept) self.now pd base len }
        ensures stag { IfOk result (λ stag. stag ≡ drawn_stag self.now pd drawn) }
        ensures vacant { IfOk result (λ stag. IsVacant self.now stag) }
        ensures limits { OnOk result (IsWithinLimits base len) }
    {
        match self.slot_for(pd, base, len, kept) {
            Err(refusal) => Err(refusal),
            Ok(_) => {
                let slot = self.domains.first_free(pd, (drawn % 1024) as usize);
                let turn = (drawn / 1024 % 255) as u8;
                let turned = self.domains.key(pd, slot).wrapping_add(turn);
                Ok(Stag::new(pd, slot as u16, turned))
            }
        }
    }

    /// Registers octets in either form, for this stream of the domain, or for all of them.
    pub fn register_octets(
        &mut self,
        pd: u8,
        bound: Option<u32>,
        base: u64,
        octets: RegionOctets<A>,
        rights: Rights,
    ) -> Result<Stag, (RegisterRefusal, RegionOctets<A>)>
        ensures refused { IfSome (octets_refusal self.old pd base octets) (λ refusal. IfErr result (λ e. e.0 ≡ refusal) × IsErr result) }
        ensures memory { IfNone (octets_refusal self.old pd base octets) (IfErr result (λ e. e.0 ≡ RegisterRefusal.NoMemory)) }
        ensures back { IfErr result (λ e. e.1 ≡ octets) }
        ensures err { OnErr result (self.new ≡ self.old) }
        ensures stag { IfOk result (λ stag. stag ≡ next_stag self.old pd) }
        ensures ok { OnOk result (self.new ≡ registered self.old pd (region_of base octets rights bound)) }
    {
        match self.next_stag(pd, base, octets.len(), octets.is_kept()) {
            Err(refusal) => Err((refusal, octets)),
            Ok(stag) => self.hold(stag, bound, base, octets, rights),
        }
    }

    // The STag that the next region of the domain gets.
    fn next_stag(&self, pd: u8, base: u64, len: usize, kept: bool) -> Result<Stag, RegisterRefusal>
        ensures refused { result_err result ≡ register_refusal_within (most_octets kept) self.now pd base len }
        ensures stag { IfOk result (λ stag. stag ≡ next_stag self.now pd) }
        ensures vacant { IfOk result (λ stag. IsVacant self.now stag) }
        ensures limits { OnOk result (IsWithinLimits base len) }
    {
        match self.slot_for(pd, base, len, kept) {
            Err(refusal) => Err(refusal),
            Ok(slot) => {
                let key = self.domains.key(pd, slot);
                Ok(Stag::new(pd, slot as u16, key))
            }
        }
    }

    // The slot that the next region of the domain gets.
    fn slot_for(&self, pd: u8, base: u64, len: usize, kept: bool) -> Result<usize, RegisterRefusal>
        ensures refused { result_err result ≡ register_refusal_within (most_octets kept) self.now pd base len }
        ensures slot { IfOk result (λ slot. (slot ≡ free_slot (slots_of self.now pd)) × (slot < 1024)) }
        ensures limits { OnOk result (IsWithinLimits base len) }
    {
        let slot = match self.domains.lowest_free(pd) {
            None => return Err(RegisterRefusal::NoDomain),
            Some(slot) => slot,
        };
        if slot >= MAX_SLOTS {
            return Err(RegisterRefusal::DomainFull);
        }
        if len > most_octets(kept) {
            return Err(RegisterRefusal::TooLong);
        }
        if len > 0 && len as u64 - 1 > u64::MAX - base {
            return Err(RegisterRefusal::BaseWrap);
        }
        Ok(slot)
    }

    // Stores a region under an STag whose slot has none. An `Err` changes nothing, and gives the octets back.
    fn hold(
        &mut self,
        stag: Stag,
        bound: Option<u32>,
        base: u64,
        octets: RegionOctets<A>,
        rights: Rights,
    ) -> Result<Stag, (RegisterRefusal, RegionOctets<A>)>
        requires vacant { IsVacant self.old stag }
        requires limits { IsWithinLimits base (length (octets_of octets)) }
        ensures stag { IfOk result (λ given. given ≡ stag) }
        ensures ok { OnOk result (self.new ≡ registered_at self.old stag (region_of base octets rights bound)) }
        ensures memory { IfErr result (λ e. e.0 ≡ RegisterRefusal.NoMemory) }
        ensures back { IfErr result (λ e. e.1 ≡ octets) }
        ensures err { OnErr result (self.new ≡ self.old) }
    {
        let pd = stag.domain();
        let slot = stag.slot();
        if self.regions.reserve(1).is_err() {
            return Err((RegisterRefusal::NoMemory, octets));
        }
        match self.domains.make_room(pd, slot as usize) {
            Err(_) => return Err((RegisterRefusal::NoMemory, octets)),
            Ok(()) => {}
        }
        let at = self.regions.insert_reserved(Stored {
            domain: pd,
            slot,
            base,
            octets,
            rights,
            bound,
            valid: true,
        });
        let held = Slot {
            key: stag.key(),
            at: Some(at),
        };
        self.domains.set_slot(pd, slot as usize, held);
        self.limited = is_limited(self.limited, bound);
        Ok(stag)
    }

    /// Takes a region out, valid or not, and gives its octets back, in whichever memory they are. An `Err` changes nothing.
    pub fn take_region(&mut self, stag: Stag) -> Result<RegionOctets<A>, NoRegion>
        ensures octets { option_map (λ o. octets_of o) (result_ok result)
            ≡ option_map (λ r. r.octets) (region_at self.old stag) }
        ensures kept { option_map (λ o. is_kept o) (result_ok result)
            ≡ option_map (λ r. r.kept) (region_at self.old stag) }
        ensures after { self.new ≡ deregistered self.old stag }
        ensures err { OnErr result (self.new ≡ self.old) }
    {
        let Some(at) = self.domains.find(stag) else {
            return Err(NoRegion);
        };
        Ok(take_at(&mut self.domains, &mut self.regions, stag, at))
    }

    /// Takes a region out, valid or not, and gives the vector back that has its octets. `OtherMemory`: a program keeps them
    /// ([`deregister_kept`](Self::deregister_kept)). An `Err` changes nothing.
    pub fn deregister(&mut self, stag: Stag) -> Result<Vec<u8, A>, DeregisterRefusal>
        ensures refused { result_err result ≡ own_refusal self.old stag }
        ensures octets { IfOk result (λ v. Some v.items ≡ option_map (λ r. r.octets) (region_at self.old stag)) }
        ensures ok { OnOk result (self.new ≡ deregistered self.old stag) }
        ensures err { OnErr result (self.new ≡ self.old) }
    {
        match self.take_form(stag, false) {
            Ok(RegionOctets::Own(octets)) => Ok(octets),
            Ok(RegionOctets::Kept(_)) => unreachable!(),
            Err(refusal) => Err(refusal),
        }
    }

    /// Takes a region out, valid or not, and gives the memory back that has its octets and that a program keeps.
    /// `OtherMemory`: they are a vector's ([`deregister`](Self::deregister)). An `Err` changes nothing.
    pub fn deregister_kept(&mut self, stag: Stag) -> Result<Vec<u8, Lodged>, DeregisterRefusal>
        ensures refused { result_err result ≡ kept_refusal self.old stag }
        ensures octets { IfOk result (λ v. Some v.items ≡ option_map (λ r. r.octets) (region_at self.old stag)) }
        ensures ok { OnOk result (self.new ≡ deregistered self.old stag) }
        ensures err { OnErr result (self.new ≡ self.old) }
    {
        match self.take_form(stag, true) {
            Ok(RegionOctets::Kept(octets)) => Ok(octets),
            Ok(RegionOctets::Own(_)) => unreachable!(),
            Err(refusal) => Err(refusal),
        }
    }

    // Takes a region out, valid or not, if its octets are in this form: memory that a program keeps, or a vector's. An
    // `Err` changes nothing.
    fn take_form(&mut self, stag: Stag, kept: bool) -> Result<RegionOctets<A>, DeregisterRefusal>
        ensures refused { result_err result ≡ (if kept then kept_refusal self.old stag else own_refusal self.old stag) }
        ensures octets { IfOk result (λ o. Some (octets_of o) ≡ option_map (λ r. r.octets) (region_at self.old stag)) }
        ensures form { IfOk result (λ o. is_kept o ≡ kept) }
        ensures ok { OnOk result (self.new ≡ deregistered self.old stag) }
        ensures err { OnErr result (self.new ≡ self.old) }
    {
        let Some(at) = self.domains.find(stag) else {
            return Err(DeregisterRefusal::NoRegion);
        };
        if self.regions[at].is_kept() != kept {
            return Err(DeregisterRefusal::OtherMemory);
        }
        Ok(take_at(&mut self.domains, &mut self.regions, stag, at))
    }

    /// Ends the use of a region by peers. It stays registered, and keeps its slot; an invalid region stays as it is.
    /// An `Err` changes nothing.
    pub fn invalidate(&mut self, stag: Stag) -> Result<(), NoRegion>
        ensures found { is_ok result ≡ is_some (region_at self.old stag) }
        ensures after { self.new ≡ invalidated self.old stag }
        ensures err { OnErr result (self.new ≡ self.old) }
    {
        let Some(at) = self.domains.find(stag) else {
            return Err(NoRegion);
        };
        let stored = &mut self.regions[at];
        stored.valid = false;
        Ok(())
    }

    /// Ends the use of every region of the peer's domain that is limited to its stream, because the stream was closed.
    /// They stay registered, and keep their slots. It takes no memory. It walks the domain's slots once, at most 1,024, or
    /// none if no region was ever limited to a stream.
    pub fn retire(&mut self, peer: Peer)
        ensures { self.new ≡ retired self.old peer }
    {
        // What is limited to no stream stays as it is.
        if !self.limited {
            return;
        }
        let Some(slots) = self.domains.slots(peer.domain) else {
            return;
        };
        retire_all(&mut self.regions, slots, peer.stream);
    }

    /// Invalidates a region because a peer in domain `pd`, whose stream has no number, asks for it, by a Send with
    /// Invalidate (RFC 5040 5.3). An `Err` changes nothing.
    pub fn invalidate_remote(&mut self, pd: u8, stag: Stag) -> Result<(), InvalidateDeny>
        ensures denied { result_err result ≡ invalidate_denial self.old pd stag }
        ensures ok { OnOk result (self.new ≡ invalidated self.old stag) }
        ensures err { OnErr result (self.new ≡ self.old) }
    {
        self.invalidate_remote_for(Peer::in_domain(pd), stag)
    }

    /// Invalidates a region because this peer asks for it, by a Send with Invalidate (RFC 5040 5.3). An `Err` changes
    /// nothing.
    pub fn invalidate_remote_for(&mut self, peer: Peer, stag: Stag) -> Result<(), InvalidateDeny>
        ensures denied { result_err result ≡ invalidate_denial_for self.old peer stag }
        ensures ok { OnOk result (self.new ≡ invalidated self.old stag) }
        ensures err { OnErr result (self.new ≡ self.old) }
    {
        if peer.domain != stag.domain() {
            return Err(InvalidateDeny::NotAssociated);
        }
        let Some(stored) = self.stored(stag) else {
            return Err(InvalidateDeny::Invalid);
        };
        if !stored.is_in_scope(peer.stream) {
            return Err(InvalidateDeny::NotAssociated);
        }
        if !stored.valid {
            return Err(InvalidateDeny::Invalid);
        }
        if !stored.rights.invalidate {
            return Err(InvalidateDeny::NotAllowed);
        }
        let _ = self.invalidate(stag);
        Ok(())
    }

    /// For the prover alone: it does nothing. Its clause states the limits that the memory keeps.
    pub fn limits(&self)
        ensures { HoldsLimits self.now }
    {
        let _ = &self.domains;
    }

    /// The facts of a region, valid or not. `None` if the STag names none.
    pub fn facts(&self, stag: Stag) -> Option<Facts>
        ensures facts { result ≡ option_map facts_of (region_at self.now stag) }
        ensures limits { IfSome result (λ facts. IsWithinLimits facts.base facts.len) }
    {
        let stored = self.stored(stag)?;
        Some(Facts {
            base: stored.base,
            len: stored.octets.len(),
            rights: stored.rights,
            bound: stored.bound,
            valid: stored.valid,
        })
    }

    /// Whether a program keeps the memory of a region's octets. `None` if the STag names none.
    pub fn is_kept(&self, stag: Stag) -> Option<bool>
        ensures { result ≡ option_map (λ r. r.kept) (region_at self.now stag) }
    {
        let stored = self.stored(stag)?;
        Some(stored.is_kept())
    }

    /// A region's octets, for its owner. `None` if the STag names none.
    pub fn local(&self, stag: Stag) -> Option<&[u8]>
        ensures { option_copied result ≡ option_map (λ r. r.octets) (region_at self.now stag) }
    {
        let stored = self.stored(stag)?;
        Some(stored.octets.as_slice())
    }

    /// A region's octets for writing, for its owner. The STag must name a region.
    pub fn local_mut(&mut self, stag: Stag) -> &mut [u8]
        requires { IsSome (region_at self.old stag) }
        ensures* lends { sem 𝓛 (LendsLocal A.row A.Allocator self.entry stag result) }
        ensures octets { Some result.now ≡ option_map (λ r. r.octets) (region_at self.old stag) }
    {
        let key = self.domains.find(stag).unwrap();
        self.regions[key].octets_mut()
    }

    /// Writes octets from tagged offset `to` on, for the region's owner. An `Err` changes nothing.
    pub fn store(&mut self, stag: Stag, to: u64, octets: &[u8]) -> Result<(), StoreRefusal>
        ensures refused { result_err result ≡ store_refusal self.old stag to (length octets.now) }
        ensures ok { OnOk result (self.new ≡ put self.old stag to octets.now) }
        ensures err { OnErr result (self.new ≡ self.old) }
    {
        let Some(stored) = self.stored(stag) else {
            return Err(StoreRefusal::NoRegion);
        };
        if !stored.spans(to, octets.len()) {
            return Err(StoreRefusal::Outside);
        }
        self.octets_mut(stag, to, octets.len())
            .copy_from_slice(octets);
        Ok(())
    }

    // The stored region that the STag names.
    #[inline(always)]
    fn stored(&self, stag: Stag) -> Option<&Stored<A>>
        ensures region { option_map (λ s. s.now.region) result ≡ region_at self.now stag }
        ensures limits { IfSome result (λ s. IsWithinLimits s.now.region.base (length s.now.region.octets)) }
    {
        let at = self.domains.find(stag)?;
        self.regions.get(at)
    }

    /// [`part_for`](Self::part_for) a peer in domain `pd` whose stream has no number.
    pub fn part(&self, pd: u8, stag: Stag, to: u64, n: usize, right: Right) -> Result<&[u8], Deny>
        ensures denied { result_err result ≡ denial self.now pd stag to n right }
        ensures octets { IfOk result (λ part. part.now ≡ octets_at self.now stag to n) }
    {
        self.part_for(Peer::in_domain(pd), stag, to, n, right)
    }

    /// The `n` octets of the region from tagged offset `to` on, if this peer may use them so. If `n` is 0, nothing is
    /// checked, and the part is empty.
    pub fn part_for(
        &self,
        peer: Peer,
        stag: Stag,
        to: u64,
        n: usize,
        right: Right,
    ) -> Result<&[u8], Deny>
        ensures denied { result_err result ≡ denial_for self.now peer stag to n right }
        ensures octets { IfOk result (λ part. part.now ≡ octets_at self.now stag to n) }
    {
        if n == 0 {
            return Ok(&[]);
        }
        let (stored, at) = self.admit(peer, stag, to, n, right)?;
        Ok(&stored.octets.as_slice()[at..at + n])
    }

    /// [`check_for`](Self::check_for) a peer in domain `pd` whose stream has no number.
    #[inline(always)]
    pub fn check(&self, pd: u8, stag: Stag, to: u64, n: usize, right: Right) -> Result<(), Deny>
        ensures { result_err result ≡ denial self.now pd stag to n right }
    {
        self.check_for(Peer::in_domain(pd), stag, to, n, right)
    }

    /// Whether this peer may use the `n` octets of the region from tagged offset `to` on so. If `n` is 0, nothing is
    /// checked. It takes constant time.
    #[inline(always)]
    pub fn check_for(
        &self,
        peer: Peer,
        stag: Stag,
        to: u64,
        n: usize,
        right: Right,
    ) -> Result<(), Deny>
        ensures { result_err result ≡ denial_for self.now peer stag to n right }
    {
        if n > 0 {
            self.admit(peer, stag, to, n, right)?;
        }
        Ok(())
    }

    // The stored region, and the index of the octet at tagged offset `to`, if the peer may use the octets so.
    #[inline(always)]
    fn admit(
        &self,
        peer: Peer,
        stag: Stag,
        to: u64,
        n: usize,
        right: Right,
    ) -> Result<(&Stored<A>, usize), Deny>
        requires { 0 < n }
        ensures denied { result_err result ≡ denial_for self.now peer stag to n right }
        ensures stored { IfOk result (λ place. region_at self.now stag ≡ Some place.0.now.region) }
        ensures at { IfOk result (λ place. place.1 ≡ to - place.0.now.region.base) }
        ensures within { IfOk result (λ place. place.1 + n ≤ length place.0.now.region.octets) }
    {
        if stag.domain() != peer.domain {
            return Err(Deny::NotAssociated);
        }
        let Some(stored) = self.stored(stag) else {
            return Err(Deny::Invalid);
        };
        let at = stored.place(peer.stream, to, n, right)?;
        Ok((stored, at))
    }

    /// [`part_mut_for`](Self::part_mut_for) a peer in domain `pd` whose stream has no number. `check` must have answered
    /// `Ok` to the same arguments.
    #[inline(always)]
    pub fn part_mut(&mut self, pd: u8, stag: Stag, to: u64, n: usize, right: Right) -> &mut [u8]
        requires { denial self.old pd stag to n right ≡ None }
        ensures* lends { sem 𝓛 (LendsPart A.row A.Allocator self.entry stag to n result) }
        ensures octets { result.now ≡ octets_at self.old stag to n }
    {
        self.part_mut_for(Peer::in_domain(pd), stag, to, n, right)
    }

    /// The `n` octets of the region from tagged offset `to` on, for writing. `check_for` must have answered `Ok` to the
    /// same arguments, as it does if `n` is 0. It takes constant time.
    #[inline(always)]
    pub fn part_mut_for(
        &mut self,
        peer: Peer,
        stag: Stag,
        to: u64,
        n: usize,
        right: Right,
    ) -> &mut [u8]
        requires { denial_for self.old peer stag to n right ≡ None }
        ensures* lends { sem 𝓛 (LendsPart A.row A.Allocator self.entry stag to n result) }
        ensures octets { result.now ≡ octets_at self.old stag to n }
    {
        if n == 0 {
            self.no_octets()
        } else {
            self.octets_mut(stag, to, n)
        }
    }

    /// [`place_for`](Self::place_for) a peer in domain `pd` whose stream has no number.
    pub fn place(
        &mut self,
        pd: u8,
        stag: Stag,
        to: u64,
        octets: &[u8],
        right: Right,
    ) -> Result<(), Deny>
        ensures denied { result_err result ≡ denial self.old pd stag to (length octets.now) right }
        ensures ok { OnOk result (self.new ≡ put self.old stag to octets.now) }
        ensures err { OnErr result (self.new ≡ self.old) }
    {
        self.place_for(Peer::in_domain(pd), stag, to, octets, right)
    }

    /// Places this peer's octets in the region from tagged offset `to` on. An `Err` changes nothing.
    pub fn place_for(
        &mut self,
        peer: Peer,
        stag: Stag,
        to: u64,
        octets: &[u8],
        right: Right,
    ) -> Result<(), Deny>
        ensures denied { result_err result ≡ denial_for self.old peer stag to (length octets.now) right }
        ensures ok { OnOk result (self.new ≡ put self.old stag to octets.now) }
        ensures err { OnErr result (self.new ≡ self.old) }
    {
        self.check_for(peer, stag, to, octets.len(), right)?;
        self.part_mut_for(peer, stag, to, octets.len(), right)
            .copy_from_slice(octets);
        Ok(())
    }

    // The part of no octets.
    fn no_octets(&mut self) -> &mut [u8]
        ensures* lends { sem 𝓛 (LendsNothing A.row A.Allocator self.entry result) }
        ensures octets { result.now ≡ [] }
    {
        self.nothing.as_mut_slice()
    }

    // The `n` octets of the region from `to` on for writing.
    #[inline(always)]
    fn octets_mut(&mut self, stag: Stag, to: u64, n: usize) -> &mut [u8]
        requires { IsWithin self.old stag to n }
        ensures* lends { sem 𝓛 (LendsOctetsAt A.row A.Allocator self.entry stag to result) }
        ensures octets { result.now ≡ octets_at self.old stag to n }
    {
        let key = self.domains.find(stag).unwrap();
        self.regions[key].part_mut(to, n)
    }
}

// How many octets a region has at most, if a program keeps its memory, or else.
fn most_octets(kept: bool) -> usize
    ensures is { result ≡ most_octets kept }
    ensures small { result ≤ 2 ^ 46 }
{
    if kept { MOST_KEPT } else { MAX_OCTETS }
}

// Takes out the region that the STag names, which is stored there.
#[inline(always)]
fn take_at<A: Allocator>(
    domains: &mut Domains<A>,
    regions: &mut Slab<Stored<A>, A>,
    stag: Stag,
    at: usize,
) -> RegionOctets<A>
    requires sound { IsSound domains.old regions.old }
    requires found { link_of domains.old stag ≡ Some at }
    ensures octets { Some (octets_of result) ≡ option_map (λ r. r.octets) (region_at (table_of domains.old regions.old) stag) }
    ensures kept { Some (is_kept result) ≡ option_map (λ r. r.kept) (region_at (table_of domains.old regions.old) stag) }
    ensures after { table_of domains.new regions.new ≡ deregistered (table_of domains.old regions.old) stag }
    ensures sound { IsSound domains.new regions.new }
    ensures shared { AreShared regions.old → AreShared regions.new }
{
    let stored = regions.remove(at);
    let free = Slot {
        key: stag.key().wrapping_add(1),
        at: None,
    };
    domains.set_slot(stag.domain(), stag.slot() as usize, free);
    stored.into_octets()
}
