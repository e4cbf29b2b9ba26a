//! The slots of all domains, each with a region or free.
ghost use Rattle.std.specs.Prelude.{◌≡◌, ◌<◌, ◌≤◌, length, slice_index_or, slice_set};
ghost use Rattle.std.specs.Prelude.{Some, None, [], option_copied, is_some, IsTrue, OnOk, OnErr};
ghost use Rattle.std.specs.List.{position_or_len};
ghost use Rattle.std.specs.Option.{option_map};
ghost use Rattle.iw_memory.specs.Inside.{no_places, all_places, link_of, slots_in};
ghost use Rattle.iw_memory.specs.Inside.{free, is_free, first_free, with_room_at, SetsSlots};

use crate::domain_slots::DomainSlots;
use iw_octets::Stag;
use std::alloc::{AllocError, Allocator, Global};
use std::marker::Model;

/// A slot of a domain: the key of its region or of its next one, and where that region is stored.
#[derive(Clone, Copy)]
pub(crate) struct Slot {
    pub(crate) key: u8,
    pub(crate) at: Option<usize>,
}

/// The slots of each domain that was added.
#[derive(Drop)]
pub(crate) struct Domains<A: Allocator = Global> {
    // By domain number, up to the highest that was added.
    places: Vec<Option<DomainSlots<A>>, A>,
}

impl<A: Allocator> Model for Domains<A> {
    ghost use Rattle.std.specs.Prelude.{◌≤◌, length};
    ghost use Rattle.iw_memory.specs.Inside.{Slots, all_places};

    ghost Value = { Slots };

    ghost view = { λ d. all_places d.places.items };

    ghost invariant = { λ d. length d.places.items ≤ 256 };
}

impl<A: Allocator> Domains<A> {
    /// No domain.
    pub(crate) fn new(alloc: A) -> Domains<A>
        ensures { result ≡ no_places }
    {
        Domains {
            places: Vec::new(alloc),
        }
    }

    /// Whether the domain was added.
    pub(crate) fn has(&self, pd: u8) -> bool
        ensures { result ≡ is_some (slice_index_or self.now pd None) }
    {
        matches!(self.places.get(pd as usize), Some(Some(_)))
    }

    /// Adds a domain, which has no slots. An `Err` changes nothing.
    pub(crate) fn add(&mut self, pd: u8) -> Result<(), AllocError>
    where
        A: Copy,
        ensures ok { OnOk result (SetsSlots self.old self.new pd []) }
        ensures err { OnErr result (self.new ≡ self.old) }
    {
        reach(&mut self.places, pd)?;
        let alloc = *self.places.allocator();
        self.places[pd as usize] = Some(DomainSlots::new(alloc));
        Ok(())
    }

    /// The slots of a domain that was added.
    pub(crate) fn slots(&self, pd: u8) -> Option<&[Slot]>
        ensures { option_copied result ≡ slice_index_or self.now pd None }
    {
        match self.places.get(pd as usize) {
            Some(Some(slots)) => Some(slots.as_slice()),
            _ => None,
        }
    }

    /// Where the region that the STag names is stored.
    #[inline(always)]
    pub(crate) fn find(&self, stag: Stag) -> Option<usize>
        ensures { result ≡ link_of self.now stag }
    {
        find_in(&self.places, stag)
    }

    /// The domain's lowest slot with no region, which may be the one past its last.
    pub(crate) fn lowest_free(&self, pd: u8) -> Option<usize>
        ensures { result ≡ option_map (position_or_len is_free) (slice_index_or self.now pd None) }
    {
        lowest_free_in(&self.places, pd)
    }

    /// The domain's first slot with no region from this place on, of 1,024, or its lowest if each of those has one.
    pub(crate) fn first_free(&self, pd: u8, place: usize) -> usize
        requires { place < 1024 }
        ensures { result ≡ first_free (slots_in self.now pd) place }
    {
        first_free_in(&self.places, pd, place)
    }

    /// The key of the region in a domain's slot, or of the slot's next one.
    pub(crate) fn key(&self, pd: u8, slot: usize) -> u8
        ensures { result ≡ (slice_index_or (slots_in self.now pd) slot free).key }
    {
        key_in(&self.places, pd, slot)
    }

    /// Makes the slots of a domain that was added up to this one, if they are not there. An `Err` changes nothing.
    pub(crate) fn make_room(&mut self, pd: u8, slot: usize) -> Result<(), AllocError>
        requires added { IsTrue (is_some (slice_index_or self.old pd None)) }
        requires small { slot < 1024 }
        ensures ok { OnOk result (SetsSlots self.old self.new pd (with_room_at (slots_in self.old pd) slot)) }
        ensures err { OnErr result (self.new ≡ self.old) }
    {
        let Some(slots) = &mut self.places[pd as usize] else {
            unreachable!();
        };
        slots.room_for(slot)
    }

    /// Sets a slot that is there.
    pub(crate) fn set_slot(&mut self, domain: u8, slot: usize, state: Slot)
        requires { slot < length (slots_in self.old domain) }
        ensures { SetsSlots self.old self.new domain (slice_set (slots_in self.old domain) slot state) }
    {
        let Some(slots) = &mut self.places[domain as usize] else {
            unreachable!();
        };
        slots.set(slot, state);
    }
}

// Makes the places up to the domain's. No domain is added. An `Err` may leave some of the places.
fn reach<A: Allocator>(
    places: &mut Vec<Option<DomainSlots<A>>, A>,
    pd: u8,
) -> Result<(), AllocError>
    requires { length places.old.items ≤ 256 }
    ensures ok { OnOk result (pd < length places.new.items) }
    ensures few { length places.new.items ≤ 256 }
    ensures same { all_places places.new.items ≡ all_places places.old.items }
{
    while places.len() <= pd as usize {
        places.push(None)?;
    }
    Ok(())
}

#[inline(always)]
fn find_in<A: Allocator>(places: &[Option<DomainSlots<A>>], stag: Stag) -> Option<usize>
    ensures { result ≡ link_of (all_places places.now) stag }
{
    let Some(Some(slots)) = places.get(stag.domain() as usize) else {
        return None;
    };
    let slot = slots.as_slice().get(stag.slot() as usize)?;
    if slot.key == stag.key() {
        slot.at
    } else {
        None
    }
}

fn lowest_free_in<A: Allocator>(places: &[Option<DomainSlots<A>>], pd: u8) -> Option<usize>
    ensures { result ≡ option_map (position_or_len is_free) (slice_index_or (all_places places.now) pd None) }
{
    let Some(Some(slots)) = places.get(pd as usize) else {
        return None;
    };
    Some(slots.lowest_free())
}

fn first_free_in<A: Allocator>(places: &[Option<DomainSlots<A>>], pd: u8, place: usize) -> usize
    requires { place < 1024 }
    ensures { result ≡ first_free (slots_in (all_places places.now) pd) place }
{
    match places.get(pd as usize) {
        Some(Some(slots)) => slots.first_free(place),
        _ => place,
    }
}

fn key_in<A: Allocator>(places: &[Option<DomainSlots<A>>], pd: u8, slot: usize) -> u8
    ensures { result ≡ (slice_index_or (slots_in (all_places places.now) pd) slot free).key }
{
    match places.get(pd as usize) {
        Some(Some(slots)) => slots.key(slot),
        _ => 0,
    }
}
