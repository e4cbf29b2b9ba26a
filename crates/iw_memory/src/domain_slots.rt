//! The slots of one domain, which of them are free, and their keys.
ghost use Rattle.std.specs.Prelude.{◌≡◌, ◌<◌, ◌≤◌, ◌-◌, ◌++◌, length, slice_index_or, slice_set};
ghost use Rattle.std.specs.Prelude.{[], OnOk, OnErr, replicate, vec_len, vec_capacity};
ghost use Rattle.std.specs.List.{position_or_len};
ghost use Rattle.iw_memory.specs.Inside.{free, is_free, first_free, with_room_at};

use crate::marks::Marks;
use crate::slots::Slot;
use std::alloc::{AllocError, Allocator, Global};
use std::marker::Model;

// The most slots of a domain.
pub(crate) const MAX_SLOTS: usize = 1024;

/// The slots of a domain, of which the free ones are marked, so that none is walked to find the lowest.
#[derive(Drop)]
pub(crate) struct DomainSlots<A: Allocator = Global> {
    slots: Vec<Slot, A>,
    marks: Marks,
}

impl<A: Allocator> Model for DomainSlots<A> {
    ghost use Rattle.std.specs.Prelude.{List};
    ghost use Rattle.iw_memory.specs.declared.slots.Slot.{Slot};

    ghost Value = { List Slot };

    ghost use Rattle.iw_memory.specs.Marked.{AreMarked};

    ghost view = { λ d. d.slots.items };

    ghost invariant = { λ d. AreMarked d.slots.items d.marks.words };
}

impl<A: Allocator> DomainSlots<A> {
    /// No slots.
    pub(crate) fn new(alloc: A) -> DomainSlots<A>
        ensures { result ≡ [] }
    {
        DomainSlots {
            slots: Vec::new(alloc),
            marks: Marks::new(),
        }
    }

    /// All slots.
    #[inline(always)]
    pub(crate) fn as_slice(&self) -> &[Slot]
        ensures { result.now ≡ self.now }
    {
        self.slots.as_slice()
    }

    /// The lowest slot with no region, which may be the one past the last.
    pub(crate) fn lowest_free(&self) -> usize
        ensures { result ≡ position_or_len is_free self.now }
    {
        self.marks.lowest()
    }

    /// The first slot with no region from this place on, of 1,024, or the lowest if each of those has one.
    pub(crate) fn first_free(&self, place: usize) -> usize
        requires { place < 1024 }
        ensures { result ≡ first_free self.now place }
    {
        let slot = self.marks.first_from(place);
        if slot < MAX_SLOTS {
            slot
        } else {
            self.marks.lowest()
        }
    }

    /// The key of the region in a slot, or of its next one.
    pub(crate) fn key(&self, slot: usize) -> u8
        ensures { result ≡ (slice_index_or self.now slot free).key }
    {
        match self.slots.get(slot) {
            Some(slot) => slot.key,
            None => 0,
        }
    }

    /// Makes the slots up to this one that are not there. An `Err` changes nothing.
    pub(crate) fn room_for(&mut self, slot: usize) -> Result<(), AllocError>
        requires { slot < 1024 }
        ensures ok { OnOk result (self.new ≡ with_room_at self.old slot) }
        ensures err { OnErr result (self.new ≡ self.old) }
    {
        make_room(&mut self.slots, slot)
    }

    /// Sets a slot that is there.
    pub(crate) fn set(&mut self, slot: usize, state: Slot)
        requires { slot < length self.old }
        ensures { self.new ≡ slice_set self.old slot state }
    {
        self.marks.set(slot, state.at.is_none());
        self.slots[slot] = state;
    }
}

// Makes the slots up to this one that are not there. More than one take the memory for all 1,024. An `Err` changes nothing.
fn make_room<A: Allocator>(slots: &mut Vec<Slot, A>, slot: usize) -> Result<(), AllocError>
    requires { slot < 1024 }
    ensures ok { OnOk result (slots.new.items ≡ with_room_at slots.old.items slot) }
    ensures err { OnErr result (slots.new.items ≡ slots.old.items) }
{
    let len = slots.len();
    if slot < len {
        return Ok(());
    }
    if slot == len {
        slots.push(Slot { key: 0, at: None })?;
        return Ok(());
    }
    slots.reserve_exact(MAX_SLOTS - len)?;
    fill_to(slots, slot + 1);
    Ok(())
}

// Appends slots that were not used yet, up to a length for which there is room.
fn fill_to<A: Allocator>(slots: &mut Vec<Slot, A>, len: usize)
    requires longer { vec_len slots.old ≤ len }
    requires room { len ≤ vec_capacity slots.old }
    ensures { slots.new.items ≡ slots.old.items ++ replicate (len - vec_len slots.old) free }
{
    'slots: while slots.len() < len {
        slots.push_reserved(Slot { key: 0, at: None });
    }
}
