//! The pools of receive buffers that streams of a domain share, by domain.
ghost use Rattle.std.specs.Prelude.{◌≡◌, ◌+◌, ◌<◌, ◌≤◌, ◌^◌, [], length, slice_index_or, slice_set, IfOk, OnOk, OnErr, None, Some};
ghost use Rattle.std.specs.Option.{option_copied, option_copied_mut};
ghost use Rattle.std.specs.Borrow.{sem};
ghost use Rattle.iw_endpoint.specs.Endpoint.{domain_numbers};
ghost use Rattle.iw_endpoint.specs.Numbers.{filled};
ghost use Rattle.iw_stream.specs.Kept.{IsWithinBuffer};
ghost use Rattle.iw_stream.specs.Stream.{sees};
ghost use Rattle.iw_stream.specs.Work.{IsTry, task, work_step, table_worked, worked_with};

use iw_memory::Memory;
use iw_octets::Octets;
use iw_stream::{Step, Stream};
use iw_untagged::SharedQueue;
use std::alloc::{AllocError, Allocator, Global};
use std::collections::VecDeque;
use std::marker::Model;

/// The pools of receive buffers, by domain. Memory is taken when a domain is given one.
#[derive(Drop)]
pub(crate) struct Pools<A: Allocator = Global> {
    // By domain, up to the last that was given a pool.
    places: Vec<Option<SharedQueue<A>>, A>,
}

impl<A: Allocator> Model for Pools<A> {
    ghost use Rattle.std.specs.Prelude.{◌≤◌, List, Option, length};
    ghost use Rattle.iw_endpoint.specs.Endpoint.{Pool, domain_numbers};
    ghost use Rattle.iw_endpoint.specs.Numbers.{filled};

    ghost Value = { List (Option Pool) };

    ghost view = { λ p. filled domain_numbers p.places.items };

    ghost invariant = { λ p. length p.places.items ≤ domain_numbers };
}

// Makes places up to that of the domain. An `Err` means out of memory, and may leave some of them made.
fn reach<A: Allocator>(
    places: &mut Vec<Option<SharedQueue<A>>, A>,
    pd: u8,
) -> Result<(), AllocError>
    requires { length places.old.items ≤ domain_numbers }
    ensures same { filled domain_numbers places.new.items ≡ filled domain_numbers places.old.items }
    ensures most { length places.new.items ≤ domain_numbers }
    ensures reached { OnOk result (pd < length places.new.items) }
{
    for _i in places.len()..pd as usize + 1 {
        places.push(None)?;
    }
    Ok(())
}

// Does one step at a stream while the pool has no buffer, and leaves the pool as it was.
fn work_beside<A: Allocator>(
    stream: &mut Stream<A>,
    memory: &mut Memory<A>,
    pool: &mut SharedQueue<A>,
    none: VecDeque<Octets<A>, A>,
) -> Result<Step<Octets<A>>, AllocError>
    requires place { stream.old.arrived.floor ≤ 2 ^ 62 }
    requires none { none.items ≡ [] }
    ensures step { IfOk result (λ step. step ≡ work_step memory.old (sees stream.old [])) }
    ensures stream { OnOk result (stream.new ≡ worked_with memory.old stream.old []) }
    ensures pool { pool.new ≡ pool.old }
    ensures memory { OnOk result (memory.new ≡ table_worked memory.old (sees stream.old [])) }
    ensures err { OnErr result ((stream.new ≡ stream.old) × (memory.new ≡ memory.old)) }
    ensures want { OnErr result (IsTry (task (sees stream.old []))) }
    ensures reach { stream.new.arrived.floor ≤ stream.old.arrived.floor + 2 ^ 18 }
    ensures within { IfOk result IsWithinBuffer }
{
    let mut withheld = none;
    pool.exchange(&mut withheld);
    let step = stream.work_shared(memory, pool);
    pool.exchange(&mut withheld);
    step
}

impl<A: Allocator> Pools<A> {
    ghost use Rattle.iw_endpoint.specs.Endpoint.{no_pools, lent_to, left_of, pool_left};
    ghost use Rattle.iw_endpoint.specs.Sharing.{emptied};
    ghost use Rattle.iw_endpoint.specs.Places.{LendsPool};

    /// No domain has a pool. It takes no memory.
    pub(crate) fn new(alloc: A) -> Pools<A>
        ensures { result ≡ no_pools }
    {
        Pools {
            places: Vec::new(alloc),
        }
    }

    /// The domain's pool, if it has one.
    pub(crate) fn get(&self, pd: u8) -> Option<&SharedQueue<A>>
        ensures { option_copied result ≡ slice_index_or self.now pd None }
    {
        self.places.get(pd as usize)?.as_ref()
    }

    /// As `get`, for changing it.
    pub(crate) fn get_mut(&mut self, pd: u8) -> Option<&mut SharedQueue<A>>
        ensures* lends { sem 𝓛 (LendsPool A.row A.Allocator self.entry pd result) }
        ensures found { option_copied_mut result ≡ slice_index_or self.old pd None }
    {
        self.places.get_mut(pd as usize)?.as_mut()
    }

    /// Gives the domain an empty pool, in place of any that it has. An `Err` means out of memory and changes nothing.
    pub(crate) fn give(&mut self, pd: u8) -> Result<(), AllocError>
    where
        A: Copy,
        ensures ok { OnOk result (self.new ≡ slice_set self.old pd (Some [])) }
        ensures err { OnErr result (self.new ≡ self.old) }
    {
        let pool = SharedQueue::new(*self.places.allocator())?;
        reach(&mut self.places, pd)?;
        self.places[pd as usize] = Some(pool);
        Ok(())
    }

    /// Does one step at a stream, with the pool of its domain, if there is one. An `Err` means out of memory and
    /// changes nothing.
    #[inline(always)]
    pub(crate) fn work(
        &mut self,
        stream: &mut Stream<A>,
        memory: &mut Memory<A>,
    ) -> Result<Step<Octets<A>>, AllocError>
        requires { stream.old.arrived.floor ≤ 2 ^ 62 }
        ensures step { IfOk result (λ step. step ≡ work_step memory.old (lent_to (slice_index_or self.old stream.old.domain None) stream.old)) }
        ensures stream { OnOk result (stream.new ≡ left_of memory.old (slice_index_or self.old stream.old.domain None) stream.old) }
        ensures pools { OnOk result (self.new ≡ slice_set self.old stream.old.domain (pool_left memory.old (slice_index_or self.old stream.old.domain None) stream.old)) }
        ensures memory { OnOk result (memory.new ≡ table_worked memory.old (lent_to (slice_index_or self.old stream.old.domain None) stream.old)) }
        ensures err { OnErr result ((self.new ≡ self.old) × (stream.new ≡ stream.old) × (memory.new ≡ memory.old)) }
        ensures want { OnErr result (IsTry (task (lent_to (slice_index_or self.old stream.old.domain None) stream.old))) }
        ensures reach { stream.new.arrived.floor ≤ stream.old.arrived.floor + 2 ^ 18 }
        ensures within { IfOk result IsWithinBuffer }
    {
        // Each arm takes its own answer apart: else both would be moved whole, through one place in memory.
        match self.get_mut(stream.domain()) {
            Some(pool) => match stream.work_shared(memory, pool) {
                Ok(step) => Ok(step),
                Err(error) => Err(error),
            },
            None => match stream.work(memory) {
                Ok(step) => Ok(step),
                Err(error) => Err(error),
            },
        }
    }

    /// Does one step at a stream as if the pool of its domain, if there is one, had no buffer. The pool stays as it is. An
    /// `Err` means out of memory and changes nothing.
    pub(crate) fn work_alone(
        &mut self,
        stream: &mut Stream<A>,
        memory: &mut Memory<A>,
    ) -> Result<Step<Octets<A>>, AllocError>
    where
        A: Copy,
        requires { stream.old.arrived.floor ≤ 2 ^ 62 }
        ensures step { IfOk result (λ step. step ≡ work_step memory.old (lent_to (emptied (slice_index_or self.old stream.old.domain None)) stream.old)) }
        ensures stream { OnOk result (stream.new ≡ left_of memory.old (emptied (slice_index_or self.old stream.old.domain None)) stream.old) }
        ensures pools { self.new ≡ self.old }
        ensures memory { OnOk result (memory.new ≡ table_worked memory.old (lent_to (emptied (slice_index_or self.old stream.old.domain None)) stream.old)) }
        ensures err { OnErr result ((stream.new ≡ stream.old) × (memory.new ≡ memory.old)) }
        ensures want { OnErr result (IsTry (task (lent_to (emptied (slice_index_or self.old stream.old.domain None)) stream.old))) }
        ensures reach { stream.new.arrived.floor ≤ stream.old.arrived.floor + 2 ^ 18 }
        ensures within { IfOk result IsWithinBuffer }
    {
        let none = VecDeque::new(*self.places.allocator());
        let pd = stream.domain();
        match self.get_mut(pd) {
            Some(pool) => work_beside(stream, memory, pool, none),
            None => stream.work(memory),
        }
    }
}
