//! Receive buffers that change hands with no copy, so that none is made or cleared for each message.
ghost use Rattle.std.specs.Prelude.{◌≡◌, None, Some, [], length, is_some, unwrap_or};
ghost use Rattle.std.specs.Prelude.{IfSome, IfNone, IfOk, IfErr, OnOk, OnErr};
ghost use Rattle.std.specs.Option.{option_map};
ghost use Rattle.std.specs.Result.{result_err};
ghost use Rattle.iw_endpoint.specs.Endpoint.{with_buffer, pooled, taken_at, after_take};
ghost use Rattle.iw_handle.specs.Pools.{refusal_to_pool, refusal_to_take};
ghost use Rattle.iw_handle.specs.State.{refusal_with, changed, told_in, stream_refusal};
ghost use Rattle.iw_lines.specs.Lines.{line_at};
ghost use Rattle.iw_handle.specs.Streams.{refusal_to_lend, without_handed, fetched};

use crate::copying::{check_length, check_stream};
use crate::handle::Handle;
use crate::open_handle::Held;
use crate::refusal::{Refusal, pool_reason, recv_reason, take_reason};
use iw_buffer::Buffer;
use iw_endpoint::Endpoint;
use std::alloc::Global;

// Moves what a stream handed back, whole, and tells how many of its first octets are told.
fn fetch_these(
    held: &mut Held,
    alloc: Global,
    number: u32,
    octets: &mut Vec<u8>,
) -> Result<usize, Refusal>
    ensures refused { result_err result ≡ stream_refusal held.old.endpoint number }
    ensures octets { OnOk result (octets.new.items ≡ (line_at held.old.lines number).handed.buffer) }
    ensures len { IfOk result (λ len. len ≡ (line_at held.old.lines number).handed.len) }
    ensures ok { OnOk result (held.new ≡ without_handed held.old number) }
    ensures err { OnErr result (held.new ≡ held.old) }
    ensures back { OnErr result (octets.new.items ≡ octets.old.items) }
{
    check_stream(&held.endpoint, number)?;
    let handed = held.lines.fetch(alloc, number);
    *octets = handed.buffer.into_vec();
    Ok(handed.len)
}

// Posts the octets themselves: none are left where they were.
fn lend_these(
    endpoint: &mut Endpoint,
    alloc: Global,
    number: u32,
    octets: &mut Vec<u8>,
) -> Result<(), Refusal>
    // The first refusal that applies; if none does, only `NoMemory`.
    ensures refused { IfSome (refusal_to_lend endpoint.old number (length octets.old.items)) (λ r. result ≡ Err r) }
    ensures memory { IfNone (refusal_to_lend endpoint.old number (length octets.old.items))
        (IfErr result (λ e. e ≡ Refusal.NoMemory)) }
    ensures ok { OnOk result (endpoint.new ≡ with_buffer endpoint.old number octets.old.items) }
    ensures taken { OnOk result (octets.new.items ≡ []) }
    ensures err { OnErr result (endpoint.new ≡ endpoint.old) }
    ensures back { OnErr result (octets.new.items ≡ octets.old.items) }
{
    check_length(octets.len())?;
    let these = std::mem::replace(octets, Vec::new(alloc));
    match endpoint.post_recv(number, these) {
        Ok(()) => Ok(()),
        Err((refusal, back)) => {
            *octets = back;
            Err(recv_reason(refusal))
        }
    }
}

// Posts the octets themselves to a pool: none are left where they were.
fn pool_these(
    endpoint: &mut Endpoint,
    alloc: Global,
    pd: u8,
    octets: &mut Vec<u8>,
) -> Result<(), Refusal>
    // The first refusal that applies; if none does, only `NoMemory`.
    ensures refused { IfSome (refusal_to_pool endpoint.old pd (length octets.old.items)) (λ r. result ≡ Err r) }
    ensures memory { IfNone (refusal_to_pool endpoint.old pd (length octets.old.items))
        (IfErr result (λ e. e ≡ Refusal.NoMemory)) }
    ensures ok { OnOk result (endpoint.new ≡ pooled endpoint.old pd octets.old.items) }
    ensures taken { OnOk result (octets.new.items ≡ []) }
    ensures err { OnErr result (endpoint.new ≡ endpoint.old) }
    ensures back { OnErr result (octets.new.items ≡ octets.old.items) }
{
    check_length(octets.len())?;
    let these = std::mem::replace(octets, Vec::new(alloc));
    match endpoint.post_shared(pd, these) {
        Ok(()) => Ok(()),
        Err((refusal, back)) => {
            *octets = back;
            Err(pool_reason(refusal))
        }
    }
}

// Moves the oldest buffer out of a pool, and tells whether there was one.
fn take_these(endpoint: &mut Endpoint, pd: u8, octets: &mut Vec<u8>) -> Result<bool, Refusal>
    ensures refused { result_err result ≡ refusal_to_take endpoint.old pd }
    ensures found { IfOk result (λ found. found ≡ is_some (taken_at endpoint.old pd)) }
    ensures octets { OnOk result (octets.new.items ≡ unwrap_or (taken_at endpoint.old pd) octets.old.items) }
    ensures ok { OnOk result (endpoint.new ≡ after_take endpoint.old pd) }
    ensures err { OnErr result (endpoint.new ≡ endpoint.old) }
    ensures back { OnErr result (octets.new.items ≡ octets.old.items) }
{
    match endpoint.take_shared(pd) {
        Ok(Some(oldest)) => {
            *octets = oldest;
            Ok(true)
        }
        Ok(None) => Ok(false),
        Err(refusal) => Err(take_reason(refusal)),
    }
}

impl Handle {
    /// Moves the receive buffer that a stream handed back last into a buffer, whole, and forgets it. `len` becomes the number of its
    /// first octets that are the message, or all if it was flushed. The octets that the buffer had are freed. If nothing was
    /// handed back, it has no octets then. An `Err` changes nothing.
    pub fn fetch_buffer(
        &mut self,
        alloc: Global,
        number: u32,
        buffer: &mut Buffer,
        len: &mut usize,
    ) -> Result<(), Refusal>
        ensures refused { result_err result ≡ refusal_with self.old.state buffer.old.state
            (λ e octets. stream_refusal e number) }
        ensures octets { OnOk result
            (buffer.new.state ≡ option_map (λ held. (line_at held.lines number).handed.buffer) self.old.state) }
        ensures len { OnOk result (Some len.new ≡ option_map (λ held. (line_at held.lines number).handed.len) self.old.state) }
        ensures untold { OnErr result (len.new ≡ len.old) }
        ensures ok { OnOk result (self.new.state ≡ fetched self.old.state number) }
        ensures err { OnErr result (self.new.state ≡ self.old.state) }
        ensures back { OnErr result (buffer.new.state ≡ buffer.old.state) }
    {
        let Some(mut held) = self.take(alloc) else {
            return Err(Refusal::Closed);
        };
        let Some(mut lent) = buffer.take_vec(alloc) else {
            self.put(held);
            return Err(Refusal::BufferMissing);
        };
        let done = fetch_these(&mut held, alloc, number, &mut lent.octets);
        self.put(held);
        buffer.put_vec(lent);
        *len = done?;
        Ok(())
    }

    /// Posts a buffer's octets themselves as a receive buffer, at most 16,777,216: nothing is copied, and the buffer then has
    /// none. An `Err` changes nothing, and the buffer keeps its octets. `NoMemory` comes only if no other refusal applies.
    pub fn post_recv_buffer(
        &mut self,
        alloc: Global,
        number: u32,
        buffer: &mut Buffer,
    ) -> Result<(), Refusal>
        ensures refused { IfSome (refusal_with self.old.state buffer.old.state
            (λ e octets. refusal_to_lend e number (length octets))) (λ r. result ≡ Err r) }
        ensures memory { IfNone (refusal_with self.old.state buffer.old.state
            (λ e octets. refusal_to_lend e number (length octets))) (IfErr result (λ e. e ≡ Refusal.NoMemory)) }
        ensures ok { OnOk result (IfSome buffer.old.state (λ octets.
            self.new.state ≡ changed self.old.state (λ e. with_buffer e number octets))) }
        ensures taken { OnOk result (buffer.new.state ≡ Some []) }
        ensures err { OnErr result (self.new.state ≡ self.old.state) }
        ensures back { OnErr result (buffer.new.state ≡ buffer.old.state) }
    {
        let Some(mut held) = self.take(alloc) else {
            return Err(Refusal::Closed);
        };
        let Some(mut lent) = buffer.take_vec(alloc) else {
            self.put(held);
            return Err(Refusal::BufferMissing);
        };
        let done = lend_these(&mut held.endpoint, alloc, number, &mut lent.octets);
        self.put(held);
        buffer.put_vec(lent);
        done
    }

    /// Posts a buffer's octets themselves to the domain's pool, as [`Handle::post_recv_buffer`] does to a stream.
    pub fn post_shared_buffer(
        &mut self,
        alloc: Global,
        pd: u8,
        buffer: &mut Buffer,
    ) -> Result<(), Refusal>
        ensures refused { IfSome (refusal_with self.old.state buffer.old.state
            (λ e octets. refusal_to_pool e pd (length octets))) (λ r. result ≡ Err r) }
        ensures memory { IfNone (refusal_with self.old.state buffer.old.state
            (λ e octets. refusal_to_pool e pd (length octets))) (IfErr result (λ e. e ≡ Refusal.NoMemory)) }
        ensures ok { OnOk result (IfSome buffer.old.state (λ octets.
            self.new.state ≡ changed self.old.state (λ e. pooled e pd octets))) }
        ensures taken { OnOk result (buffer.new.state ≡ Some []) }
        ensures err { OnErr result (self.new.state ≡ self.old.state) }
        ensures back { OnErr result (buffer.new.state ≡ buffer.old.state) }
    {
        let Some(mut held) = self.take(alloc) else {
            return Err(Refusal::Closed);
        };
        let Some(mut lent) = buffer.take_vec(alloc) else {
            self.put(held);
            return Err(Refusal::BufferMissing);
        };
        let done = pool_these(&mut held.endpoint, alloc, pd, &mut lent.octets);
        self.put(held);
        buffer.put_vec(lent);
        done
    }

    /// Moves the oldest buffer of the domain's pool into a buffer, whose own octets are freed. It answers whether there was
    /// one; if the pool is empty, the buffer keeps its octets. An `Err` changes nothing.
    pub fn take_shared_buffer(
        &mut self,
        alloc: Global,
        pd: u8,
        buffer: &mut Buffer,
    ) -> Result<bool, Refusal>
        ensures refused { result_err result ≡ refusal_with self.old.state buffer.old.state
            (λ e octets. refusal_to_take e pd) }
        ensures found { IfOk result (λ found. Some found ≡ told_in self.old.state (λ e. is_some (taken_at e pd))) }
        ensures octets { OnOk result (IfSome buffer.old.state (λ octets.
            buffer.new.state ≡ told_in self.old.state (λ e. unwrap_or (taken_at e pd) octets))) }
        ensures ok { OnOk result (self.new.state ≡ changed self.old.state (λ e. after_take e pd)) }
        ensures err { OnErr result (self.new.state ≡ self.old.state) }
        ensures back { OnErr result (buffer.new.state ≡ buffer.old.state) }
    {
        let Some(mut held) = self.take(alloc) else {
            return Err(Refusal::Closed);
        };
        let Some(mut lent) = buffer.take_vec(alloc) else {
            self.put(held);
            return Err(Refusal::BufferMissing);
        };
        let done = take_these(&mut held.endpoint, pd, &mut lent.octets);
        self.put(held);
        buffer.put_vec(lent);
        done
    }
}
