//! Frames that are put behind a buffer's octets, until nothing more is due.
ghost use Rattle.std.specs.Prelude.{◌≡◌, vec_len, vec_capacity, IfSome, IfNone, IfOk, IfErr, OnOk, OnErr};
ghost use Rattle.iw_handle.specs.Filling.{stop_reason, FillsBy, FillsAt, TakesMemoryForReads, TakesMemoryForReadsAt};
ghost use Rattle.iw_handle.specs.State.{called_on, refusal_with};
ghost use Rattle.iw_handle.specs.Streams.{refusal_to_go_on};

use crate::event::{Filling, filling_of};
use crate::handle::Handle;
use crate::refusal::Refusal;
use iw_buffer::Buffer;
use iw_connection::{Refusal as Stop, fill_frames};
use iw_endpoint::Endpoint;
use std::alloc::Global;

fn stop_reason(stop: Stop) -> Refusal
    ensures { result ≡ stop_reason stop }
{
    match stop {
        Stop::NoSuchStream => Refusal::NoSuchStream,
        Stop::NoMemory => Refusal::NoMemory,
        Stop::TooFar => Refusal::TooFar,
    }
}

// Emits frames behind what stands in a buffer.
fn fill(
    endpoint: &mut Endpoint,
    number: u32,
    most: usize,
    out: &mut Vec<u8>,
) -> Result<Filling, Refusal>
    // The first refusal that applies; if none does, only `NoMemory`.
    ensures refused { IfSome (refusal_to_go_on endpoint.old number) (λ r. result ≡ Err r) }
    ensures memory { IfNone (refusal_to_go_on endpoint.old number) (IfErr result (λ e. e ≡ Refusal.NoMemory)) }
    ensures room { result ≡ Err Refusal.NoMemory → TakesMemoryForReads endpoint.old number (vec_len out.old) (vec_capacity out.old) }
    ensures ok { IfOk result (λ filling. FillsBy endpoint.old number most out.old.items out.new.items (vec_capacity out.new) endpoint.new filling) }
    ensures err { OnErr result (endpoint.new ≡ endpoint.old) }
    ensures back { OnErr result (out.new.items ≡ out.old.items) }
{
    let begun = out.len();
    match fill_frames(endpoint, number, out, most) {
        Ok((frames, filled)) => Ok(filling_of(filled, frames, (out.len() - begun) as u64)),
        Err(stop) => Err(stop_reason(stop)),
    }
}

impl Handle {
    /// Appends what a stream is to send to a buffer, frame by frame, and reports it in numbers: until nothing is due, or one
    /// frame more would make what this call appends more than `most` octets ([`iw_connection::fill`]). A first frame is
    /// appended whatever its length. An `Err` changes nothing. `TooFar` means that more than 2^62 octets were emitted;
    /// `NoMemory` comes only if no other refusal applies, and the buffer has no room for the first frame, or that begins a Read
    /// while none is outstanding.
    pub fn fill(
        &mut self,
        alloc: Global,
        number: u32,
        most: usize,
        buffer: &mut Buffer,
    ) -> Result<Filling, Refusal>
        ensures refused { IfSome (refusal_with (called_on self.old.state number) buffer.old.state (λ e octets. refusal_to_go_on e number))
            (λ r. result ≡ Err r) }
        ensures memory { IfNone (refusal_with (called_on self.old.state number) buffer.old.state (λ e octets. refusal_to_go_on e number))
            (IfErr result (λ e. e ≡ Refusal.NoMemory)) }
        ensures room { result ≡ Err Refusal.NoMemory →
            TakesMemoryForReadsAt (called_on self.old.state number) number buffer.old.state buffer.old.room }
        ensures ok { IfOk result (λ filling. IfSome (called_on self.old.state number) (λ held. IfSome buffer.old.state
            (λ octets. FillsAt held number most octets buffer.new.room self.new.state buffer.new.state filling))) }
        ensures err { OnErr result (self.new.state ≡ called_on self.old.state number) }
        ensures back { OnErr result (buffer.new.state ≡ buffer.old.state) }
    {
        let Some(mut held) = self.take_on(alloc, number) else {
            return Err(Refusal::Closed);
        };
        let Some(mut lent) = buffer.take_vec(alloc) else {
            self.put(held);
            return Err(Refusal::BufferMissing);
        };
        let done = fill(&mut held.endpoint, number, most, &mut lent.octets);
        self.put(held);
        buffer.put_vec(lent);
        done
    }
}
