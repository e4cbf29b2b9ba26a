//! Streams that are opened under a number that the application picks.
ghost use Rattle.std.specs.Prelude.{◌≡◌, ◌<◌, ◌≤◌, false, length, slice_index_or, Some, None, IfSome, IfNone, IfOk, IfErr, OnOk, OnErr};
ghost use Rattle.iw_stream.specs.Stream.{StreamState, numbered};
ghost use Rattle.iw_stream.specs.Starting.{exceeds_request};
ghost use Rattle.iw_endpoint.specs.Endpoint.{open_shared_refusal_of};

use super::Endpoint;
use crate::refusal::OpenSharedRefusal;
use crate::streams::STREAM_NUMBERS;
use iw_stream::{Config, OpenRefusal, Role, Stream, exceeds_request};
use std::alloc::{AllocError, Allocator};

fn open_shared_refusal_of(refusal: OpenRefusal) -> OpenSharedRefusal
    ensures { result ≡ open_shared_refusal_of refusal }
{
    match refusal {
        OpenRefusal::NumberTaken => OpenSharedRefusal::NumberTaken,
        OpenRefusal::BadNumber => OpenSharedRefusal::BadNumber,
        OpenRefusal::NoDomain => OpenSharedRefusal::NoDomain,
        OpenRefusal::PrivateTooLong => OpenSharedRefusal::PrivateTooLong,
        OpenRefusal::NoMemory => OpenSharedRefusal::NoMemory,
    }
}

impl<A: Allocator> Endpoint<A> {
    ghost use Rattle.iw_endpoint.specs.Endpoint.{number_refusal, open_refusal, opened, open_shared_refusal, opened_shared, with_next};

    // Why no stream is opened under this number in this domain, whether or not it shares a pool.
    fn number_refusal(&self, number: u32, pd: u8) -> Option<OpenRefusal>
        ensures refused { result ≡ number_refusal self.now number pd }
        ensures within { IfNone result (number < length self.now.streams) }
        ensures free { IfNone result (slice_index_or self.now.streams number None ≡ None) }
    {
        self.streams.limits();
        if number as usize >= STREAM_NUMBERS {
            Some(OpenRefusal::BadNumber)
        } else if self.streams.get(number).is_some() || self.closed.has(number) {
            Some(OpenRefusal::NumberTaken)
        } else if !self.memory.has_domain(pd) {
            Some(OpenRefusal::NoDomain)
        } else {
            None
        }
    }

    // Puts a stream that was made under a number, which the stream then has. An `Err` means out of memory and changes nothing.
    pub(super) fn put(
        &mut self,
        number: u32,
        stream: Result<Stream<A>, AllocError>,
    ) -> Result<(), AllocError>
    where
        A: Copy,
        requires within { number ≤ length self.old.streams }
        requires free { slice_index_or self.old.streams number None ≡ None }
        ensures ok { (s : StreamState) → IfOk stream (λ made. made ≡ s) → OnOk result (self.new ≡ with_next self.old number (numbered s number)) }
        ensures err { OnErr result (self.new ≡ self.old) }
    {
        match stream {
            Ok(mut stream) => {
                stream.set_number(number);
                self.streams.put(number, stream)
            }
            Err(error) => Err(error),
        }
    }

    /// Streams that are opened from now on, by whichever call, take the memory that they hold from `alloc`. Until the first such
    /// call it is the allocator that the endpoint was made with. Streams that are open keep theirs. The endpoint's own tables, with
    /// an entry for each stream, stay in the memory of the endpoint's allocator.
    ///
    /// So a stream may have a reserve: an allocator with a limit that no other stream uses.
    pub fn open_streams_in(&mut self, alloc: A)
    where
        A: Copy,
        ensures { self.new ≡ self.old }
    {
        self.streams.set_allocator(alloc);
    }

    /// Why [`Endpoint::open`] refuses to open this stream, if it does for another reason than `NoMemory`.
    pub fn refusal_to_open(
        &self,
        number: u32,
        pd: u8,
        role: Role,
        config: &Config,
    ) -> Option<OpenRefusal>
        ensures refused { result ≡ open_refusal self.now number pd role config.now }
        ensures within { IfNone result (number < length self.now.streams) }
        ensures free { IfNone result (slice_index_or self.now.streams number None ≡ None) }
        ensures fits { IfNone result (exceeds_request role config.now ≡ false) }
    {
        match self.number_refusal(number, pd) {
            Some(refusal) => Some(refusal),
            None if exceeds_request(role, config) => Some(OpenRefusal::PrivateTooLong),
            None => None,
        }
    }

    /// Opens a stream in a domain under a number from 0 to 63 ([`iw_stream::Stream::new`]). The number stays taken,
    /// even after the stream was closed ([`Endpoint::close`]). An `Err` opens nothing; `NoMemory` comes only if no other
    /// refusal applies.
    ///
    /// `PrivateTooLong` comes only at an initiator whose `config` asks for revision 2, with over 508 octets of private data.
    pub fn open(
        &mut self,
        number: u32,
        pd: u8,
        role: Role,
        config: Config,
    ) -> Result<(), OpenRefusal>
    where
        A: Copy,
        // The first refusal that applies; if none does, only `NoMemory`.
        ensures refused { IfSome (open_refusal self.old number pd role config) (λ refusal. result ≡ Err refusal) }
        ensures memory { IfNone (open_refusal self.old number pd role config) (IfErr result (λ e. e ≡ OpenRefusal.NoMemory)) }
        ensures ok { OnOk result (self.new ≡ opened self.old number pd role config) }
        ensures err { OnErr result (self.new ≡ self.old) }
    {
        if let Some(refusal) = self.refusal_to_open(number, pd, role, &config) {
            return Err(refusal);
        }
        let stream = Stream::new(self.streams.allocator(), pd, role, config);
        match self.put(number, stream) {
            Ok(()) => Ok(()),
            Err(_) => Err(OpenRefusal::NoMemory),
        }
    }

    /// Why [`Endpoint::open_shared`] refuses to open this stream, if it does for another reason than `NoMemory`.
    pub fn refusal_to_open_shared(
        &self,
        number: u32,
        pd: u8,
        role: Role,
        config: &Config,
    ) -> Option<OpenSharedRefusal>
        ensures refused { result ≡ open_shared_refusal self.now number pd role config.now }
        ensures within { IfNone result (number < length self.now.streams) }
        ensures free { IfNone result (slice_index_or self.now.streams number None ≡ None) }
        ensures fits { IfNone result (exceeds_request role config.now ≡ false) }
    {
        match self.number_refusal(number, pd) {
            Some(refusal) => Some(open_shared_refusal_of(refusal)),
            None if self.pools.get(pd).is_none() => Some(OpenSharedRefusal::NotShared),
            None if exceeds_request(role, config) => Some(OpenSharedRefusal::PrivateTooLong),
            None => None,
        }
    }

    /// As [`Endpoint::open`], but the stream shares the domain's pool ([`iw_stream::Stream::new_shared`]):
    /// [`Endpoint::post_recv`] is refused. An `Err` opens nothing; `NoMemory` comes only if no other refusal applies.
    pub fn open_shared(
        &mut self,
        number: u32,
        pd: u8,
        role: Role,
        config: Config,
    ) -> Result<(), OpenSharedRefusal>
    where
        A: Copy,
        // The first refusal that applies; if none does, only `NoMemory`.
        ensures refused { IfSome (open_shared_refusal self.old number pd role config) (λ refusal. result ≡ Err refusal) }
        ensures memory { IfNone (open_shared_refusal self.old number pd role config) (IfErr result (λ e. e ≡ OpenSharedRefusal.NoMemory)) }
        ensures ok { OnOk result (self.new ≡ opened_shared self.old number pd role config) }
        ensures err { OnErr result (self.new ≡ self.old) }
    {
        if let Some(refusal) = self.refusal_to_open_shared(number, pd, role, &config) {
            return Err(refusal);
        }
        let stream = Stream::new_shared(self.streams.allocator(), pd, role, config);
        match self.put(number, stream) {
            Ok(()) => Ok(()),
            Err(_) => Err(OpenSharedRefusal::NoMemory),
        }
    }
}
