//! The endpoint: its domains, regions, pools and the calls on its streams; other calls are in `endpoint/`.
ghost use Rattle.std.specs.Prelude.{◌≡◌, ◌↔◌, ◌+◌, ◌<◌, ◌≤◌, ◌^◌, ◌++◌, true, false, length, ◌-◌};
ghost use Rattle.std.specs.Prelude.{Some, None, option_copied, is_some, IsSome, IfSome, IfNone};
ghost use Rattle.std.specs.Prelude.{Ok, is_ok, IsErr, IfOk, IfErr, OnOk, OnErr, max, vec_len, vec_capacity};
ghost use Rattle.std.specs.Result.{result_err, result_ok};
ghost use Rattle.std.specs.Option.{option_map};
ghost use Rattle.std.specs.Borrow.{sem};
ghost use Rattle.std.specs.Io.KnownBytes.{Keeps};
ghost use Rattle.iw_memory.specs.Forms.{own_refusal};
ghost use Rattle.iw_memory.specs.Region.{IsWithinLimits};
ghost use Rattle.iw_memory.specs.Table.{region_at, register_refusal, next_stag};
ghost use Rattle.iw_ranges.specs.Arrived.{BringsOctets};
ghost use Rattle.iw_octets.specs.declared.fault.Fault.{Fault};
ghost use Rattle.iw_stream.specs.Kept.{IsWithin, IsWithinBuffer};
ghost use Rattle.iw_stream.specs.Reading.{octets_read};
ghost use Rattle.iw_stream.specs.Stream.{BeginsReads, IsNothing, due, ended, place_of, left_out};
ghost use Rattle.iw_stream.specs.Work.{IsTry, task};
ghost use Rattle.iw_endpoint.specs.Endpoint.{pool_refusal_of};

mod closing;
mod drawing;
mod kept_regions;
mod lending;
mod next;
mod opening;
mod registering;
mod sharing;
mod stream_regions;

use crate::closed::Closed;
use crate::pools::Pools;
use crate::refusal::{CallRefusal, NoSuchStream, PoolRefusal, ShareRefusal, TakeRefusal};
use crate::scrap::Scrap;
use crate::streams::Streams;
use bytes::Bytes;
use iw_memory::{
    DeregisterRefusal, DomainRefusal, Facts, Memory, NoRegion, RegisterRefusal, Rights, Stag,
    StoreRefusal,
};
use iw_octets::Octets;
use iw_stream::{
    Agreed, AnswerRefusal, Delivery, Emission, EnhancedData, FirstRefusal, Intake, PeerOptions,
    PostRefusal, PrivateData, RecvRefusal, Request, SizeRefusal, Standing, Step,
};
use iw_untagged::BufferRefusal;
use std::alloc::{AllocError, Allocator, Global};
use std::io::{self, Read};
use std::marker::Model;

/// An endpoint: its registered regions, the pools of receive buffers that streams of a domain share, and its streams,
/// by number.
pub struct Endpoint<A: Allocator = Global> {
    memory: Memory<A>,
    pools: Pools<A>,
    streams: Streams<A>,
    closed: Closed,
    // What is lent for streams that have ended.
    scrap: Scrap<A>,
}

// Written out: a derived one would be taken apart, and proved, again in each crate that drops an endpoint.
impl<A: Allocator> Drop for Endpoint<A> {
    fn drop(self) {
        let Endpoint {
            memory: _,
            pools: _,
            streams: _,
            closed: _,
            scrap: _,
        } = self;
    }
}

impl<A: Allocator> Model for Endpoint<A> {
    ghost use Rattle.iw_endpoint.specs.Endpoint.{EndpointState};

    ghost Value = { EndpointState };

    ghost view = { λ e. record { table = e.memory; pools = e.pools; streams = e.streams; closed = e.closed.domains } };
}

fn pool_refusal_of(refusal: BufferRefusal) -> PoolRefusal
    ensures { result ≡ pool_refusal_of refusal }
{
    match refusal {
        BufferRefusal::Full => PoolRefusal::Full,
        BufferRefusal::NoMemory => PoolRefusal::NoMemory,
    }
}

impl<A: Allocator> Endpoint<A> {
    ghost use Rattle.iw_endpoint.specs.Endpoint.{fresh, HasNumbers, has_stream, stream_at};
    ghost use Rattle.iw_endpoint.specs.Endpoint.{domain_refusal, added, registered, octets_of, deregistered};
    ghost use Rattle.iw_endpoint.specs.Endpoint.{invalidated, facts_at, store_refusal, stored};
    ghost use Rattle.iw_endpoint.specs.Endpoint.{share_refusal, shared, pool_refusal, pooled, take_refusal, taken_at, after_take};
    ghost use Rattle.iw_endpoint.specs.Endpoint.{pool_of, lent_to, answer_refusal, agreement, accepted};
    ghost use Rattle.iw_endpoint.specs.Endpoint.{rejected, private_at, told_at, options_at, standing_at, size_refusal, with_mulpdu};
    ghost use Rattle.iw_endpoint.specs.Endpoint.{post_refusal, with_request, recv_refusal, with_buffer};
    ghost use Rattle.iw_endpoint.specs.Endpoint.{first_refusal, with_first, first_at};
    ghost use Rattle.iw_endpoint.specs.Endpoint.{delivery_at, after_deliver, step_at, after_work, point_at};
    ghost use Rattle.iw_endpoint.specs.Endpoint.{emission_at, emitted_at, after_emit, has_due, sent_at};
    ghost use Rattle.iw_endpoint.specs.Reading.{IsRead};
    ghost use Rattle.iw_endpoint.specs.Lending.{LendsLocal};

    /// An endpoint with no domain and no stream. It takes no memory.
    pub fn new(alloc: A) -> Endpoint<A>
    where
        A: Copy,
        ensures { result ≡ fresh }
    {
        Endpoint {
            memory: Memory::new(alloc),
            pools: Pools::new(alloc),
            streams: Streams::new(alloc),
            closed: Closed::new(),
            scrap: Scrap::new(alloc),
        }
    }

    /// The registered regions, read-only.
    pub fn memory(&self) -> &Memory<A>
        ensures { result.now ≡ self.now.table }
    {
        &self.memory
    }

    /// Adds a protection domain with no region and no stream. `pd` must be 1 to 255. An `Err` changes nothing; `NoMemory`
    /// comes only if no other refusal applies.
    pub fn add_domain(&mut self, pd: u8) -> Result<(), DomainRefusal>
    where
        A: Copy,
        // The first refusal that applies; if none does, only `NoMemory`.
        ensures refused { IfSome (domain_refusal self.old pd) (λ refusal. IfErr result (λ e. e ≡ refusal) × IsErr result) }
        ensures memory { IfNone (domain_refusal self.old pd) (IfErr result (λ e. e ≡ DomainRefusal.NoMemory)) }
        ensures ok { OnOk result (self.new ≡ added self.old pd) }
        ensures err { OnErr result (self.new ≡ self.old) }
    {
        self.memory.add_domain(pd)
    }

    /// Registers octets in a domain as a valid region and returns the STag by which peers name it. Its first octet has
    /// the tagged offset `base`. The octets are not copied. An `Err` changes nothing and gives the octets back;
    /// `NoMemory` comes only if no other refusal applies.
    pub fn register(
        &mut self,
        pd: u8,
        base: u64,
        octets: Vec<u8, A>,
        rights: Rights,
    ) -> Result<Stag, (RegisterRefusal, Vec<u8, A>)>
        // The first refusal that applies; if none does, only `NoMemory`.
        ensures refused { IfSome (register_refusal self.old.table pd base (length octets.items)) (λ refusal. IfErr result (λ e. e.0 ≡ refusal) × IsErr result) }
        ensures memory { IfNone (register_refusal self.old.table pd base (length octets.items)) (IfErr result (λ e. e.0 ≡ RegisterRefusal.NoMemory)) }
        ensures back { IfErr result (λ e. e.1 ≡ octets) }
        ensures err { OnErr result (self.new ≡ self.old) }

        ensures stag { IfOk result (λ stag. stag ≡ next_stag self.old.table pd) }
        ensures ok { OnOk result (self.new ≡ registered self.old pd base octets.items rights) }
    {
        self.memory.register(pd, base, octets, rights)
    }

    /// Removes a region, valid or not, and returns the vector that has its octets. From then on its STag names no region.
    /// `OtherMemory`: a program keeps them ([`Endpoint::deregister_kept`]). An `Err` changes nothing.
    pub fn deregister(&mut self, stag: Stag) -> Result<Vec<u8, A>, DeregisterRefusal>
        ensures refused { result_err result ≡ own_refusal self.old.table stag }
        ensures octets { IfOk result (λ v. Some v.items ≡ octets_of self.old stag) }
        ensures ok { OnOk result (self.new ≡ deregistered self.old stag) }
        ensures err { OnErr result (self.new ≡ self.old) }
    {
        self.memory.deregister(stag)
    }

    /// Makes a region invalid: peers can no longer use it. It stays registered for its owner. An `Err` changes nothing.
    pub fn invalidate(&mut self, stag: Stag) -> Result<(), NoRegion>
        ensures found { is_ok result ≡ is_some (region_at self.old.table stag) }
        ensures after { self.new ≡ invalidated self.old stag }
        ensures err { OnErr result (self.new ≡ self.old) }
    {
        self.memory.invalidate(stag)
    }

    /// The facts of a region, valid or not; `None` if the STag names no region.
    pub fn facts(&self, stag: Stag) -> Option<Facts>
        ensures facts { result ≡ facts_at self.now stag }
        ensures limits { IfSome result (λ facts. IsWithinLimits facts.base facts.len) }
    {
        self.memory.facts(stag)
    }

    /// A region's octets, for its owner; `None` if the STag names no region.
    pub fn local(&self, stag: Stag) -> Option<&[u8]>
        ensures { option_copied result ≡ octets_of self.now stag }
    {
        self.memory.local(stag)
    }

    /// A region's octets, for its owner to write. The STag must name a region: check with [`Endpoint::facts`].
    pub fn local_mut(&mut self, stag: Stag) -> &mut [u8]
        requires { IsSome (region_at self.old.table stag) }
        ensures* lends { sem 𝓛 (LendsLocal A.row A.Allocator self.entry stag result) }
        ensures octets { Some result.now ≡ octets_of self.old stag }
    {
        self.memory.local_mut(stag)
    }

    /// Writes octets into a region at tagged offset `to`, for its owner. An `Err` changes nothing.
    pub fn store(&mut self, stag: Stag, to: u64, octets: &[u8]) -> Result<(), StoreRefusal>
        ensures refused { result_err result ≡ store_refusal self.old stag to (length octets.now) }
        ensures ok { OnOk result (self.new ≡ stored self.old stag to octets.now) }
        ensures err { OnErr result (self.new ≡ self.old) }
    {
        self.memory.store(stag, to, octets)
    }

    /// Gives the domain an empty pool of receive buffers, which its streams may share ([`Endpoint::open_shared`]). An
    /// `Err` changes nothing; `NoMemory` comes only if no other refusal applies.
    pub fn share(&mut self, pd: u8) -> Result<(), ShareRefusal>
    where
        A: Copy,
        // The first refusal that applies; if none does, only `NoMemory`.
        ensures refused { IfSome (share_refusal self.old pd) (λ refusal. result ≡ Err refusal) }
        ensures memory { IfNone (share_refusal self.old pd) (IfErr result (λ e. e ≡ ShareRefusal.NoMemory)) }
        ensures ok { OnOk result (self.new ≡ shared self.old pd) }
        ensures err { OnErr result (self.new ≡ self.old) }
    {
        if !self.memory.has_domain(pd) {
            return Err(ShareRefusal::NoDomain);
        }
        if self.pools.get(pd).is_some() {
            return Err(ShareRefusal::AlreadyShared);
        }
        match self.pools.give(pd) {
            Ok(()) => Ok(()),
            Err(_) => Err(ShareRefusal::NoMemory),
        }
    }

    /// Posts a receive buffer to the domain's pool, after the others. A pool holds at most 1,024. When a stream that
    /// shares the pool places a segment of a message that has no buffer yet, the oldest buffer is bound to that
    /// message; [`Step::Received`] gives it back. An `Err` changes nothing and gives the buffer back; `NoMemory` comes
    /// only if no other refusal applies.
    pub fn post_shared(
        &mut self,
        pd: u8,
        buffer: Vec<u8, A>,
    ) -> Result<(), (PoolRefusal, Vec<u8, A>)>
        // The first refusal that applies; if none does, only `NoMemory`.
        ensures refused { IfSome (pool_refusal self.old pd) (λ refusal. IfErr result (λ e. e.0 ≡ refusal) × IsErr result) }
        ensures memory { IfNone (pool_refusal self.old pd) (IfErr result (λ e. e.0 ≡ PoolRefusal.NoMemory)) }
        ensures back { IfErr result (λ e. e.1 ≡ buffer) }
        ensures ok { OnOk result (self.new ≡ pooled self.old pd buffer.items) }
        ensures err { OnErr result (self.new ≡ self.old) }
    {
        if !self.memory.has_domain(pd) {
            return Err((PoolRefusal::NoDomain, buffer));
        }
        match self.pools.get_mut(pd) {
            Some(pool) => match pool.post(buffer) {
                Ok(()) => Ok(()),
                Err((refusal, buffer)) => Err((pool_refusal_of(refusal), buffer)),
            },
            None => Err((PoolRefusal::NotShared, buffer)),
        }
    }

    /// Takes the oldest buffer out of the domain's pool; `None` if the pool is empty. An `Err` changes nothing.
    pub fn take_shared(&mut self, pd: u8) -> Result<Option<Vec<u8, A>>, TakeRefusal>
        ensures refused { result_err result ≡ take_refusal self.old pd }
        ensures buffer { IfOk result (λ buffer. option_map (λ v. v.items) buffer ≡ taken_at self.old pd) }
        ensures ok { OnOk result (self.new ≡ after_take self.old pd) }
        ensures err { OnErr result (self.new ≡ self.old) }
    {
        if !self.memory.has_domain(pd) {
            return Err(TakeRefusal::NoDomain);
        }
        match self.pools.get_mut(pd) {
            Some(pool) => Ok(pool.take()),
            None => Err(TakeRefusal::NotShared),
        }
    }

    /// Accepts the pending MPA Request, after [`Step::Asked`]. The MPA Reply is emitted next and carries this private
    /// data. The stream is open from then on, and emits frames once a frame of the peer's had its turn (RFC 5044
    /// 7.1.2).
    ///
    /// An `Err` changes nothing: a Request that is pending stays so. `NotAsked` comes if no Request is pending, or if the
    /// stream has ended; then `PrivateTooLong` if an answer to an enhanced Request has over 508 octets of private data.
    pub fn accept(
        &mut self,
        number: u32,
        private: PrivateData,
    ) -> Result<Agreed, CallRefusal<AnswerRefusal>>
        ensures refused { result_err result ≡ answer_refusal self.old number private.items }
        ensures agreed { IfOk result (λ agreed. agreed ≡ agreement self.old number) }
        ensures ok { OnOk result (self.new ≡ accepted self.old number private) }
        ensures err { OnErr result (self.new ≡ self.old) }
    {
        match self.streams.get_mut(number) {
            Some(stream) => match stream.accept(private) {
                Ok(agreed) => Ok(agreed),
                Err(refusal) => Err(CallRefusal::Refused(refusal)),
            },
            None => Err(CallRefusal::NoSuchStream),
        }
    }

    /// Rejects the pending MPA Request. The stream has then ended, but the Reply, with this private data, is still
    /// emitted. An `Err` changes nothing, and comes when that of [`Endpoint::accept`] does.
    pub fn reject(
        &mut self,
        number: u32,
        private: PrivateData,
    ) -> Result<(), CallRefusal<AnswerRefusal>>
        ensures refused { result_err result ≡ answer_refusal self.old number private.items }
        ensures ok { OnOk result (self.new ≡ rejected self.old number private) }
        ensures err { OnErr result (self.new ≡ self.old) }
    {
        match self.streams.get_mut(number) {
            Some(stream) => match stream.reject(private) {
                Ok(()) => Ok(()),
                Err(refusal) => Err(CallRefusal::Refused(refusal)),
            },
            None => Err(CallRefusal::NoSuchStream),
        }
    }

    /// Posts a message or a Read, after the others. [`Step::Done`] reports them in posting order. The octets are
    /// shared, not copied. An `Err` changes nothing and gives the request back; `NoMemory` comes only if no other
    /// refusal applies.
    pub fn post(
        &mut self,
        number: u32,
        request: Request<Bytes<A>>,
    ) -> Result<(), (CallRefusal<PostRefusal>, Request<Bytes<A>>)>
        // The first refusal that applies; if none does, only `NoMemory`.
        ensures refused { IfSome (post_refusal self.old number request) (λ refusal. IfErr result (λ e. e.0 ≡ refusal) × IsErr result) }
        ensures memory { IfNone (post_refusal self.old number request) (IfErr result (λ e. e.0 ≡ CallRefusal.Refused PostRefusal.NoMemory)) }
        ensures back { IfErr result (λ e. e.1 ≡ request) }
        ensures err { OnErr result (self.new ≡ self.old) }
        ensures ok { OnOk result (self.new ≡ with_request self.old number request) }
    {
        match self.streams.get_mut(number) {
            Some(stream) => match stream.post(request) {
                Ok(()) => Ok(()),
                Err((refusal, request)) => Err((CallRefusal::Refused(refusal), request)),
            },
            None => Err((CallRefusal::NoSuchStream, request)),
        }
    }

    /// Posts a receive buffer, after the others. The stream need not be open yet. [`Step::Received`] gives the buffer
    /// back. An `Err` changes nothing and gives the buffer back; `NoMemory` comes only if no other refusal applies.
    pub fn post_recv(
        &mut self,
        number: u32,
        buffer: Vec<u8, A>,
    ) -> Result<(), (CallRefusal<RecvRefusal>, Vec<u8, A>)>
        // The first refusal that applies; if none does, only `NoMemory`.
        ensures refused { IfSome (recv_refusal self.old number) (λ refusal. IfErr result (λ e. e.0 ≡ refusal) × IsErr result) }
        ensures memory { IfNone (recv_refusal self.old number) (IfErr result (λ e. e.0 ≡ CallRefusal.Refused RecvRefusal.NoMemory)) }
        ensures back { IfErr result (λ e. e.1 ≡ buffer) }
        ensures err { OnErr result (self.new ≡ self.old) }
        ensures ok { OnOk result (self.new ≡ with_buffer self.old number buffer.items) }
    {
        match self.streams.get_mut(number) {
            Some(stream) => match stream.post_recv(buffer) {
                Ok(()) => Ok(()),
                Err((refusal, buffer)) => Err((CallRefusal::Refused(refusal), buffer)),
            },
            None => Err((CallRefusal::NoSuchStream, buffer)),
        }
    }

    /// Sets the sequence number of the peer's first octet at a stream. It is 0 if never set. Use it if octets come with
    /// sequence numbers of their own, such as TCP's (RFC 9293 3.4). Of several calls the last counts.
    ///
    /// `Late`: octets were delivered to the stream before, whether kept or dropped. An `Err` changes nothing.
    pub fn first_number(&mut self, number: u32, first: u32) -> Result<(), CallRefusal<FirstRefusal>>
        ensures refused { result_err result ≡ first_refusal self.old number }
        ensures ok { OnOk result (self.new ≡ with_first self.old number first) }
        ensures err { OnErr result (self.new ≡ self.old) }
    {
        match self.streams.get_mut(number) {
            Some(stream) => stream.first_number(first).map_err(CallRefusal::Refused),
            None => Err(CallRefusal::NoSuchStream),
        }
    }

    /// The sequence number of the peer's first octet at a stream: the last that was set, 0 if none was.
    pub fn peer_first(&self, number: u32) -> Result<u32, NoSuchStream>
        ensures stream { is_ok result ≡ has_stream self.now number }
        ensures first { IfOk result (λ first. first ≡ first_at self.now number) }
    {
        match self.streams.get(number) {
            Some(stream) => Ok(stream.peer_first()),
            None => Err(NoSuchStream),
        }
    }

    /// Takes octets that came on a stream's connection; `from` is the sequence number of the first. Unless
    /// [`Endpoint::first_number`] was called, numbers count from 0, start-up frames included, modulo 2^32: a caller
    /// that reads a socket passes how many octets it read before. Octets may come in any order, and more than once.
    /// Call [`Endpoint::work`] next.
    ///
    /// A sequence number stands for the nearest place to the in-order point that has it: less than 2^31 octets past
    /// that point, or at most 2^31 before it. Octets before the in-order point, and before the peer's first octet, are
    /// ignored.
    ///
    /// The whole delivery is dropped if an octet of it lies 262,144 octets or more past the in-order point, if more
    /// than 1,024 islands (runs of octets with gaps between them) would result, or if the stream has ended. `Refused`
    /// means out of memory; it comes only if the octets would be kept and one of them is new. An `Err` changes nothing.
    pub fn deliver(
        &mut self,
        number: u32,
        from: u32,
        octets: &[u8],
    ) -> Result<Delivery, CallRefusal<AllocError>>
        ensures stream { (result ≡ Err CallRefusal.NoSuchStream) ↔ (has_stream self.old number ≡ false) }
        ensures delivery { IfOk result (λ delivery. delivery ≡ delivery_at self.old number from (length octets.now)) }
        ensures after { OnOk result (self.new ≡ after_deliver self.old number from octets.now) }
        ensures err { OnErr result (self.new ≡ self.old) }
        ensures memory { has_stream self.old number ≡ true → let s = stream_at self.old number in
            OnErr result ((ended s ≡ false) × BringsOctets s.arrived (place_of s from) (length octets.now - left_out s from)) }
    {
        match self.streams.get_mut(number) {
            Some(stream) => match stream.deliver(from, octets) {
                Ok(delivery) => Ok(delivery),
                Err(refusal) => Err(CallRefusal::Refused(refusal)),
            },
            None => Err(CallRefusal::NoSuchStream),
        }
    }

    /// Reads once from a stream's connection, right to where the octets are to stand: at most 65,536 octets, and no more than
    /// the window has room for. It is one delivery of what was read, past the last octet that came, and none of it is dropped,
    /// unless the stream has ended: such a stream still reads, and drops. The first octet that is read has the sequence number
    /// of [`Endpoint::first_number`], if nothing came before.
    ///
    /// A stream's first read asks for 4,096 octets, and one behind a read that brought all that it asked for, for four times as
    /// many. So a connection that brings little keeps little memory.
    ///
    /// `Refused` has the error of the reader, also if the read would block or was interrupted, or one of the kind
    /// `OutOfMemory`. Nothing was read then. An `Err` changes nothing.
    pub fn read_from<R: Read>(
        &mut self,
        number: u32,
        from: &mut R,
    ) -> Result<Intake, CallRefusal<io::Error>>
        ensures stream { (result ≡ Err CallRefusal.NoSuchStream) ↔ (has_stream self.old number ≡ false) }
        ensures ok { IfOk result (λ intake. IsRead self.old self.new number (R.remaining from.old) (R.remaining from.new) intake) }
        ensures err { OnErr result ((self.new ≡ self.old) × Keeps (R.remaining from.old) (R.remaining from.new)) }
    {
        match self.streams.get_mut(number) {
            Some(stream) => match stream.read_from(from) {
                Ok(intake) => Ok(intake),
                Err(error) => Err(CallRefusal::Refused(error)),
            },
            None => Err(CallRefusal::NoSuchStream),
        }
    }

    /// As [`Endpoint::read_from`], but at most `most` octets are read, 1 if `most` is 0, and memory is asked for and cleared for
    /// that many alone. So a connection that brings little keeps little memory.
    pub fn read_some<R: Read>(
        &mut self,
        number: u32,
        from: &mut R,
        most: usize,
    ) -> Result<Intake, CallRefusal<io::Error>>
        ensures stream { (result ≡ Err CallRefusal.NoSuchStream) ↔ (has_stream self.old number ≡ false) }
        ensures few { IfOk result (λ intake. octets_read intake ≤ max most 1) }
        ensures ok { IfOk result (λ intake. IsRead self.old self.new number (R.remaining from.old) (R.remaining from.new) intake) }
        ensures err { OnErr result ((self.new ≡ self.old) × Keeps (R.remaining from.old) (R.remaining from.new)) }
    {
        match self.streams.get_mut(number) {
            Some(stream) => match stream.read_some(from, most) {
                Ok(intake) => Ok(intake),
                Err(error) => Err(CallRefusal::Refused(error)),
            },
            None => Err(CallRefusal::NoSuchStream),
        }
    }

    /// Does one step at a stream and returns what it did. Call it until it answers [`Step::Idle`]: after octets came,
    /// after frames were emitted, and after [`Endpoint::break_link`].
    ///
    /// If the stream has ended, `work` hands back each posted message, in posting order ([`Step::Done`] or
    /// [`Step::Flushed`]), and then each receive buffer. A pool keeps the buffers that were not bound to a message.
    ///
    /// The in-order point ([`Endpoint::in_order_point`]) must be at most 2^62; it never exceeds the number of octets
    /// that came. `Refused` means out of memory, and comes only when a frame is judged before its turn. An `Err`
    /// changes nothing.
    #[inline(always)]
    pub fn work(&mut self, number: u32) -> Result<Step<Octets<A>>, CallRefusal<AllocError>>
        requires { point_at self.old number ≤ 2 ^ 62 }
        ensures stream { (result ≡ Err CallRefusal.NoSuchStream) ↔ (has_stream self.old number ≡ false) }
        ensures step { IfOk result (λ step. Ok step ≡ step_at self.old number) }
        ensures after { OnOk result (self.new ≡ after_work self.old number) }
        ensures err { OnErr result (self.new ≡ self.old) }
        ensures want { has_stream self.old number ≡ true → OnErr result (IsTry (task (lent_to (pool_of self.old (stream_at self.old number).domain) (stream_at self.old number)))) }
        // The in-order point moves by at most the window, and a message lies within its buffer.
        ensures reach { point_at self.new number ≤ point_at self.old number + 2 ^ 18 }
        ensures within { IfOk result IsWithinBuffer }
    {
        match self.streams.get_mut(number) {
            Some(stream) => match self.pools.work(stream, &mut self.memory) {
                Ok(step) => Ok(step),
                Err(refusal) => Err(CallRefusal::Refused(refusal)),
            },
            None => Err(CallRefusal::NoSuchStream),
        }
    }

    /// Appends to `out` what a stream is to send next. When the socket is writable, call it until it answers
    /// [`Emission::Nothing`]. A Read Response is fetched from the region as it is emitted; if the peer may no longer
    /// read there, nothing is appended and the stream has ended ([`Emission::Fault`]). A stream that has ended by a
    /// fault emits one Terminate, after a start-up frame that is still due, and nothing more. A responder at which no
    /// frame of the peer's had its turn emits no Terminate (RFC 5044 7.1.2). In the peer-to-peer model an initiator's
    /// first frame is its RTR, of which no [`Step::Done`] tells (RFC 6581 9.2).
    ///
    /// At most 2^62 octets may have been emitted before ([`Endpoint::sent`]). `Refused` means out of memory. It comes
    /// only if something would be appended: if `out` has no room for it, or if it begins a Read while none is
    /// outstanding (that takes memory for 16 of them). An `Err` changes nothing.
    #[inline(always)]
    pub fn emit(
        &mut self,
        number: u32,
        out: &mut Vec<u8, A>,
    ) -> Result<Emission, CallRefusal<AllocError>>
        requires { sent_at self.old number ≤ 2 ^ 62 }
        ensures stream { (result ≡ Err CallRefusal.NoSuchStream) ↔ (has_stream self.old number ≡ false) }
        ensures emission { IfOk result (λ emission. emission ≡ emission_at self.old number) }
        ensures out { OnOk result (out.new.items ≡ out.old.items ++ emitted_at self.old number) }
        ensures after { OnOk result (self.new ≡ after_emit self.old number) }
        ensures err { OnErr result ((self.new ≡ self.old) × (out.new.items ≡ out.old.items)) }
        ensures memory { has_stream self.old number ≡ true → emission_at self.old number ≡ Emission.Nothing → is_ok result ≡ true }
        ensures denied { has_stream self.old number ≡ true → (fault : Fault) → emission_at self.old number ≡ Emission.Fault fault → is_ok result ≡ true }
        ensures room { has_stream self.old number ≡ true → vec_len out.old + length (emitted_at self.old number) ≤ vec_capacity out.old
            → OnErr result (BeginsReads (stream_at self.old number) (due (stream_at self.old number))) }
    {
        match self.streams.get_mut(number) {
            Some(stream) => match stream.emit(&self.memory, out) {
                Ok(emission) => Ok(emission),
                Err(refusal) => Err(CallRefusal::Refused(refusal)),
            },
            None => Err(CallRefusal::NoSuchStream),
        }
    }

    /// How many octets the next call of [`Endpoint::emit`] appends unless it runs out of memory: 0 if nothing is due,
    /// or if the peer may not read what a Read asks for. As for `emit`, at most 2^62 octets may have been emitted.
    pub fn due_len(&self, number: u32) -> Result<usize, NoSuchStream>
        requires { sent_at self.now number ≤ 2 ^ 62 }
        ensures stream { is_ok result ≡ has_stream self.now number }
        ensures len { IfOk result (λ len. len ≡ length (emitted_at self.now number)) }
    {
        match self.streams.get(number) {
            Some(stream) => Ok(stream.due_len(&self.memory)),
            None => Err(NoSuchStream),
        }
    }

    /// At least as many octets as the next call of [`Endpoint::emit`] appends: what the maximum ULPDU allows. It takes less
    /// time than [`Endpoint::due_len`], since it does not look at what is due. (Its last clause says that a frame has
    /// octets.) As for `emit`, at most 2^62 octets may have been emitted.
    pub fn most_due(&self, number: u32) -> Result<usize, NoSuchStream>
        requires { sent_at self.now number ≤ 2 ^ 62 }
        ensures stream { is_ok result ≡ has_stream self.now number }
        ensures most { IfOk result (λ most. length (emitted_at self.now number) ≤ most) }
        ensures some { IfOk result (λ most. length (emitted_at self.now number) ≡ 0 → IsNothing (emission_at self.now number)) }
    {
        match self.streams.get(number) {
            Some(stream) => Ok(stream.most_due()),
            None => Err(NoSuchStream),
        }
    }

    /// Sets the maximum ULPDU of the frames that a stream emits from then on, 128 to 64,512 octets. It is 1,400 if
    /// never set. An `Err` changes nothing.
    pub fn set_mulpdu(&mut self, number: u32, size: u32) -> Result<(), CallRefusal<SizeRefusal>>
        ensures refused { result_err result ≡ size_refusal self.old number size }
        ensures ok { OnOk result (self.new ≡ with_mulpdu self.old number size) }
        ensures err { OnErr result (self.new ≡ self.old) }
    {
        match self.streams.get_mut(number) {
            Some(stream) => match stream.set_mulpdu(size) {
                Ok(()) => Ok(()),
                Err(refusal) => Err(CallRefusal::Refused(refusal)),
            },
            None => Err(CallRefusal::NoSuchStream),
        }
    }

    /// The private data of the peer's start-up frame at a stream: empty if that frame has none or has not been read.
    pub fn private(&self, number: u32) -> Result<&[u8], NoSuchStream>
        ensures stream { is_ok result ≡ has_stream self.now number }
        ensures private { IfOk result (λ private. private.now ≡ private_at self.now number) }
    {
        match self.streams.get(number) {
            Some(stream) => Ok(stream.private()),
            None => Err(NoSuchStream),
        }
    }

    /// What the peer told in its start-up frame by the word of IRD and ORD (RFC 6581 9), once that was read; `None` if it
    /// has no word. The frame's options are told by [`Endpoint::peer_options`].
    pub fn peer_enhanced(&self, number: u32) -> Result<Option<EnhancedData>, NoSuchStream>
        ensures stream { is_ok result ≡ has_stream self.now number }
        ensures told { IfOk result (λ told. told ≡ told_at self.now number) }
    {
        match self.streams.get(number) {
            Some(stream) => Ok(stream.told()),
            None => Err(NoSuchStream),
        }
    }

    /// The older name of [`Endpoint::peer_enhanced`]. **Deprecated**: it goes with the next release.
    pub fn told(&self, number: u32) -> Result<Option<EnhancedData>, NoSuchStream>
        ensures stream { is_ok result ≡ has_stream self.now number }
        ensures told { IfOk result (λ told. told ≡ told_at self.now number) }
    {
        self.peer_enhanced(number)
    }

    /// What the peer asks for in its start-up frame at a stream, once that was read: at [`Step::Asked`], and from
    /// [`Step::Opened`] on. `None` if it has not been read, and at a preset stream.
    pub fn peer_options(&self, number: u32) -> Result<Option<PeerOptions>, NoSuchStream>
        ensures stream { is_ok result ≡ has_stream self.now number }
        ensures options { IfOk result (λ options. options ≡ options_at self.now number) }
    {
        match self.streams.get(number) {
            Some(stream) => Ok(stream.peer_options()),
            None => Err(NoSuchStream),
        }
    }

    /// Whether a stream is starting, is open or has ended.
    pub fn standing(&self, number: u32) -> Result<Standing, NoSuchStream>
        ensures stream { is_ok result ≡ has_stream self.now number }
        ensures standing { IfOk result (λ standing. standing ≡ standing_at self.now number) }
    {
        match self.streams.get(number) {
            Some(stream) => Ok(stream.standing()),
            None => Err(NoSuchStream),
        }
    }

    /// Whether the next call of [`Endpoint::emit`] answers anything but [`Emission::Nothing`], unless it runs out of memory.
    pub fn has_due(&self, number: u32) -> Result<bool, NoSuchStream>
        ensures stream { is_ok result ≡ has_stream self.now number }
        ensures due { IfOk result (λ due. due ≡ has_due self.now number) }
    {
        match self.streams.get(number) {
            Some(stream) => Ok(stream.has_due()),
            None => Err(NoSuchStream),
        }
    }

    /// How many octets a stream has emitted, which is the stream place of the next one.
    pub fn sent(&self, number: u32) -> Result<u64, NoSuchStream>
        ensures stream { is_ok result ≡ has_stream self.now number }
        ensures sent { IfOk result (λ sent. sent ≡ sent_at self.now number) }
    {
        match self.streams.get(number) {
            Some(stream) => Ok(stream.sent()),
            None => Err(NoSuchStream),
        }
    }

    /// The in-order point: where the last frame that had its turn ends, or the peer's start-up frame if none had. It is
    /// at most the number of octets that came in order.
    pub fn in_order_point(&self, number: u32) -> Result<u64, NoSuchStream>
        ensures stream { is_ok result ≡ has_stream self.now number }
        ensures point { IfOk result (λ point. point ≡ point_at self.now number) }
    {
        match self.streams.get(number) {
            Some(stream) => Ok(stream.in_order_point()),
            None => Err(NoSuchStream),
        }
    }

    /// For the prover alone: it changes nothing. Its clauses state the limits that a stream keeps ([`iw_stream::Stream::limits`]),
    /// and that there is a place for each of the numbers 0 to 63.
    pub fn limits(&self, number: u32) -> Result<(), NoSuchStream>
        ensures stream { is_ok result ≡ has_stream self.now number }
        ensures within { OnOk result (IsWithin (stream_at self.now number)) }
        ensures numbers { HasNumbers self.now }
    {
        self.streams.limits();
        match self.streams.get(number) {
            Some(stream) => {
                stream.limits();
                Ok(())
            }
            None => Err(NoSuchStream),
        }
    }
}
