//! Regions of octets in either form: a vector's, or in memory that a program keeps.
ghost use Rattle.std.specs.Prelude.{◌≡◌, Some, length, IfSome, IfNone, IfOk, IfErr, IsErr, OnOk, OnErr};
ghost use Rattle.std.specs.Option.{option_map};
ghost use Rattle.std.specs.Result.{result_err, result_ok};
ghost use Rattle.iw_kept.specs.Octets.{octets_of as octets_in, is_kept};
ghost use Rattle.iw_queues.specs.Outgoing.{request_of};
ghost use Rattle.iw_memory.specs.Forms.{octets_refusal, kept_refusal};
ghost use Rattle.iw_memory.specs.Table.{region_at, next_stag, drawn_stag};

use super::Endpoint;
use crate::refusal::{CallRefusal, LimitRefusal};
use iw_kept::{Lodged, RegionOctets};
use iw_memory::{DeregisterRefusal, NoRegion, RegisterRefusal, Rights, Stag};
use iw_octets::Message;
use iw_stream::PostRefusal;
use std::alloc::Allocator;

impl<A: Allocator> Endpoint<A> {
    ghost use Rattle.iw_endpoint.specs.Endpoint.{stream_at, post_refusal, with_request, octets_of, deregistered};
    ghost use Rattle.iw_endpoint.specs.KeptRegions.{limited_refusal, registered_octets, limited_octets, drawn_octets, limited_drawn_octets};

    /// Registers octets in a domain as [`Endpoint::register`] does, in either form: a vector's, or in memory that a program
    /// keeps, which it then leaves to the endpoint until it has it back ([`Endpoint::deregister_kept`],
    /// [`Endpoint::take_region`]). Such memory may have up to 2^46 octets. The refusals are those of `register`. An `Err`
    /// changes nothing and gives the octets back.
    pub fn register_octets(
        &mut self,
        pd: u8,
        base: u64,
        octets: RegionOctets<A>,
        rights: Rights,
    ) -> Result<Stag, (RegisterRefusal, RegionOctets<A>)>
        // The first refusal that applies; if none does, only `NoMemory`.
        ensures refused { IfSome (octets_refusal self.old.table pd base octets) (λ refusal. IfErr result (λ e. e.0 ≡ refusal) × IsErr result) }
        ensures memory { IfNone (octets_refusal self.old.table pd base octets) (IfErr result (λ e. e.0 ≡ RegisterRefusal.NoMemory)) }
        ensures back { IfErr result (λ e. e.1 ≡ octets) }
        ensures err { OnErr result (self.new ≡ self.old) }

        ensures stag { IfOk result (λ stag. stag ≡ next_stag self.old.table pd) }
        ensures ok { OnOk result (self.new ≡ registered_octets self.old pd base octets rights) }
    {
        self.memory.register_octets(pd, None, base, octets, rights)
    }

    /// The same under an STag that `drawn` chooses, as [`Endpoint::register_drawn`] does it.
    pub fn register_octets_drawn(
        &mut self,
        pd: u8,
        base: u64,
        octets: RegionOctets<A>,
        rights: Rights,
        drawn: u32,
    ) -> Result<Stag, (RegisterRefusal, RegionOctets<A>)>
        // The first refusal that applies; if none does, only `NoMemory`.
        ensures refused { IfSome (octets_refusal self.old.table pd base octets) (λ refusal. IfErr result (λ e. e.0 ≡ refusal) × IsErr result) }
        ensures memory { IfNone (octets_refusal self.old.table pd base octets) (IfErr result (λ e. e.0 ≡ RegisterRefusal.NoMemory)) }
        ensures back { IfErr result (λ e. e.1 ≡ octets) }
        ensures err { OnErr result (self.new ≡ self.old) }

        ensures stag { IfOk result (λ stag. stag ≡ drawn_stag self.old.table pd drawn) }
        ensures ok { OnOk result (self.new ≡ drawn_octets self.old pd base octets rights drawn) }
    {
        self.memory
            .draw_octets(pd, None, base, octets, rights, drawn)
    }

    /// Registers octets in either form for one stream alone, as [`Endpoint::register_for`] does a vector's. The refusals are
    /// those of `register_for`. An `Err` changes nothing and gives the octets back.
    pub fn register_octets_for(
        &mut self,
        number: u32,
        base: u64,
        octets: RegionOctets<A>,
        rights: Rights,
    ) -> Result<Stag, (CallRefusal<LimitRefusal>, RegionOctets<A>)>
        // The first refusal that applies; if none does, only `NoMemory`.
        ensures refused { IfSome (limited_refusal self.old number base octets) (λ refusal. IfErr result (λ e. e.0 ≡ refusal) × IsErr result) }
        ensures memory { IfNone (limited_refusal self.old number base octets)
            (IfErr result (λ e. e.0 ≡ CallRefusal.Refused (LimitRefusal.Refused RegisterRefusal.NoMemory))) }
        ensures back { IfErr result (λ e. e.1 ≡ octets) }
        ensures err { OnErr result (self.new ≡ self.old) }

        ensures stag { IfOk result (λ stag. stag ≡ next_stag self.old.table (stream_at self.old number).domain) }
        ensures ok { OnOk result (self.new ≡ limited_octets self.old number base octets rights) }
    {
        match self.domain_running(number) {
            Ok(pd) => match self
                .memory
                .register_octets(pd, Some(number), base, octets, rights)
            {
                Ok(stag) => Ok(stag),
                Err((refusal, octets)) => Err((
                    CallRefusal::Refused(LimitRefusal::Refused(refusal)),
                    octets,
                )),
            },
            Err(refusal) => Err((refusal, octets)),
        }
    }

    /// The same under an STag that `drawn` chooses, as [`Endpoint::register_drawn_for`] does it.
    pub fn register_octets_drawn_for(
        &mut self,
        number: u32,
        base: u64,
        octets: RegionOctets<A>,
        rights: Rights,
        drawn: u32,
    ) -> Result<Stag, (CallRefusal<LimitRefusal>, RegionOctets<A>)>
        // The first refusal that applies; if none does, only `NoMemory`.
        ensures refused { IfSome (limited_refusal self.old number base octets) (λ refusal. IfErr result (λ e. e.0 ≡ refusal) × IsErr result) }
        ensures memory { IfNone (limited_refusal self.old number base octets)
            (IfErr result (λ e. e.0 ≡ CallRefusal.Refused (LimitRefusal.Refused RegisterRefusal.NoMemory))) }
        ensures back { IfErr result (λ e. e.1 ≡ octets) }
        ensures err { OnErr result (self.new ≡ self.old) }

        ensures stag { IfOk result (λ stag. stag ≡ drawn_stag self.old.table (stream_at self.old number).domain drawn) }
        ensures ok { OnOk result (self.new ≡ limited_drawn_octets self.old number base octets rights drawn) }
    {
        match self.domain_running(number) {
            Ok(pd) => match self
                .memory
                .draw_octets(pd, Some(number), base, octets, rights, drawn)
            {
                Ok(stag) => Ok(stag),
                Err((refusal, octets)) => Err((
                    CallRefusal::Refused(LimitRefusal::Refused(refusal)),
                    octets,
                )),
            },
            Err(refusal) => Err((refusal, octets)),
        }
    }

    /// Posts a message as [`Endpoint::post`] does, whose octets are in memory that a program keeps: they are copied into frames
    /// alone, as these are emitted. The program leaves the memory as it is until [`Step::Done`](crate::Step::Done) or
    /// [`Step::Flushed`](crate::Step::Flushed) reports the message, or the stream is closed. An `Err` changes
    /// nothing and gives the message back; `NoMemory` comes only if no other refusal applies.
    pub fn post_kept(
        &mut self,
        number: u32,
        message: Message<Vec<u8, Lodged>>,
    ) -> Result<(), (CallRefusal<PostRefusal>, Message<Vec<u8, Lodged>>)>
        // The first refusal that applies; if none does, only `NoMemory`.
        ensures refused { IfSome (post_refusal self.old number (request_of message)) (λ refusal. IfErr result (λ e. e.0 ≡ refusal) × IsErr result) }
        ensures memory { IfNone (post_refusal self.old number (request_of message))
            (IfErr result (λ e. e.0 ≡ CallRefusal.Refused PostRefusal.NoMemory)) }
        ensures back { IfErr result (λ e. e.1 ≡ message) }
        ensures err { OnErr result (self.new ≡ self.old) }
        ensures ok { OnOk result (self.new ≡ with_request self.old number (request_of message)) }
    {
        match self.streams.get_mut(number) {
            Some(stream) => match stream.post_kept(message) {
                Ok(()) => Ok(()),
                Err((refusal, message)) => Err((CallRefusal::Refused(refusal), message)),
            },
            None => Err((CallRefusal::NoSuchStream, message)),
        }
    }

    /// Whether a program keeps the memory of a region's octets. `None` if the STag names none.
    pub fn is_kept(&self, stag: Stag) -> Option<bool>
        ensures { result ≡ option_map (λ r. r.kept) (region_at self.now.table stag) }
    {
        self.memory.is_kept(stag)
    }

    /// Removes a region, valid or not, and returns the memory that has its octets and that a program keeps. From then on its
    /// STag names no region. `OtherMemory`: they are a vector's ([`Endpoint::deregister`]). An `Err` changes nothing.
    pub fn deregister_kept(&mut self, stag: Stag) -> Result<Vec<u8, Lodged>, DeregisterRefusal>
        ensures refused { result_err result ≡ kept_refusal self.old.table stag }
        ensures octets { IfOk result (λ v. Some v.items ≡ octets_of self.old stag) }
        ensures ok { OnOk result (self.new ≡ deregistered self.old stag) }
        ensures err { OnErr result (self.new ≡ self.old) }
    {
        self.memory.deregister_kept(stag)
    }

    /// Removes a region, valid or not, and returns its octets, in whichever memory they are. From then on its STag names no
    /// region. An `Err` changes nothing.
    pub fn take_region(&mut self, stag: Stag) -> Result<RegionOctets<A>, NoRegion>
        ensures octets { option_map (λ o. octets_in o) (result_ok result) ≡ octets_of self.old stag }
        ensures kept { option_map (λ o. is_kept o) (result_ok result)
            ≡ option_map (λ r. r.kept) (region_at self.old.table stag) }
        ensures after { self.new ≡ deregistered self.old stag }
        ensures err { OnErr result (self.new ≡ self.old) }
    {
        self.memory.take_region(stag)
    }
}
