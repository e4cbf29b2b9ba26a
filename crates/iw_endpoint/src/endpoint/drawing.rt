//! Regions under STags that no peer guesses (RFC 5042 6.1.1).
ghost use Rattle.std.specs.Prelude.{◌≡◌, length, IfSome, IfNone, IfOk, IfErr, IsErr, OnOk, OnErr};
ghost use Rattle.iw_memory.specs.Table.{register_refusal, drawn_stag};

use super::Endpoint;
use crate::refusal::{CallRefusal, LimitRefusal};
use iw_memory::{RegisterRefusal, Rights, Stag};
use std::alloc::Allocator;

impl<A: Allocator> Endpoint<A> {
    ghost use Rattle.iw_endpoint.specs.Endpoint.{stream_at, limit_refusal};
    ghost use Rattle.iw_endpoint.specs.Drawing.{registered_drawn, limited_drawn};

    /// Registers octets in a domain as [`Endpoint::register`] does, under an STag that no peer guesses (RFC 5042 6.1.1):
    /// `drawn` are 32 random bits, others at each call, which nobody can foresee. They choose a free slot of the
    /// domain's 1,024, and one of the 255 keys that are not the slot's last one
    /// ([`iw_memory::Memory::register_drawn`]). The first such region of a domain may take the memory for all its slots.
    ///
    /// The refusals are those of `register`. An `Err` changes nothing and gives the octets back; `NoMemory` comes only if no
    /// other refusal applies.
    pub fn register_drawn(
        &mut self,
        pd: u8,
        base: u64,
        octets: Vec<u8, A>,
        rights: Rights,
        drawn: u32,
    ) -> Result<Stag, (RegisterRefusal, Vec<u8, A>)>
        // The first refusal that applies; if none does, only `NoMemory`.
        ensures refused { IfSome (register_refusal self.old.table pd base (length octets.items)) (λ refusal. IfErr result (λ e. e.0 ≡ refusal) × IsErr result) }
        ensures memory { IfNone (register_refusal self.old.table pd base (length octets.items)) (IfErr result (λ e. e.0 ≡ RegisterRefusal.NoMemory)) }
        ensures back { IfErr result (λ e. e.1 ≡ octets) }
        ensures err { OnErr result (self.new ≡ self.old) }

        ensures stag { IfOk result (λ stag. stag ≡ drawn_stag self.old.table pd drawn) }
        ensures ok { OnOk result (self.new ≡ registered_drawn self.old pd base octets.items rights drawn) }
    {
        self.memory.register_drawn(pd, base, octets, rights, drawn)
    }

    /// Registers octets for one stream alone as [`Endpoint::register_for`] does, under an STag that `drawn` chooses
    /// ([`Endpoint::register_drawn`]). When the stream is closed, the region becomes invalid.
    ///
    /// The refusals are those of `register_for`. An `Err` changes nothing and gives the octets back; `NoMemory` comes only if
    /// no other refusal applies.
    pub fn register_drawn_for(
        &mut self,
        number: u32,
        base: u64,
        octets: Vec<u8, A>,
        rights: Rights,
        drawn: u32,
    ) -> Result<Stag, (CallRefusal<LimitRefusal>, Vec<u8, A>)>
        // The first refusal that applies; if none does, only `NoMemory`.
        ensures refused { IfSome (limit_refusal self.old number base (length octets.items)) (λ refusal. IfErr result (λ e. e.0 ≡ refusal) × IsErr result) }
        ensures memory { IfNone (limit_refusal self.old number base (length octets.items)) (IfErr result (λ e. e.0 ≡ CallRefusal.Refused (LimitRefusal.Refused RegisterRefusal.NoMemory))) }
        ensures back { IfErr result (λ e. e.1 ≡ octets) }
        ensures err { OnErr result (self.new ≡ self.old) }

        ensures stag { IfOk result (λ stag. stag ≡ drawn_stag self.old.table (stream_at self.old number).domain drawn) }
        ensures ok { OnOk result (self.new ≡ limited_drawn self.old number base octets.items rights drawn) }
    {
        match self.domain_running(number) {
            Ok(pd) => match self
                .memory
                .register_drawn_for(pd, number, base, octets, rights, drawn)
            {
                Ok(stag) => Ok(stag),
                Err((refusal, octets)) => Err((
                    CallRefusal::Refused(LimitRefusal::Refused(refusal)),
                    octets,
                )),
            },
            Err(refusal) => Err((refusal, octets)),
        }
    }
}
