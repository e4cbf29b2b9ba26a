//! Structs that begin with their size, so that later versions can add to them.
ghost use Rattle.std.specs.Prelude.{◌≡◌, ◌⊎◌, None, Some, IfSome, IfNone, IfOk, IfErr, OnOk, OnErr};
ghost use Rattle.std.specs.Option.{option_map};
ghost use Rattle.std.specs.Result.{result_err};
ghost use Rattle.iw_endpoint.specs.Endpoint.{fresh, facts_at, told_at, options_at};
ghost use Rattle.iw_handle.specs.Regions.{region_refusal};
ghost use Rattle.iw_handle.specs.Structs.{struct_refusal, region_told, peer_told_in, options_refusal};
ghost use Rattle.iw_handle.specs.State.{open_with, refusal_in, told_in, shown_in, stream_refusal, first_of};
ghost use Rattle.iw_handle.specs.declared.structs.TheConstants.{REGION_SIZE, PEER_SIZE};

use crate::event::{RegionFacts, Told, facts_of};
use crate::handle::Handle;
use crate::refusal::Refusal;
use crate::streams::told;
use iw_endpoint::{Endpoint, Stag};
use std::alloc::Global;

// How many octets each struct has in its first version.
pub const REGION_SIZE: usize = 72;

pub const PEER_SIZE: usize = 80;

pub const OPTIONS_SIZE: usize = 48;

pub const POSTING_SIZE: usize = 88;

pub const REGISTRATION_SIZE: usize = 72;

pub const LIMITS_SIZE: usize = 56;

// How many octets limits have from the version on that gave them flags.
pub const FLAGGED_LIMITS_SIZE: usize = 64;

const _: () = prove!(size_of::<RegionTold>() == REGION_SIZE);

const _: () = prove!(size_of::<PeerTold>() == PEER_SIZE);

const _: () = prove!(size_of::<Options>() == OPTIONS_SIZE);

const _: () = prove!(size_of::<Posting>() == POSTING_SIZE);

const _: () = prove!(size_of::<Registration>() == REGISTRATION_SIZE);

const _: () = prove!(size_of::<Limits>() == LIMITS_SIZE);

/// The facts of a region. What is reserved becomes 0.
#[repr(C)]
#[derive(Clone, Copy)]
pub struct RegionTold {
    /// How many octets the program's struct has.
    pub size: usize,
    pub facts: RegionFacts,
    pub reserved_0: u64,
    pub reserved_1: u64,
    pub reserved_2: u64,
    pub reserved_3: u64,
}

/// What the peer told in its start-up frame. What is reserved becomes 0.
#[repr(C)]
#[derive(Clone, Copy)]
pub struct PeerTold {
    /// How many octets the program's struct has.
    pub size: usize,
    pub told: Told,
    pub reserved_0: u64,
    pub reserved_1: u64,
    pub reserved_2: u64,
    pub reserved_3: u64,
}

/// How a handle is opened. What is reserved is not read.
#[repr(C)]
#[derive(Clone, Copy)]
pub struct Options {
    /// How many octets the program's struct has.
    pub size: usize,
    /// 0: none has a meaning yet.
    pub flags: u64,
    pub reserved_0: u64,
    pub reserved_1: u64,
    pub reserved_2: u64,
    pub reserved_3: u64,
}

/// A message that is posted. Fields that its kind does not need are not read, and neither is what is reserved.
#[repr(C)]
#[derive(Clone, Copy)]
pub struct Posting {
    /// How many octets the program's struct has.
    pub size: usize,
    /// 1 (Write), 2 (Send) or 3 (Read).
    pub kind: u32,
    /// The peer's region: that a Write goes to, that a Read comes from, or that a Send invalidates.
    pub stag: u32,
    /// The region that a Read goes to.
    pub sink: u32,
    /// How many octets a Read asks for.
    pub len: u32,
    /// Of a Send, a sum of 1 (it is solicited) and 2 (it invalidates `stag`).
    pub flags: u64,
    /// The tagged offset at the peer.
    pub to: u64,
    /// The tagged offset that a Read goes to.
    pub sink_to: u64,
    pub token: u64,
    pub reserved_0: u64,
    pub reserved_1: u64,
    pub reserved_2: u64,
    pub reserved_3: u64,
}

/// How a region is registered. Fields that its flags leave out are not read, and neither is what is reserved.
#[repr(C)]
#[derive(Clone, Copy)]
pub struct Registration {
    /// How many octets the program's struct has.
    pub size: usize,
    /// A sum of 1 (it is limited to a stream) and 2 (its STag is drawn).
    pub flags: u64,
    /// The tagged offset of its first octet.
    pub base: u64,
    /// A sum of 1 (write), 2 (read), 4 (sink) and 8 (invalidate).
    pub rights: u32,
    /// Its domain, if it is not limited.
    pub pd: u32,
    /// The stream that it is limited to.
    pub stream: u32,
    /// The random bits that its STag is drawn by.
    pub drawn: u32,
    pub reserved_0: u64,
    pub reserved_1: u64,
    pub reserved_2: u64,
    pub reserved_3: u64,
}

/// How many buffers of its domain's pool a stream may take, and from how many on it is told (RFC 5042 6.4.3.1). What is reserved is
/// not read. In a struct of 64 octets or more the flags say which limits count; without one those that are not 0, so a cleared struct
/// sets none. A shorter one, of the first version, has no flags, and both count. These are the 56 octets that both have.
#[repr(C)]
#[derive(Clone, Copy)]
pub struct Limits {
    /// How many octets the program's struct has.
    pub size: usize,
    /// The most buffers of the pool that may be bound to the stream's messages; `usize::MAX` sets no share.
    pub share: usize,
    /// It is told when more than so many come to be bound; `usize::MAX` sets no mark.
    pub mark: usize,
    /// A sum of 1 (it has a share) and 2 (it has a mark).
    pub flags: u64,
    pub reserved_0: u64,
    pub reserved_1: u64,
    pub reserved_2: u64,
}

/// Whether a struct of `size` octets has the fields of the first version, of `first` octets.
pub(crate) fn check_size(first: usize, size: usize) -> Result<(), Refusal>
    ensures { result_err result ≡ struct_refusal first size }
{
    if size < first {
        Err(Refusal::BadStruct)
    } else {
        Ok(())
    }
}

fn check_options(options: &Options) -> Result<(), Refusal>
    ensures { result_err result ≡ options_refusal options.now }
{
    check_size(OPTIONS_SIZE, options.size)?;
    if options.flags < 1 {
        Ok(())
    } else {
        Err(Refusal::BadBits)
    }
}

// Tells the facts of a region.
fn tell_region(endpoint: &Endpoint, stag: Stag, region: &mut RegionTold) -> Result<(), Refusal>
    ensures refused { result_err result ≡ first_of (struct_refusal REGION_SIZE region.old.size)
        (region_refusal endpoint.now stag) }
    ensures ok { OnOk result (Some region.new ≡ option_map (λ facts. region_told region.old.size facts)
        (facts_at endpoint.now stag)) }
    ensures err { OnErr result (region.new ≡ region.old) }
{
    let size = region.size;
    check_size(REGION_SIZE, size)?;
    match endpoint.facts(stag) {
        Some(facts) => {
            *region = RegionTold {
                size,
                facts: facts_of(facts),
                reserved_0: 0,
                reserved_1: 0,
                reserved_2: 0,
                reserved_3: 0,
            };
            Ok(())
        }
        None => Err(Refusal::NoRegion),
    }
}

// Tells what the peer told.
fn tell_peer(endpoint: &Endpoint, number: u32, peer: &mut PeerTold) -> Result<(), Refusal>
    ensures refused { result_err result ≡ first_of (struct_refusal PEER_SIZE peer.old.size)
        (stream_refusal endpoint.now number) }
    ensures ok { OnOk result
        (peer.new ≡ peer_told_in peer.old.size (options_at endpoint.now number) (told_at endpoint.now number)) }
    ensures err { OnErr result (peer.new ≡ peer.old) }
{
    let size = peer.size;
    check_size(PEER_SIZE, size)?;
    let told = told(endpoint, number)?;
    *peer = PeerTold {
        size,
        told,
        reserved_0: 0,
        reserved_1: 0,
        reserved_2: 0,
        reserved_3: 0,
    };
    Ok(())
}

impl Handle {
    /// Opens a closed handle, as [`Handle::open`] does, with options. `BadStruct` means that the struct is shorter than that of
    /// the first version, `BadBits` that it has a flag: none has a meaning yet. An `Err` changes nothing.
    pub fn open_as(&mut self, alloc: Global, options: &Options) -> Result<(), Refusal>
        ensures bad { IfSome (options_refusal options.now) (λ r. result ≡ Err r) }
        ensures open { IfNone (options_refusal options.now)
            (IfSome self.old.state (λ _. result ≡ Err Refusal.AlreadyOpen)) }
        ensures why { IfNone (options_refusal options.now)
            (self.old.state ≡ None → IfErr result (λ e. e ≡ Refusal.NoMemory)) }
        ensures ok { OnOk result (self.new.state ≡ open_with fresh) }
        ensures err { OnErr result (self.new.state ≡ self.old.state) }
    {
        check_options(options)?;
        self.open(alloc)
    }

    /// The facts of a region, valid or not, as [`Handle::facts`] has them. `BadStruct` means that the struct is shorter than that
    /// of the first version. An `Err` writes nothing.
    pub fn region_facts(
        &mut self,
        alloc: Global,
        stag: Stag,
        region: &mut RegionTold,
    ) -> Result<(), Refusal>
        ensures refused { result_err result ≡ refusal_in self.old.state
            (λ e. first_of (struct_refusal REGION_SIZE region.old.size) (region_refusal e stag)) }
        ensures ok { OnOk result (Some region.new ≡ option_map (λ facts. region_told region.old.size facts)
            (shown_in self.old.state (λ e. facts_at e stag))) }
        ensures err { OnErr result (region.new ≡ region.old) }
        ensures same { self.new.state ≡ self.old.state }
    {
        let Some(held) = self.take(alloc) else {
            return Err(Refusal::Closed);
        };
        let done = tell_region(&held.endpoint, stag, region);
        self.put(held);
        done
    }

    /// What the peer told in its start-up frame, as [`Handle::told`] has it. `BadStruct` means that the struct is shorter than
    /// that of the first version. An `Err` writes nothing.
    pub fn peer_facts(
        &mut self,
        alloc: Global,
        number: u32,
        peer: &mut PeerTold,
    ) -> Result<(), Refusal>
        ensures refused { result_err result ≡ refusal_in self.old.state
            (λ e. first_of (struct_refusal PEER_SIZE peer.old.size) (stream_refusal e number)) }
        ensures ok { OnOk result (Some peer.new ≡ told_in self.old.state
            (λ e. peer_told_in peer.old.size (options_at e number) (told_at e number))) }
        ensures err { OnErr result (peer.new ≡ peer.old) }
        ensures same { self.new.state ≡ self.old.state }
    {
        let Some(held) = self.take(alloc) else {
            return Err(Refusal::Closed);
        };
        let done = tell_peer(&held.endpoint, number, peer);
        self.put(held);
        done
    }
}
