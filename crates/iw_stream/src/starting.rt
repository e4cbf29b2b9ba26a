//! The start-up of a stream: the frames of both ends, and what they agree on (RFC 5044 7.1, RFC 6581).
ghost use Rattle.std.specs.Prelude.{◌≡◌, ◌+◌, ◌≤◌, ◌^◌, ◌++◌, [], length, true, false, Some, IfOk, OnOk, OnErr, IsOk};
ghost use Rattle.std.specs.Prelude.{vec_len, vec_capacity};
ghost use Rattle.iw_ranges.specs.Arrived.{advanced, in_order};
ghost use Rattle.iw_startup.specs.declared.side.Reply.TheVariants.{Accept, Reject};
ghost use Rattle.std.specs.Option.{option_map_or};
ghost use Rattle.std.specs.Result.{result_err};
ghost use Rattle.iw_rdmap.specs.Terminate.{FitsFault, has_segment};
ghost use Rattle.iw_reads.specs.Outstanding.{most_reads};
ghost use Rattle.iw_startup.specs.declared.side.Side.TheVariants as sides;
ghost use Rattle.iw_startup.specs.State.{agreed_of, begun, is_answered};
ghost use Rattle.iw_stream.specs.Starting.{Heard, plain, layout_out, layout_in, exceeds_request, answer_refusal, negotiation_fault};

use crate::answer::{AnswerRefusal, INSUFFICIENT_IRD, NO_MATCHING_RTR, Role};
use crate::incoming::Incoming;
use iw_fpdu::Layout;
use iw_octets::{Fault, MAX_UNANSWERED};
use iw_startup::{
    Agreed, Config, EnhancedData, Establishment, MAX_ENHANCED_PRIVATE, MAX_FRAME, Mismatch,
    PeerOptions, PrivateData, Progress, Rtr, Startup,
};
use std::alloc::{AllocError, Allocator};
use std::marker::Model;

const PLAIN: Layout = Layout {
    markers: false,
    crc: false,
};

/// How far the start-up of a stream is (RFC 5044 7.1).
#[derive(Drop)]
pub(crate) struct Start {
    // Frames go both ways.
    running: bool,
    // How this end's frames are laid out, and the peer's: plain before both ends agree.
    sending: Layout,
    expecting: Layout,
    // The RTR that this end sends first.
    rtr: Option<Rtr>,
    // The peer's start-up frame was read.
    heard: bool,
    // How many Reads of this end are outstanding at most.
    most_reads: usize,
    // The exchange of start-up frames, if the stream begins with one.
    frames: Option<Startup>,
}

impl Model for Start {
    ghost use Rattle.iw_stream.specs.Starting.{StartState};

    ghost Value = { StartState };

    ghost use Rattle.iw_stream.specs.Fields.{start_of, IsStart};

    ghost view = { λ s. start_of s };

    ghost invariant = { λ s. IsStart s };
}

// The layout of the frames that this end sends.
fn layout_out(agreed: Agreed) -> Layout
    ensures { result ≡ layout_out agreed }
{
    Layout {
        markers: agreed.send_markers,
        crc: agreed.crc,
    }
}

// The layout of the frames that the peer sends.
fn layout_in(agreed: Agreed) -> Layout
    ensures { result ≡ layout_in agreed }
{
    Layout {
        markers: agreed.expect_markers,
        crc: agreed.crc,
    }
}

// The layout of the frames that the peer sends: plain before both ends agree.
fn layout_agreed(startup: &Startup) -> Layout
    ensures { result ≡ option_map_or layout_in (agreed_of startup.now) plain }
{
    match startup.agreed() {
        Some(agreed) => layout_in(agreed),
        None => PLAIN,
    }
}

// An initiator's start-up frames.
fn asking(config: Config) -> Startup
    requires { exceeds_request Role.Initiator config ≡ false }
    ensures { result ≡ begun sides.Initiator config }
{
    let _room = config.private.len();
    Startup::initiator(config)
}

/// Whether an initiator has too much private data for its Request: an enhanced one has room for 508 octets (RFC 6581 9).
pub fn exceeds_request(role: Role, config: &Config) -> bool
    ensures { result ≡ exceeds_request role config.now }
{
    match (role, config.establishment) {
        (Role::Initiator, Establishment::Enhanced | Establishment::PeerToPeer) => {
            config.private.len() > MAX_ENHANCED_PRIVATE
        }
        _ => false,
    }
}

// Why an answer to the peer's frame, which was read, is refused if it has this private data.
fn answer_refusal(startup: &Startup, private: &PrivateData) -> Option<AnswerRefusal>
    ensures { result ≡ answer_refusal (Heard startup.now) private.now.items }
{
    if !startup.awaits_answer() {
        return Some(AnswerRefusal::NotAsked);
    }
    if private.len() > startup.answer_room() {
        return Some(AnswerRefusal::PrivateTooLong);
    }
    None
}

/// The fault of a stream at which the peer's Reply wants what this end does not have.
pub(crate) fn negotiation_fault(mismatch: Mismatch) -> Fault
    ensures fault { result ≡ negotiation_fault mismatch }
    ensures fits { FitsFault result }
    ensures alone { has_segment result ≡ false }
{
    match mismatch {
        Mismatch::InsufficientIrd => INSUFFICIENT_IRD,
        Mismatch::NoMatchingRtr => NO_MATCHING_RTR,
    }
}

impl Start {
    ghost use Rattle.iw_stream.specs.Starting.{Unheard, start_at_first, is_open, sending, expecting, most_reads_in, rtr_in};
    ghost use Rattle.iw_stream.specs.Starting.{own_frame, first_place_in, first_place_out, is_responder};
    ghost use Rattle.iw_stream.specs.Starting.{awaits_frame, progress_in, heard, private_in, told_in, options_in};
    ghost use Rattle.iw_stream.specs.Starting.{agreed_in, agreement_in, mismatch_in, answered_with};

    /// Open at once, with the markers and CRCs that `config` asks for in both directions, or with start-up frames, which
    /// agree on them.
    pub(crate) fn new(role: Role, config: Config) -> Start
        requires { exceeds_request role config ≡ false }
        ensures { result ≡ start_at_first role config }
    {
        match role {
            Role::Preset => {
                let layout = Layout {
                    markers: config.markers,
                    crc: config.crc,
                };
                Start {
                    running: true,
                    sending: layout,
                    expecting: layout,
                    rtr: None,
                    most_reads: MAX_UNANSWERED,
                    heard: false,
                    frames: None,
                }
            }
            Role::Initiator => Start::with_frames(asking(config)),
            Role::Responder => Start::with_frames(Startup::responder(config)),
        }
    }

    // With start-up frames, none of which was read.
    fn with_frames(startup: Startup) -> Start
        requires none { startup.octets ≡ [] }
        requires unanswered { is_answered startup.side ≡ false }
        ensures { result ≡ Unheard startup }
    {
        Start {
            running: false,
            sending: PLAIN,
            expecting: PLAIN,
            rtr: None,
            most_reads: MAX_UNANSWERED,
            heard: false,
            frames: Some(startup),
        }
    }

    /// Frames go both ways: at once, or once both ends agree.
    #[inline(always)]
    pub(crate) fn is_open(&self) -> bool
        ensures { result ≡ is_open self.now }
    {
        self.running
    }

    /// The layout of the frames that this end sends.
    #[inline(always)]
    pub(crate) fn sending(&self) -> Layout
        ensures { result ≡ sending self.now }
    {
        self.sending
    }

    /// The layout of the frames that the peer sends.
    #[inline(always)]
    pub(crate) fn expecting(&self) -> Layout
        ensures { result ≡ expecting self.now }
    {
        self.expecting
    }

    /// How many Reads of this end are outstanding at most.
    #[inline(always)]
    pub(crate) fn most_reads(&self) -> usize
        ensures most { result ≡ most_reads_in self.now }
        ensures fits { result ≤ most_reads }
    {
        self.most_reads
    }

    /// The RTR that this end sends before any other message, if one is agreed on.
    #[inline(always)]
    pub(crate) fn rtr(&self) -> Option<Rtr>
        ensures { result ≡ rtr_in self.now }
    {
        self.rtr
    }

    /// How many octets this end's start-up frame has: its frames begin past it.
    pub(crate) fn first_place_out(&self) -> u64
        ensures place { result ≡ first_place_out self.now }
        ensures fits { result ≤ MAX_FRAME }
    {
        match &self.frames {
            None => 0,
            Some(startup) => startup.frame_len() as u64,
        }
    }

    /// How many octets of the peer's start-up frame were read: the peer's frames begin past it.
    pub(crate) fn first_place_in(&self) -> u64
        ensures place { result ≡ first_place_in self.now }
        ensures fits { result ≤ MAX_FRAME }
    {
        match &self.frames {
            None => 0,
            Some(startup) => startup.taken() as u64,
        }
    }

    /// The peer's start-up frame is awaited.
    #[inline(always)]
    pub(crate) fn awaits_frame(&self) -> bool
        ensures { result ≡ awaits_frame self.now }
    {
        self.frames.is_some() && !self.heard
    }

    /// This end receives the Request.
    pub(crate) fn is_responder(&self) -> bool
        ensures { result ≡ is_responder self.now }
    {
        match &self.frames {
            None => false,
            Some(startup) => startup.is_responder(),
        }
    }

    /// The private data of the peer's start-up frame, once that was read.
    pub(crate) fn private(&self) -> &[u8]
        ensures { result.now ≡ private_in self.now }
    {
        match &self.frames {
            Some(startup) if self.heard => startup.private(),
            _ => &[],
        }
    }

    /// The word of IRD and ORD in the peer's start-up frame, once that was read, if it has one.
    pub(crate) fn told(&self) -> Option<EnhancedData>
        ensures { result ≡ told_in self.now }
    {
        match &self.frames {
            Some(startup) if self.heard => startup.told(),
            _ => None,
        }
    }

    /// What the peer asks for in its start-up frame, once that was read.
    pub(crate) fn peer_options(&self) -> Option<PeerOptions>
        ensures { result ≡ options_in self.now }
    {
        match &self.frames {
            Some(startup) if self.heard => startup.peer_options(),
            _ => None,
        }
    }

    /// What the peer's Reply, which was read and accepts, wants and this end does not have.
    pub(crate) fn mismatch(&self) -> Option<Mismatch>
        ensures { result ≡ mismatch_in self.now }
    {
        match &self.frames {
            Some(startup) if self.heard => startup.mismatch(),
            _ => None,
        }
    }

    /// Appends this end's start-up frame; the answer is its length. An `Err` means out of memory, comes only if `out` has no
    /// room for it, and leaves `out` as it was.
    pub(crate) fn append_frame<A: Allocator>(
        &self,
        out: &mut Vec<u8, A>,
    ) -> Result<usize, AllocError>
        ensures len { IfOk result (λ len. len ≡ first_place_out self.now) }
        ensures fits { IfOk result (λ len. len ≤ MAX_FRAME) }
        ensures ok { OnOk result (out.new.items ≡ out.old.items ++ own_frame self.now) }
        ensures err { OnErr result (out.new.items ≡ out.old.items) }
        ensures memory { vec_len out.old + length (own_frame self.now) ≤ vec_capacity out.old → IsOk result }
    {
        let Some(startup) = &self.frames else {
            return Ok(0);
        };
        let frame = startup.frame();
        out.extend_from_slice(frame.as_slice())?;
        Ok(frame.len())
    }

    /// Accepts the peer's Request with this private data. An `Err` changes nothing.
    pub(crate) fn accept(&mut self, private: PrivateData) -> Result<Agreed, AnswerRefusal>
        ensures refused { result_err result ≡ answer_refusal self.old private.items }
        ensures agreed { IfOk result (λ agreed. agreed ≡ agreement_in self.old) }
        ensures ok { OnOk result (self.new ≡ answered_with self.old (Accept private)) }
        ensures err { OnErr result (self.new ≡ self.old) }
    {
        if !self.heard {
            return Err(AnswerRefusal::NotAsked);
        }
        let Some(startup) = &mut self.frames else {
            return Err(AnswerRefusal::NotAsked);
        };
        if let Some(refusal) = answer_refusal(startup, &private) {
            return Err(refusal);
        }
        let Ok(agreed) = startup.accept(private) else {
            return Err(AnswerRefusal::NotAsked);
        };
        self.running = true;
        self.sending = layout_out(agreed);
        self.expecting = layout_in(agreed);
        self.rtr = agreed.rtr;
        self.most_reads = agreed.ord;
        Ok(agreed)
    }

    /// Rejects the peer's Request with this private data. An `Err` changes nothing.
    pub(crate) fn reject(&mut self, private: PrivateData) -> Result<(), AnswerRefusal>
        ensures refused { result_err result ≡ answer_refusal self.old private.items }
        ensures ok { OnOk result (self.new ≡ answered_with self.old (Reject private)) }
        ensures err { OnErr result (self.new ≡ self.old) }
    {
        if !self.heard {
            return Err(AnswerRefusal::NotAsked);
        }
        let Some(startup) = &mut self.frames else {
            return Err(AnswerRefusal::NotAsked);
        };
        if let Some(refusal) = answer_refusal(startup, &private) {
            return Err(refusal);
        }
        let Ok(()) = startup.reject(private) else {
            return Err(AnswerRefusal::NotAsked);
        };
        Ok(())
    }

    /// What the peer's start-up frame comes to by these octets, as far as they go. Nothing changes.
    pub(crate) fn progress(&self, octets: &[u8]) -> Progress
        ensures { result ≡ progress_in self.now octets.now }
    {
        match &self.frames {
            Some(startup) if !self.heard => startup.progress_of(octets),
            _ => Progress::More,
        }
    }

    /// Reads the peer's start-up frame, which is awaited, off the octets that came, and moves the in-order point past it.
    pub(crate) fn hear<A: Allocator>(&mut self, arrived: &mut Incoming<A>)
        requires none { arrived.old.early ≡ [] }
        requires awaits { awaits_frame self.old ≡ true }
        requires begin { arrived.old.arrived.floor ≡ 0 }
        ensures after { self.new ≡ heard self.old (in_order arrived.old.arrived) }
        ensures out { first_place_out self.new ≡ first_place_out self.old }
        ensures arrived { arrived.new.arrived ≡ advanced arrived.old.arrived (first_place_in self.new) }
        ensures early { arrived.new.early ≡ [] }
        ensures layout { arrived.new.layout ≡ expecting self.new }
        ensures base { arrived.new.base ≡ first_place_in self.new }
        ensures few { first_place_in self.new ≤ 2 ^ 18 }
        ensures agreed { progress_in self.old (in_order arrived.old.arrived) ≡ Progress.Agreed → agreed_in self.new ≡ Some (agreement_in self.new) }
    {
        let Some(startup) = &mut self.frames else {
            return;
        };
        let (used, _) = startup.push(octets_in_order(arrived));
        arrived.begin(layout_agreed(startup), used as u64);
        self.heard = true;
        if let Some(agreed) = startup.agreed() {
            self.running = true;
            self.sending = layout_out(agreed);
            self.expecting = layout_in(agreed);
            self.rtr = agreed.rtr;
            self.most_reads = agreed.ord;
        }
    }

    /// What both ends agree on, if they do and the stream began with start-up frames.
    pub(crate) fn agreed(&self) -> Option<Agreed>
        ensures { result ≡ agreed_in self.now }
    {
        match &self.frames {
            Some(startup) if self.heard => startup.agreed(),
            _ => None,
        }
    }
}

/// The octets that came without a gap from the in-order point on.
pub(crate) fn octets_in_order<A: Allocator>(arrived: &Incoming<A>) -> &[u8]
    requires { arrived.now.early ≡ [] }
    ensures octets { result.now ≡ in_order arrived.now.arrived }
    ensures few { length result.now ≤ 2 ^ 18 }
{
    arrived.limits();
    arrived.islands().part(arrived.floor(), arrived.missing())
}
