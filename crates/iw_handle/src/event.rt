//! The answers of `work` and `emit`, in numbers.
ghost use Rattle.std.specs.Prelude.{◌≡◌, ◌≤◌};
ghost use Rattle.iw_handle.specs.Events.{kind_number, right_number, startup_number, stag_number};
ghost use Rattle.iw_handle.specs.Events.{flag, agreed_flags, received_flags, rights_number, kept_number};
ghost use Rattle.iw_handle.specs.Events.{no_event, message_event, fault_event, received_event, event_of};
ghost use Rattle.iw_handle.specs.Events.{emitted_of, filling_of, facts_of, rtr_flag, word_told, peer_told, state_number};
ghost use Rattle.iw_handle.specs.Steps.{is_quiet};

use iw_codes::numbers;
use iw_connection::{Filled, is_progress};
use iw_endpoint::{
    Agreed, Delivery, Emission, EnhancedData, Facts, Fault, Kind, Octets, PeerOptions, Right,
    Rights, Stag, Standing, StartupFault, Step,
};
use iw_startup::Rtr;

/// What a step of work did. Fields that have no meaning for its `kind` are 0, and so are those that are reserved.
#[repr(C)]
#[derive(Clone, Copy)]
pub struct Event {
    pub kind: u32,
    /// What was posted: 1 (Write), 2 (Send) or 3 (Read).
    pub message: u32,
    /// The right by which octets were placed: 1 (write) or 4 (sink).
    pub right: u32,
    pub flags: u32,
    pub stag: u32,
    pub msn: u32,
    pub mo: u32,
    pub layer: u32,
    pub error: u32,
    pub code: u32,
    pub to: u64,
    pub len: u64,
    /// The token of the message that is done or flushed.
    pub token: u64,
    pub reserved_0: u64,
    pub reserved_1: u64,
    pub reserved_2: u64,
    pub reserved_3: u64,
}

/// What a call of `emit` did. Fields that have no meaning for its `kind` are 0, and so are those that are reserved.
#[repr(C)]
#[derive(Clone, Copy)]
pub struct Emitted {
    pub kind: u32,
    pub stag: u32,
    pub layer: u32,
    pub error: u32,
    pub code: u32,
    pub spare: u32,
    pub from: u64,
    pub to: u64,
    pub n: u64,
    pub reserved_0: u64,
    pub reserved_1: u64,
    pub reserved_2: u64,
    pub reserved_3: u64,
}

/// What a call of `fill` did. Fields that have no meaning for its `kind` are 0, and so are those that are reserved.
#[repr(C)]
#[derive(Clone, Copy)]
pub struct Filling {
    pub kind: u32,
    pub layer: u32,
    pub error: u32,
    pub code: u32,
    /// How many frames were appended.
    pub frames: u64,
    /// How many octets they have.
    pub n: u64,
    pub reserved_0: u64,
    pub reserved_1: u64,
    pub reserved_2: u64,
    pub reserved_3: u64,
}

/// The facts of a region.
#[repr(C)]
#[derive(Clone, Copy)]
pub struct RegionFacts {
    pub base: u64,
    pub len: u64,
    /// A sum of 1 (write), 2 (read), 4 (sink) and 8 (invalidate).
    pub rights: u32,
    /// 1 if peers may use it, else 0.
    pub valid: u32,
    /// 1 if it is limited to one stream, else 0.
    pub limited: u32,
    /// The stream that it is limited to; 0 if it is not limited.
    pub stream: u32,
}

/// What the peer told in its start-up frame (RFC 5044 7.1.1, RFC 6581 9). Before it was read all is 0, and at a preset stream.
#[repr(C)]
#[derive(Clone, Copy)]
pub struct Told {
    /// The revision of MPA: 1 or 2.
    pub revision: u32,
    /// 1 if this end is to put markers into what it sends.
    pub markers: u32,
    /// 1 if CRCs are to be used.
    pub crc: u32,
    /// 1 if the frame has the word of IRD and ORD. Without it what follows is 0.
    pub has_word: u32,
    /// How many Reads the peer takes at once.
    pub ird: u32,
    /// How many Reads the peer wants to have outstanding.
    pub ord: u32,
    /// A: the peer-to-peer model; B, C and D: the RTR may be a Send, a Write or a Read. Each is 1 or 0.
    pub peer_to_peer: u32,
    pub rtr_send: u32,
    pub rtr_write: u32,
    pub rtr_read: u32,
}

/// How far a stream is.
#[repr(C)]
#[derive(Clone, Copy)]
pub struct Progress {
    /// How many octets it has emitted.
    pub sent: u64,
    /// Its in-order point.
    pub in_order: u64,
    /// How many octets the next call of `emit` gives.
    pub due: u64,
    /// How many buffers of its domain's pool it has bound.
    pub bound: u64,
    /// How many deliveries were dropped, since it was opened.
    pub dropped: u64,
    /// How many of its frames were judged before their turn, and had to be judged again.
    pub tried: u64,
    pub reserved_0: u64,
}

/// There was nothing to do.
pub const NO_EVENT: Event = Event {
    kind: numbers::IDLE,
    message: 0,
    right: 0,
    flags: 0,
    stag: 0,
    msn: 0,
    mo: 0,
    layer: 0,
    error: 0,
    code: 0,
    to: 0,
    len: 0,
    token: 0,
    reserved_0: 0,
    reserved_1: 0,
    reserved_2: 0,
    reserved_3: 0,
};

const NOTHING: Emitted = Emitted {
    kind: numbers::NOTHING,
    stag: 0,
    layer: 0,
    error: 0,
    code: 0,
    spare: 0,
    from: 0,
    to: 0,
    n: 0,
    reserved_0: 0,
    reserved_1: 0,
    reserved_2: 0,
    reserved_3: 0,
};

const NOTHING_FILLED: Filling = Filling {
    kind: numbers::FILL_ALL,
    layer: 0,
    error: 0,
    code: 0,
    frames: 0,
    n: 0,
    reserved_0: 0,
    reserved_1: 0,
    reserved_2: 0,
    reserved_3: 0,
};

const NOTHING_TOLD: Told = Told {
    revision: 0,
    markers: 0,
    crc: 0,
    has_word: 0,
    ird: 0,
    ord: 0,
    peer_to_peer: 0,
    rtr_send: 0,
    rtr_write: 0,
    rtr_read: 0,
};

fn kind_number(kind: Kind) -> u32
    ensures { result ≡ kind_number kind }
{
    match kind {
        Kind::Write => numbers::MESSAGE_WRITE,
        Kind::Send => numbers::MESSAGE_SEND,
        Kind::Read => numbers::MESSAGE_READ,
    }
}

fn right_number(right: Right) -> u32
    ensures { result ≡ right_number right }
{
    match right {
        Right::Write => numbers::WRITE,
        Right::Read => numbers::READ,
        Right::Sink => numbers::SINK,
    }
}

fn startup_number(fault: StartupFault) -> u32
    ensures { result ≡ startup_number fault }
{
    match fault {
        StartupFault::BadKey => numbers::BAD_KEY,
        StartupFault::BadRev => numbers::BAD_REVISION,
        StartupFault::BadLength => numbers::BAD_LENGTH,
        StartupFault::Rejected => numbers::REJECTED,
    }
}

fn flag(on: bool, value: u32) -> u32
    ensures flag { result ≡ flag on value }
    ensures within { result ≤ value }
{
    if on { value } else { 0 }
}

fn rtr_flag(rtr: Option<Rtr>) -> u32
    ensures flag { result ≡ rtr_flag rtr }
    ensures within { result ≤ 16 }
{
    match rtr {
        None => 0,
        Some(Rtr::Write) => numbers::RTR_WRITE,
        Some(Rtr::Read) => numbers::RTR_READ,
    }
}

/// What both ends agreed on, a sum of 1 (this end sends markers), 2 (the peer sends markers), 4 (CRCs are used), and 8 (a Write) or
/// 16 (a Read) if this end sends an RTR first.
pub fn agreed_flags(agreed: Agreed) -> u32
    ensures { result ≡ agreed_flags agreed }
{
    flag(agreed.send_markers, numbers::SENDS_MARKERS)
        + flag(agreed.expect_markers, numbers::EXPECTS_MARKERS)
        + flag(agreed.crc, numbers::USES_CRC)
        + rtr_flag(agreed.rtr)
}

fn received_flags(solicited: bool, invalidate: Option<Stag>) -> u32
    ensures { result ≡ received_flags solicited invalidate }
{
    flag(solicited, numbers::SOLICITED) + flag(invalidate.is_some(), numbers::INVALIDATES)
}

fn stag_number(stag: Option<Stag>) -> u32
    ensures { result ≡ stag_number stag }
{
    match stag {
        Some(stag) => stag.into(),
        None => 0,
    }
}

// An event of which its kind tells all.
#[inline(always)]
fn bare_event(kind: u32) -> Event
    ensures { result ≡ record no_event { kind = kind } }
{
    Event { kind, ..NO_EVENT }
}

#[inline(always)]
fn fault_event(kind: u32, fault: Fault) -> Event
    ensures { result ≡ fault_event kind fault }
{
    Event {
        kind,
        layer: fault.layer.into(),
        error: fault.kind.into(),
        code: fault.code.into(),
        ..NO_EVENT
    }
}

// The event of a message that was posted with this token.
#[inline(always)]
fn message_event(kind: u32, message: Kind, token: u64) -> Event
    ensures { result ≡ message_event kind message token }
{
    Event {
        kind,
        message: kind_number(message),
        token,
        ..NO_EVENT
    }
}

#[inline(always)]
fn opened_event(agreed: Agreed) -> Event
    ensures { result ≡ event_of 0 (Step.Opened agreed) }
{
    Event {
        kind: numbers::OPENED,
        flags: agreed_flags(agreed),
        len: agreed.ord as u64,
        ..NO_EVENT
    }
}

#[inline(always)]
fn closed_event(fault: StartupFault) -> Event
    ensures { result ≡ event_of 0 (Step.Closed fault) }
{
    Event {
        kind: numbers::CLOSED_BY_PEER,
        code: startup_number(fault),
        ..NO_EVENT
    }
}

#[inline(always)]
fn placed_event(right: Right, stag: Stag, to: u64, len: usize) -> Event
    ensures { result ≡ event_of 0 (Step.Placed right stag to len) }
{
    Event {
        kind: numbers::PLACED,
        right: right_number(right),
        stag: stag.into(),
        to,
        len: len as u64,
        ..NO_EVENT
    }
}

#[inline(always)]
fn buffered_event(msn: u32, mo: u32, len: usize) -> Event
    ensures { result ≡ event_of 0 (Step.Buffered msn mo len) }
{
    Event {
        kind: numbers::BUFFERED,
        msn,
        mo,
        len: len as u64,
        ..NO_EVENT
    }
}

#[inline(always)]
fn requested_event(size: u32, stag: Stag, to: u64) -> Event
    ensures { result ≡ event_of 0 (Step.Requested size stag to) }
{
    Event {
        kind: numbers::REQUESTED,
        stag: stag.into(),
        to,
        len: size.into(),
        ..NO_EVENT
    }
}

#[inline(always)]
fn received_event(len: usize, solicited: bool, invalidate: &Option<Stag>) -> Event
    ensures { result ≡ received_event len solicited invalidate.now }
{
    Event {
        kind: numbers::RECEIVED,
        flags: received_flags(solicited, *invalidate),
        stag: stag_number(*invalidate),
        len: len as u64,
        ..NO_EVENT
    }
}

/// A step in numbers, where the message that was posted first has this token.
#[inline(always)]
pub fn event_of(oldest: u64, step: &Step<Octets>) -> Event
    ensures { result ≡ event_of oldest step.now }
{
    match step {
        Step::Idle => NO_EVENT,
        Step::Done(message) => message_event(numbers::DONE, *message, oldest),
        Step::Flushed(message) => message_event(numbers::FLUSHED, *message, oldest),
        Step::FlushedRecv(buffer) => Event {
            kind: numbers::FLUSHED_RECV,
            len: buffer.len() as u64,
            ..NO_EVENT
        },
        Step::Asked => bare_event(numbers::ASKED),
        Step::Opened(agreed) => opened_event(*agreed),
        Step::Closed(fault) => closed_event(*fault),
        Step::Placed {
            right,
            stag,
            to,
            len,
        } => placed_event(*right, *stag, *to, *len),
        Step::Buffered { msn, mo, len } => buffered_event(*msn, *mo, *len),
        Step::Requested { size, stag, to } => requested_event(*size, *stag, *to),
        Step::Passed => bare_event(numbers::PASSED),
        Step::Received {
            len,
            solicited,
            invalidate,
            ..
        } => received_event(*len, *solicited, invalidate),
        Step::Terminated(fault) => fault_event(numbers::TERMINATED, *fault),
        Step::Fault(fault) => fault_event(numbers::FAULT, *fault),
        Step::Tried(place) => Event {
            kind: numbers::TRIED,
            to: *place,
            ..NO_EVENT
        },
    }
}

/// Whether a step is quiet: the program need not act on it.
#[inline(always)]
pub fn is_quiet(step: &Step<Octets>) -> bool
    ensures { result ≡ is_quiet step.now }
{
    is_progress(step)
}

/// What was emitted, in numbers.
pub fn emitted_of(emission: Emission) -> Emitted
    ensures { result ≡ emitted_of emission }
{
    match emission {
        Emission::Nothing => NOTHING,
        Emission::Frame { from, .. } => Emitted {
            kind: numbers::FRAME,
            from,
            ..NOTHING
        },
        Emission::Fetched {
            from,
            stag,
            to,
            n,
            ..
        } => Emitted {
            kind: numbers::FETCHED,
            stag: stag.into(),
            from,
            to,
            n: n as u64,
            ..NOTHING
        },
        Emission::Fault(fault) => Emitted {
            kind: numbers::DENIED,
            layer: fault.layer.into(),
            error: fault.kind.into(),
            code: fault.code.into(),
            ..NOTHING
        },
    }
}

/// What a call of `fill` did, in numbers: it appended `n` octets, in so many frames.
pub fn filling_of(filled: Filled, frames: u64, n: u64) -> Filling
    ensures { result ≡ filling_of filled frames n }
{
    let told = Filling {
        frames,
        n,
        ..NOTHING_FILLED
    };
    match filled {
        Filled::All => told,
        Filled::More => Filling {
            kind: numbers::FILL_MORE,
            ..told
        },
        Filled::Fault(fault) => Filling {
            kind: numbers::FILL_DENIED,
            layer: fault.layer.into(),
            error: fault.kind.into(),
            code: fault.code.into(),
            ..told
        },
    }
}

fn rights_number(rights: Rights) -> u32
    ensures { result ≡ rights_number rights }
{
    let Rights {
        write,
        read,
        sink,
        invalidate,
    } = rights;
    flag(write, numbers::WRITE)
        + flag(read, numbers::READ)
        + flag(sink, numbers::SINK)
        + flag(invalidate, numbers::INVALIDATE)
}

/// The facts of a region, in numbers.
pub fn facts_of(facts: Facts) -> RegionFacts
    ensures { result ≡ facts_of facts }
{
    RegionFacts {
        base: facts.base,
        len: facts.len as u64,
        rights: rights_number(facts.rights),
        valid: flag(facts.valid, 1),
        limited: flag(facts.bound.is_some(), 1),
        stream: facts.bound.unwrap_or(0),
    }
}

/// 1 if octets are kept, 0 if they are dropped.
pub fn kept_number(delivery: Delivery) -> u32
    ensures { result ≡ kept_number delivery }
{
    match delivery {
        Delivery::Kept => 1,
        Delivery::Dropped => 0,
    }
}

// What the peer told by the word of IRD and ORD, in numbers.
fn word_told(word: Option<EnhancedData>) -> Told
    ensures { result ≡ word_told word }
{
    match word {
        Some(word) => Told {
            has_word: 1,
            ird: word.ird.into(),
            ord: word.ord.into(),
            peer_to_peer: flag(word.peer_to_peer, 1),
            rtr_send: flag(word.rtr_send, 1),
            rtr_write: flag(word.rtr_write, 1),
            rtr_read: flag(word.rtr_read, 1),
            ..NOTHING_TOLD
        },
        None => NOTHING_TOLD,
    }
}

/// What the peer told in its start-up frame, in numbers.
pub fn peer_told(options: Option<PeerOptions>, word: Option<EnhancedData>) -> Told
    ensures { result ≡ peer_told options word }
{
    let told = word_told(word);
    match options {
        Some(options) => Told {
            revision: options.revision.into(),
            markers: flag(options.markers, 1),
            crc: flag(options.crc, 1),
            ..told
        },
        None => told,
    }
}

/// 0 (starting), 1 (open) or 2 (ended).
pub fn state_number(standing: Standing) -> u32
    ensures { result ≡ state_number standing }
{
    match standing {
        Standing::Starting => numbers::STATE_STARTING,
        Standing::Open => numbers::STATE_OPEN,
        Standing::Ended => numbers::STATE_ENDED,
    }
}
