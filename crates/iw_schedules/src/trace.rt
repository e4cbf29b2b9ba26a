ghost use Rattle.std.specs.Prelude.{◌≡◌, [], ◌∷◌, ◌++◌, Ok, IfOk, OnOk, string_bytes};
ghost use Rattle.std.specs.Option.{option_map};
ghost use Rattle.std.specs.Fmt.{decimal};
ghost use Rattle.iw_schedules.specs.Shown.{shown_refusal};
ghost use Rattle.iw_schedules.specs.Words.{call_text};
ghost use Rattle.iw_schedules.specs.Answers.{stag_text, kind_text, right_text, delivery_text, ok_or_refused};
ghost use Rattle.iw_schedules.specs.Answers.{agreed_text, asked_words, accepted_words, opened_words};
ghost use Rattle.iw_schedules.specs.Answers.{with_fault, fault_words, terminated_words};
ghost use Rattle.iw_schedules.specs.Answers.{share_refusal, pool_refusal, open_shared_refusal};
ghost use Rattle.iw_schedules.specs.Answers.{placed_words, tried_words};
ghost use Rattle.iw_schedules.specs.Answers.{buffered_words, requested_words, received_words};
ghost use Rattle.iw_schedules.specs.Answers.{seen_words, shown_words, fetched_words};
ghost use Rattle.iw_schedules.specs.Answers.{done_words, flushed_words, flushed_recv_words};
ghost use Rattle.iw_schedules.specs.Trace.{registered, deregistered, unpooled, post_word, call_on, call_of_stag};
ghost use Rattle.iw_schedules.specs.Trace.{stream_word, stream_answer, stream_words, act_words, entry_text, trace_text};
ghost use Rattle.iw_schedules.specs.Trace.{same_end, opens_enhanced, was_opened_enhanced, tells_depths, shows_depths};
ghost use Rattle.iw_schedules.specs.Options.{is_enhanced};
ghost use Rattle.iw_schedules.specs.Answers.{ird_text, ord_text};
ghost use Rattle.iw_schedules.specs.Appended.{with_words};

use crate::refusals::Refusal;
use crate::send_kind::SendKind;
use crate::words::{CallWord, end_name};
use crate::{appending, refusals};
use bytes::Bytes;
use iw_endpoint::{OpenSharedRefusal, PoolRefusal, ShareRefusal, TakeRefusal};
use iw_events::{
    Act, End, EnhancedData, Entry, Establishment, Options, Request, Seen, Shown, StreamAct,
};
use iw_memory::{NoRegion, RegisterRefusal, Right};
use iw_octets::{Fault, Message, Stag};
use iw_startup::Agreed;
use iw_stream::{AnswerRefusal, Delivery, Kind};
use std::alloc::{AllocError, Allocator};

fn kind_name(kind: Kind) -> &'static str
    ensures { result.now ≡ kind_text kind }
{
    match kind {
        Kind::Write => "write",
        Kind::Send => "send",
        Kind::Read => "read",
    }
}

fn right_name(right: Right) -> &'static str
    ensures { result.now ≡ right_text right }
{
    match right {
        Right::Write => "write",
        Right::Read => "read",
        Right::Sink => "sink",
    }
}

fn delivery_name(delivery: Delivery) -> &'static str
    ensures { result.now ≡ delivery_text delivery }
{
    match delivery {
        Delivery::Kept => "kept",
        Delivery::Dropped => "dropped",
    }
}

// What was agreed, as letters.
fn agreed_name(agreed: Agreed) -> &'static str
    ensures { result.now ≡ agreed_text agreed }
{
    match (agreed.send_markers, agreed.expect_markers, agreed.crc) {
        (false, false, false) => "-",
        (false, false, true) => "c",
        (false, true, false) => "e",
        (false, true, true) => "ec",
        (true, false, false) => "s",
        (true, false, true) => "sc",
        (true, true, false) => "se",
        (true, true, true) => "sec",
    }
}

// The word that posts a message or a Read.
fn post_name<A: Allocator>(message: &Request<Bytes<A>>) -> CallWord
    ensures { result ≡ post_word message.now }
{
    match message {
        Request::Message(Message::Write { .. }) => CallWord::Write,
        Request::Message(Message::Send { .. }) => CallWord::Send,
        Request::Read(_) => CallWord::Read,
    }
}

// A word, then the layer, type and code of a fault.
fn add_fault<A: Allocator>(text: &mut String<A>, word: &str, fault: Fault) -> Result<(), AllocError>
    ensures { OnOk result (string_bytes text.new ≡ with_words (string_bytes text.old) (with_fault word.now fault)) }
{
    appending::word(text, word)?;
    appending::number(text, u64::from(fault.layer))?;
    appending::number(text, u64::from(fault.kind))?;
    appending::number(text, u64::from(fault.code))
}

fn add_frame<A: Allocator + Copy>(
    text: &mut String<A>,
    from: u64,
    octets: &[u8],
) -> Result<(), AllocError>
    ensures { OnOk result (string_bytes text.new
        ≡ with_words (string_bytes text.old) (shown_words (Shown.Frame from octets.now))) }
{
    appending::word(text, "frame")?;
    appending::number(text, from)?;
    appending::octets(text, octets)
}

fn add_fetched<A: Allocator + Copy>(
    text: &mut String<A>,
    from: u64,
    frame: &[u8],
    stag: Stag,
    to: u64,
    octets: &[u8],
) -> Result<(), AllocError>
    ensures { OnOk result (string_bytes text.new
        ≡ with_words (string_bytes text.old) (fetched_words from frame.now stag to octets.now)) }
{
    appending::word(text, "fetched")?;
    appending::number(text, from)?;
    appending::octets(text, frame)?;
    appending::stag(text, stag)?;
    appending::number(text, to)?;
    appending::octets(text, octets)
}

fn add_shown<A: Allocator + Copy>(
    text: &mut String<A>,
    shown: &Shown<Bytes<A>>,
) -> Result<(), AllocError>
    ensures { OnOk result (string_bytes text.new ≡ with_words (string_bytes text.old) (shown_words shown.now)) }
{
    match shown {
        Shown::Frame { from, octets } => add_frame(text, *from, octets.as_slice()),
        Shown::Fetched {
            from,
            frame,
            stag,
            to,
            octets,
        } => add_fetched(text, *from, frame.as_slice(), *stag, *to, octets.as_slice()),
        Shown::Fault(fault) => add_fault(text, "fault", *fault),
        Shown::Nothing => appending::word(text, "nothing"),
    }
}

fn add_placed<A: Allocator + Copy>(
    text: &mut String<A>,
    right: Right,
    stag: Stag,
    to: u64,
    octets: &[u8],
) -> Result<(), AllocError>
    ensures { OnOk result (string_bytes text.new
        ≡ with_words (string_bytes text.old) (placed_words right stag to octets.now)) }
{
    appending::word(text, "placed")?;
    appending::word(text, right_name(right))?;
    appending::stag(text, stag)?;
    appending::number(text, to)?;
    appending::octets(text, octets)
}

fn add_buffered<A: Allocator>(
    text: &mut String<A>,
    msn: u32,
    mo: u32,
    len: usize,
) -> Result<(), AllocError>
    ensures { OnOk result (string_bytes text.new ≡ with_words (string_bytes text.old) (buffered_words msn mo len)) }
{
    appending::word(text, "buffered")?;
    appending::number(text, u64::from(msn))?;
    appending::number(text, u64::from(mo))?;
    appending::number(text, len as u64)
}

fn add_requested<A: Allocator + Copy>(
    text: &mut String<A>,
    size: u32,
    stag: Stag,
    to: u64,
) -> Result<(), AllocError>
    ensures { OnOk result (string_bytes text.new ≡ with_words (string_bytes text.old) (requested_words size stag to)) }
{
    appending::word(text, "requested")?;
    appending::number(text, u64::from(size))?;
    appending::stag(text, stag)?;
    appending::number(text, to)
}

fn add_received<A: Allocator + Copy>(
    text: &mut String<A>,
    octets: &[u8],
    solicited: bool,
    invalidate: Option<Stag>,
) -> Result<(), AllocError>
    ensures { OnOk result (string_bytes text.new
        ≡ with_words (string_bytes text.old) (received_words octets.now solicited invalidate)) }
{
    appending::word(text, "received")?;
    appending::octets(text, octets)?;
    appending::word(text, SendKind::of(solicited, &invalidate).text())?;
    appending::optional_stag(text, invalidate)
}

fn add_done<A: Allocator>(text: &mut String<A>, kind: Kind) -> Result<(), AllocError>
    ensures { OnOk result (string_bytes text.new ≡ with_words (string_bytes text.old) (done_words kind)) }
{
    appending::word(text, "done")?;
    appending::word(text, kind_name(kind))
}

fn add_flushed<A: Allocator>(text: &mut String<A>, kind: Kind) -> Result<(), AllocError>
    ensures { OnOk result (string_bytes text.new ≡ with_words (string_bytes text.old) (flushed_words kind)) }
{
    appending::word(text, "flushed")?;
    appending::word(text, kind_name(kind))
}

// A receive buffer that is handed back.
fn add_flushed_recv<A: Allocator + Copy>(
    text: &mut String<A>,
    octets: &[u8],
) -> Result<(), AllocError>
    ensures { OnOk result (string_bytes text.new ≡ with_words (string_bytes text.old) (flushed_recv_words octets.now)) }
{
    appending::word(text, "flushed")?;
    appending::word(text, "recv")?;
    appending::octets(text, octets)
}

fn add_tried<A: Allocator>(text: &mut String<A>, place: u64) -> Result<(), AllocError>
    ensures { OnOk result (string_bytes text.new ≡ with_words (string_bytes text.old) (tried_words place)) }
{
    appending::word(text, "tried")?;
    appending::number(text, place)
}

// The peer's IRD and ORD; `-` for each if it told none.
fn add_told<A: Allocator>(
    text: &mut String<A>,
    told: Option<EnhancedData>,
) -> Result<(), AllocError>
    ensures { OnOk result (string_bytes text.new
        ≡ with_words (string_bytes text.old) (ird_text told ∷ ord_text told ∷ [])) }
{
    match told {
        None => {
            appending::word(text, "-")?;
            appending::word(text, "-")
        }
        Some(told) => {
            appending::number(text, u64::from(told.ird))?;
            appending::number(text, u64::from(told.ord))
        }
    }
}

fn add_asked<A: Allocator + Copy>(
    text: &mut String<A>,
    enhanced: bool,
    told: Option<EnhancedData>,
    private: &[u8],
) -> Result<(), AllocError>
    ensures { OnOk result (string_bytes text.new
        ≡ with_words (string_bytes text.old) (asked_words enhanced told private.now)) }
{
    appending::word(text, "asked")?;
    if enhanced {
        add_told(text, told)?;
        return appending::octets(text, private);
    }
    appending::octets(text, private)
}

fn add_opened<A: Allocator + Copy>(
    text: &mut String<A>,
    enhanced: bool,
    agreed: Agreed,
    told: Option<EnhancedData>,
    private: &[u8],
) -> Result<(), AllocError>
    ensures { OnOk result (string_bytes text.new
        ≡ with_words (string_bytes text.old) (opened_words enhanced agreed told private.now)) }
{
    appending::word(text, "opened")?;
    appending::word(text, agreed_name(agreed))?;
    if enhanced {
        appending::number(text, agreed.ord as u64)?;
        add_told(text, told)?;
        return appending::octets(text, private);
    }
    appending::octets(text, private)
}

fn add_accepted<A: Allocator>(
    text: &mut String<A>,
    enhanced: bool,
    answer: Result<Agreed, AnswerRefusal>,
) -> Result<(), AllocError>
    ensures { OnOk result (string_bytes text.new
        ≡ with_words (string_bytes text.old) (accepted_words enhanced answer)) }
{
    match answer {
        Ok(agreed) => add_agreed(text, enhanced, agreed),
        Err(refusal) => appending::refusal(text, refusals::of_answer(refusal)),
    }
}

fn add_agreed<A: Allocator>(
    text: &mut String<A>,
    enhanced: bool,
    agreed: Agreed,
) -> Result<(), AllocError>
    ensures { OnOk result (string_bytes text.new
        ≡ with_words (string_bytes text.old) (accepted_words enhanced (Ok agreed))) }
{
    appending::word(text, "ok")?;
    appending::word(text, agreed_name(agreed))?;
    if enhanced {
        return appending::number(text, agreed.ord as u64);
    }
    Ok(())
}

fn add_seen<A: Allocator + Copy>(
    text: &mut String<A>,
    enhanced: bool,
    seen: &Seen<Bytes<A>>,
) -> Result<(), AllocError>
    ensures { OnOk result (string_bytes text.new
        ≡ with_words (string_bytes text.old) (seen_words enhanced seen.now)) }
{
    match seen {
        Seen::Done(kind) => add_done(text, *kind),
        Seen::Flushed(kind) => add_flushed(text, *kind),
        Seen::FlushedRecv(octets) => add_flushed_recv(text, octets.as_slice()),
        Seen::Asked { told, private } => add_asked(text, enhanced, *told, private.as_slice()),
        Seen::Opened {
            agreed,
            told,
            private,
        } => add_opened(text, enhanced, *agreed, *told, private.as_slice()),
        Seen::Closed(fault) => appending::numbered(text, "closed", refusals::of_startup(*fault)),
        Seen::Placed {
            right,
            stag,
            to,
            octets,
        } => add_placed(text, *right, *stag, *to, octets.as_slice()),
        Seen::Buffered { msn, mo, len } => add_buffered(text, *msn, *mo, *len),
        Seen::Requested { size, stag, to } => add_requested(text, *size, *stag, *to),
        Seen::Tried(place) => add_tried(text, *place),
        Seen::Passed => appending::word(text, "passed"),
        Seen::Received {
            octets,
            solicited,
            invalidate,
        } => add_received(text, octets.as_slice(), *solicited, *invalidate),
        Seen::Terminated(fault) => add_fault(text, "terminated", *fault),
        Seen::Fault(fault) => add_fault(text, "fault", *fault),
        Seen::Idle => appending::word(text, "idle"),
    }
}

// The word of a call, and its stream.
fn add_call<A: Allocator>(
    text: &mut String<A>,
    call: CallWord,
    stream: u8,
) -> Result<(), AllocError>
    ensures { OnOk result (string_bytes text.new ≡ with_words (string_bytes text.old) (call_on call stream)) }
{
    appending::word(text, call.text())?;
    appending::number(text, u64::from(stream))
}

// The word of a call, and the STag that it names.
fn add_named<A: Allocator + Copy>(
    text: &mut String<A>,
    call: CallWord,
    stag: Stag,
) -> Result<(), AllocError>
    ensures { OnOk result (string_bytes text.new ≡ with_words (string_bytes text.old) (call_of_stag call stag)) }
{
    appending::word(text, call.text())?;
    appending::stag(text, stag)
}

// The word of a call on a stream.
fn stream_name<A: Allocator>(act: &StreamAct<Bytes<A>>) -> CallWord
    ensures { result ≡ stream_word act.now }
{
    match act {
        StreamAct::Recv { .. } => CallWord::Recv,
        StreamAct::Post { message, .. } => post_name(message),
        StreamAct::Emit(_) => CallWord::Emit,
        StreamAct::Deliver { .. } => CallWord::Deliver,
        StreamAct::Raw { .. } => CallWord::Raw,
        StreamAct::First { .. } => CallWord::First,
        StreamAct::Mulpdu { .. } => CallWord::Mulpdu,
        StreamAct::Accept { .. } => CallWord::Accept,
        StreamAct::Reject { .. } => CallWord::Reject,
        StreamAct::Work(_) => CallWord::Work,
        StreamAct::Break => CallWord::Break,
    }
}

// `enhanced`: the stream is opened for revision 2 of MPA, and IRD and ORD are told.
fn add_stream_answer<A: Allocator + Copy>(
    text: &mut String<A>,
    enhanced: bool,
    act: &StreamAct<Bytes<A>>,
) -> Result<(), AllocError>
    ensures { OnOk result (string_bytes text.new
        ≡ with_words (string_bytes text.old) (stream_answer enhanced act.now)) }
{
    match act {
        StreamAct::Recv { refused, .. } => {
            appending::outcome(text, refused.map(refusals::of_recv))
        }
        StreamAct::Post { refused, .. } => {
            appending::outcome(text, refused.map(refusals::of_post))
        }
        StreamAct::Emit(shown) => add_shown(text, shown),
        StreamAct::Deliver { delivery, .. } => appending::word(text, delivery_name(*delivery)),
        StreamAct::Raw { delivery, .. } => appending::word(text, delivery_name(*delivery)),
        StreamAct::First { refused, .. } => {
            appending::outcome(text, refused.map(refusals::of_first))
        }
        StreamAct::Mulpdu { refused, .. } => {
            appending::outcome(text, refused.map(refusals::of_size))
        }
        StreamAct::Accept { answer, .. } => add_accepted(text, enhanced, *answer),
        StreamAct::Reject { refused, .. } => {
            appending::outcome(text, refused.map(refusals::of_answer))
        }
        StreamAct::Work(seen) => add_seen(text, enhanced, seen),
        StreamAct::Break => appending::word(text, "ok"),
    }
}

fn add_stream_act<A: Allocator + Copy>(
    text: &mut String<A>,
    enhanced: bool,
    stream: u8,
    act: &StreamAct<Bytes<A>>,
) -> Result<(), AllocError>
    ensures { OnOk result (string_bytes text.new
        ≡ with_words (string_bytes text.old) (stream_words enhanced stream act.now)) }
{
    add_call(text, stream_name(act), stream)?;
    add_stream_answer(text, enhanced, act)
}

// A call that names a stream or a domain, and `ok` or its refusal.
fn add_call_outcome<A: Allocator>(
    text: &mut String<A>,
    call: CallWord,
    n: u8,
    refused: Option<Refusal>,
) -> Result<(), AllocError>
    ensures { OnOk result (string_bytes text.new ≡ with_words (string_bytes text.old)
        (call_text call ∷ decimal n ∷ ok_or_refused (option_map shown_refusal refused))) }
{
    add_call(text, call, n)?;
    appending::outcome(text, refused)
}

// A call that names a region, and `ok` or its refusal.
fn add_named_outcome<A: Allocator + Copy>(
    text: &mut String<A>,
    call: CallWord,
    stag: Stag,
    refused: Option<Refusal>,
) -> Result<(), AllocError>
    ensures { OnOk result (string_bytes text.new ≡ with_words (string_bytes text.old)
        (call_text call ∷ stag_text stag ∷ ok_or_refused (option_map shown_refusal refused))) }
{
    add_named(text, call, stag)?;
    appending::outcome(text, refused)
}

fn add_registered<A: Allocator + Copy>(
    text: &mut String<A>,
    answer: Result<Stag, RegisterRefusal>,
) -> Result<(), AllocError>
    ensures { OnOk result (string_bytes text.new
        ≡ with_words (string_bytes text.old) (call_text CallWord.Register ∷ registered answer)) }
{
    appending::word(text, CallWord::Register.text())?;
    match answer {
        Ok(stag) => appending::stag(text, stag),
        Err(refusal) => appending::refusal(text, refusals::of_register(refusal)),
    }
}

fn add_deregistered<A: Allocator + Copy>(
    text: &mut String<A>,
    stag: Stag,
    answer: &Result<Bytes<A>, NoRegion>,
) -> Result<(), AllocError>
    ensures { OnOk result (string_bytes text.new ≡ with_words (string_bytes text.old)
        (call_text CallWord.Deregister ∷ stag_text stag ∷ deregistered answer.now)) }
{
    add_named(text, CallWord::Deregister, stag)?;
    match answer {
        Ok(octets) => {
            appending::word(text, "ok")?;
            appending::octets(text, octets.as_slice())
        }
        Err(refusal) => appending::refusal(text, refusals::of_missing(*refusal)),
    }
}

fn add_share<A: Allocator>(
    text: &mut String<A>,
    pd: u8,
    refused: Option<ShareRefusal>,
) -> Result<(), AllocError>
    ensures { OnOk result (string_bytes text.new ≡ with_words (string_bytes text.old)
        (call_text CallWord.Share ∷ decimal pd ∷ ok_or_refused (option_map share_refusal refused))) }
{
    add_call_outcome(text, CallWord::Share, pd, refused.map(refusals::of_share))
}

fn add_pool<A: Allocator>(
    text: &mut String<A>,
    pd: u8,
    refused: Option<PoolRefusal>,
) -> Result<(), AllocError>
    ensures { OnOk result (string_bytes text.new ≡ with_words (string_bytes text.old)
        (call_text CallWord.Pool ∷ decimal pd ∷ ok_or_refused (option_map pool_refusal refused))) }
{
    add_call_outcome(text, CallWord::Pool, pd, refused.map(refusals::of_pool))
}

fn add_open_shared<A: Allocator>(
    text: &mut String<A>,
    stream: u8,
    refused: Option<OpenSharedRefusal>,
) -> Result<(), AllocError>
    ensures { OnOk result (string_bytes text.new ≡ with_words (string_bytes text.old)
        (call_text CallWord.OpenShared ∷ decimal stream ∷ ok_or_refused (option_map open_shared_refusal refused))) }
{
    let refused = refused.map(refusals::of_open_shared);
    add_call_outcome(text, CallWord::OpenShared, stream, refused)
}

fn add_unpooled<A: Allocator + Copy>(
    text: &mut String<A>,
    pd: u8,
    answer: &Result<Option<Bytes<A>>, TakeRefusal>,
) -> Result<(), AllocError>
    ensures { OnOk result (string_bytes text.new ≡ with_words (string_bytes text.old)
        (call_text CallWord.Unpool ∷ decimal pd ∷ unpooled answer.now)) }
{
    add_call(text, CallWord::Unpool, pd)?;
    match answer {
        Ok(Some(octets)) => {
            appending::word(text, "ok")?;
            appending::octets(text, octets.as_slice())
        }
        Ok(None) => appending::word(text, "empty"),
        Err(refusal) => appending::refusal(text, refusals::of_take(*refusal)),
    }
}

fn add_act<A: Allocator + Copy>(
    text: &mut String<A>,
    enhanced: bool,
    act: &Act<Bytes<A>>,
) -> Result<(), AllocError>
    ensures { OnOk result (string_bytes text.new
        ≡ with_words (string_bytes text.old) (act_words enhanced act.now)) }
{
    match act {
        Act::Domain { pd, refused } => {
            let refused = refused.map(refusals::of_domain);
            add_call_outcome(text, CallWord::Domain, *pd, refused)
        }
        Act::Register { answer, .. } => add_registered(text, *answer),
        Act::Deregister { stag, answer } => add_deregistered(text, *stag, answer),
        Act::Invalidate { stag, refused } => {
            let refused = refused.map(refusals::of_missing);
            add_named_outcome(text, CallWord::Invalidate, *stag, refused)
        }
        Act::Store { stag, refused, .. } => {
            let refused = refused.map(refusals::of_store);
            add_named_outcome(text, CallWord::Store, *stag, refused)
        }
        Act::Open {
            stream,
            refused,
            ..
        } => {
            let refused = refused.map(refusals::of_open);
            add_call_outcome(text, CallWord::Open, *stream, refused)
        }
        Act::Share { pd, refused } => add_share(text, *pd, *refused),
        Act::Pool { pd, refused, .. } => add_pool(text, *pd, *refused),
        Act::Unpool { pd, answer } => add_unpooled(text, *pd, answer),
        Act::OpenShared {
            stream,
            refused,
            ..
        } => add_open_shared(text, *stream, *refused),
        Act::Stream { stream, act } => add_stream_act(text, enhanced, *stream, act),
    }
}

fn same_end(one: End, other: End) -> bool
    ensures { result ≡ same_end one other }
{
    match (one, other) {
        (End::A, End::A) | (End::B, End::B) => true,
        (End::A, End::B) | (End::B, End::A) => false,
    }
}

fn is_enhanced(options: &Options) -> bool
    ensures { result ≡ is_enhanced options.now.establishment }
{
    match options.establishment {
        Establishment::Plain => false,
        Establishment::Enhanced | Establishment::PeerToPeer => true,
    }
}

// Whether an act opens the stream of this number for revision 2 of MPA.
fn opens_enhanced<A: Allocator>(number: u8, act: &Act<Bytes<A>>) -> bool
    ensures { result ≡ opens_enhanced number act.now }
{
    match act {
        Act::Open {
            stream,
            options,
            refused: None,
            ..
        } => *stream == number && is_enhanced(options),
        Act::OpenShared {
            stream,
            options,
            refused: None,
            ..
        } => *stream == number && is_enhanced(options),
        Act::Open { .. }
        | Act::OpenShared { .. }
        | Act::Domain { .. }
        | Act::Register { .. }
        | Act::Deregister { .. }
        | Act::Invalidate { .. }
        | Act::Store { .. }
        | Act::Share { .. }
        | Act::Pool { .. }
        | Act::Unpool { .. }
        | Act::Stream { .. } => false,
    }
}

// Whether one of these entries opened it so at this end.
#[tactic(auto, unfolding(crate::specs::Trace::was_opened_enhanced))]
fn was_opened_enhanced<A: Allocator>(end: End, number: u8, before: &[Entry<Bytes<A>>]) -> bool
    ensures { result ≡ was_opened_enhanced end number before.now }
{
    before.iter().any(|entry| same_end(entry.end, end) && opens_enhanced(number, &entry.act))
}

// Whether revision 2 of MPA makes a difference to what is shown of an act.
fn tells_depths<A: Allocator>(act: &StreamAct<Bytes<A>>) -> bool
    ensures { result ≡ tells_depths act.now }
{
    match act {
        StreamAct::Accept { answer, .. } => answer.is_ok(),
        StreamAct::Work(Seen::Asked { .. } | Seen::Opened { .. }) => true,
        _ => false,
    }
}

// Whether IRD and ORD are shown of an act, given the entries before it.
fn shows_depths<A: Allocator>(before: &[Entry<Bytes<A>>], end: End, act: &Act<Bytes<A>>) -> bool
    ensures { result ≡ shows_depths before.now end act.now }
{
    match act {
        Act::Stream { stream, act } => {
            tells_depths(act) && was_opened_enhanced(end, *stream, before)
        }
        Act::Domain { .. }
        | Act::Register { .. }
        | Act::Deregister { .. }
        | Act::Invalidate { .. }
        | Act::Store { .. }
        | Act::Open { .. }
        | Act::Share { .. }
        | Act::Pool { .. }
        | Act::Unpool { .. }
        | Act::OpenShared { .. } => false,
    }
}

// Appends the line of an entry, given those before it.
fn add_entry<A: Allocator + Copy>(
    text: &mut String<A>,
    before: &[Entry<Bytes<A>>],
    entry: &Entry<Bytes<A>>,
) -> Result<(), AllocError>
    ensures { OnOk result (string_bytes text.new ≡ string_bytes text.old ++ entry_text before.now entry.now) }
{
    let enhanced = shows_depths(before, entry.end, &entry.act);
    text.push_str(end_name(entry.end))?;
    add_act(text, enhanced, &entry.act)?;
    text.push_str("\n")?;
    Ok(())
}

/// Prints a trace: one line for each entry, each ended by a line feed.
///
/// Octets and STags print as hexadecimal digits in lower case, no octets as `-`, and all other numbers in decimal. An
/// `Err` means out of memory.
pub fn print_trace<A: Allocator + Copy>(
    alloc: A,
    trace: &[Entry<Bytes<A>>],
) -> Result<String<A>, AllocError>
    ensures { IfOk result (λ text. string_bytes text ≡ trace_text trace.now) }
{
    let mut text = String::new(alloc);
    for (i, entry) in trace.iter().enumerate() {
        add_entry(&mut text, &trace[..i], entry)?;
    }
    Ok(text)
}
