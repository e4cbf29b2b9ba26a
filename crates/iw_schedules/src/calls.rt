//! The calls that the words of a line stand for, after the word that names the end.

ghost use Rattle.std.specs.Prelude.{◌≡◌, length};
ghost use Rattle.iw_schedules.specs.Reading.{Gives};
ghost use Rattle.iw_schedules.specs.Kinds.{number_word, stag_word, octets_word, private_word};
ghost use Rattle.iw_schedules.specs.SendKind.{kind_word, invalidated_word};
ghost use Rattle.iw_schedules.specs.Rights.{rights_word};
ghost use Rattle.iw_schedules.specs.Options.{options_for};
ghost use Rattle.iw_schedules.specs.Words.{role_word, call_word};
ghost use Rattle.iw_schedules.specs.Calls.{calls_of, calls_at, step_call, steps_at};
ghost use Rattle.iw_schedules.specs.Calls.{next_word, field, beyond, octet_number, long_number, short_number, times_at};
ghost use Rattle.iw_schedules.specs.Calls.{domain_at, register_at, deregister_at, invalidate_at, store_at};
ghost use Rattle.iw_schedules.specs.Calls.{share_at, pool_at, unpool_at, open_shared_at};
ghost use Rattle.iw_schedules.specs.Calls.{open_at, accept_at, reject_at, mulpdu_at, break_at, first_at, deliver_at, raw_at};
ghost use Rattle.iw_schedules.specs.Calls.{recv_at, send_at, write_at, read_at};

use crate::fault::{FaultName, ReadError};
use crate::options::read_options_for;
use crate::pieces::Pieces;
use crate::rights::read_rights;
use crate::send_kind::SendKind;
use crate::words::CallWord;
use crate::{kinds, words};
use bytes::Bytes;
use iw_events::{Call, Options, Request, Role, StreamCall};
use iw_memory::Rights;
use iw_octets::{Message, ReadRequest, Stag};
use std::alloc::Allocator;

/// A call on a stream that a line may repeat.
#[derive(Clone, Copy)]
pub(crate) enum Step {
    Emit,
    Work,
}

/// The calls that a line stands for. The type of the octets is the parameter.
#[derive(Drop)]
pub(crate) enum Calls<O> {
    One(Call<O>),
    /// Equal calls on a stream.
    Many { stream: u8, step: Step, times: u64 },
}

impl Step {
    pub(crate) fn call<A: Allocator>(self) -> StreamCall<Bytes<A>>
        ensures { result ≡ step_call self }
    {
        match self {
            Step::Emit => StreamCall::Emit,
            Step::Work => StreamCall::Work,
        }
    }
}

impl<A: Allocator> Calls<Bytes<A>> {
    /// How many calls there are.
    pub(crate) fn len(&self) -> u64
        ensures { result ≡ length (calls_of self.now) }
    {
        match self {
            Calls::One(_) => 1,
            Calls::Many { times, .. } => *times,
        }
    }
}

// The next word.
fn next<'a>(words: &mut Pieces<'a>) -> Result<&'a [u8], ReadError>
    ensures { Gives (λ word. (word.now, words.new)) result (next_word words.old) }
{
    match words.next() {
        Some(word) => Ok(word),
        None => Err(ReadError::Fault(FaultName::BadWord)),
    }
}

// The number of a domain or a stream.
fn octet_number_in(words: &mut Pieces<'_>) -> Result<u8, ReadError>
    ensures { Gives (λ n. (n, words.new)) result (field octet_number words.old) }
{
    Ok(kinds::number(next(words)?, 255)? as u8)
}

fn long_number_in(words: &mut Pieces<'_>) -> Result<u64, ReadError>
    ensures { Gives (λ n. (n, words.new)) result (field long_number words.old) }
{
    Ok(kinds::number(next(words)?, u64::MAX)?)
}

// A number of 32 bits: the size of a Read or of a ULPDU, or a sequence number.
fn short_number_in(words: &mut Pieces<'_>) -> Result<u32, ReadError>
    ensures { Gives (λ n. (n, words.new)) result (field short_number words.old) }
{
    Ok(kinds::number(next(words)?, u64::from(u32::MAX))? as u32)
}

fn stag_in(words: &mut Pieces<'_>) -> Result<Stag, ReadError>
    ensures { Gives (λ stag. (stag, words.new)) result (field stag_word words.old) }
{
    Ok(kinds::stag(next(words)?)?)
}

fn octets_in<A: Allocator + Copy>(alloc: A, words: &mut Pieces<'_>) -> Result<Bytes<A>, ReadError>
    ensures { Gives (λ octets. (octets, words.new)) result (field octets_word words.old) }
{
    kinds::octets(alloc, next(words)?)
}

fn private_in<A: Allocator + Copy>(alloc: A, words: &mut Pieces<'_>) -> Result<Bytes<A>, ReadError>
    ensures { Gives (λ octets. (octets, words.new)) result (field private_word words.old) }
{
    kinds::private(alloc, next(words)?)
}

fn rights_in(words: &mut Pieces<'_>) -> Result<Rights, ReadError>
    ensures { Gives (λ rights. (rights, words.new)) result (field rights_word words.old) }
{
    Ok(read_rights(next(words)?)?)
}

fn role_in(words: &mut Pieces<'_>) -> Result<Role, ReadError>
    ensures { Gives (λ role. (role, words.new)) result (field role_word words.old) }
{
    Ok(words::role(next(words)?)?)
}

// The options of a stream with this role.
fn options_in(role: Role, words: &mut Pieces<'_>) -> Result<Options, ReadError>
    ensures { Gives (λ options. (options, words.new)) result (field (options_for role) words.old) }
{
    Ok(read_options_for(role, next(words)?)?)
}

fn kind_in(words: &mut Pieces<'_>) -> Result<SendKind, ReadError>
    ensures { Gives (λ kind. (kind, words.new)) result (field kind_word words.old) }
{
    Ok(SendKind::read(next(words)?)?)
}

// The STag that a Send of this kind invalidates.
fn invalidated_in(kind: SendKind, words: &mut Pieces<'_>) -> Result<Option<Stag>, ReadError>
    ensures { Gives (λ stag. (stag, words.new)) result (field (invalidated_word kind) words.old) }
{
    Ok(kind.invalidated(next(words)?)?)
}

// How often; once if the word is missing.
fn times_in(words: &mut Pieces<'_>) -> Result<u64, ReadError>
    ensures { Gives (λ n. (n, words.new)) result (times_at words.old) }
{
    match words.next() {
        Some(word) => Ok(kinds::times(word)?),
        None => Ok(1),
    }
}

#[tactic(auto, unfolding(crate::specs::Calls::domain_at))]
fn domain<A: Allocator>(words: &mut Pieces<'_>) -> Result<Calls<Bytes<A>>, ReadError>
    ensures { Gives (λ calls. (calls_of calls, words.new)) result (domain_at words.old) }
{
    let pd = octet_number_in(words)?;
    Ok(Calls::One(Call::Domain { pd }))
}

#[tactic(auto, unfolding(crate::specs::Calls::register_at))]
fn register<A: Allocator + Copy>(
    alloc: A,
    words: &mut Pieces<'_>,
) -> Result<Calls<Bytes<A>>, ReadError>
    ensures { Gives (λ calls. (calls_of calls, words.new)) result (register_at words.old) }
{
    let pd = octet_number_in(words)?;
    let base = long_number_in(words)?;
    let rights = rights_in(words)?;
    let octets = octets_in(alloc, words)?;
    Ok(Calls::One(Call::Register {
        pd,
        base,
        rights,
        octets,
    }))
}

#[tactic(auto, unfolding(crate::specs::Calls::deregister_at))]
fn deregister<A: Allocator>(words: &mut Pieces<'_>) -> Result<Calls<Bytes<A>>, ReadError>
    ensures { Gives (λ calls. (calls_of calls, words.new)) result (deregister_at words.old) }
{
    let stag = stag_in(words)?;
    Ok(Calls::One(Call::Deregister { stag }))
}

#[tactic(auto, unfolding(crate::specs::Calls::invalidate_at))]
fn invalidate<A: Allocator>(words: &mut Pieces<'_>) -> Result<Calls<Bytes<A>>, ReadError>
    ensures { Gives (λ calls. (calls_of calls, words.new)) result (invalidate_at words.old) }
{
    let stag = stag_in(words)?;
    Ok(Calls::One(Call::Invalidate { stag }))
}

#[tactic(auto, unfolding(crate::specs::Calls::store_at))]
fn store<A: Allocator + Copy>(
    alloc: A,
    words: &mut Pieces<'_>,
) -> Result<Calls<Bytes<A>>, ReadError>
    ensures { Gives (λ calls. (calls_of calls, words.new)) result (store_at words.old) }
{
    let stag = stag_in(words)?;
    let to = long_number_in(words)?;
    let octets = octets_in(alloc, words)?;
    Ok(Calls::One(Call::Store { stag, to, octets }))
}

#[tactic(auto, unfolding(crate::specs::Calls::open_at))]
fn open<A: Allocator + Copy>(alloc: A, words: &mut Pieces<'_>) -> Result<Calls<Bytes<A>>, ReadError>
    ensures { Gives (λ calls. (calls_of calls, words.new)) result (open_at words.old) }
{
    let stream = octet_number_in(words)?;
    let pd = octet_number_in(words)?;
    let role = role_in(words)?;
    let options = options_in(role, words)?;
    let private = private_in(alloc, words)?;
    Ok(Calls::One(Call::Open {
        stream,
        pd,
        role,
        options,
        private,
    }))
}

#[tactic(auto, unfolding(crate::specs::Calls::share_at))]
fn share<A: Allocator>(words: &mut Pieces<'_>) -> Result<Calls<Bytes<A>>, ReadError>
    ensures { Gives (λ calls. (calls_of calls, words.new)) result (share_at words.old) }
{
    let pd = octet_number_in(words)?;
    Ok(Calls::One(Call::Share { pd }))
}

#[tactic(auto, unfolding(crate::specs::Calls::pool_at))]
fn pool<A: Allocator>(words: &mut Pieces<'_>) -> Result<Calls<Bytes<A>>, ReadError>
    ensures { Gives (λ calls. (calls_of calls, words.new)) result (pool_at words.old) }
{
    let pd = octet_number_in(words)?;
    let len = kinds::number(next(words)?, kinds::MAX_WORD_OCTETS)? as u32;
    Ok(Calls::One(Call::Pool { pd, len }))
}

#[tactic(auto, unfolding(crate::specs::Calls::unpool_at))]
fn unpool<A: Allocator>(words: &mut Pieces<'_>) -> Result<Calls<Bytes<A>>, ReadError>
    ensures { Gives (λ calls. (calls_of calls, words.new)) result (unpool_at words.old) }
{
    let pd = octet_number_in(words)?;
    Ok(Calls::One(Call::Unpool { pd }))
}

#[tactic(auto, unfolding(crate::specs::Calls::open_shared_at))]
fn open_shared<A: Allocator + Copy>(
    alloc: A,
    words: &mut Pieces<'_>,
) -> Result<Calls<Bytes<A>>, ReadError>
    ensures { Gives (λ calls. (calls_of calls, words.new)) result (open_shared_at words.old) }
{
    let stream = octet_number_in(words)?;
    let pd = octet_number_in(words)?;
    let role = role_in(words)?;
    let options = options_in(role, words)?;
    let private = private_in(alloc, words)?;
    Ok(Calls::One(Call::OpenShared {
        stream,
        pd,
        role,
        options,
        private,
    }))
}

#[tactic(auto, unfolding(crate::specs::Calls::accept_at))]
fn accept<A: Allocator + Copy>(
    alloc: A,
    words: &mut Pieces<'_>,
) -> Result<Calls<Bytes<A>>, ReadError>
    ensures { Gives (λ calls. (calls_of calls, words.new)) result (accept_at words.old) }
{
    let stream = octet_number_in(words)?;
    let private = private_in(alloc, words)?;
    let call = StreamCall::Accept { private };
    Ok(Calls::One(Call::Stream { stream, call }))
}

#[tactic(auto, unfolding(crate::specs::Calls::reject_at))]
fn reject<A: Allocator + Copy>(
    alloc: A,
    words: &mut Pieces<'_>,
) -> Result<Calls<Bytes<A>>, ReadError>
    ensures { Gives (λ calls. (calls_of calls, words.new)) result (reject_at words.old) }
{
    let stream = octet_number_in(words)?;
    let private = private_in(alloc, words)?;
    let call = StreamCall::Reject { private };
    Ok(Calls::One(Call::Stream { stream, call }))
}

#[tactic(auto, unfolding(crate::specs::Calls::recv_at))]
fn recv<A: Allocator>(words: &mut Pieces<'_>) -> Result<Calls<Bytes<A>>, ReadError>
    ensures { Gives (λ calls. (calls_of calls, words.new)) result (recv_at words.old) }
{
    let stream = octet_number_in(words)?;
    let len = kinds::number(next(words)?, kinds::MAX_WORD_OCTETS)? as u32;
    let call = StreamCall::Recv { len };
    Ok(Calls::One(Call::Stream { stream, call }))
}

#[tactic(auto, unfolding(crate::specs::Calls::send_at))]
fn send<A: Allocator + Copy>(alloc: A, words: &mut Pieces<'_>) -> Result<Calls<Bytes<A>>, ReadError>
    ensures { Gives (λ calls. (calls_of calls, words.new)) result (send_at words.old) }
{
    let stream = octet_number_in(words)?;
    let kind = kind_in(words)?;
    let invalidate = invalidated_in(kind, words)?;
    let message = Message::Send {
        octets: octets_in(alloc, words)?,
        solicited: kind.is_solicited(),
        invalidate,
    };
    let message = Request::Message(message);
    let call = StreamCall::Post { message };
    Ok(Calls::One(Call::Stream { stream, call }))
}

#[tactic(auto, unfolding(crate::specs::Calls::write_at))]
fn write<A: Allocator + Copy>(
    alloc: A,
    words: &mut Pieces<'_>,
) -> Result<Calls<Bytes<A>>, ReadError>
    ensures { Gives (λ calls. (calls_of calls, words.new)) result (write_at words.old) }
{
    let stream = octet_number_in(words)?;
    let stag = stag_in(words)?;
    let to = long_number_in(words)?;
    let octets = octets_in(alloc, words)?;
    let message = Request::Message(Message::Write { stag, to, octets });
    let call = StreamCall::Post { message };
    Ok(Calls::One(Call::Stream { stream, call }))
}

#[tactic(auto, unfolding(crate::specs::Calls::read_at))]
fn read<A: Allocator>(words: &mut Pieces<'_>) -> Result<Calls<Bytes<A>>, ReadError>
    ensures { Gives (λ calls. (calls_of calls, words.new)) result (read_at words.old) }
{
    let stream = octet_number_in(words)?;
    let request = ReadRequest {
        sink: stag_in(words)?,
        sink_to: long_number_in(words)?,
        size: short_number_in(words)?,
        source: stag_in(words)?,
        source_to: long_number_in(words)?,
    };
    let message = Request::Read(request);
    let call = StreamCall::Post { message };
    Ok(Calls::One(Call::Stream { stream, call }))
}

#[tactic(auto, unfolding(crate::specs::Calls::steps_at))]
fn steps<A: Allocator>(step: Step, words: &mut Pieces<'_>) -> Result<Calls<Bytes<A>>, ReadError>
    ensures { Gives (λ calls. (calls_of calls, words.new)) result (steps_at step words.old) }
{
    let stream = octet_number_in(words)?;
    let times = times_in(words)?;
    Ok(Calls::Many {
        stream,
        step,
        times,
    })
}

#[tactic(auto, unfolding(crate::specs::Calls::deliver_at))]
fn deliver<A: Allocator>(words: &mut Pieces<'_>) -> Result<Calls<Bytes<A>>, ReadError>
    ensures { Gives (λ calls. (calls_of calls, words.new)) result (deliver_at words.old) }
{
    let stream = octet_number_in(words)?;
    let from = long_number_in(words)?;
    let len = long_number_in(words)?;
    let call = StreamCall::Deliver { from, len };
    Ok(Calls::One(Call::Stream { stream, call }))
}

#[tactic(auto, unfolding(crate::specs::Calls::raw_at))]
fn raw<A: Allocator + Copy>(alloc: A, words: &mut Pieces<'_>) -> Result<Calls<Bytes<A>>, ReadError>
    ensures { Gives (λ calls. (calls_of calls, words.new)) result (raw_at words.old) }
{
    let stream = octet_number_in(words)?;
    let number = short_number_in(words)?;
    let octets = octets_in(alloc, words)?;
    let call = StreamCall::Raw { number, octets };
    Ok(Calls::One(Call::Stream { stream, call }))
}

#[tactic(auto, unfolding(crate::specs::Calls::first_at))]
fn first<A: Allocator>(words: &mut Pieces<'_>) -> Result<Calls<Bytes<A>>, ReadError>
    ensures { Gives (λ calls. (calls_of calls, words.new)) result (first_at words.old) }
{
    let stream = octet_number_in(words)?;
    let number = short_number_in(words)?;
    let call = StreamCall::First { number };
    Ok(Calls::One(Call::Stream { stream, call }))
}

#[tactic(auto, unfolding(crate::specs::Calls::mulpdu_at))]
fn mulpdu<A: Allocator>(words: &mut Pieces<'_>) -> Result<Calls<Bytes<A>>, ReadError>
    ensures { Gives (λ calls. (calls_of calls, words.new)) result (mulpdu_at words.old) }
{
    let stream = octet_number_in(words)?;
    let size = short_number_in(words)?;
    let call = StreamCall::Mulpdu { size };
    Ok(Calls::One(Call::Stream { stream, call }))
}

#[tactic(auto, unfolding(crate::specs::Calls::break_at))]
fn break_link<A: Allocator>(words: &mut Pieces<'_>) -> Result<Calls<Bytes<A>>, ReadError>
    ensures { Gives (λ calls. (calls_of calls, words.new)) result (break_at words.old) }
{
    let stream = octet_number_in(words)?;
    let call = StreamCall::Break;
    Ok(Calls::One(Call::Stream { stream, call }))
}

// The calls that this word and the words after it stand for.
#[inline(never)]
fn calls_past<A: Allocator + Copy>(
    alloc: A,
    call: CallWord,
    words: &mut Pieces<'_>,
) -> Result<Calls<Bytes<A>>, ReadError>
    ensures { Gives (λ calls. (calls_of calls, words.new)) result (beyond call words.old) }
{
    match call {
        CallWord::Domain => domain(words),
        CallWord::Register => register(alloc, words),
        CallWord::Deregister => deregister(words),
        CallWord::Invalidate => invalidate(words),
        CallWord::Store => store(alloc, words),
        CallWord::Open => open(alloc, words),
        CallWord::Share => share(words),
        CallWord::Pool => pool(words),
        CallWord::Unpool => unpool(words),
        CallWord::OpenShared => open_shared(alloc, words),
        CallWord::Accept => accept(alloc, words),
        CallWord::Reject => reject(alloc, words),
        CallWord::Recv => recv(words),
        CallWord::Send => send(alloc, words),
        CallWord::Write => write(alloc, words),
        CallWord::Read => read(words),
        CallWord::Emit => steps(Step::Emit, words),
        CallWord::Work => steps(Step::Work, words),
        CallWord::Deliver => deliver(words),
        CallWord::Raw => raw(alloc, words),
        CallWord::First => first(words),
        CallWord::Mulpdu => mulpdu(words),
        CallWord::Break => break_link(words),
    }
}

fn call_in(words: &mut Pieces<'_>) -> Result<CallWord, ReadError>
    ensures { Gives (λ call. (call, words.new)) result (field call_word words.old) }
{
    Ok(CallWord::read(next(words)?)?)
}

/// The calls that the next words stand for. The first of them names the call.
#[tactic(auto, unfolding(crate::specs::Calls::calls_at))]
pub(crate) fn read_calls<A: Allocator + Copy>(
    alloc: A,
    words: &mut Pieces<'_>,
) -> Result<Calls<Bytes<A>>, ReadError>
    ensures { Gives (λ calls. (calls_of calls, words.new)) result (calls_at words.old) }
{
    let call = call_in(words)?;
    calls_past(alloc, call, words)
}
