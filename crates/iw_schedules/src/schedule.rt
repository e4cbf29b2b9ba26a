ghost use Rattle.std.specs.Prelude.{◌≡◌, ◌<◌, ◌++◌, map, length, OnOk, OnErr, IfOk, IfErr, Ok};
ghost use Rattle.iw_schedules.specs.Reading.{Gives};
ghost use Rattle.iw_schedules.specs.Pieces.{words};
ghost use Rattle.iw_schedules.specs.Calls.{calls_of};
ghost use Rattle.iw_schedules.specs.Schedule.{is_skipped, ended, event_at, with_line, with_events};
ghost use Rattle.iw_schedules.specs.Schedule.{schedule_of, events_of, Events, Reads};
ghost use Rattle.iw_schedules.specs.Grammar.{IsSchedule, FirstFault};

use crate::calls::{Calls, read_calls};
use crate::fault::{FaultName, ReadError, ScheduleFault};
use crate::pieces::{Pieces, split_at};
use crate::words;
use bytes::Bytes;
use iw_events::{Call, End, Event};
use std::alloc::{AllocError, Allocator};

/// The most events of a schedule.
pub(crate) const MAX_EVENTS: u64 = 1_000_000;

// Whether a line is empty or a comment.
fn is_skipped_line(line: &[u8]) -> bool
    ensures { result ≡ is_skipped line.now }
{
    match line {
        [] => true,
        [first, ..] => *first == b'#',
    }
}

// The calls of a line, and the end at which they are made.
#[tactic(auto, unfolding(crate::specs::Schedule::events_of))]
fn read_line<A: Allocator + Copy>(
    alloc: A,
    line: &[u8],
) -> Result<(End, Calls<Bytes<A>>), ReadError>
    ensures { Gives (λ read. map (event_at read.0) (calls_of read.1)) result (events_of (words line.now)) }
{
    let mut words = Pieces::new(line, b' ');
    let Some(first) = words.next() else {
        return Err(ReadError::Fault(FaultName::BadWord));
    };
    let end = words::end(first)?;
    let calls = read_calls(alloc, &mut words)?;
    ended((end, calls), &mut words)
}

// What was read; `BadWord` if a word is left.
fn ended<X: Drop>(read: X, words: &mut Pieces<'_>) -> Result<X, ReadError>
    ensures { Gives (λ read. read) result (ended read words.old) }
{
    match words.next() {
        None => Ok(read),
        Some(_) => Err(ReadError::Fault(FaultName::BadWord)),
    }
}

// Appends the events of a line.
fn push<A: Allocator>(
    events: &mut Vec<Event<Bytes<A>>, A>,
    end: End,
    calls: Calls<Bytes<A>>,
) -> Result<(), AllocError>
    ensures { OnOk result (events.new.items ≡ events.old.items ++ map (event_at end) (calls_of calls)) }
{
    match calls {
        Calls::One(call) => events.push(Event { end, call })?,
        Calls::Many {
            stream,
            step,
            times,
        } => {
            for _ in 0..times {
                let call = Call::Stream {
                    stream,
                    call: step.call(),
                };
                events.push(Event { end, call })?;
            }
        }
    }
    Ok(())
}

// Appends the events of a line; `TooMany` if the schedule would have too many.
fn add_events<A: Allocator>(
    events: &mut Vec<Event<Bytes<A>>, A>,
    end: End,
    calls: Calls<Bytes<A>>,
) -> Result<(), ReadError>
    ensures { Gives (λ _. events.new.items) result
        (with_events events.old.items (map (event_at end) (calls_of calls))) }
{
    match (events.len() as u64).checked_add(calls.len()) {
        Some(all) if all <= MAX_EVENTS => Ok(push(events, end, calls)?),
        _ => Err(ReadError::Fault(FaultName::TooMany)),
    }
}

// Appends the events that a line stands for.
#[tactic(auto, unfolding(crate::specs::Schedule::with_line))]
fn add_line<A: Allocator + Copy>(
    alloc: A,
    line: &[u8],
    events: &mut Vec<Event<Bytes<A>>, A>,
) -> Result<(), ReadError>
    ensures events { Gives (λ _. events.new.items) result (with_line events.old.items line.now) }
    ensures line { OnErr result (0 < length line.now) }
{
    if is_skipped_line(line) {
        return Ok(());
    }
    let (end, calls) = read_line(alloc, line)?;
    add_events(events, end, calls)
}

// The events of all lines, or the first fault.
fn read_lines<A: Allocator + Copy>(
    alloc: A,
    text: &[u8],
) -> Result<Vec<Event<Bytes<A>>, A>, ScheduleFault>
    ensures { Reads (λ events. events.items) result (schedule_of text.now) }
{
    let mut events = Vec::new(alloc);
    let mut before = 0u64;
    let mut left = text;
    'lines: loop {
        // An empty line and a line `#` end within two octets.
        let (line, rest) = split_at(left, b'\n', 2);
        if let Err(error) = add_line(alloc, line, &mut events) {
            return Err(error.at(before + 1));
        }
        let Some(rest) = rest else {
            return Ok(events);
        };
        before += 1;
        left = rest;
    }
}

/// Reads a schedule: its events, in order.
///
/// Each line stands for one event, or for as many as it says. Empty lines and lines that begin with `#` stand for none.
/// The `Err` is the first fault, by lines and then by words, or `NoMemory`.
pub fn read_schedule<A: Allocator + Copy>(
    alloc: A,
    text: &[u8],
) -> Result<Vec<Event<Bytes<A>>, A>, ScheduleFault>
    // A text that is read is in the grammar, and stands for these events.
    ensures found { IfOk result (λ events. IsSchedule text.now events.items) }
    // A text in the grammar is read, unless memory runs out.
    ensures only { (events : Events) → IsSchedule text.now events → Reads (λ read. read.items) result (Ok events) }
    // Which fault is returned.
    ensures first { IfErr result (FirstFault text.now) }
    ensures exact { Reads (λ events. events.items) result (schedule_of text.now) }
{
    read_lines(alloc, text)
}
