//! Replays the schedules that the file `rows` of its folder names, and compares what each writes, and its status, with what
//! is expected. A line of it has a name, and `completed`, `faulted` or `refused` and the reason.
//!
//! Then it refuses memory. First each request of the replay in turn, which ends the replay; then each request of each
//! call of the two endpoints in turn, after which the same call is made again, and the trace must be the same.
//!
//! So it does with the calls of an endpoint that no schedule has (`given_again`).
//!
//! It prints a line for each schedule: `NAME: as written`, or what is different, with status 1; and a line for each
//! call of an endpoint. On standard error it counts the requests that were refused. At the end it runs the schedule of
//! its standard input (`soak`).
//!
//! With the argument `soak` it does that alone, and with `soak refuse` each call is refused memory there too (bench/soak).
#![tactic(auto)]

mod refused;
mod soak;

use anyhow::bail;
use iw_program::{ReplayFault, Status, replay};
use refused::{Counts, each_refused, given_again, made_again};
use std::alloc::{AllocError, Global};
use std::fs;
use std::process::ExitCode;
use std::rt::Runtime;

/// How a replay must end.
#[derive(Clone, Copy)]
enum Ending<'a> {
    /// The trace is written, and no stream ended by a fault.
    Completed,
    /// The trace is written, and a stream ended by a fault.
    Faulted,
    /// Nothing is written, and this reason is printed.
    Refused(&'a str),
}

/// A schedule, in the file `NAME.schedule`. Its trace, if it has one, is in `NAME.trace`.
#[derive(Clone, Copy)]
struct Row<'a> {
    name: &'a str,
    ending: Ending<'a>,
}

// What a line says: the name, and how the replay ends.
fn row_of(line: &str) -> Option<Row<'_>> {
    let (name, ending) = line.split_once(' ')?;
    let ending = if ending == "completed" {
        Ending::Completed
    } else if ending == "faulted" {
        Ending::Faulted
    } else {
        Ending::Refused(ending.strip_prefix("refused ")?)
    };
    Some(Row { name, ending })
}

/// How a replay differs from what is expected.
#[derive(Clone, Copy, Debug)]
enum Difference {
    /// The first line of the trace that differs, counted from 1.
    Line(usize),
    /// It ended in another way.
    Ended(Result<Status, ReplayFault>),
    /// A replay that was refused memory did not end out of memory, or wrote something.
    Refused,
    /// The trace differs if calls that were refused memory are made again.
    MadeAgain,
}

// What the replay must write.
fn expected<R: Runtime + AllocGlobal>(
    rt: &R,
    name: &str,
    ending: Ending<'_>,
) -> anyhow::Result<Vec<u8>> {
    match ending {
        Ending::Refused(_) => Ok(Vec::new(rt.alloc())),
        Ending::Completed | Ending::Faulted => {
            let path = format!(in rt.alloc(); "{name}.trace")?;
            Ok(fs::read(rt, path.as_str())?)
        }
    }
}

// The first line in which the texts differ, counted from 1.
fn first_difference(written: &[u8], expected: &[u8]) -> usize {
    let mut line = 1usize;
    for (a, b) in written.iter().zip(expected.iter()) {
        if a != b {
            return line;
        }
        if *a == b'\n' {
            line = line.saturating_add(1);
        }
    }
    line
}

fn ends_so(
    alloc: Global,
    ended: Result<Status, ReplayFault>,
    ending: Ending<'_>,
) -> Result<bool, AllocError> {
    Ok(match (ended, ending) {
        (Ok(Status::Completed), Ending::Completed) => true,
        (Ok(Status::Failed), Ending::Faulted) => true,
        (Err(ReplayFault::Refused(refusal)), Ending::Refused(text)) => {
            refusal.to_string(alloc)?.as_str() == text
        }
        _ => false,
    })
}

fn compare(
    alloc: Global,
    schedule: &[u8],
    trace: &[u8],
    ending: Ending<'_>,
) -> Result<Option<Difference>, AllocError> {
    let mut input = schedule;
    let mut written = Vec::new(alloc);
    let ended = replay(alloc, &mut input, &mut written);
    if written.as_slice() != trace {
        let line = first_difference(written.as_slice(), trace);
        return Ok(Some(Difference::Line(line)));
    }
    if !ends_so(alloc, ended, ending)? {
        return Ok(Some(Difference::Ended(ended)));
    }
    Ok(None)
}

// The same if memory is refused.
fn compare_refused<R: Runtime + AllocGlobal>(
    rt: &R,
    name: &str,
    ending: Ending<'_>,
    schedule: &[u8],
    trace: &[u8],
    counts: &mut Counts,
) -> anyhow::Result<Option<Difference>> {
    let Some(requests) = each_refused(rt.alloc(), schedule)? else {
        return Ok(Some(Difference::Refused));
    };
    eprintln!(rt; "{name}: requests for memory 1 to {requests}")?;
    if let Ending::Refused(_) = ending {
        return Ok(None);
    }
    if !made_again(rt.alloc(), schedule, trace, counts)? {
        return Ok(Some(Difference::MadeAgain));
    }
    Ok(None)
}

fn compare_row<R: Runtime + AllocGlobal>(
    rt: &R,
    name: &str,
    ending: Ending<'_>,
    counts: &mut Counts,
) -> anyhow::Result<Option<Difference>> {
    let path = format!(in rt.alloc(); "{name}.schedule")?;
    let schedule = fs::read(rt, path.as_str())?;
    let trace = expected(rt, name, ending)?;
    let (schedule, trace) = (schedule.as_slice(), trace.as_slice());
    match compare(rt.alloc(), schedule, trace, ending)? {
        None => compare_refused(rt, name, ending, schedule, trace, counts),
        difference => Ok(difference),
    }
}

// Prints which calls were refused memory, and which allocate nothing. Returns whether each call was made and refused.
fn print_calls<R: Runtime + AllocGlobal>(rt: &R, counts: &Counts) -> anyhow::Result<bool> {
    let mut is_whole = true;
    for (call, takes_memory, made, refused) in counts.each() {
        let is_tried = made > 0 && (refused > 0 || !takes_memory);
        let answer = match (is_tried, takes_memory) {
            (true, true) => "refused memory, and made again",
            (true, false) => "takes no memory",
            (false, _) => "NOT TRIED",
        };
        println!(rt; "{call:?}: {answer}")?;
        eprintln!(rt; "{call:?}: made {made} times, {refused} requests for memory refused")?;
        is_whole = is_whole && is_tried;
    }
    Ok(is_whole)
}

// Whether each of these rows is as written; prints a line for each.
fn replay_each<R: Runtime + AllocGlobal>(
    rt: &R,
    rows: &str,
    counts: &mut Counts,
) -> anyhow::Result<bool> {
    let mut is_whole = true;
    for line in rows.lines() {
        let Some(Row { name, ending }) = row_of(line) else {
            bail!("no row: {line}");
        };
        match compare_row(rt, name, ending, counts)? {
            None => println!(rt; "{name}: as written")?,
            Some(difference) => {
                println!(rt; "{name}: not as written, {difference:?}")?;
                is_whole = false;
            }
        }
    }
    Ok(is_whole)
}

fn replay_rows<R: Runtime + AllocGlobal>(rt: &R) -> anyhow::Result<ExitCode> {
    let mut counts = Counts::new();
    let rows = fs::read_to_string(rt, "rows")?;
    let is_written = replay_each(rt, rows.as_str(), &mut counts)?;
    let is_given = given_again(rt.alloc(), &mut counts)?;
    if !is_given {
        println!(rt; "calls that no schedule has: not as with enough memory")?;
    }
    let is_called = print_calls(rt, &counts)?;
    if is_written && is_given && is_called {
        Ok(ExitCode::SUCCESS)
    } else {
        Ok(ExitCode::FAILURE)
    }
}

fn main(rt: HostRuntime) -> anyhow::Result<ExitCode> {
    let mut words = std::env::args(&rt)?;
    let _program = words.next();
    let code = match words.next() {
        None => replay_rows(&rt)?,
        Some(_soak) => ExitCode::SUCCESS,
    };
    soak::run(&rt, words.next().is_some())?;
    Ok(code)
}
