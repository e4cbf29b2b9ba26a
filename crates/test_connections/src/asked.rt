//! Reads that ask for less than comes.

use crate::end::{End, STREAM};
use crate::reads::Written;
use iw_connection::{CallRefusal, Intake, take_some};
use iw_endpoint::{MOST_READ, Role};
use std::alloc::Global;
use std::io::{self, ErrorKind};
use std::test::Fail;
use test_support::Halting;

// What is asked for.
const ASKED: [usize; 5] = [1, 7, 4_096, 65_537, usize::MAX];

// Reads the wire by reads that ask for at most so many octets. Returns whether all of it came.
fn is_whole(written: &Written, alloc: Global, most: usize) -> Result<bool, Fail> {
    let mut end = End::open(alloc, Role::Preset)?;
    let region = end.register(vec![in alloc; 0u8; written.octets.len()]?)?;
    let mut rest = written.wire.as_slice();
    for _ in 0..u64::MAX {
        if rest.is_empty() {
            break;
        }
        match end.is_readable_for(&mut rest, most)? {
            Intake::Came(n) if n > 0 && n <= most.min(MOST_READ) => {}
            _ => return Ok(false),
        }
    }
    Ok(end.seen.received == 1 && !end.seen.has_ended && end.has(region, written.octets.as_slice()))
}

fn is_whole_by_each(alloc: Global) -> Result<bool, Fail> {
    let written = Written::new(alloc, false)?;
    for most in ASKED {
        if !is_whole(&written, alloc, most)? {
            return Ok(false);
        }
    }
    Ok(true)
}

fn is_blocked(outcome: Result<Intake, CallRefusal<io::Error>>) -> bool {
    match outcome {
        Err(CallRefusal::Refused(error)) => error.kind() == ErrorKind::WouldBlock,
        _ => false,
    }
}

#[test]
fn nothing_is_lost_by_reads_that_ask_for_less(rt: HostRuntime) -> Result<(), Fail> {
    assert!(rt; is_whole_by_each(rt.alloc())?);
    Ok(())
}

#[test]
fn a_read_that_would_block_is_made_again(rt: HostRuntime) -> Result<(), Fail> {
    let mut end = End::open(rt.alloc(), Role::Preset)?;
    let mut socket = Halting::new([9u8; 20].as_slice(), 20).failing_at(2, ErrorKind::WouldBlock);
    assert!(rt; take_some(&mut end.endpoint, STREAM, &mut socket, 7)? == Intake::Came(7));
    assert!(rt; is_blocked(take_some(&mut end.endpoint, STREAM, &mut socket, 7)));
    assert!(rt; take_some(&mut end.endpoint, STREAM, &mut socket, 7)? == Intake::Came(7));
    assert!(rt; take_some(&mut end.endpoint, STREAM, &mut socket, 7)? == Intake::Came(6));
    assert!(rt; take_some(&mut end.endpoint, STREAM, &mut socket, 7)? == Intake::End);
    Ok(())
}

#[test]
fn a_stream_that_has_ended_drops_what_was_asked_for(rt: HostRuntime) -> Result<(), Fail> {
    let mut end = End::open(rt.alloc(), Role::Preset)?;
    end.closed()?;
    let octets = [9u8; 20];
    let mut rest = octets.as_slice();
    assert!(rt; take_some(&mut end.endpoint, STREAM, &mut rest, 0)? == Intake::Came(1));
    assert!(rt; take_some(&mut end.endpoint, STREAM, &mut rest, 12)? == Intake::Came(12));
    assert!(rt; take_some(&mut end.endpoint, STREAM, &mut rest, 12)? == Intake::Came(7));
    assert!(rt; take_some(&mut end.endpoint, STREAM, &mut rest, 12)? == Intake::End);
    Ok(())
}
