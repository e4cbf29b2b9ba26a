//! An output that fails at each of its calls in turn: what it took is the front of what is to be printed.

use crate::peers::{CALL, Script};
use iw_commands::{CommandFault, Options, listen_all};
use iw_output::Status;
use std::alloc::Global;
use std::io::ErrorKind;
use std::test::Fail;
use test_support::Halting;

const LINE: &str = "stream 0 received 6869\n";

const OPTIONS: Options = Options {
    markers: false,
    crc: false,
    enhanced: false,
};

// Serves one caller; the output takes eight octets a write, and its call with this number fails with this error.
fn printed(alloc: Global, call: u64, kind: ErrorKind) -> (Result<Status, CommandFault>, Vec<u8>) {
    let mut print = Halting::new(Vec::new(alloc), 8).failing_at(call, kind);
    let status = listen_all(alloc, &mut Script::new(alloc, CALL), OPTIONS, 1, &mut print);
    (status, print.into_inner())
}

#[test]
fn an_output_that_fails_has_the_front(rt: HostRuntime) -> Result<(), Fail> {
    // Three writes and a flush.
    for call in 1..=4u64 {
        let (status, text) = printed(rt.alloc(), call, ErrorKind::BrokenPipe);
        assert!(rt; status == Err(CommandFault::Output), "at call {call}");
        assert!(rt;
            LINE.as_bytes().starts_with(text.as_slice()),
            "at call {call}"
        );
    }
    Ok(())
}

#[test]
fn a_write_that_was_interrupted_is_made_again(rt: HostRuntime) -> Result<(), Fail> {
    for call in 1..=3u64 {
        let (status, text) = printed(rt.alloc(), call, ErrorKind::Interrupted);
        assert!(rt; status == Ok(Status::Completed), "at call {call}");
        assert!(rt; text.as_slice() == LINE.as_bytes(), "at call {call}");
    }
    Ok(())
}
