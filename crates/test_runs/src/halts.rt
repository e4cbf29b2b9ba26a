//! Replays whose input or output fails, at each of its calls.
use iw_program::{ReplayFault, Status, replay};
use std::alloc::Global;
use std::io::{ErrorKind, Read};
use std::test::Fail;
use test_support::{Endless, Halting};

// A Write and a Send.
const SCHEDULE: &str = "a domain 1
b domain 1
b register 1 4096 w 00*8
a open 0 1 preset - -
b open 0 1 preset - -
b recv 0 2
a write 0 01000000 4096 1122334455667788
a send 0 plain - 6869
a emit 0 2
b deliver 0 0 56
b work 0 4
";

const TRACE: &str = "a domain 1 ok
b domain 1 ok
b register 01000000
a open 0 ok
b open 0 ok
b recv 0 ok
a write 0 ok
a send 0 ok
a emit 0 frame 0 0016c140010000000000000000001000112233445566778800000000
a emit 0 frame 28 00144143000000000000000000000001000000006869000000000000
b deliver 0 kept
b work 0 placed write 01000000 4096 1122334455667788
b work 0 passed
b work 0 buffered 1 0 2
b work 0 received 6869 plain -
";

/// The most octets of a read and of a write.
const READ: usize = 16;

const WRITE: usize = 32;

/// What a replay returned, how often it read and wrote, and what it wrote.
#[derive(Drop)]
struct Ended {
    answer: Result<Status, ReplayFault>,
    reads: u64,
    writes: u64,
    written: Vec<u8>,
}

fn replayed<R: Read + Drop>(alloc: Global, input: Halting<R>, output: Halting<Vec<u8>>) -> Ended {
    let mut input = input;
    let mut output = output;
    let answer = replay(alloc, &mut input, &mut output);
    Ended {
        answer,
        reads: input.calls(),
        writes: output.calls(),
        written: output.into_inner(),
    }
}

fn input(most: usize) -> Halting<&'static [u8]> {
    Halting::new(SCHEDULE.as_bytes(), most)
}

fn output(alloc: Global, most: usize) -> Halting<Vec<u8>> {
    Halting::new(Vec::new(alloc), most)
}

#[test]
fn a_failed_read_leaves_nothing_written(rt: HostRuntime) -> Result<(), Fail> {
    let reads = SCHEDULE.len().div_ceil(READ) as u64 + 1;
    println!(rt; "reads 1 to {reads}")?;
    for call in 1..=reads {
        let failing = input(READ).failing_at(call, ErrorKind::BrokenPipe);
        let ended = replayed(rt.alloc(), failing, output(rt.alloc(), WRITE));
        assert!(rt; ended.answer == Err(ReplayFault::Input), "at {call}");
        assert!(rt; (ended.reads, ended.writes) == (call, 0));
    }
    Ok(())
}

// The last call flushes the trace, which was written whole.
#[test]
fn a_failed_write_leaves_the_front_written(rt: HostRuntime) -> Result<(), Fail> {
    let writes = TRACE.len().div_ceil(WRITE) + 1;
    println!(rt; "writes 1 to {writes}")?;
    for call in 1..=writes {
        let failing = output(rt.alloc(), WRITE).failing_at(call as u64, ErrorKind::BrokenPipe);
        let ended = replayed(rt.alloc(), input(READ), failing);
        assert!(rt; ended.answer == Err(ReplayFault::Output), "at {call}");
        assert!(rt; ended.writes == call as u64);
        let written = TRACE.len().min(WRITE * (call - 1));
        assert!(rt; ended.written.as_slice() == &TRACE.as_bytes()[..written]);
    }
    Ok(())
}

// The same if each call moves one octet.
#[test]
fn an_interrupted_call_is_made_again(rt: HostRuntime) -> Result<(), Fail> {
    for call in 1..=TRACE.len() as u64 {
        let input = input(1).failing_at(call, ErrorKind::Interrupted);
        let output = output(rt.alloc(), 1).failing_at(call, ErrorKind::Interrupted);
        let ended = replayed(rt.alloc(), input, output);
        assert!(rt; ended.answer == Ok(Status::Completed), "at {call}");
        assert!(rt; ended.written.as_slice() == TRACE.as_bytes());
    }
    Ok(())
}

#[test]
fn what_goes_on_for_ever_is_at_fault(rt: HostRuntime) -> Result<(), Fail> {
    let endless = Halting::new(Endless::new(b'#'), 1);
    let read = replayed(rt.alloc(), endless, output(rt.alloc(), WRITE));
    assert!(rt; read.answer == Err(ReplayFault::Input));
    assert!(rt; (read.reads, read.writes) == (1_000_000, 0));
    let wrote = replayed(rt.alloc(), input(READ), output(rt.alloc(), 0));
    assert!(rt; wrote.answer == Err(ReplayFault::Output));
    assert!(rt; wrote.writes == 1);
    Ok(())
}
