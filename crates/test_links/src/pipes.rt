//! What another process prints: its port, and lines that never end, or end with a failed read.

use crate::peers::Script;
use iw_commands::{CommandFault, Options, Request, Talked, drain, read_port, talk};
use iw_links::Counted;
use iw_output::Status;
use std::alloc::Global;
use std::io::{Cursor, ErrorKind};
use std::process::Abort;
use std::test::Fail;
use test_support::{Endless, Halting};

fn reads_port(rt: &impl Abort, alloc: Global, text: &str, port: Option<u16>) {
    let mut pipe = Counted::new(Halting::new(text.as_bytes(), 2));
    let found = read_port(alloc, &mut pipe);
    assert!(rt; found == port.ok_or(CommandFault::Program), "in {text:?}");
}

#[test]
fn port_lines_are_told_from_others(rt: HostRuntime) -> Result<(), Fail> {
    for (text, port) in [
        ("port 1\n", Some(1)),
        ("port 65535\nmore", Some(65_535)),
        ("port 65536\n", None),
        ("port 01\n", None),
        ("port +1\n", None),
        ("port 1", None),
        ("port 1 \n", None),
        ("port  1\n", None),
        ("a longer line\n", None),
        ("", None),
    ] {
        reads_port(&rt, rt.alloc(), text, port);
    }
    Ok(())
}

// Reads a port line, octet by octet; the read with this number fails with this error.
fn port_read(alloc: Global, call: u64, kind: ErrorKind) -> (Result<u16, CommandFault>, u32) {
    let line = Halting::new("port 4420\n".as_bytes(), 2);
    let mut pipe = Counted::new(line.failing_at(call, kind));
    (read_port(alloc, &mut pipe), pipe.reads)
}

#[test]
fn a_port_line_that_fails_is_none(rt: HostRuntime) -> Result<(), Fail> {
    for call in 1..=10u64 {
        let (port, reads) = port_read(rt.alloc(), call, ErrorKind::BrokenPipe);
        assert!(rt; port == Err(CommandFault::Program), "at read {call}");
        assert!(rt; reads as u64 == call);
        let (port, _) = port_read(rt.alloc(), call, ErrorKind::Interrupted);
        assert!(rt; port == Ok(4_420), "at read {call}");
    }
    assert!(rt; port_read(rt.alloc(), 11, ErrorKind::BrokenPipe).0 == Ok(4_420));
    Ok(())
}

#[test]
fn octets_without_end_are_no_port(rt: HostRuntime) -> Result<(), Fail> {
    let mut pipe = Counted::new(Endless::new(b'p'));
    assert!(rt; read_port(rt.alloc(), &mut pipe) == Err(CommandFault::Program));
    assert!(rt; pipe.reads == 11);
    Ok(())
}

#[test]
fn a_pipe_without_end_is_read_a_million_times(rt: HostRuntime) -> Result<(), Fail> {
    let mut pipe = Counted::new(Endless::new(b'p'));
    let mut buffer = [0; 1];
    assert!(rt; !drain(&mut pipe, &mut buffer));
    assert!(rt; pipe.reads == 1_000_000);
    Ok(())
}

const REQUEST: Request<'_> = Request {
    text: "hi",
    count: 2,
    options: Options {
        markers: false,
        crc: false,
        enhanced: false,
    },
};

// Two requests to a process that prints into a pipe; the read of it with this number fails.
fn talked(alloc: Global, peers: &str, call: u64) -> Option<Talked> {
    let pipe = Halting::new(Cursor::new("some lines".as_bytes()), 3);
    let mut pipe = Counted::new(pipe.failing_at(call, ErrorKind::BrokenPipe));
    let mut buffer = [0; 64];
    let mut print = Vec::new(alloc);
    let mut peers = Script::new(alloc, peers);
    talk(
        alloc,
        &mut peers,
        &mut pipe,
        &REQUEST,
        &mut buffer,
        &mut print,
    )
    .ok()
}

const REPLIERS: &str = "\
    4d504120494420526570204672616d6500010004010000000014414300000000000000000000000100000000686900000000\
    0000\n\
    4d504120494420526570204672616d6500010004010000000014414300000000000000000000000100000000686900000000\
    0000\n";

#[test]
fn a_pipe_that_fails_is_told(rt: HostRuntime) -> Result<(), Fail> {
    for (call, is_whole) in [(1, false), (2, false), (3, true)] {
        let status = Status::Completed;
        let talked = talked(rt.alloc(), REPLIERS, call);
        assert!(rt;
            talked == Some(Talked { status, is_whole }),
            "at read {call}"
        );
    }
    Ok(())
}

#[test]
fn a_process_that_is_not_met_is_told(rt: HostRuntime) -> Result<(), Fail> {
    let talked = talked(rt.alloc(), "-\n", 3);
    let status = Status::Failed;
    assert!(rt;
        talked
            == Some(Talked {
                status,
                is_whole: false
            })
    );
    Ok(())
}
