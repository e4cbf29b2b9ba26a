//! Segments written out octet by octet, each judged by itself, and the Terminates that answer them.
ghost use Rattle.std.specs.Prelude.{IfOk};
ghost use Rattle.iw_rdmap.specs.Judging.{IsFront};

use iw_octets::Fault;
use iw_rdmap::{FIRST_OCTETS, Head, UntaggedOperation, early, judge, terminate};
use std::alloc::Global;
use std::test::Fail;

// What a segment is judged as, and its octets. A fault has its layer, error type and code (RFC 5040 4.8, RFC 5041 7.2).
// A segment that passes has its kind, the length of its DDP header, and whether it may be placed early.
const JUDGED: &str = "100 
100 c1400100000000000000000000
100 4143000000000000000000000001000000
114 c203010000000000000000000000
025 c100010000000000000000000000
025 c183010000000000000000000000
026 c141010000000000000000000000
026 c143010000000000000000000000
026 c148010000000000000000000000
126 420300000000000000030000000100000000
121 410300000000000000030000000100000000
025 410300000000000000000000000100000000
026 414000000000000000000000000100000000
026 414100000000000000000000000100000000
026 414700000000000000000000000100000000
026 414800000000000000000000000100000000
026 414300000000000000010000000100000000
026 414700000000000000010000000100000000
026 414300000000000000020000000100000000
026 414100000000000000020000000100000000
123 414100000000000000010000000200000001
124 014100000000000000010000000100000001
125 4141000000000000000100000001000000000100000000000000000000000000000402000000000000000000000500
125 014100000000000000010000000100000000010000000000000000000000000000040200000000000000000000
100 414100000000000000010000000100000000010000000000000000000000000000040200000000000000000000
123 414700000000000000020000000200000001
124 014700000000000000020000000100000001
125 4147000000000000000200000001000000001100000007070707070707070707070707070707070707070707070707070707070707070707070707070707070707070707070707
125 014700000000000000020000000100000000110000
100 414700000000000000020000000100000000110000
write,14,true bd70010000000000000000000000
response,14,true c142010000000000000000000000
send,18,true 414301000500000000000000010100000001
send,18,true 414401000500000000000000010100000001
send,18,true 414501000500000000000000010100000001
send,18,true 414601000500000000000000010100000001
request,18,false 41410000000000000001000000010000000001000000000000000000000000000004020000000000000000000005
terminate,18,false 41470000000000000002000000010000000011000000070707070707070707070707070707070707070707070707070707070707070707070707070707070707070707070707";

// The payload of a Terminate, which begins with the fault, and the segment that has the fault.
const TERMINATES: &str =
    "0100e000002e41410000000000000001000000010000000001000000000000000000006400000004010000000000000000000000 41410000000000000001000000010000000001000000000000000000006400000004010000000000000000000000
0100c0000012414401000500000000000000000100000000 414401000500000000000000000100000000
1202c000002e414100000000000000010000000100000000 41410000000000000001000000010000000001000000000000000000006400000004010000000000000000000000
1100c0000012c140010000000000000000000004 c14001000000000000000000000400000000
1204c0000013454300000000000000000000000100000001 454300000000000000000000000100000001aa";

fn kind_of(head: &Head) -> &'static str {
    match head {
        Head::Write(_) => "write",
        Head::Response(_) => "response",
        Head::Send(_) => "send",
        Head::Request(..) => "request",
        Head::Terminate(..) => "terminate",
    }
}

fn told(alloc: Global, judged: Result<Head, Fault>) -> Result<String, Fail> {
    let text = match judged {
        Ok(head) => format!(in alloc; "{},{},{}", kind_of(&head), head.header_len(), early(&head))?,
        Err(Fault { layer, kind, code }) => format!(in alloc; "{layer}{kind}{code}")?,
    };
    Ok(text)
}

// The first octets of a ULPDU, and its length.
fn front_of(octets: &[u8]) -> Result<(&[u8], u16), Fail>
    ensures { IfOk result (λ front. IsFront FIRST_OCTETS front.0.now front.1) }
{
    let Ok(len) = u16::try_from(octets.len()) else {
        return Err("too long".into());
    };
    Ok((&octets[..octets.len().min(FIRST_OCTETS)], len))
}

// The Terminate that answers a segment that passes here and is later found to have this fault.
fn answered(alloc: Global, octets: &[u8], fault: Fault) -> Result<String, Fail> {
    let (first, len) = front_of(octets)?;
    let Ok(head) = judge(first, len, 1, 0) else {
        return Err("a fault of the header".into());
    };
    if fault.layer >= 16 || fault.kind >= 16 {
        return Err("no fault".into());
    }
    let payload = terminate(fault, first, len, head.is_request());
    Ok(hex::encode(alloc, payload.as_slice())?)
}

#[test]
fn segments_are_judged(rt: HostRuntime) -> Result<(), Fail> {
    for line in JUDGED.lines() {
        let (outcome, digits) = line.split_once(' ').expect(&rt, "octets");
        let octets = hex::decode(rt.alloc(), digits)?;
        let (first, len) = front_of(&octets)?;
        assert_eq!(rt;
            told(rt.alloc(), judge(first, len, 1, 15))?.as_str(),
            outcome,
            "{line}"
        );
    }
    Ok(())
}

#[test]
fn sixteen_requests_wait_at_most(rt: HostRuntime) -> Result<(), Fail> {
    let octets = hex::decode(rt.alloc(), "414100000000000000010000000100000000")?;
    let (first, len) = front_of(&octets)?;
    assert!(rt; judge(first, len, 1, 16) == Err(Fault::UNTAGGED_NO_BUFFER));
    Ok(())
}

// An operation has its own octet and its queue.
#[test]
fn operations_have_queues(rt: HostRuntime) {
    for (control, queue) in [
        (0x41, 1),
        (0x43, 0),
        (0x44, 0),
        (0x45, 0),
        (0x46, 0),
        (0x47, 2),
    ] {
        let operation = UntaggedOperation::of(control).expect(&rt, "an opcode");
        assert!(rt; (operation.control(), operation.queue()) == (control, queue));
    }
}

#[test]
fn terminates_carry_their_cause(rt: HostRuntime) -> Result<(), Fail> {
    for line in TERMINATES.lines() {
        let (payload, digits) = line.split_once(' ').expect(&rt, "a segment");
        let word = hex::decode(rt.alloc(), payload)?;
        assert!(rt; word.len() > 1);
        let fault = Fault {
            layer: word[0] >> 4,
            kind: word[0] & 0xf,
            code: word[1],
        };
        let octets = hex::decode(rt.alloc(), digits)?;
        assert_eq!(rt; answered(rt.alloc(), &octets, fault)?.as_str(), payload);
    }
    Ok(())
}

// The Terminate of an MPA fault, and of a segment too short for its header, has no header.
#[test]
fn terminates_come_alone(rt: HostRuntime) {
    let marker = terminate(Fault::MARKER_MISMATCH, &[], 600, false);
    assert!(rt; marker.as_slice() == [0x20, 3, 0, 0].as_slice());
    let short = terminate(Fault::SEGMENT_SHORT, &[0xc1], 1, false);
    assert!(rt; short.as_slice() == [0x10, 0, 0, 0].as_slice());
}
