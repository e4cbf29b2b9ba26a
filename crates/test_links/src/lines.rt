//! Each kind of line, and the command's status.

use crate::peers::Script;
use iw_commands::{Options, Request, connect_all, listen_all};
use iw_output::Status;
use std::alloc::Global;
use std::test::Fail;

// A whole call; the same without its last octet; a connection that cannot be made; a Request with the key of a Reply; a
// Write past the end of the region; a Terminate; a whole call again; a Send whose octets end one past the receive
// buffer; one whose octets end where the buffer does, before its first octets came; and two Sends.
const CALLERS: &str = "\
    4d504120494420526571204672616d65000100000010c1400100000000000000000000006869000000000000001441430000\
    00000000000000000001000000006869000000000000\n\
    4d504120494420526571204672616d65000100000010c1400100000000000000000000006869000000000000001441430000\
    000000000000000000010000000068690000000000\n\
    -\n\
    4d504120494420526570204672616d6500010000\n\
    4d504120494420526571204672616d65000100000010c1400100000000000000000100006869000000000000\n\
    4d504120494420526571204672616d6500010000001641470000000000000002000000010000000011000000000000000000\n\
    4d504120494420526571204672616d65000100000010c1400100000000000000000000006869000000000000001441430000\
    00000000000000000001000000006869000000000000\n\
    4d504120494420526571204672616d65000100000014414300000000000000000000000100000fff6869000000000000\n\
    4d504120494420526571204672616d65000100000014414300000000000000000000000100000ffe6869000000000000\n\
    4d504120494420526571204672616d6500010000001441430000000000000000000000010000000068690000000000000014\
    4143000000000000000000000002000000006869000000000000\n";

const SERVED: &str = "stream 0 received 6869
stream 1 broken
stream 2 broken
stream 3 closed 1 BadKey
stream 4 fault 1 1 1
stream 5 terminated 1 1 0
stream 6 received 6869
stream 7 fault 1 2 5
stream 8 fault 1 2 4
stream 9 received 6869
stream 9 fault 1 2 2
";

// A whole answer; a Reply that names no region; one that rejects; a whole answer again, with CRCs; and Sends as above.
const REPLIERS: &str = "\
    4d504120494420526570204672616d6500010004010000000014414300000000000000000000000100000000686900000000\
    0000\n\
    4d504120494420526570204672616d6500010000\n\
    4d504120494420526570204672616d6520010000\n\
    4d504120494420526570204672616d6540010004010000000016414300000000000000000000000100000000616263647164\
    4d92\n\
    4d504120494420526570204672616d6500010004010000000014414300000000000000000000000100000fff686900000000\
    0000\n\
    4d504120494420526570204672616d6500010004010000000014414300000000000000000000000100000ffe686900000000\
    0000\n\
    4d504120494420526570204672616d6500010004010000000014414300000000000000000000000100000000686900000000\
    000000144143000000000000000000000002000000006869000000000000\n";

const ASKED: &str = "stream 0 received 6869
stream 1 broken
stream 2 closed 4 Rejected
stream 3 received 61626364
stream 4 fault 1 2 5
stream 5 fault 1 2 4
stream 6 received 6869
stream 6 fault 1 2 2
";

// By revision 2: an enhanced Request, and the messages; an enhanced Request of two octets of private data, which have no
// room for the word; and by revision 1.
const ENHANCED_CALLERS: &str = "\
    4d504120494420526571204672616d6510020004001000100010c14001000000000000000000000068690000000000000014\
    414300000000000000000000000100000000686900000000\
    0000\n\
    4d504120494420526571204672616d65100200020000\n\
    4d504120494420526571204672616d65000100000010c1400100000000000000000000006869000000000000001441430000\
    00000000000000000001000000006869000000000000\n";

const ENHANCED_SERVED: &str = "stream 0 received 6869
stream 1 closed 3 BadLength
stream 2 received 6869
";

// By revision 2: an enhanced Reply, and the answer; a Reply of revision 1; one that rejects; and one whose ORD is over
// this end's IRD.
const ENHANCED_REPLIERS: &str = "\
    4d504120494420526570204672616d651002000800100010010000000014414300000000000000000000000100000000\
    6869000000000000\n\
    4d504120494420526570204672616d6500010004010000000014414300000000000000000000000100000000686900000000\
    0000\n\
    4d504120494420526570204672616d653002000400100010\n\
    4d504120494420526570204672616d65100200080010001101000000\n";

const ENHANCED_ASKED: &str = "stream 0 received 6869
stream 1 closed 2 BadRev
stream 2 closed 4 Rejected
stream 3 fault 2 0 6
";

const PLAIN: Options = Options {
    markers: false,
    crc: false,
    enhanced: false,
};

const ENHANCED: Options = Options {
    markers: false,
    crc: false,
    enhanced: true,
};

// Serves these callers. Returns the status.
fn serve(
    alloc: Global,
    callers: &str,
    options: Options,
    count: u8,
    print: &mut Vec<u8>,
) -> Option<Status> {
    listen_all(
        alloc,
        &mut Script::new(alloc, callers),
        options,
        count,
        print,
    )
    .ok()
}

// Asks these repliers. Returns the status.
fn ask(
    alloc: Global,
    repliers: &str,
    options: Options,
    count: u8,
    print: &mut Vec<u8>,
) -> Option<Status> {
    let request = Request {
        text: "hi",
        count,
        options,
    };
    connect_all(alloc, &mut Script::new(alloc, repliers), &request, print).ok()
}

#[test]
fn what_became_of_each_caller_is_printed(rt: HostRuntime) -> Result<(), Fail> {
    let mut print = Vec::new(rt.alloc());
    let status = serve(rt.alloc(), CALLERS, PLAIN, 10, &mut print);
    assert_eq!(rt; str::from_utf8(print.as_slice()), Ok(SERVED));
    assert!(rt; status == Some(Status::Failed));
    Ok(())
}

#[test]
fn what_became_of_each_request_is_printed(rt: HostRuntime) -> Result<(), Fail> {
    let mut print = Vec::new(rt.alloc());
    let status = ask(rt.alloc(), REPLIERS, PLAIN, 7, &mut print);
    assert_eq!(rt; str::from_utf8(print.as_slice()), Ok(ASKED));
    assert!(rt; status == Some(Status::Failed));
    Ok(())
}

#[test]
fn callers_by_both_revisions_are_served(rt: HostRuntime) -> Result<(), Fail> {
    let mut print = Vec::new(rt.alloc());
    let status = serve(rt.alloc(), ENHANCED_CALLERS, ENHANCED, 3, &mut print);
    assert_eq!(rt; str::from_utf8(print.as_slice()), Ok(ENHANCED_SERVED));
    assert!(rt; status == Some(Status::Failed));
    Ok(())
}

#[test]
fn replies_by_revision_2_are_taken_alone(rt: HostRuntime) -> Result<(), Fail> {
    let mut print = Vec::new(rt.alloc());
    let status = ask(rt.alloc(), ENHANCED_REPLIERS, ENHANCED, 4, &mut print);
    assert_eq!(rt; str::from_utf8(print.as_slice()), Ok(ENHANCED_ASKED));
    assert!(rt; status == Some(Status::Failed));
    Ok(())
}

// A listener without the option takes revision 1 alone.
#[test]
fn revision_2_is_closed_without_the_option(rt: HostRuntime) -> Result<(), Fail> {
    let mut print = Vec::new(rt.alloc());
    let status = serve(rt.alloc(), ENHANCED_CALLERS, PLAIN, 1, &mut print);
    let told = str::from_utf8(print.as_slice());
    assert_eq!(rt; told, Ok("stream 0 closed 2 BadRev\n"));
    assert!(rt; status == Some(Status::Failed));
    Ok(())
}
