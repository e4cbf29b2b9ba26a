//! The worked start-up: one end asks for markers, the other for CRCs and with private data. Then enhanced frames, as others
//! send them, and hostile ones.
ghost use Rattle.std.specs.Prelude.{◌≡◌, []};

use iw_startup::{
    Agreed, Config, EnhancedData, Establishment, Mismatch, PrivateData, Progress, Rtr, Startup,
    StartupFault,
};
use std::alloc::{AllocError, Global};
use std::test::Fail;

const REQUEST: &[u8; 20] = b"MPA ID Req Frame\x80\x01\x00\x00";

const REPLY: &[u8; 22] = b"MPA ID Rep Frame\x40\x01\x00\x02hi";

const REQUEST_KEY: &str = "4d504120494420526571204672616d65";

const REPLY_KEY: &str = "4d504120494420526570204672616d65";

// What Requests come to at a responder that has the option, and the octets behind the key: how many octets of the frame were
// used, how far it has come, the word, and what is agreed if the user accepts.
const ASKED: &str = "24 Asked 4,4, 4 | 1002000400040004
24 Asked 0,0, 0 | 1002000400000000
24 Asked 16383,16383, 16 | 100200043fff3fff
24 Asked 4,4,A 4 | 1002000480040004
24 Asked 4,4,AB 4 | 10020004c0040004
24 Asked 4,4,ABCD 4 | 10020004c004c00421
22 Asked - 16 | 100100026869
22 Asked - 16 | 000200026869
23 More - - | 10020004000400
20 BadLength - - | 1002000000040004
20 BadLength - - | 1002000300040004
20 BadLength - - | 1002020100040004
20 BadRev - - | 1003000300040004
20 BadRev - - | 1000000400040004";

// The same of Replies at an initiator in the peer-to-peer model. It has agreed on the ORD and an RTR, or lacks something.
const ANSWERED: &str = "28 Agreed 4,4,AC 4Write | 1002000880048004933ca300
24 Agreed 4,4,AD 4Read | 1002000480044004
24 Agreed 0,4,AC 0Write | 1002000480008004
24 Agreed 0,4,AD NoMatchingRtr | 1002000480004004
24 Agreed 4,4,A NoMatchingRtr | 1002000480040004
24 Agreed 4,4,AB NoMatchingRtr | 10020004c0040004
24 Agreed 4,4,CD NoMatchingRtr | 100200040004c004
24 Agreed 4,16,AC 4Write | 1002000480048010
24 Agreed 4,16383,AC 4Write | 100200048004bfff
24 Agreed 4,17,AC InsufficientIrd | 1002000480048011
24 Agreed 4,17, InsufficientIrd | 1002000400040011
24 Rejected 4,17, - | 3002000400040011
20 BadRev - - | 30010201
20 BadRev - - | 20020201
20 BadLength - - | 3002000300040004";

// A Request's octets behind the key, and the Reply's of a user that accepts and of one that rejects.
const ANSWERS: &str = "10010000 00010000 20010000
00020000 00020000 20020000
1002000400040004 1002000400100004 3002000400100010
1002000400000080 1002000400100000 3002000400100010
100200043fff3fff 100200043fff3fff 300200043fff3fff
1002000480204020 1002000480104010 3002000480104010
1002000480208020 1002000480108010 3002000480108010
100200048020c020 100200048010c010 300200048010c010
10020004c0200020 1002000480108010 3002000480108010";

fn config(markers: bool, crc: bool, establishment: Establishment) -> Config
    ensures { result.private.items ≡ [] }
{
    Config {
        markers,
        crc,
        establishment,
        private: PrivateData::new(),
    }
}

fn asking() -> Startup {
    Startup::initiator(config(true, false, Establishment::Plain))
}

fn answering() -> Startup {
    Startup::responder(config(false, true, Establishment::Plain))
}

// The end that receives a frame with this key, with the option.
fn end_for(key: &str) -> Startup {
    if key == REPLY_KEY {
        return Startup::initiator(config(false, false, Establishment::PeerToPeer));
    }
    Startup::responder(config(false, false, Establishment::Enhanced))
}

#[test]
fn an_accepted_request(rt: HostRuntime) -> Result<(), Fail> {
    let mut asking = asking();
    let mut answering = answering();
    assert!(rt; asking.frame().as_slice() == REQUEST.as_slice());
    assert!(rt; answering.push(REQUEST) == (20, Progress::Asked));
    let agreed = Agreed {
        send_markers: true,
        expect_markers: false,
        crc: true,
        ord: 16,
        rtr: None,
    };
    let private = PrivateData::try_from("hi".as_bytes())?;
    assert!(rt; answering.accept(private) == Ok(agreed));
    assert!(rt; answering.frame().as_slice() == REPLY.as_slice());
    let (front, back) = REPLY.split_at(19);
    assert!(rt; asking.push(front) == (19, Progress::More));
    assert!(rt; asking.push(back) == (3, Progress::Agreed));
    assert!(rt; asking.private() == "hi".as_bytes());
    Ok(())
}

#[test]
fn faults_in_their_order(rt: HostRuntime) {
    let rows = [
        ("MPA ID Req Frame\0\x02\x02\x01", StartupFault::BadRev),
        ("MPA ID Req Frame\0\x01\x02\x01", StartupFault::BadLength),
        ("MPA ID Rep Frame\0\x02\x02\x01", StartupFault::BadKey),
    ];
    for (frame, fault) in rows {
        let told = Progress::Faulted(fault);
        assert!(rt; answering().push(frame.as_bytes()) == (20, told), "{frame}");
    }
    let rejection = "MPA ID Rep Frame\x60\x01\0\0".as_bytes();
    let told = Progress::Faulted(StartupFault::Rejected);
    assert!(rt; asking().push(rejection) == (20, told));
}

fn name_of(progress: Progress) -> &'static str {
    match progress {
        Progress::More => "More",
        Progress::Asked => "Asked",
        Progress::Agreed => "Agreed",
        Progress::Faulted(StartupFault::BadKey) => "BadKey",
        Progress::Faulted(StartupFault::BadRev) => "BadRev",
        Progress::Faulted(StartupFault::BadLength) => "BadLength",
        Progress::Faulted(StartupFault::Rejected) => "Rejected",
    }
}

fn letter(letter: &'static str, is_set: bool) -> &'static str {
    if is_set { letter } else { "" }
}

fn word_of(alloc: Global, told: Option<EnhancedData>) -> Result<String, AllocError> {
    let Some(told) = told else {
        return format!(in alloc; "-");
    };
    let model = letter("A", told.peer_to_peer);
    let send = letter("B", told.rtr_send);
    let write = letter("C", told.rtr_write);
    let read = letter("D", told.rtr_read);
    format!(in alloc; "{},{},{model}{send}{write}{read}", told.ird, told.ord)
}

fn rtr_of(agreed: Agreed) -> &'static str {
    match agreed.rtr {
        None => "",
        Some(Rtr::Write) => "Write",
        Some(Rtr::Read) => "Read",
    }
}

// What is agreed, or what an initiator lacks.
fn agreed_of(alloc: Global, startup: &mut Startup) -> Result<String, AllocError> {
    match startup.mismatch() {
        Some(Mismatch::InsufficientIrd) => return format!(in alloc; "InsufficientIrd"),
        Some(Mismatch::NoMatchingRtr) => return format!(in alloc; "NoMatchingRtr"),
        None => {}
    }
    let _ = startup.accept(PrivateData::new());
    match startup.agreed() {
        Some(agreed) => format!(in alloc; "{}{}", agreed.ord, rtr_of(agreed)),
        None => format!(in alloc; "-"),
    }
}

// What the peer's octets came to that came in two pieces.
fn outcome_of(
    alloc: Global,
    startup: &mut Startup,
    front: &[u8],
    back: &[u8],
) -> Result<String, AllocError> {
    let (first, _) = startup.push(front);
    let (second, progress) = startup.push(back);
    let used = first.saturating_add(second);
    let word = word_of(alloc, startup.told())?;
    let agreed = agreed_of(alloc, startup)?;
    format!(in alloc; "{used} {} {word} {agreed}", name_of(progress))
}

// What a frame comes to at an end that has the option, in two pieces.
fn outcome_at(alloc: Global, key: &str, frame: &[u8], cut: usize) -> Result<String, AllocError> {
    let (front, back) = frame.split_at(cut.min(frame.len()));
    let mut startup = end_for(key);
    outcome_of(alloc, &mut startup, front, back)
}

fn frame_of(alloc: Global, key: &str, digits: &str) -> Result<Vec<u8>, Fail> {
    let digits = format!(in alloc; "{key}{digits}")?;
    Ok(hex::decode(alloc, &digits)?)
}

// The row's outcome is that of its frame, wherever the frame is cut in two.
fn is_told(alloc: Global, key: &str, row: &str) -> Result<bool, Fail> {
    let (outcome, digits) = row.split_once(" | ").ok_or("an outcome and a frame")?;
    let frame = frame_of(alloc, key, digits)?;
    for cut in 0..frame.len() {
        let told = outcome_at(alloc, key, &frame, cut)?;
        if told.as_str() != outcome {
            return Ok(false);
        }
    }
    Ok(true)
}

#[test]
fn enhanced_requests(rt: HostRuntime) -> Result<(), Fail> {
    for row in ASKED.lines() {
        assert!(rt; is_told(rt.alloc(), REQUEST_KEY, row)?, "{row}");
    }
    Ok(())
}

#[test]
fn enhanced_replies(rt: HostRuntime) -> Result<(), Fail> {
    for row in ANSWERED.lines() {
        assert!(rt; is_told(rt.alloc(), REPLY_KEY, row)?, "{row}");
    }
    Ok(())
}

// The Reply to a Request.
fn reply_to(startup: &mut Startup, request: &[u8], accepts: bool) {
    let _ = startup.push(request);
    if accepts {
        let _ = startup.accept(PrivateData::new());
    } else {
        let _ = startup.reject(PrivateData::new());
    }
}

fn reply_digits(alloc: Global, request: &[u8], accepts: bool) -> Result<String, AllocError> {
    let mut startup = end_for(REQUEST_KEY);
    reply_to(&mut startup, request, accepts);
    let frame = startup.frame();
    hex::encode(alloc, frame.as_slice())
}

#[test]
fn replies_in_kind(rt: HostRuntime) -> Result<(), Fail> {
    for row in ANSWERS.lines() {
        let (request, replies) = row.split_once(' ').ok_or("a Request")?;
        let (accepting, rejecting) = replies.split_once(' ').ok_or("two Replies")?;
        let request = frame_of(rt.alloc(), REQUEST_KEY, request)?;
        let accepted = reply_digits(rt.alloc(), &request, true)?;
        assert!(rt; accepted.strip_prefix(REPLY_KEY) == Some(accepting));
        let rejected = reply_digits(rt.alloc(), &request, false)?;
        assert!(rt; rejected.strip_prefix(REPLY_KEY) == Some(rejecting));
    }
    Ok(())
}

// The Requests of each initiator.
#[test]
fn requests_by_the_option(rt: HostRuntime) {
    let enhanced = Startup::initiator(config(false, false, Establishment::Enhanced));
    let peer_to_peer = Startup::initiator(config(false, false, Establishment::PeerToPeer));
    assert!(rt;
        enhanced.frame().as_slice() == b"MPA ID Req Frame\x10\x02\0\x04\0\x10\0\x10".as_slice()
    );
    assert!(rt;
        peer_to_peer.frame().as_slice()
            == b"MPA ID Req Frame\x10\x02\0\x04\x80\x10\xc0\x10".as_slice()
    );
    assert!(rt; peer_to_peer.frame_len() == 24);
}

// Without the option revision 2 is refused, and S in revision 1 is not looked at.
#[test]
fn revision_1_alone(rt: HostRuntime) -> Result<(), Fail> {
    let revision_2 = frame_of(rt.alloc(), REQUEST_KEY, "1002000400040004")?;
    let fault = Progress::Faulted(StartupFault::BadRev);
    assert!(rt; answering().push(&revision_2) == (20, fault));
    let reply = frame_of(rt.alloc(), REPLY_KEY, "1002000400040004")?;
    assert!(rt; asking().push(&reply) == (20, fault));
    let flagged = frame_of(rt.alloc(), REQUEST_KEY, "10010000")?;
    assert!(rt; answering().push(&flagged) == (20, Progress::Asked));
    Ok(())
}
