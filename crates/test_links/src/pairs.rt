//! Both ends with every pair of options, and by revision 2 of MPA: cut after each octet, and failing at each call.

use crate::exchange::{WHOLE, has_received};
use crate::halts::{Halts, Outcome, asking, serving};
use crate::rows::{CRC, ENHANCED, MARKERS, PLAIN, Row};
use iw_startup::Establishment;
use std::alloc::Global;
use std::io::ErrorKind;
use std::process::Abort;
use std::test::Fail;

const TEXT: &[u8] = b"hi";

/// The most octets of a read and of a write.
const MOST: usize = 16;

// The length of the Request.
fn request_length(row: Row) -> usize {
    match row.establishment {
        Establishment::Plain => 20,
        _ => 24,
    }
}

// The length of the Reply, which names a region.
fn reply_length(row: Row) -> usize {
    match row.establishment {
        Establishment::Plain => 24,
        _ => 28,
    }
}

// The four sets of markers and CRC that an end may ask for.
const OPTIONS: [(bool, bool); 4] = [(false, false), (false, true), (true, false), (true, true)];

/// What the ends ask for, and what each of them then writes.
#[derive(Drop)]
struct Pair {
    asks: Row,
    serves: Row,
    asked: Vec<u8>,
    served: Vec<u8>,
}

fn end(options: (bool, bool), text: &'static [u8]) -> Row {
    Row {
        markers: options.0,
        crc: options.1,
        establishment: Establishment::Plain,
        text,
        asked: b"",
        served: b"",
    }
}

// What each end writes is what the other reads: the Request and the Reply first, and then all of it.
fn exchanged(alloc: Global, asks: Row, serves: Row) -> Result<Pair, Fail> {
    let request = asking(alloc, asks, &[], WHOLE)?.written;
    let reply = serving(alloc, serves, request.as_slice(), WHOLE)?.written;
    let asked = asking(alloc, asks, reply.as_slice(), WHOLE)?.written;
    let served = serving(alloc, serves, asked.as_slice(), WHOLE)?.written;
    Ok(Pair {
        asks,
        serves,
        asked,
        served,
    })
}

// What an end asks for, as letters.
fn letters(row: Row) -> &'static str {
    if row.establishment != Establishment::Plain {
        return "revision 2";
    }
    match (row.markers, row.crc) {
        (false, false) => "-",
        (false, true) => "c",
        (true, false) => "m",
        (true, true) => "mc",
    }
}

fn pairs(alloc: Global) -> Result<Vec<Pair>, Fail> {
    let mut pairs = Vec::new(alloc);
    for asks in OPTIONS {
        for serves in OPTIONS {
            pairs.push(exchanged(alloc, end(asks, TEXT), end(serves, TEXT))?)?;
        }
    }
    pairs.push(exchanged(alloc, ENHANCED, ENHANCED)?)?;
    Ok(pairs)
}

#[test]
fn worked_rows_are_among_them(rt: HostRuntime) -> Result<(), Fail> {
    for row in [MARKERS, CRC, PLAIN, ENHANCED] {
        let pair = exchanged(rt.alloc(), row, row)?;
        assert!(rt; pair.asked.as_slice() == row.asked);
        assert!(rt; pair.served.as_slice() == row.served);
    }
    Ok(())
}

fn is_broken(outcome: &Outcome) -> bool {
    outcome.report.broken && outcome.report.ended.is_none()
}

// Whether the link broke before a Send was received, and these octets were written.
fn is_cut(outcome: &Outcome, written: &[u8]) -> bool {
    is_broken(outcome) && outcome.report.received.is_none() && outcome.written.as_slice() == written
}

// How much is written after this many octets of the peer's have come.
fn written_before(came: usize, start: usize, before: usize, after: usize) -> usize {
    if came < start { before } else { after }
}

fn is_cut_everywhere(alloc: Global, pair: &Pair) -> Result<bool, Fail> {
    for count in 0..pair.asked.len() {
        let outcome = serving(alloc, pair.serves, &pair.asked[..count], WHOLE)?;
        let (request, reply) = (request_length(pair.asks), reply_length(pair.serves));
        let written = written_before(count, request, 0, reply).min(pair.served.len());
        if !is_cut(&outcome, &pair.served[..written]) {
            return Ok(false);
        }
    }
    for count in 0..pair.served.len() {
        let outcome = asking(alloc, pair.asks, &pair.served[..count], WHOLE)?;
        let (request, reply) = (request_length(pair.asks), reply_length(pair.serves));
        let written = written_before(count, reply, request, pair.asked.len()).min(pair.asked.len());
        if !is_cut(&outcome, &pair.asked[..written]) {
            return Ok(false);
        }
    }
    Ok(true)
}

// Cut after each octet but the last, of either end.
#[test]
fn each_cut_is_broken(rt: HostRuntime) -> Result<(), Fail> {
    let pairs = pairs(rt.alloc())?;
    for pair in pairs.iter() {
        assert!(rt; is_cut_everywhere(rt.alloc(), pair)?);
        let served = serving(rt.alloc(), pair.serves, pair.asked.as_slice(), WHOLE)?;
        assert!(rt; has_received(&served, TEXT, pair.served.as_slice()));
        let asked = asking(rt.alloc(), pair.asks, pair.served.as_slice(), WHOLE)?;
        assert!(rt; has_received(&asked, TEXT, pair.asked.as_slice()));
        let (asks, serves) = (letters(pair.asks), letters(pair.serves));
        let (to_serving, to_asking) = (pair.asked.len(), pair.served.len());
        println!(rt;
            "asks {asks}, serves {serves}: cut before octet 1 to {to_serving}, and before 1 to {to_asking}"
        )?;
    }
    Ok(())
}

/// One end of a pair.
#[derive(Clone, Copy, Debug)]
enum Side {
    Serving,
    Asking,
}

impl Side {
    fn run(self, alloc: Global, pair: &Pair, halts: Halts) -> Result<Outcome, Fail> {
        match self {
            Side::Serving => serving(alloc, pair.serves, pair.asked.as_slice(), halts),
            Side::Asking => asking(alloc, pair.asks, pair.served.as_slice(), halts),
        }
    }

    fn written(self, pair: &Pair) -> &[u8] {
        match self {
            Side::Serving => pair.served.as_slice(),
            Side::Asking => pair.asked.as_slice(),
        }
    }
}

fn failing(read: u64, write: u64) -> Halts {
    Halts {
        most: MOST,
        read,
        write,
        kind: ErrorKind::ConnectionReset,
    }
}

// Whether the link broke, with the front of what was to be written, and no other text was received.
fn is_front(outcome: &Outcome, written: &[u8]) -> bool {
    let is_text = match &outcome.report.received {
        Some(octets) => octets.as_slice() == TEXT,
        None => true,
    };
    is_broken(outcome) && is_text && written.starts_with(outcome.written.as_slice())
}

// Fails this read or write.
fn fails(
    rt: &impl Abort,
    alloc: Global,
    pair: &Pair,
    side: Side,
    call: (u64, u64),
) -> Result<(), Fail> {
    let outcome = side.run(alloc, pair, failing(call.0, call.1))?;
    assert!(rt;
        is_front(&outcome, side.written(pair)),
        "{side:?} at {call:?}"
    );
    Ok(())
}

// Fails each read and each write. Returns how many there were.
fn fails_each(rt: &impl Abort, alloc: Global, pair: &Pair, side: Side) -> Result<(u64, u64), Fail> {
    let whole = side.run(alloc, pair, failing(0, 0))?;
    assert!(rt; has_received(&whole, TEXT, side.written(pair)));
    for read in 1..=whole.reads {
        fails(rt, alloc, pair, side, (read, 0))?;
    }
    for write in 1..=whole.writes {
        fails(rt, alloc, pair, side, (0, write))?;
    }
    Ok((whole.reads, whole.writes))
}

#[test]
fn each_call_that_fails_breaks_the_link(rt: HostRuntime) -> Result<(), Fail> {
    let pairs = pairs(rt.alloc())?;
    for pair in pairs.iter() {
        let (asks, serves) = (letters(pair.asks), letters(pair.serves));
        let (reads, writes) = fails_each(&rt, rt.alloc(), pair, Side::Serving)?;
        println!(rt;
            "asks {asks}, serves {serves}: serving reads 1 to {reads}, writes 1 to {writes}"
        )?;
        let (reads, writes) = fails_each(&rt, rt.alloc(), pair, Side::Asking)?;
        println!(rt;
            "asks {asks}, serves {serves}: asking reads 1 to {reads}, writes 1 to {writes}"
        )?;
    }
    Ok(())
}
