//! Servers of many connections at once.

use crate::crowd::{Crowd, Idling};
use crate::peer::Asks;
use iw_server::{Tally, Terms, serve};
use std::alloc::Global;
use std::io::{self, ErrorKind, Write};
use std::process::Abort;
use std::test::Fail;

const PLAIN: Asks = Asks {
    markers: false,
    crc: false,
};

const BOTH: Asks = Asks {
    markers: true,
    crc: true,
};

// So many seconds are never over.
const EVER: u64 = 1_000_000;

fn terms(start: u64, stall: u64) -> Terms {
    Terms {
        markers: false,
        crc: false,
        enhanced: false,
        most: 64,
        start,
        stall,
        quiet: false,
    }
}

// Serves a crowd. Returns how many connections there were, and how many lines were printed.
fn served(alloc: Global, crowd: &mut Crowd, terms: Terms) -> Result<(Tally, usize), Fail> {
    let mut text = Vec::new(alloc);
    let count = u64::from(crowd.count);
    match serve(alloc, terms, count, crowd, &mut text) {
        Ok(tally) => Ok((tally, text.iter().filter(|octet| **octet == b'\n').count())),
        Err(_) => Err("not served".into()),
    }
}

// All are served at once: none asks before all have come. Each gets its own text back.
fn check_all<R: Abort + AllocGlobal>(
    rt: &R,
    asks: Asks,
    most: usize,
    count: u32,
    domains: u8,
) -> Result<(), Fail> {
    let mut crowd = Crowd::new(rt.alloc(), asks, most, count);
    let (tally, lines) = served(rt.alloc(), &mut crowd, terms(EVER, EVER))?;
    assert!(rt; tally.begun == u64::from(count));
    assert!(rt; tally.failed == 0);
    assert!(rt; crowd.answered == count);
    assert!(rt; crowd.wronged == 0);
    assert!(rt; crowd.domains == domains);
    assert!(rt; lines == count as usize);
    Ok(())
}

#[test]
fn ten_thousand_at_once(rt: HostRuntime) -> Result<(), Fail> {
    check_all(&rt, PLAIN, 64, 10_000, 10)
}

#[test]
fn few_octets_at_a_time(rt: HostRuntime) -> Result<(), Fail> {
    check_all(&rt, BOTH, 3, 100, 1)
}

// Has peers that ask for nothing. Returns how many still had their connection in second 200.
fn outlasting<R: Abort + AllocGlobal>(
    rt: &R,
    idling: Idling,
    most: usize,
    terms: Terms,
) -> Result<u32, Fail> {
    let mut crowd = Crowd::new(rt.alloc(), PLAIN, most, 20);
    crowd.is_silent = true;
    crowd.idling = idling;
    let (tally, lines) = served(rt.alloc(), &mut crowd, terms)?;
    assert!(rt; tally.begun == 20);
    assert!(rt; tally.failed == 20);
    assert!(rt; lines == 0);
    Ok(crowd.outlasted)
}

// Each is dropped once nothing of use went on it for longer than it may.
#[test]
fn useless_peers_are_dropped(rt: HostRuntime) -> Result<(), Fail> {
    assert!(rt; outlasting(&rt, Idling::Silent, 512, terms(EVER, 60))? == 0);
    assert!(rt; outlasting(&rt, Idling::WritesNothing, 512, terms(EVER, 60))? == 0);
    assert!(rt; outlasting(&rt, Idling::WritesOctet, 512, terms(EVER, 60))? == 20);
    Ok(())
}

// A Request that comes an octet at a time renews nothing.
#[test]
fn slow_starts_are_dropped(rt: HostRuntime) -> Result<(), Fail> {
    assert!(rt; outlasting(&rt, Idling::Silent, 1, terms(10, EVER))? == 0);
    assert!(rt; outlasting(&rt, Idling::Silent, 1, terms(EVER, EVER))? == 20);
    Ok(())
}

// Where no descriptor is left, those that have waited longest for their stream to open give way, and the others are served.
#[test]
fn mute_peers_give_way(rt: HostRuntime) -> Result<(), Fail> {
    let mut crowd = Crowd::new(rt.alloc(), PLAIN, 64, 60);
    crowd.mute = 30;
    crowd.shortages = 30;
    let (tally, lines) = served(rt.alloc(), &mut crowd, terms(EVER, EVER))?;
    assert!(rt; tally.begun == 60);
    assert!(rt; tally.failed == 30);
    assert!(rt; crowd.answered == 30);
    assert!(rt; lines == 30);
    Ok(())
}

/// An output that takes nothing at first, and waits so often.
#[derive(Drop)]
struct Clogged {
    text: Vec<u8>,
    refusals: u32,
    waits: u32,
}

impl Write for Clogged {
    fn write(&mut self, buf: &[u8]) -> io::Result<usize> {
        if self.refusals > 0 {
            self.refusals = self.refusals.saturating_sub(1);
            return Err(io::Error::from(ErrorKind::WouldBlock));
        }
        self.text.write(buf)
    }

    fn flush(&mut self) -> io::Result<()> {
        if self.waits == 0 {
            return Err(io::Error::from(ErrorKind::TimedOut));
        }
        self.waits = self.waits.saturating_sub(1);
        Ok(())
    }
}

// How many lines these tell of: each of one, or of those that were dropped.
fn count_told(text: &str) -> usize {
    let mut told = 0usize;
    for line in text.lines() {
        let dropped = match line.strip_suffix(" lines dropped") {
            Some(number) => number.parse().unwrap_or(0),
            None => 1,
        };
        told = told.saturating_add(dropped);
    }
    told
}

// Serves 1,500 peers. Returns how many lines the output does not take, and how many it tells of.
fn count_clogged<R: Abort + AllocGlobal>(
    rt: &R,
    refusals: u32,
    waits: u32,
) -> Result<(u64, usize), Fail> {
    let mut crowd = Crowd::new(rt.alloc(), PLAIN, 64, 1_500);
    let text = Vec::new(rt.alloc());
    let mut output = Clogged {
        text,
        refusals,
        waits,
    };
    let terms = terms(EVER, EVER);
    let Ok(tally) = serve(rt.alloc(), terms, 1_500, &mut crowd, &mut output) else {
        return Err("not served".into());
    };
    assert!(rt; tally.failed == 0);
    assert!(rt; crowd.answered == 1_500);
    let text = str::from_utf8(output.text.as_slice())?;
    assert!(rt; tally.unprinted > 0 || text.contains(" lines dropped"));
    Ok((tally.unprinted, count_told(text)))
}

// An output that takes nothing holds up nobody, and each line is printed or counted: also at the end, where it is waited for.
#[test]
fn lines_are_dropped_and_counted(rt: HostRuntime) -> Result<(), Fail> {
    assert!(rt; count_clogged(&rt, 2_000, 0)? == (0, 1_500));
    assert!(rt; count_clogged(&rt, 100_000, 500)? == (1_500, 0));
    Ok(())
}

// Those whose socket fails are over, and all others are served.
#[test]
fn failed_sockets_end_alone(rt: HostRuntime) -> Result<(), Fail> {
    let mut crowd = Crowd::new(rt.alloc(), BOTH, 64, 90);
    crowd.has_broken = true;
    let (tally, lines) = served(rt.alloc(), &mut crowd, terms(EVER, EVER))?;
    assert!(rt; tally.begun == 90);
    assert!(rt; tally.failed == 30);
    assert!(rt; crowd.answered == 60);
    assert!(rt; crowd.wronged == 0);
    assert!(rt; lines == 60);
    Ok(())
}
