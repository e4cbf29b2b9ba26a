use crate::halts::{Halts, Outcome, add_count, add_line, asking, serving};
use crate::rows::{CRC, EMPTY, ENHANCED, MARKERS, PLAIN, Row, WRITTEN};
use iw_links::{Counted, Ended, MOST_READS, Report, Terms, listener, serve};
use iw_startup::StartupFault;
use std::alloc::Global;
use std::io::{ErrorKind, Read};
use std::test::Fail;
use test_support::{Endless, Halting};

const ROWS: [Row; 5] = [MARKERS, CRC, EMPTY, PLAIN, ENHANCED];

pub(crate) const WHOLE: Halts = Halts {
    most: 128,
    read: 0,
    write: 0,
    kind: ErrorKind::ConnectionReset,
};

// Whether the text was received, and these octets were written.
pub(crate) fn has_received(outcome: &Outcome, text: &[u8], written: &[u8]) -> bool {
    match &outcome.report.received {
        Some(octets) => {
            octets.as_slice() == text
                && outcome.report.is_completed()
                && outcome.written.as_slice() == written
        }
        None => false,
    }
}

// Exchanges the row, at most `most` octets a call. Returns whether each end wrote what the row says.
fn is_exchanged(alloc: Global, row: Row, most: usize) -> Result<bool, Fail> {
    let halts = Halts { most, ..WHOLE };
    let served = serving(alloc, row, row.asked, halts)?;
    let asked = asking(alloc, row, row.served, halts)?;
    Ok(
        has_received(&served, row.text, row.served)
            && has_received(&asked, row.text, row.asked)
            && asked.is_ended,
    )
}

#[test]
fn worked_rows_are_exchanged(rt: HostRuntime) -> Result<(), Fail> {
    for row in ROWS {
        assert!(rt; is_exchanged(rt.alloc(), row, 128)?);
        assert!(rt; is_exchanged(rt.alloc(), row, 1)?);
    }
    Ok(())
}

#[test]
fn what_was_written_comes_back(rt: HostRuntime) -> Result<(), Fail> {
    let served = serving(rt.alloc(), WRITTEN, WRITTEN.asked, WHOLE)?;
    assert!(rt; has_received(&served, WRITTEN.text, WRITTEN.served));
    Ok(())
}

// A line for each number of octets after which the peer's output ends, if it differs from the line before.
fn cut_lines(alloc: Global) -> Result<Vec<u8>, Fail> {
    let mut text = Vec::new(alloc);
    let mut before = Vec::new(alloc);
    for count in 0..=PLAIN.asked.len() {
        let outcome = serving(alloc, PLAIN, &PLAIN.asked[..count], WHOLE)?;
        let mut line = Vec::new(alloc);
        add_line(&mut line, &outcome)?;
        if line != before {
            add_count(&mut text, count)?;
            text.extend_from_slice(&line)?;
        }
        before = line;
    }
    Ok(text)
}

// The link breaks at every cut before the last octet; the Reply is written once the Request is whole.
#[test]
fn an_early_end_is_broken(rt: HostRuntime) -> Result<(), Fail> {
    let text = cut_lines(rt.alloc())?;
    assert!(rt; text.as_slice() == b"00 --b 00\n20 --b 24\n72 r-- 52\n".as_slice());
    Ok(())
}

// The read or write with this number fails: of the serving end, or of the asking end.
fn failing(read: u64, write: u64, kind: ErrorKind) -> Halts {
    Halts {
        most: 24,
        read,
        write,
        kind,
    }
}

// A line for each read and each write that fails, of both ends.
fn failing_lines(alloc: Global, kind: ErrorKind) -> Result<Vec<u8>, Fail> {
    let mut text = Vec::new(alloc);
    for call in 1..=4 {
        let halts = failing(call, 0, kind);
        add_line(&mut text, &serving(alloc, PLAIN, PLAIN.asked, halts)?)?;
        add_line(&mut text, &asking(alloc, PLAIN, PLAIN.served, halts)?)?;
        let halts = failing(0, call, kind);
        add_line(&mut text, &serving(alloc, PLAIN, PLAIN.asked, halts)?)?;
        add_line(&mut text, &asking(alloc, PLAIN, PLAIN.served, halts)?)?;
    }
    Ok(text)
}

// The fourth write is the asking end's alone.
const FAILED: &[u8] = b"--b 00\n--b 20\n--b 00\n--b 00\n\
    --b 24\n--b 72\nr-b 24\n--b 20\n\
    --b 24\n--b 72\nr-b 48\n--b 44\n\
    r-b 24\nr-b 72\nr-- 52\n--b 68\n";

const INTERRUPTED: &[u8] = b"r-- 52\nr-- 72\nr-- 52\nr-- 72\n";

#[test]
fn a_failed_call_breaks_the_link(rt: HostRuntime) -> Result<(), Fail> {
    let text = failing_lines(rt.alloc(), ErrorKind::ConnectionReset)?;
    assert!(rt; text.as_slice() == FAILED);
    let text = failing_lines(rt.alloc(), ErrorKind::Interrupted)?;
    for lines in text.as_slice().chunks(INTERRUPTED.len()) {
        assert!(rt; lines == INTERRUPTED);
    }
    Ok(())
}

// Serves a peer that sends these octets, and then zeros for ever, one a read. Returns the report, and how many reads
// there were.
fn endless(alloc: Global, row: Row, octets: &[u8]) -> Result<(Report, u32), Fail> {
    let (mut endpoint, region) = listener(alloc)?;
    let terms = Terms {
        number: 0,
        markers: false,
        crc: false,
        establishment: row.establishment,
    };
    let mut input = Counted::new(Halting::new(octets.chain(Endless::new(0)), 1));
    let report = serve(
        alloc,
        &mut endpoint,
        terms,
        region,
        &mut input,
        &mut Vec::new(alloc),
    );
    match report {
        Ok(report) => Ok((report, input.reads)),
        Err(_) => Err("not opened".into()),
    }
}

// The zeros are no frame, but they are read until the most reads were made.
#[test]
fn an_input_without_end_is_broken(rt: HostRuntime) -> Result<(), Fail> {
    let (report, reads) = endless(rt.alloc(), PLAIN, &PLAIN.asked[..20])?;
    assert!(rt; report.broken && report.received.is_none() && report.ended.is_some());
    assert!(rt; reads == MOST_READS);
    Ok(())
}

// Whether these octets, and zeros behind them, are a Request of this fault, past whose 20 octets nothing is read.
fn closes(alloc: Global, row: Row, octets: &[u8], fault: StartupFault) -> Result<bool, Fail> {
    let (report, reads) = endless(alloc, row, octets)?;
    Ok(report.ended == Some(Ended::Closed(fault)) && !report.broken && reads == 20)
}

// The peer goes on for ever, but the next one can be served.
#[test]
fn a_start_up_frame_at_fault_closes(rt: HostRuntime) -> Result<(), Fail> {
    let revision_3 = b"MPA ID Req Frame\x10\x03";
    let no_word = b"MPA ID Req Frame\x10\x02\x00\x03";
    assert!(rt; closes(rt.alloc(), PLAIN, b"", StartupFault::BadKey)?);
    assert!(rt; closes(rt.alloc(), PLAIN, ENHANCED.asked, StartupFault::BadRev)?);
    assert!(rt; closes(rt.alloc(), ENHANCED, b"", StartupFault::BadKey)?);
    assert!(rt; closes(rt.alloc(), ENHANCED, revision_3, StartupFault::BadRev)?);
    assert!(rt; closes(rt.alloc(), ENHANCED, no_word, StartupFault::BadLength)?);
    Ok(())
}

// A Reply with the key of a Request, in reads of four octets: the output is not ended.
#[test]
fn a_reply_at_fault_closes(rt: HostRuntime) -> Result<(), Fail> {
    let halts = Halts { most: 4, ..WHOLE };
    let asked = asking(rt.alloc(), PLAIN, PLAIN.asked, halts)?;
    let closed = Some(Ended::Closed(StartupFault::BadKey));
    assert!(rt; asked.report.ended == closed && !asked.report.broken && !asked.is_ended);
    assert!(rt; asked.written.as_slice() == &PLAIN.asked[..20]);
    assert!(rt; asked.reads == 5);
    Ok(())
}

// The first read gives all that the peer sends, and the second fails. Returns what was written.
fn written_at_once(alloc: Global, row: Row) -> Result<Vec<u8>, Fail> {
    let halts = Halts { read: 2, ..WHOLE };
    let served = serving(alloc, row, row.asked, halts)?;
    if served.report.received.is_some() && served.report.broken {
        return Ok(served.written);
    }
    Err("no Send, or no break".into())
}

#[test]
fn the_answer_follows_the_send_at_once_by_revision_2(rt: HostRuntime) -> Result<(), Fail> {
    let written = written_at_once(rt.alloc(), ENHANCED)?;
    assert!(rt; written.as_slice() == ENHANCED.served);
    let written = written_at_once(rt.alloc(), PLAIN)?;
    assert!(rt; written.as_slice() == &PLAIN.served[..24]);
    Ok(())
}

// The Reply comes, then the answer, then the end; this read fails. Returns whether the output was ended before.
fn ends_before(alloc: Global, row: Row, most: usize, read: u64) -> Result<bool, Fail> {
    let halts = Halts {
        most,
        read,
        ..WHOLE
    };
    let asked = asking(alloc, row, row.served, halts)?;
    Ok(asked.is_ended)
}

#[test]
fn the_output_ends_after_the_answer_by_revision_2(rt: HostRuntime) -> Result<(), Fail> {
    assert!(rt; !ends_before(rt.alloc(), ENHANCED, 28, 2)?);
    assert!(rt; ends_before(rt.alloc(), ENHANCED, 28, 3)?);
    assert!(rt; ends_before(rt.alloc(), PLAIN, 24, 2)?);
    Ok(())
}
