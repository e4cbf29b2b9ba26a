ghost use Rattle.std.specs.Prelude.{◌≡◌};

use crate::rows::Row;
use iw_links::{Counted, Ended, Output, Report, Terms, ask, caller, listener, serve};
use std::alloc::Global;
use std::io::{self, ErrorKind, Read, Write};
use std::test::Fail;
use test_support::Halting;

/// The writing half of a connection.
#[derive(Drop)]
pub(crate) struct Pen {
    written: Halting<Vec<u8>>,
    is_ended: bool,
}

impl Write for Pen {
    fn write(&mut self, buf: &[u8]) -> io::Result<usize> {
        self.written.write(buf)
    }

    fn flush(&mut self) -> io::Result<()> {
        Ok(())
    }
}

impl Output for Pen {
    // It counts as a call, as each write does.
    fn end(&mut self) -> io::Result<()> {
        self.written.flush()?;
        self.is_ended = true;
        Ok(())
    }
}

/// The most octets that a call moves, which read and which write fails (0 for none), and how. Ending the output counts
/// as a write.
#[derive(Clone, Copy)]
pub(crate) struct Halts {
    pub(crate) most: usize,
    pub(crate) read: u64,
    pub(crate) write: u64,
    pub(crate) kind: ErrorKind,
}

/// The report of a connection, what was written to it, and how many reads and writes there were.
#[derive(Drop)]
pub(crate) struct Outcome {
    pub(crate) report: Report,
    pub(crate) written: Vec<u8>,
    pub(crate) is_ended: bool,
    pub(crate) reads: u64,
    pub(crate) writes: u64,
}

impl Halts {
    fn reader<'a>(self, octets: &'a [u8]) -> Counted<Halting<&'a [u8]>>
        ensures { result.reads ≡ 0 }
    {
        let reader = Halting::new(octets, self.most);
        Counted::new(reader.failing_at(self.read, self.kind))
    }

    fn pen(self, alloc: Global) -> Pen {
        let written = Halting::new(Vec::new(alloc), self.most);
        Pen {
            written: written.failing_at(self.write, self.kind),
            is_ended: false,
        }
    }
}

fn terms(row: Row) -> Terms {
    Terms {
        number: 0,
        markers: row.markers,
        crc: row.crc,
        establishment: row.establishment,
    }
}

fn concluded(report: Report, reads: u32, pen: Pen) -> Outcome {
    Outcome {
        report,
        reads: reads as u64,
        writes: pen.written.calls(),
        is_ended: pen.is_ended,
        written: pen.written.into_inner(),
    }
}

/// The serving end, which reads these octets.
pub(crate) fn serving(
    alloc: Global,
    row: Row,
    octets: &[u8],
    halts: Halts,
) -> Result<Outcome, Fail> {
    let (mut endpoint, region) = listener(alloc)?;
    let mut input = halts.reader(octets);
    let mut pen = halts.pen(alloc);
    match serve(
        alloc,
        &mut endpoint,
        terms(row),
        region,
        &mut input,
        &mut pen,
    ) {
        Ok(report) => Ok(concluded(report, input.reads, pen)),
        Err(_) => Err("not opened".into()),
    }
}

/// The asking end, which reads these octets.
pub(crate) fn asking(
    alloc: Global,
    row: Row,
    octets: &[u8],
    halts: Halts,
) -> Result<Outcome, Fail> {
    let mut endpoint = caller(alloc)?;
    let mut input = halts.reader(octets);
    let mut pen = halts.pen(alloc);
    match ask(
        alloc,
        &mut endpoint,
        terms(row),
        row.text,
        &mut input,
        &mut pen,
    ) {
        Ok(report) => Ok(concluded(report, input.reads, pen)),
        Err(_) => Err("not opened".into()),
    }
}

/// What the report says, a letter each: `r`eceived, `f`ault, `t`erminated, `c`losed, `b`roken.
fn letters(report: &Report) -> [u8; 3] {
    let received = match report.received {
        Some(_) => b'r',
        None => b'-',
    };
    let ended = match report.ended {
        Some(Ended::Fault(_)) => b'f',
        Some(Ended::Terminated(_)) => b't',
        Some(Ended::Closed(_)) => b'c',
        None => b'-',
    };
    let broken = if report.broken { b'b' } else { b'-' };
    [received, ended, broken]
}

/// Appends the line of a connection: what the report says, and how many octets were written.
pub(crate) fn add_line(text: &mut Vec<u8>, outcome: &Outcome) -> Result<(), Fail> {
    text.extend_from_slice(&letters(&outcome.report))?;
    text.push(b' ')?;
    add_count(text, outcome.written.len())?;
    text.pop();
    text.push(b'\n')?;
    Ok(())
}

/// Appends a count of two digits, and a space.
pub(crate) fn add_count(text: &mut Vec<u8>, count: usize) -> Result<(), Fail> {
    text.push(b'0' + (count / 10 % 10) as u8)?;
    text.push(b'0' + (count % 10) as u8)?;
    text.push(b' ')?;
    Ok(())
}
