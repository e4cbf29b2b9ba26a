ghost use Rattle.std.specs.Prelude.{◌≤◌, IfOk};

use crate::terms::Terms;
use std::alloc::{AllocError, Global};
use thiserror::Error;

/// How the program is called.
pub const USAGE: &str = "\
Usage: server COUNT [OPTIONS [PORT]] [--start SECONDS] [--stall SECONDS] [--quiet] [--processes N] [--keep]

Serves COUNT connections at 127.0.0.1, as many at once as there are, or connections without end if COUNT is 0. Each peer
has a region of its own, of 4096 octets, under an STag that is drawn: it writes there and sends a Send, and gets back as
many octets of the region as the Send had. Prints `port Q`, then a line for each Send that came, and for each fault that
ended a stream, with the peer's address. Lines that standard output does not take are dropped, and counted in a line. At
the end it has a second for the last ones; then standard error tells how many are left out.

  COUNT            0 to 18446744073709551615
  OPTIONS          The sum of 1 for markers, 2 for CRCs and 4 for revision 2 of MPA: 0 to 7 (0 if there is none)
  PORT             The port to listen at: 0 to 65535; 0 is any free one (0 if there is none)
  --start SECONDS  A stream that is not open so long after its connection was accepted is dropped: 1 to 86400 (10)
  --stall SECONDS  So is a connection on which nothing of use went for so long: no octet was placed, no Send came, and
                   the peer took nothing: 1 to 86400 (60)
  --quiet          Prints `port Q` alone
  --processes N    Serves by N processes that share the port, each with an endpoint of its own: 1 to 64 (1). The kernel
                   spreads connections over them. COUNT is 0; each line begins with `process I: `
  --keep           A process that ended is started again after a second, also if N is 1. Without it the others go on
  --worker         What the server starts such a process with: PORT may be shared, and it ends once standard input does

Each connection takes a descriptor: `ulimit -n` says how many there are, for each process. If none is left, the connection
that has waited longest for its stream to open gives way.

With `--processes` above 1, or `--keep`, standard error has a line for each process that ended or was started again, with
its number, its pid, and how it ended. The processes end once the first one does, by SIGTERM for instance: at once, as one
server alone does. Connections that a process has not accepted when it ends are reset.

Exit status:
  0  A Send came on each connection, and none failed
  1  A connection failed, or found no room; the port could not be bound, or could not be printed; the numbers of
     streams are spent; or no process is left (standard error says so)
  2  The words were refused, or memory ran out before the first connection (standard error says why)
";

// How many octets a region has, and the longest Send.
const MOST: usize = 4_096;

// How many seconds a stream has to open, and a connection may do nothing of use.
const START: u64 = 10;

const STALL: u64 = 60;

// The most seconds that can be asked for.
const MOST_SECONDS: u64 = 86_400;

// The most processes.
const MOST_PROCESSES: u8 = 64;

/// The processes that serve at one port.
#[derive(Clone, Copy, Debug, PartialEq, Eq)]
pub struct Crew {
    /// How many there are: 1 to 64.
    pub processes: u8,
    /// One that ended is started again.
    pub keep: bool,
}

/// What the words of the command line ask for.
#[derive(Clone, Copy, Debug, PartialEq, Eq)]
pub enum Request {
    /// How the program is called.
    Help,
    /// So many connections, at this port.
    Serve { count: u64, terms: Terms, port: u16 },
    /// Connections without end, by processes that share this port.
    Lead { crew: Crew, terms: Terms, port: u16 },
    /// To be one of these processes.
    Work { terms: Terms, port: u16 },
}

/// Why words are refused.
#[derive(Clone, Copy, Debug, PartialEq, Eq, Error)]
pub enum WordsRefusal {
    /// They are none of the program's.
    #[error("these words are refused: server --help")]
    Words,
    /// No such number of processes.
    #[error("--processes takes a number from 1 to 64")]
    Processes,
    /// Several processes serve without end.
    #[error("COUNT is 0 with --processes and --keep: connections without end")]
    Count,
}

// What was read of the words so far.
#[derive(Clone, Copy)]
struct Words {
    count: Option<u64>,
    options: Option<u8>,
    port: Option<u16>,
    start: u64,
    stall: u64,
    quiet: bool,
    processes: u8,
    keep: bool,
    worker: bool,
}

impl Words {
    // Reads a word that stands by its place.
    fn take_next(&mut self, word: &str) -> Option<()> {
        if self.count.is_none() {
            self.count = Some(word.parse().ok()?);
        } else if self.options.is_none() {
            self.options = Some(options_of(word)?);
        } else if self.port.is_none() {
            self.port = Some(word.parse().ok()?);
        } else {
            return None;
        }
        Some(())
    }

    // Reads a word that stands alone. Returns whether it is one.
    fn take_flag(&mut self, word: &str) -> bool {
        match word {
            "--quiet" => self.quiet = true,
            "--keep" => self.keep = true,
            "--worker" => self.worker = true,
            _ => return false,
        }
        true
    }

    // Reads the first words. Returns the others.
    fn take<'a>(&mut self, word: &str, rest: &'a [String]) -> Result<&'a [String], WordsRefusal> {
        if self.take_flag(word) {
            return Ok(rest);
        }
        match word {
            "--start" => self.start = seconds_of(rest).ok_or(WordsRefusal::Words)?,
            "--stall" => self.stall = seconds_of(rest).ok_or(WordsRefusal::Words)?,
            "--processes" => self.processes = processes_of(rest)?,
            _ => {
                self.take_next(word).ok_or(WordsRefusal::Words)?;
                return Ok(rest);
            }
        }
        rest.get(1..).ok_or(WordsRefusal::Words)
    }

    fn terms(self) -> Terms {
        let options = self.options.unwrap_or(0);
        Terms {
            markers: options & 1 != 0,
            crc: options & 2 != 0,
            enhanced: options & 4 != 0,
            most: MOST,
            start: self.start,
            stall: self.stall,
            quiet: self.quiet,
        }
    }

    fn request(self) -> Result<Request, WordsRefusal> {
        let count = self.count.ok_or(WordsRefusal::Words)?;
        let terms = self.terms();
        let port = self.port.unwrap_or(0);
        let has_crew = self.processes > 1 || self.keep;
        if count > 0 && (has_crew || self.worker) {
            return Err(WordsRefusal::Count);
        }
        let crew = Crew {
            processes: self.processes,
            keep: self.keep,
        };
        match (self.worker, has_crew) {
            (true, true) => Err(WordsRefusal::Words),
            (true, false) => Ok(Request::Work { terms, port }),
            (false, true) => Ok(Request::Lead { crew, terms, port }),
            (false, false) => Ok(Request::Serve { count, terms, port }),
        }
    }
}

// A sum of options.
fn options_of(word: &str) -> Option<u8> {
    let options: u8 = word.parse().ok()?;
    if options > 7 { None } else { Some(options) }
}

// The seconds that the first of these words names.
fn seconds_of(words: &[String]) -> Option<u64> {
    let seconds: u64 = words.first()?.as_str().parse().ok()?;
    if seconds == 0 || seconds > MOST_SECONDS {
        None
    } else {
        Some(seconds)
    }
}

// The number that the first of these words names.
fn number_of(words: &[String]) -> Option<u8> {
    words.first()?.as_str().parse().ok()
}

// How many processes that is.
fn processes_of(words: &[String]) -> Result<u8, WordsRefusal>
    ensures some { IfOk result (λ n. 1 ≤ n) }
    ensures most { IfOk result (λ n. n ≤ 64) }
{
    match number_of(words) {
        Some(number) if number >= 1 && number <= MOST_PROCESSES => Ok(number),
        _ => Err(WordsRefusal::Processes),
    }
}

fn serve_of(words: &[String]) -> Result<Request, WordsRefusal> {
    let mut read = Words {
        count: None,
        options: None,
        port: None,
        start: START,
        stall: STALL,
        quiet: false,
        processes: 1,
        keep: false,
        worker: false,
    };
    let mut rest = words;
    'words: for _ in 0..words.len() {
        let Some((word, others)) = rest.split_first() else {
            break;
        };
        rest = read.take(word.as_str(), others)?;
    }
    read.request()
}

/// What these words ask for, which stand behind the program's name.
pub fn request_of(words: &[String]) -> Result<Request, WordsRefusal> {
    match words {
        [word] if word.as_str() == "--help" || word.as_str() == "-h" => Ok(Request::Help),
        words => serve_of(words),
    }
}

/// The words that ask for [`Request::Work`], separated by blanks.
pub(crate) fn worker_words(alloc: Global, terms: Terms, port: u16) -> Result<String, AllocError> {
    let markers = if terms.markers { 1 } else { 0 };
    let crc = if terms.crc { 2 } else { 0 };
    let enhanced = if terms.enhanced { 4 } else { 0 };
    let options = markers + crc + enhanced;
    let start = terms.start;
    let stall = terms.stall;
    let quiet = if terms.quiet { " --quiet" } else { "" };
    format!(in alloc; "0 {options} {port} --start {start} --stall {stall}{quiet} --worker")
}
