//! The lines that are printed of connections. What the output does not take is dropped and counted: a log holds up nothing, and
//! ends nothing.

ghost use Rattle.std.specs.Prelude.{◌≡◌, ◌≤◌, ◌⊎◌, true, string_bytes, string_len};
ghost use Rattle.iw_server.specs.Logged.{IsAdded, IsDropped, IsKept};

use iw_connection::StreamNumber;
use iw_endpoint::{Fault, StartupFault};
use std::alloc::{AllocError, Global};
use std::io::{ErrorKind, Write};
use std::net::SocketAddr;

// How many octets of lines are kept at most.
const MOST_KEPT: usize = 65_536;

// What stands behind a count of lines that were dropped.
const DROPPED: &str = " lines dropped";

// How often the last lines are tried at most.
const MOST_TRIES: u32 = 1_024;

// Beyond this many a log is printed before the next turn, which adds fewer octets than are left.
const MOST_WAITING: usize = 32_768;

/// Lines on their way to the output.
#[derive(Drop)]
pub(crate) struct Log {
    alloc: Global,
    // Nothing is told.
    is_quiet: bool,
    text: String,
    // How many octets of the text the output has taken.
    printed: usize,
    // How many lines were dropped behind the text, and how many its first line says were dropped before it.
    dropped: u64,
    told: u64,
    ghost taken: { printed ≤ string_len text },
}

impl Log {
    /// A log with no line. A quiet one never has any.
    pub(crate) fn new(alloc: Global, is_quiet: bool) -> Log {
        Log {
            alloc,
            is_quiet,
            text: String::new(alloc),
            printed: 0,
            dropped: 0,
            told: 0,
        }
    }

    /// Whether the log is to be printed before more is added.
    pub(crate) fn is_long(&self) -> bool {
        self.text.len() > MOST_WAITING
    }

    /// What was received, as hexadecimal digits, or `-` for nothing.
    pub(crate) fn add_received(
        &mut self,
        alloc: Global,
        stream: StreamNumber,
        peer: SocketAddr,
        octets: &[u8],
    ) {
        if self.is_quiet {
            return;
        }
        let line = received_line(alloc, stream, peer, octets);
        self.add(line);
    }

    /// A fault that ended a stream; `how` tells who found it.
    pub(crate) fn add_fault(
        &mut self,
        stream: StreamNumber,
        peer: SocketAddr,
        how: &str,
        fault: Fault,
    ) {
        if self.is_quiet {
            return;
        }
        let layer = fault.layer;
        let kind = fault.kind;
        let code = fault.code;
        let line = format!(in self.alloc;
            "stream {stream} {how} {layer} {kind} {code} from {peer}\n"
        );
        self.add(line);
    }

    /// A start-up frame that closed a stream.
    pub(crate) fn add_closed(
        &mut self,
        stream: StreamNumber,
        peer: SocketAddr,
        fault: StartupFault,
    ) {
        if self.is_quiet {
            return;
        }
        let line = format!(in self.alloc; "stream {stream} closed {fault:?} from {peer}\n");
        self.add(line);
    }

    /// All numbers of streams were given.
    pub(crate) fn add_spent(&mut self) {
        if self.is_quiet {
            return;
        }
        let line = String::from_str(
            self.alloc,
            "no stream number is left: no more connections\n",
        );
        self.add(line);
    }

    /// A line that a process printed, without its end. One that tells of lines that were dropped there counts as these.
    pub(crate) fn add_from(&mut self, process: u8, line: &[u8]) {
        let Ok(line) = str::from_utf8(line) else {
            return self.drop_one();
        };
        match count_dropped(line) {
            Some(count) => self.dropped = self.dropped.saturating_add(count),
            None => {
                let line = format!(in self.alloc; "process {process}: {line}\n");
                self.add(line);
            }
        }
    }

    // Adds a line; or drops it and counts it, if there is no room or no memory, or a line before it was dropped.
    fn add(&mut self, line: Result<String, AllocError>)
        ensures { IsAdded line (string_bytes self.old.text) self.old.dropped (string_bytes self.new.text) self.new.dropped }
    {
        match line {
            Ok(line) => self.keep(line.as_str()),
            Err(_) => self.drop_one(),
        }
    }

    // The same, of a line for which there was memory.
    fn keep(&mut self, line: &str)
        ensures { IsKept line.now (string_bytes self.old.text) self.old.dropped (string_bytes self.new.text) self.new.dropped
            ⊎ IsDropped (string_bytes self.old.text) self.old.dropped (string_bytes self.new.text) self.new.dropped }
    {
        if !self.has_room(line.len()) {
            return self.drop_one();
        }
        match self.text.push_str(line) {
            Ok(()) => {}
            Err(_) => self.drop_one(),
        }
    }

    /// A line is dropped.
    pub(crate) fn drop_one(&mut self)
        ensures { IsDropped (string_bytes self.old.text) self.old.dropped (string_bytes self.new.text) self.new.dropped }
    {
        self.dropped = self.dropped.saturating_add(1);
    }

    fn has_room(&self, len: usize) -> bool
        ensures { result ≡ true → self.now.dropped ≡ 0 }
    {
        self.dropped == 0 && len <= MOST_KEPT && self.text.len() <= MOST_KEPT - len
    }

    /// Prints what the output takes. What it does not take, also because it fails, stays for the next call.
    pub(crate) fn print<W: Write>(&mut self, output: &mut W) {
        'writes: for _ in 0..u64::MAX {
            if self.printed >= self.text.len() && !self.begin_again() {
                return;
            }
            match output.write(&self.text.as_bytes()[self.printed..]) {
                Ok(0) => return,
                Ok(n) => self.printed += n,
                Err(error) => {
                    if error.kind() != ErrorKind::Interrupted {
                        return;
                    }
                }
            }
        }
    }

    /// Prints what is left, and has the output wait by its `flush` where it does not take all, until that fails. Returns how many
    /// lines were not printed, those included that were dropped.
    pub(crate) fn finish<W: Write>(&mut self, output: &mut W) -> u64
        ensures { result ≡ 0 → (self.new.dropped ≡ 0) × (string_len self.new.text ≤ self.new.printed) }
    {
        'tries: for _ in 0..MOST_TRIES {
            self.print(output);
            if self.is_over() || output.flush().is_err() {
                break;
            }
        }
        self.left()
    }

    // Whether nothing is left to print.
    fn is_over(&self) -> bool
        ensures { result ≡ true → (self.now.dropped ≡ 0) × (string_len self.now.text ≤ self.now.printed) }
    {
        self.printed >= self.text.len() && self.dropped == 0
    }

    // How many lines are left, the one included of which a part was printed, and those that were dropped.
    fn left(&self) -> u64
        ensures { result ≡ 0 → (self.now.dropped ≡ 0) × (string_len self.now.text ≤ self.now.printed) }
    {
        if self.is_over() {
            return 0;
        }
        let rest = &self.text.as_bytes()[self.printed..];
        let lines = rest.iter().filter(|octet| **octet == b'\n').count() as u64;
        let dropped = self.dropped.saturating_add(self.untold());
        lines.saturating_add(dropped).max(1)
    }

    // How many more lines were dropped, of which the first line of the text tells, while that is not printed whole.
    fn untold(&self) -> u64 {
        if self.text.as_bytes()[..self.printed].contains(&b'\n') {
            0
        } else {
            self.told.saturating_sub(1)
        }
    }

    // All was printed. Returns whether more is to be: how many lines were dropped.
    fn begin_again(&mut self) -> bool {
        self.text.clear();
        self.printed = 0;
        self.told = 0;
        if self.dropped == 0 {
            return false;
        }
        let dropped = self.dropped;
        if writeln!(self.text, "{dropped}{DROPPED}").is_err() {
            return false;
        }
        self.told = dropped;
        self.dropped = 0;
        true
    }
}

// How many lines were dropped, if a line tells of that.
fn count_dropped(line: &str) -> Option<u64> {
    line.strip_suffix(DROPPED)?.parse().ok()
}

fn received_line(
    alloc: Global,
    stream: StreamNumber,
    peer: SocketAddr,
    octets: &[u8],
) -> Result<String, AllocError> {
    if octets.is_empty() {
        return format!(in alloc; "stream {stream} received - from {peer}\n");
    }
    let digits = hex::encode(alloc, octets)?;
    format!(in alloc; "stream {stream} received {digits} from {peer}\n")
}
