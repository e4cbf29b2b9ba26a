//! Printing, and the program's status after it.

ghost use Rattle.std.specs.Prelude.{◌≡◌, ℕ, take, IfOk, IfErr, OnOk, OnErr};
ghost use Rattle.std.specs.Io.KnownBytes.{Appends};
ghost use Rattle.iw_commands.specs.Lines.{lines};
ghost use Rattle.iw_commands.specs.Status.{report_status, unmade};

use crate::fault::CommandFault;
use crate::lines::lines_of;
use iw_links::Report;
use iw_output::{Status, write_octets};
use std::alloc::Global;
use std::io::Write;

/// Prints a text at once. If the output fails, it took only the front of the text.
pub(crate) fn print_text<W: Write>(print: &mut W, text: &[u8]) -> Result<(), CommandFault>
    ensures ok { OnOk result (Appends (W.contents print.old) (W.contents print.new) text.now) }
    ensures err { OnErr result ((n : ℕ) × Appends (W.contents print.old) (W.contents print.new) (take n text.now)) }
    ensures fault { IfErr result (λ fault. fault ≡ CommandFault.Output) }
{
    match write_octets(print, text) {
        Ok(()) => {}
        Err(_) => return Err(CommandFault::Output),
    }
    match print.flush() {
        Ok(()) => Ok(()),
        Err(_) => Err(CommandFault::Output),
    }
}

/// The report of a connection that could not be made.
pub(crate) fn unmade() -> Report
    ensures { result ≡ unmade }
{
    Report {
        received: None,
        ended: None,
        broken: true,
    }
}

// The program's status after one connection.
fn ending(report: &Report) -> Status
    ensures { result ≡ report_status report.now }
{
    if report.is_completed() {
        Status::Completed
    } else {
        Status::Failed
    }
}

/// Prints the lines of a connection, and returns the program's status after it.
pub(crate) fn print_report<W: Write>(
    alloc: Global,
    print: &mut W,
    stream: u8,
    report: &Report,
) -> Result<Status, CommandFault>
    ensures ok { OnOk result (Appends (W.contents print.old) (W.contents print.new) (lines stream report.now)) }
    ensures status { IfOk result (λ status. status ≡ report_status report.now) }
    ensures err { OnErr result
        ((n : ℕ) × Appends (W.contents print.old) (W.contents print.new) (take n (lines stream report.now))) }
{
    let text = match lines_of(alloc, stream, report) {
        Ok(text) => text,
        Err(_) => return Err(CommandFault::NoMemory),
    };
    match print_text(print, text.as_bytes()) {
        Ok(()) => Ok(ending(report)),
        Err(fault) => Err(fault),
    }
}
