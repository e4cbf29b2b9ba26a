//! The lines that are printed for a connection.

ghost use Rattle.std.specs.Prelude.{◌≡◌, ◌++◌, IfOk, OnOk, string_bytes};
ghost use Rattle.iw_commands.specs.Lines.{octets_text, fault_text, startup_text, end_text};
ghost use Rattle.iw_commands.specs.Lines.{line, received_line, end_line, lines};

use iw_links::{Ended, Report};
use iw_octets::{Fault, Octets};
use iw_startup::StartupFault;
use std::alloc::{AllocError, Global};

// Octets as hexadecimal digits, or `-` for none.
fn octets_digits(alloc: Global, octets: &[u8]) -> Result<String, AllocError>
    ensures { IfOk result (λ text. string_bytes text ≡ octets_text octets.now) }
{
    if octets.is_empty() {
        return String::from_str(alloc, "-");
    }
    hex::encode(alloc, octets)
}

// Layer, type and code of a fault.
fn fault_numbers(alloc: Global, fault: Fault) -> Result<String, AllocError>
    ensures { IfOk result (λ text. string_bytes text ≡ fault_text fault) }
{
    let layer = fault.layer;
    let kind = fault.kind;
    let code = fault.code;
    format!(in alloc; "{layer} {kind} {code}")
}

// The number and the name of a fault in the peer's start-up frame.
fn startup_name(fault: StartupFault) -> &'static str
    ensures { result.now ≡ startup_text fault }
{
    match fault {
        StartupFault::BadKey => "1 BadKey",
        StartupFault::BadRev => "2 BadRev",
        StartupFault::BadLength => "3 BadLength",
        StartupFault::Rejected => "4 Rejected",
    }
}

// How a stream ended, in words.
fn end_words(alloc: Global, ended: Ended) -> Result<String, AllocError>
    ensures { IfOk result (λ text. string_bytes text ≡ end_text ended) }
{
    match ended {
        Ended::Fault(fault) => {
            let numbers = fault_numbers(alloc, fault)?;
            format!(in alloc; "fault {numbers}")
        }
        Ended::Terminated(fault) => {
            let numbers = fault_numbers(alloc, fault)?;
            format!(in alloc; "terminated {numbers}")
        }
        Ended::Closed(fault) => {
            let name = startup_name(fault);
            format!(in alloc; "closed {name}")
        }
    }
}

// Appends a line about a stream.
#[tactic(auto, unfolding(crate::specs::Lines::line))]
fn add_line(text: &mut String, stream: u8, words: &str) -> Result<(), AllocError>
    ensures { OnOk result (string_bytes text.new ≡ string_bytes text.old ++ line stream words.now) }
{
    write!(text, "stream {stream} {words}\n")
}

// Appends the line about what was received.
fn add_received(
    alloc: Global,
    text: &mut String,
    stream: u8,
    received: &Option<Octets>,
) -> Result<(), AllocError>
    ensures { OnOk result (string_bytes text.new ≡ string_bytes text.old ++ received_line stream received.now) }
{
    let Some(octets) = received else {
        return Ok(());
    };
    let digits = octets_digits(alloc, octets.as_slice())?;
    let words = format!(in alloc; "received {digits}")?;
    add_line(text, stream, words.as_str())
}

// Appends the line about how the stream ended.
fn add_end(
    alloc: Global,
    text: &mut String,
    stream: u8,
    ended: Option<Ended>,
) -> Result<(), AllocError>
    ensures { OnOk result (string_bytes text.new ≡ string_bytes text.old ++ end_line stream ended) }
{
    let Some(ended) = ended else {
        return Ok(());
    };
    let words = end_words(alloc, ended)?;
    add_line(text, stream, words.as_str())
}

/// The lines of a connection: what was received, how the stream ended, and that its link broke; each if it applies.
#[tactic(auto, unfolding(crate::specs::Lines::lines))]
pub(crate) fn lines_of(alloc: Global, stream: u8, report: &Report) -> Result<String, AllocError>
    ensures { IfOk result (λ text. string_bytes text ≡ lines stream report.now) }
{
    let mut text = String::new(alloc);
    add_received(alloc, &mut text, stream, &report.received)?;
    add_end(alloc, &mut text, stream, report.ended)?;
    if report.broken {
        add_line(&mut text, stream, "broken")?;
    }
    Ok(text)
}
