ghost use Rattle.std.specs.Prelude.{◌≡◌, ◌≤◌, ◌⊎◌, string_bytes, IfOk, IfErr};
ghost use Rattle.std.specs.Io.KnownBytes.{Consumes};
ghost use Rattle.iw_commands.specs.Port.{port_line};

use crate::fault::CommandFault;
use iw_links::Counted;
use std::alloc::{AllocError, Global};
use std::io::Read;

/// The most octets of a port line: `port 65535` and a line feed.
const MAX_LINE: u32 = 11;

/// The line that names the bound port.
pub(crate) fn port_text(alloc: Global, port: u16) -> Result<String, AllocError>
    ensures { IfOk result (λ text. string_bytes text ≡ port_line port) }
{
    format!(in alloc; "port {port}\n")
}

// The port that the line names; `Program` if it is not exactly a port line.
fn port_of(alloc: Global, line: &[u8]) -> Result<u16, CommandFault>
    ensures line { IfOk result (λ port. line.now ≡ port_line port) }
    ensures fault { IfErr result (λ fault. (fault ≡ CommandFault.Program) ⊎ (fault ≡ CommandFault.NoMemory)) }
{
    let Ok(text) = str::from_utf8(line) else {
        return Err(CommandFault::Program);
    };
    let Some(number) = text.trim_end().strip_prefix("port ") else {
        return Err(CommandFault::Program);
    };
    let Ok(port) = number.parse::<u16>() else {
        return Err(CommandFault::Program);
    };
    let Ok(expected) = port_text(alloc, port) else {
        return Err(CommandFault::NoMemory);
    };
    if line == expected.as_bytes() {
        Ok(port)
    } else {
        Err(CommandFault::Program)
    }
}

/// Reads the line by which another process names its port. It reads octet by octet, at most 11 of them, so that it
/// reads nothing after the line.
///
/// An `Err` is `Program` if reading failed or what came is no such line, or `NoMemory`.
pub fn read_port<R: Read>(alloc: Global, pipe: &mut Counted<R>) -> Result<u16, CommandFault>
    requires { pipe.old.reads ≤ 1000000 }
    ensures line { IfOk result
        (λ port. Consumes (R.remaining pipe.old.reader) (R.remaining pipe.new.reader) (port_line port)) }
    ensures bounded { pipe.new.reads ≤ 1000000 }
    ensures fault { IfErr result (λ fault. (fault ≡ CommandFault.Program) ⊎ (fault ≡ CommandFault.NoMemory)) }
{
    let mut line = Vec::new(alloc);
    let mut octet = [0; 1];
    'octets: for _ in 0..MAX_LINE {
        match pipe.next(&mut octet) {
            Ok(0) => return Err(CommandFault::Program),
            Ok(_) => {}
            Err(_) => return Err(CommandFault::Program),
        }
        if line.push(octet[0]).is_err() {
            return Err(CommandFault::NoMemory);
        }
        if octet[0] == b'\n' {
            return port_of(alloc, line.as_slice());
        }
    }
    Err(CommandFault::Program)
}
