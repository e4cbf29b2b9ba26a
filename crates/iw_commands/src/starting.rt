ghost use Rattle.std.specs.Prelude.{◌≡◌, [], ◌∷◌, ◌++◌, if◌then◌else◌, IfOk, OnOk};
ghost use Rattle.std.specs.Process.{command_program, command_args};
ghost use Rattle.iw_commands.specs.Starting.{listener_words};

use crate::asking::Request;
use std::alloc::{AllocError, Global};
use std::process::{Command, Stdio};

// Appends a word, if it is wanted.
fn add_flag(command: &mut Command, is_wanted: bool, word: &str) -> Result<(), AllocError>
    ensures program { OnOk result (command_program command.new ≡ command_program command.old) }
    ensures args { OnOk result
        (command_args command.new ≡ command_args command.old ++ (if is_wanted then word.now ∷ [] else [])) }
{
    if is_wanted {
        command.arg(word)?;
    }
    Ok(())
}

/// The command that starts the listening program, at any free port, for as many connections as are requested and with
/// the same options. Its standard input is empty, its standard output is a pipe, and its standard error is discarded.
pub(crate) fn listener(
    alloc: Global,
    program: &str,
    request: &Request<'_>,
) -> Result<Command, AllocError>
    ensures program { IfOk result (λ command. command_program command ≡ program.now) }
    ensures words { IfOk result (λ command. command_args command ≡ listener_words request.now) }
{
    let count = request.count;
    let count = format!(in alloc; "{count}")?;
    let mut command = Command::new(alloc, program)?;
    command.arg("listen")?;
    command.arg("--port")?;
    command.arg("0")?;
    command.arg("--count")?;
    command.arg(count.as_str())?;
    add_flag(&mut command, request.options.markers, "--markers")?;
    add_flag(&mut command, request.options.crc, "--crc")?;
    add_flag(&mut command, request.options.enhanced, "--enhanced")?;
    command.stdin(Stdio::null());
    command.stdout(Stdio::piped());
    command.stderr(Stdio::null());
    Ok(command)
}
