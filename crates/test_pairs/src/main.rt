//! Runs `iwarp` as two processes. With arguments it is `iwarp` itself. Without any it starts itself with the arguments
//! of each row, and in shell scripts, and prints what that wrote and how it ended.
#![tactic(auto)]

use std::process::{Command, ExitCode, Processes, Stdio};
use std::rt::Runtime;

/// This program's own file, in the processes that it starts too.
const SELF: &str = "/proc/self/exe";

/// The arguments of a row, separated by blanks; `SELF` stands for this program.
const ROWS: [&str; 22] = [
    "pair --program SELF --count 2 --markers",
    "pair --program SELF --text abcd --crc",
    "pair --program SELF --enhanced",
    "pair --program SELF --text abcd --count 2 --markers --crc --enhanced",
    "pair --program SELF --text=",
    "pair --program SELF --text é --markers --crc",
    "pair --program SELF --text -hi --count 3",
    "pair --program /bin/sh",
    "pair --program /bin/false",
    "pair --program /bin/true",
    "pair --program /bin/echo",
    "pair --program /usr/bin/yes",
    "pair --program /no/such/file",
    "pair",
    "listen --count 0",
    "listen --count 65",
    "listen --count two",
    "listen --port 65536",
    "connect",
    "connect --port 0",
    "connect --port 1",
    "connect --port 1 --count 2",
];

/// Shell scripts, in which `$0` is this program. Outputs that are full or closed; inputs that are closed or not a file.
const SCRIPTS: [&str; 10] = [
    "echo 'a domain 1' | timeout 20 $0 replay > /dev/full",
    "echo 'a domain 1' | timeout 20 $0 replay >&-",
    "timeout 20 $0 replay <&-",
    "timeout 20 $0 replay < /",
    "timeout 20 $0 listen > /dev/full",
    "timeout 20 $0 listen >&-",
    "timeout 20 $0 connect --port 1 > /dev/full",
    "timeout 20 $0 connect --port 1 >&-",
    "timeout 20 $0 pair --program $0 --count 3 > /dev/full",
    "timeout 20 $0 pair --program $0 --count 3 >&-",
];

/// The same with a listener, whose port is `$port`, and whose lines are in the file `$lines`.
const LISTENING: &str =
    "lines=$(mktemp); $0 listen > $lines & until [ -s $lines ]; do sleep 0.1; done; read word port < $lines; ";

/// The listener exits after its connection; it takes no connection by revision 2 without the option; a peer that stays
/// after a start-up frame at fault does not keep it from the next; it is killed before it has a connection; it is bound
/// to 127.0.0.1; its port is taken; and another listener binds that port after it.
const LISTENED: [&str; 7] = [
    "timeout 20 $0 connect --port $port --count 3; echo $?; wait $!; echo $?; sed 1d $lines; rm $lines",
    "timeout 20 $0 connect --port $port --enhanced; echo $?; wait $!; echo $?; sed 1d $lines; rm $lines",
    "kill $!; wait $!; : > $lines; timeout 40 $0 listen --port $port --count 2 --enhanced > $lines & \
    until [ -s $lines ]; do sleep 0.1; done; \
    timeout 20 bash -c \"exec 3<>/dev/tcp/127.0.0.1/$port; printf 'not a start-up frame' >&3; cat <&3\"; echo $?; \
    timeout 20 $0 connect --port $port --enhanced; wait $!; echo $?; sed 1d $lines; rm $lines",
    "kill -9 $!; wait $!; echo $?; rm $lines; timeout 20 $0 connect --port $port",
    "grep -c \" 0100007F:$(printf %04X $port) 00000000:0000 0A \" /proc/net/tcp; kill $!; rm $lines",
    "timeout 20 $0 listen --port $port 2>&1; echo $?; kill $!; rm $lines",
    "kill $!; wait $!; : > $lines; timeout 20 $0 listen --port $port > $lines & until [ -s $lines ]; do sleep 0.1; done; \
    timeout 20 $0 connect --port $port; wait $!; echo $?; sed \"s/^port $port$/the same port/\" $lines; rm $lines",
];

/// The same with a program `$program` that listens as it is asked to, and then does what is appended to it.
const SERVING: &str =
    "program=$(mktemp); chmod +x $program; echo '#!/bin/sh' > $program; echo \"$0 \\$@\" >> $program; ";

/// It ends with 3; by a signal; and completed.
const SERVED: [&str; 3] = [
    "echo exit 3 >> $program; timeout 20 $0 pair --program $program; echo $?; rm $program",
    "echo 'kill -9 $$' >> $program; timeout 20 $0 pair --program $program; echo $?; rm $program",
    "echo exit 0 >> $program; timeout 20 $0 pair --program $program; echo $?; rm $program",
];

// The arguments of a row.
fn add_words(command: &mut Command, row: &str) -> anyhow::Result<()> {
    for word in row.split(' ') {
        let word = if word == "SELF" { SELF } else { word };
        command.arg(word)?;
    }
    Ok(())
}

// A command without input: what it writes, and its status.
fn tell<R: Runtime + AllocGlobal + Processes>(rt: &R, command: &mut Command) -> anyhow::Result<()> {
    command.stdin(Stdio::null());
    let output = command.output(rt)?;
    let text = str::from_utf8(output.stdout.as_slice())?;
    print!(rt; "{text}")?;
    let status = output.status;
    println!(rt; "{status}")?;
    Ok(())
}

// The same, with the number of octets that it writes.
fn tell_count<R: Runtime + AllocGlobal + Processes>(
    rt: &R,
    command: &mut Command,
) -> anyhow::Result<()> {
    command.stdin(Stdio::null());
    let output = command.output(rt)?;
    let status = output.status;
    let written = output.stdout.len();
    println!(rt; "{written} octets, {status}")?;
    let told = str::from_utf8(output.stderr.as_slice())?;
    print!(rt; "{told}")?;
    Ok(())
}

fn run_script<R: Runtime + AllocGlobal + Processes>(
    rt: &R,
    program: &str,
    before: &str,
    script: &str,
) -> anyhow::Result<()> {
    println!(rt; "$ {script}")?;
    let whole = format!(in rt.alloc(); "{before}{script}")?;
    let mut command = Command::new(rt.alloc(), "/bin/sh")?;
    command.arg("-c")?;
    command.arg(whole.as_str())?;
    command.arg(program)?;
    tell(rt, &mut command)
}

fn run_scripts<R: Runtime + AllocGlobal + Processes>(rt: &R, program: &str) -> anyhow::Result<()> {
    for script in SCRIPTS {
        run_script(rt, program, "", script)?;
    }
    for script in LISTENED {
        run_script(rt, program, LISTENING, script)?;
    }
    for script in SERVED {
        run_script(rt, program, SERVING, script)?;
    }
    Ok(())
}

fn run_row<R: Runtime + AllocGlobal + Processes>(rt: &R, row: &str) -> anyhow::Result<()> {
    println!(rt; "$ iwarp {row}")?;
    let mut command = Command::new(rt.alloc(), SELF)?;
    add_words(&mut command, row)?;
    tell(rt, &mut command)
}

// A text of this many octets on each of 64 connections. With 4,096 octets the lines are more than a pipe holds.
fn run_long<R: Runtime + AllocGlobal + Processes>(rt: &R, length: usize) -> anyhow::Result<()> {
    print!(rt; "64 texts of {length} octets: ")?;
    let text = "a".repeat(rt.alloc(), length)?;
    let mut command = Command::new(rt.alloc(), SELF)?;
    add_words(&mut command, "pair --program SELF --count 64 --text")?;
    command.arg(text.as_str())?;
    tell_count(rt, &mut command)
}

fn run_rows<R: Runtime + AllocGlobal + Processes>(rt: &R) -> anyhow::Result<()> {
    for row in ROWS {
        run_row(rt, row)?;
    }
    run_long(rt, 4_096)?;
    run_long(rt, 4_097)
}

fn run_all<R: Runtime + AllocGlobal + Processes>(rt: &R, program: &str) -> anyhow::Result<()> {
    run_rows(rt)?;
    run_scripts(rt, program)
}

fn main(rt: HostRuntime) -> anyhow::Result<ExitCode> {
    let mut words = std::env::args(&rt)?;
    match words.next() {
        Some(program) if words.len() == 0 => {
            run_all(&rt, program.as_str())?;
            Ok(ExitCode::SUCCESS)
        }
        _ => Ok(ExitCode::from(iw_cli::run(&rt).code())),
    }
}
