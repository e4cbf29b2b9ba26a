//! The command line of `iwarp`: its commands, with their options and their help.

use clap::{Arg, ArgAction, Command, value_parser};
use std::alloc::Global;

const REPLAY_HELP: &str = "\
Exit status:
  0  The schedule ran, and its trace was written
  1  The trace was written, and a stream in it ends by a fault or a Terminate, or is closed by a start-up frame; or
     standard input or output failed (standard error says nothing)
  2  The schedule or the command line was refused, or memory ran out (standard error says why)

Example: iwarp replay < examples/first.schedule";

const LISTEN_HELP: &str = "\
All connections share one region of 65536 octets, zero at the start: a later peer may get back what an earlier one
wrote. Connections are served one after the other: a peer that has started up and stays silent blocks the command for
ever. A start-up frame at fault closes its connection at once, and so does one that is not whole in time (--start).

The answer is sent at the end of the peer's output. With --enhanced it is sent once the peer's Send was received, and
peers may use MPA revision 1 or 2.

Exit status:
  0  A Send was received on each connection, and none failed
  1  A connection failed (standard output says how); or the port could not be bound, or standard output failed
     (standard error says nothing)
  2  The command line was refused, or memory ran out (standard error says why)

Example: iwarp listen --port 4420 --count 2";

const CONNECT_HELP: &str = "\
The output ends once the text was sent. With --enhanced it ends only after the answer, and the peer has to use MPA
revision 2. A Reply that is at fault or rejects closes the connection at once. Use --pause 300 with Linux's siw: it may
leave unread what comes right behind its Reply.

Exit status:
  0  An answer was received on each connection, and none failed
  1  A connection failed or could not be made (standard output says how); or standard output failed (standard error
     says nothing)
  2  The command line was refused, or memory ran out (standard error says why)

Example: iwarp connect --port 4420 --count 2 --text hello --markers --crc";

const PAIR_HELP: &str = "\
Both processes use --markers, --crc and --enhanced if they are given.

Exit status:
  0  An answer was received on each connection, none failed, and the other process ended with 0
  1  A connection failed or could not be made (standard output says how); or the other process ended with another
     status, could not be started or named no port, or standard output failed (standard error says nothing)
  2  The command line was refused, or memory ran out (standard error says why)

Example: iwarp pair --program ./iwarp --count 2 --markers";

fn replay<'a>(alloc: Global) -> Command<'a> {
    Command::new(alloc, "replay")
        .about("Runs the schedule on standard input and writes its trace to standard output")
        .after_help(REPLAY_HELP)
}

fn count_option<'a>(alloc: Global) -> Arg<'a> {
    Arg::new(alloc, "count")
        .long("count")
        .value_name("N")
        .help("The number of connections, one after the other: 1 to 64")
        .value_parser(value_parser!(u8).range(1..=64))
        .default_value("1")
}

fn flag<'a>(alloc: Global, name: &'a str, help: &'a str) -> Arg<'a> {
    Arg::new(alloc, name)
        .long(name)
        .help(help)
        .action(ArgAction::SetTrue)
}

fn seconds_option<'a>(alloc: Global, name: &'a str, help: &'a str) -> Arg<'a> {
    Arg::new(alloc, name)
        .long(name)
        .value_name("SECONDS")
        .help(help)
        .value_parser(value_parser!(u64).range(1..=86_400))
}

fn pause_option<'a>(alloc: Global) -> Arg<'a> {
    Arg::new(alloc, "pause")
        .long("pause")
        .value_name("MS")
        .help("Waits so many milliseconds before what it sends behind its Request: 0 to 60000")
        .value_parser(value_parser!(u64).range(0..=60_000))
        .default_value("0")
}

// The options of each command that makes connections.
fn with_options<'a>(alloc: Global, command: Command<'a>) -> Result<Command<'a>, clap::Error> {
    Ok(
        command
            .arg(count_option(alloc))?
            .arg(flag(alloc, "markers", "Asks the other end to send markers"))?
            .arg(flag(alloc, "crc", "Asks for CRCs in both directions"))?
            .arg(flag(
                alloc,
                "enhanced",
                "Uses revision 2 of MPA (RFC 6581), as Linux's own iWARP does",
            ))?,
    )
}

fn text_option<'a>(alloc: Global) -> Arg<'a> {
    Arg::new(alloc, "text")
        .long("text")
        .value_name("T")
        .help("The text to write and send: at most 4096 octets of UTF-8")
        .allow_hyphen_values(true)
        .default_value("hi")
}

fn listen<'a>(alloc: Global) -> Result<Command<'a>, clap::Error> {
    let port = Arg::new(alloc, "port")
        .long("port")
        .value_name("P")
        .help("The port to bind: 0 to 65535; 0 binds any free port")
        .value_parser(value_parser!(u16).range(0..=65_535))
        .default_value("0");
    with_options(
        alloc,
        Command::new(alloc, "listen")
            .about(
                "Serves connections on 127.0.0.1: prints its port, and sends back what peers write into its region",
            )
            .after_help(LISTEN_HELP)
            .arg(port)?
            .arg(seconds_option(
                alloc,
                "start",
                "Closes a connection that has not started up after so many seconds: 1 to 86400",
            )
            .default_value("10"))?,
    )
}

fn connect<'a>(alloc: Global) -> Result<Command<'a>, clap::Error> {
    let port = Arg::new(alloc, "port")
        .long("port")
        .value_name("P")
        .help("The port to connect to: 1 to 65535")
        .required(true)
        .value_parser(value_parser!(u16).range(1..=65_535));
    with_options(
        alloc,
        Command::new(alloc, "connect")
            .about(
                "Connects to `iwarp listen` on 127.0.0.1: writes a text into its region, and prints what comes back",
            )
            .after_help(CONNECT_HELP)
            .arg(port)?
            .arg(text_option(alloc))?
            .arg(seconds_option(
                alloc,
                "timeout",
                "Gives up a connection that takes more than so many seconds: 1 to 86400; without it, none",
            ))?
            .arg(pause_option(alloc))?,
    )
}

fn pair<'a>(alloc: Global) -> Result<Command<'a>, clap::Error> {
    let program = Arg::new(alloc, "program")
        .long("program")
        .value_name("PATH")
        .help("The program to start with `listen`")
        .required(true);
    with_options(
        alloc,
        Command::new(alloc, "pair")
            .about("Starts `PATH listen` as a second process, and does as `connect` at its port")
            .after_help(PAIR_HELP)
            .arg(program)?
            .arg(text_option(alloc))?,
    )
}

/// The command line. An `Err` means out of memory.
pub(crate) fn iwarp<'a>(alloc: Global) -> Result<Command<'a>, clap::Error> {
    Ok(
        Command::new(alloc, "iwarp")
            .version("1.3.0")
            .about("iWARP: RDMA over TCP, as schedules that are replayed and between two processes")
            .subcommand_required(true)
            .arg_required_else_help(true)
            .subcommand(replay(alloc))?
            .subcommand(listen(alloc)?)?
            .subcommand(connect(alloc)?)?
            .subcommand(pair(alloc)?)?,
    )
}
