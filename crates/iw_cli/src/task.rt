use clap::ArgMatches;
use iw_commands::{Options, Pace, Request};

/// What the command line asks for.
#[derive(Clone, Copy, Debug)]
pub(crate) enum Task<'a> {
    Replay,
    Listen {
        port: u16,
        pace: Pace,
        options: Options,
        count: u8,
    },
    Connect {
        port: u16,
        pace: Pace,
        request: Request<'a>,
    },
    Pair {
        program: &'a str,
        request: Request<'a>,
    },
}

fn options_of(matches: &ArgMatches<'_>) -> Options {
    Options {
        markers: matches.get_flag("markers"),
        crc: matches.get_flag("crc"),
        enhanced: matches.get_flag("enhanced"),
    }
}

fn request_of<'a>(matches: &ArgMatches<'a>) -> Option<Request<'a>> {
    Some(Request {
        text: matches.get_str("text")?,
        count: matches.get_one::<u8>("count")?,
        options: options_of(matches),
    })
}

/// The task that the command line asks for. It is `None` if there is no command, which the parser does not let through.
pub(crate) fn task_of<'a>(matches: &ArgMatches<'a>) -> Option<Task<'a>> {
    let (name, words) = matches.subcommand()?;
    match name {
        "replay" => Some(Task::Replay),
        "listen" => Some(Task::Listen {
            port: words.get_one::<u16>("port")?,
            pace: Pace {
                seconds: words.get_one::<u64>("start"),
                pause: 0,
            },
            options: options_of(words),
            count: words.get_one::<u8>("count")?,
        }),
        "connect" => Some(Task::Connect {
            port: words.get_one::<u16>("port")?,
            pace: Pace {
                seconds: words.get_one::<u64>("timeout"),
                pause: words.get_one::<u64>("pause")?,
            },
            request: request_of(words)?,
        }),
        "pair" => Some(Task::Pair {
            program: words.get_str("program")?,
            request: request_of(words)?,
        }),
        _ => None,
    }
}
