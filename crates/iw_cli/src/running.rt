use crate::command_line::iwarp;
use crate::task::{Task, task_of};
use clap::error::ErrorKind;
use iw_commands::{CommandFault, Request, connect, listen, pair};
use iw_links::MOST_TEXT;
use iw_output::Status;
use iw_program::{ReplayFault, replay};
use std::io;
use std::net::Net;
use std::process::Processes;
use std::rt::Runtime;

fn run_replay<R: Runtime + AllocGlobal>(rt: &R) -> Status {
    let mut input = rt.reader();
    let mut output = io::writer(rt);
    match replay(rt.alloc(), &mut input, &mut output) {
        Ok(status) => status,
        Err(fault) => {
            if let ReplayFault::Refused(refusal) = fault {
                let _ = eprintln!(rt; "{refusal}");
            }
            fault.status()
        }
    }
}

// The status of a command. Of its faults, only running out of memory is reported on standard error.
fn ended<R: Runtime>(rt: &R, outcome: Result<Status, CommandFault>) -> Status {
    match outcome {
        Ok(status) => status,
        Err(fault) => {
            if fault == CommandFault::NoMemory {
                let _ = eprintln!(rt; "{fault}");
            }
            fault.status()
        }
    }
}

// Whether the text is short enough. Called before anything is started.
fn is_sendable<R: Runtime>(rt: &R, request: &Request<'_>) -> bool {
    if request.text.len() <= MOST_TEXT {
        return true;
    }
    let _ = eprintln!(rt; "text too long");
    false
}

fn run_task<R: Runtime + AllocGlobal + Net + Processes>(rt: &R, task: &Task<'_>) -> Status {
    let alloc = rt.alloc();
    let mut print = io::writer(rt);
    match task {
        Task::Replay => run_replay(rt),
        Task::Listen {
            port,
            pace,
            options,
            count,
        } => ended(
            rt,
            listen(alloc, rt, *port, *pace, *options, *count, &mut print),
        ),
        Task::Connect {
            port,
            pace,
            request,
        } if is_sendable(rt, request) => ended(
            rt,
            connect(alloc, rt, *port, *pace, request, &mut print),
        ),
        Task::Pair { program, request } if is_sendable(rt, request) => {
            ended(rt, pair(alloc, rt, program, request, &mut print))
        }
        Task::Connect { .. } | Task::Pair { .. } => Status::Refused,
    }
}

fn tell_no_memory<R: Runtime>(rt: &R) -> Status {
    let _ = eprintln!(rt; "no memory");
    Status::Refused
}

// Reports why the command line was not read: a word is not UTF-8, or memory ran out.
fn tell_unread<R: Runtime>(rt: &R, error: &io::Error) -> Status {
    if error.kind() == io::ErrorKind::OutOfMemory {
        return tell_no_memory(rt);
    }
    let _ = eprintln!(rt; "{error}");
    Status::Refused
}

// Prints the help, or what is wrong with the command line.
fn tell<R: Runtime + AllocGlobal>(rt: &R, error: &clap::Error) -> Status {
    if error.kind() == ErrorKind::OutOfMemory {
        return tell_no_memory(rt);
    }
    match error.print(rt) {
        Err(_) if error.exit_code() == 0 => Status::Failed,
        _ if error.exit_code() == 0 => Status::Completed,
        _ => Status::Refused,
    }
}

// The words of this process's command line, its name first.
fn read_words<R: Runtime + AllocGlobal>(rt: &R) -> io::Result<Vec<String>> {
    let alloc = rt.alloc();
    let words = std::env::args(rt)?.collect(alloc)?;
    Ok(words)
}

fn run_words<R: Runtime + AllocGlobal + Net + Processes>(
    rt: &R,
    words: &[String],
) -> Result<Status, clap::Error> {
    let matches = iwarp(rt.alloc())?.try_get_matches_from(words)?;
    Ok(match task_of(&matches) {
        Some(task) => run_task(rt, &task),
        None => Status::Refused,
    })
}

/// Does what this process's command line asks for, and returns the status. Errors of the command line or of a replayed
/// schedule are reported on standard error.
pub fn run<R: Runtime + AllocGlobal + Net + Processes>(rt: &R) -> Status {
    let words = match read_words(rt) {
        Ok(words) => words,
        Err(error) => return tell_unread(rt, &error),
    };
    match run_words(rt, words.as_slice()) {
        Ok(status) => status,
        Err(error) => tell(rt, &error),
    }
}
