//! Several processes that serve at one port: a parent, which serves nobody, starts them, prints their lines, and tells how each ends.
//!
//! A worker's standard input and output are pipes whose other ends the parent has. So a worker sees when the parent is gone, by
//! whatever signal, and the parent when a worker is.

ghost use Rattle.std.specs.Prelude.{◌≤◌, length, IfSome};

use crate::log::Log;
use crate::options::{Crew, worker_words};
use crate::outlet::Outlet;
use crate::shared::SharedPort;
use crate::terms::Terms;
use libc::net::{POLLIN, poll};
use libc::types::pollfd;
use std::alloc::{AllocError, Global};
use std::env;
use std::io::{self, ErrorKind, Read, Write};
use std::net::Net;
use std::os::fd::AsRawFd;
use std::os::unix::process::CommandExt;
use std::process::{Child, Command, ExitStatus, Processes, Stdio, SystemProcess};
use std::rt::Runtime;
use std::time::Clock;

// The program of this process, also if its file was replaced or removed.
const SELF: &str = "/proc/self/exe";

// How many octets of a worker's lines are read at once.
const MOST_READ: usize = 65_536;

// How many octets a line of a worker has at most: it has 8,192 of a Send.
const MOST_LINE: usize = 16_384;

// How long the parent waits for workers, in milliseconds, before it looks whether one is to be started again.
const WAIT: i32 = 1_000;

/// A process that serves.
#[derive(Drop)]
struct Worker {
    child: Child,
    // What came of a line whose end did not come yet.
    line: Vec<u8>,
    // Its first line came: it listens.
    listens: bool,
}

impl Worker {
    // Starts the program again, as a worker.
    fn start<R: Runtime + AllocGlobal + Processes<Started = SystemProcess>>(
        rt: &R,
        words: &str,
    ) -> io::Result<Worker> {
        let mut command = Command::new(rt.alloc(), SELF)?;
        if let Some(name) = env::args(rt)?.next() {
            command.arg0(name.as_str())?;
        }
        for word in words.split(' ') {
            command.arg(word)?;
        }
        command.stdin(Stdio::piped());
        command.stdout(Stdio::piped());
        Ok(Worker {
            child: command.spawn(rt)?,
            line: Vec::new(rt.alloc()),
            listens: false,
        })
    }

    // What the parent asks of its output.
    fn asked(&self) -> pollfd {
        let fd = match &self.child.stdout {
            Some(output) => output.as_raw_fd(),
            None => -1,
        };
        pollfd {
            fd,
            events: POLLIN,
            revents: 0,
        }
    }

    // Reads what it has printed. Returns how many octets that is, or `None` if it has ended.
    fn read(&mut self, buffer: &mut [u8]) -> Option<usize>
        ensures { IfSome result (λ n. n ≤ length buffer.new) }
    {
        let output = self.child.stdout.as_mut()?;
        match output.read(buffer) {
            Ok(0) => None,
            Ok(n) => Some(n),
            Err(error) if error.kind() == ErrorKind::Interrupted => Some(0),
            Err(_) => None,
        }
    }

    // Takes octets that it has printed, up to the end of a line.
    fn take(&mut self, number: u8, piece: &[u8], log: &mut Log) {
        let (octets, is_whole) = match piece.strip_suffix(b"\n") {
            Some(octets) => (octets, true),
            None => (piece, false),
        };
        let has_room = self.line.len() < MOST_LINE && octets.len() < MOST_LINE;
        if !has_room || self.line.extend_from_slice(octets).is_err() {
            self.line.clear();
            log.drop_one();
            return;
        }
        if is_whole {
            self.tell(number, log);
            self.line.clear();
        }
    }

    // Logs its line, unless that is the first one.
    fn tell(&mut self, number: u8, log: &mut Log) {
        if self.listens {
            log.add_from(number, self.line.as_slice());
        }
        self.listens = true;
    }

    // It is over. Returns how it ended, if the system says.
    fn end(mut self, log: &mut Log) -> io::Result<ExitStatus> {
        if !self.line.is_empty() {
            log.drop_one();
        }
        self.child.wait()
    }
}

/// The place of a worker.
#[derive(Drop)]
struct Post {
    // From 1 on.
    number: u8,
    worker: Option<Worker>,
    // Not before this second is one started here again.
    resumes: u64,
}

impl Post {
    fn asked(&self) -> pollfd {
        match &self.worker {
            Some(worker) => worker.asked(),
            None => pollfd {
                fd: -1,
                events: 0,
                revents: 0,
            },
        }
    }

    fn listens(&self) -> bool {
        match &self.worker {
            Some(worker) => worker.listens,
            None => false,
        }
    }

    // Takes what the worker has printed. Returns whether it goes on.
    fn hear<W: Write>(&mut self, buffer: &mut [u8], log: &mut Log, output: &mut W) -> bool {
        let Some(worker) = self.worker.as_mut() else {
            return true;
        };
        let Some(n) = worker.read(buffer) else {
            return false;
        };
        for piece in buffer[..n].split_inclusive(|octet| *octet == b'\n') {
            worker.take(self.number, piece, log);
            if log.is_long() {
                log.print(output);
            }
        }
        true
    }

    // Tells how the worker ended.
    fn end<R: Runtime>(&mut self, rt: &R, log: &mut Log, now: u64) {
        let Some(worker) = self.worker.take() else {
            return;
        };
        self.resumes = now.saturating_add(1);
        let number = self.number;
        let pid = worker.child.id();
        let _ = match worker.end(log) {
            Ok(status) => eprintln!(rt; "server: process {number} (pid {pid}) ended: {status}"),
            Err(error) => eprintln!(rt; "server: process {number} (pid {pid}) ended: {error}"),
        };
    }

    // Starts a worker here again, if it is time for that.
    fn start_again<R: Runtime + AllocGlobal + Processes<Started = SystemProcess>>(
        &mut self,
        rt: &R,
        words: &str,
        now: u64,
    ) {
        if self.worker.is_some() || now < self.resumes {
            return;
        }
        let number = self.number;
        let _ = match Worker::start(rt, words) {
            Ok(worker) => {
                let pid = worker.child.id();
                self.worker = Some(worker);
                eprintln!(rt; "server: process {number} (pid {pid}) was started again")
            }
            Err(error) => {
                self.resumes = now.saturating_add(1);
                eprintln!(rt; "server: process {number} cannot be started: {error}")
            }
        };
    }
}

/// The workers of a parent.
#[derive(Drop)]
struct Workers {
    posts: Vec<Post>,
    asked: Vec<pollfd>,
    buffer: Vec<u8>,
    log: Log,
    words: String,
}

impl Workers {
    // No worker yet.
    fn new(alloc: Global, words: String) -> Result<Workers, AllocError> {
        Ok(Workers {
            posts: Vec::new(alloc),
            asked: Vec::new(alloc),
            buffer: vec![in alloc; 0u8; MOST_READ]?,
            log: Log::new(alloc, false),
            words,
        })
    }

    // Starts so many workers.
    fn start<R: Runtime + AllocGlobal + Processes<Started = SystemProcess>>(
        &mut self,
        rt: &R,
        processes: u8,
    ) -> io::Result<()> {
        for place in 0..processes {
            let worker = Worker::start(rt, self.words.as_str())?;
            self.posts.push(Post {
                number: place.saturating_add(1),
                worker: Some(worker),
                resumes: 0,
            })?;
        }
        Ok(())
    }

    fn all_listen(&self) -> bool {
        self.posts.iter().all(|post| post.listens())
    }

    // Whether no worker is left.
    fn is_empty(&self) -> bool {
        self.posts.iter().all(|post| post.worker.is_none())
    }

    // Whether each worker is there.
    fn is_full(&self) -> bool {
        self.posts.iter().all(|post| post.worker.is_some())
    }

    // Waits until a worker has printed something or has ended, for a second at most.
    fn wait(&mut self) -> io::Result<()> {
        self.asked.clear();
        for post in self.posts.iter() {
            self.asked.push(post.asked())?;
        }
        if poll(self.asked.as_mut_slice(), WAIT) >= 0 {
            return Ok(());
        }
        let error = io::Error::from_raw_os_error(os::errno());
        self.asked.clear();
        if error.kind() == ErrorKind::Interrupted {
            return Ok(());
        }
        Err(error)
    }

    // Takes what the workers have printed, and tells of those that have ended.
    fn hear<R: Runtime, W: Write>(&mut self, rt: &R, output: &mut W) -> io::Result<()> {
        let now = rt.monotonic()?.as_secs();
        for (post, asked) in self.posts.iter_mut().zip(self.asked.iter()) {
            if asked.revents != 0 && !post.hear(self.buffer.as_mut_slice(), &mut self.log, output) {
                post.end(rt, &mut self.log, now);
            }
        }
        self.log.print(output);
        Ok(())
    }

    // Starts those again that have ended.
    fn start_again<R: Runtime + AllocGlobal + Processes<Started = SystemProcess>>(
        &mut self,
        rt: &R,
    ) -> io::Result<()> {
        let now = rt.monotonic()?.as_secs();
        for post in self.posts.iter_mut() {
            post.start_again(rt, self.words.as_str(), now);
        }
        Ok(())
    }
}

// Waits until all workers listen. Returns whether they do: one may end before.
fn await_all<R: Runtime, W: Write>(
    rt: &R,
    workers: &mut Workers,
    output: &mut W,
) -> io::Result<bool> {
    for _ in 0..u64::MAX {
        if workers.all_listen() {
            return Ok(true);
        }
        if !workers.is_full() {
            return Ok(false);
        }
        workers.wait()?;
        workers.hear(rt, output)?;
    }
    Ok(false)
}

// Prints what the workers print, until none is left.
fn oversee<R: Runtime + AllocGlobal + Processes<Started = SystemProcess>, W: Write>(
    rt: &R,
    workers: &mut Workers,
    keep: bool,
    output: &mut W,
) -> io::Result<()> {
    for _ in 0..u64::MAX {
        if keep {
            workers.start_again(rt)?;
        } else if workers.is_empty() {
            break;
        }
        workers.wait()?;
        workers.hear(rt, output)?;
    }
    Ok(())
}

/// Serves connections without end by so many processes, which listen at one port. Returns the exit status, once no process is left.
///
/// `port Q` is printed once all listen. If one ends before, so do all.
pub(crate) fn lead<R: Runtime + AllocGlobal + Net + Processes<Started = SystemProcess>>(
    rt: &R,
    crew: Crew,
    terms: Terms,
    port: u16,
) -> io::Result<u8> {
    // Kept, so that nobody else takes the port while a worker is started again.
    let shared = SharedPort::reserve(rt, port)?;
    let port = shared.port()?;
    let words = worker_words(rt.alloc(), terms, port)?;
    let mut workers = Workers::new(rt.alloc(), words)?;
    workers.start(rt, crew.processes)?;
    let mut output = Outlet::new(io::writer(rt));
    if !await_all(rt, &mut workers, &mut output)? {
        return Ok(1);
    }
    println!(rt; "port {port}")?;
    oversee(rt, &mut workers, crew.keep, &mut output)?;
    let _ = workers.log.finish(&mut output);
    eprintln!(rt; "server: no process is left")?;
    Ok(1)
}
