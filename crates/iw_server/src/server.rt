ghost use Rattle.std.specs.Prelude.{◌≡◌, ◌≢◌, ◌<◌, ◌≤◌, ◌+◌, ◌-◌, ◌^◌, ℕ, IsSome, None, true, slice_set};
ghost use Rattle.slab.specs.Slab.{get, slab_len};
ghost use Rattle.iw_server.specs.Lateness.{IsLate, HasOpened};

use crate::closing::close_connection;
use crate::connection::Connection;
use crate::domains::{Domains, NoRoom};
use crate::host::{Host, Socket};
use crate::log::Log;
use crate::opening::{Arrival, open};
use crate::places::{Place, is_late, longest_starting, take_turn_at, watch};
use crate::terms::Terms;
use iw_endpoint::Endpoint;
use slab::Slab;
use std::alloc::Global;
use std::io::{self, ErrorKind, Write};
use std::net::SocketAddr;

// How many connections are accepted between two rounds of turns.
const MOST_ACCEPTED: u32 = 64;

// The system's numbers for: its table of files is full, or the process has no descriptor left (ENFILE, EMFILE).
const NO_DESCRIPTOR: [i32; 2] = [23, 24];

/// An endpoint, and the connections that are served at it.
#[derive(Drop)]
pub(crate) struct Server<S> {
    alloc: Global,
    terms: Terms,
    endpoint: Endpoint,
    domains: Domains,
    places: Slab<Place<S>>,
    log: Log,
    // How many connections were begun, those included that found no room; and how many of them failed.
    pub(crate) begun: u64,
    pub(crate) failed: u64,
    // No number of a stream is left: no connection is accepted any more.
    pub(crate) is_spent: bool,
    // No connection is accepted before this second: the system had no descriptor left.
    resumes: u64,
    // The second in which late connections were looked for last.
    looked: u64,
    // Each connection was begun, and fails once at most.
    ghost counted: { failed + slab_len places ≤ begun },
}

impl<S: Socket + Drop> Server<S> {
    /// A server with no connection.
    pub(crate) fn new(alloc: Global, terms: Terms) -> Server<S>
        ensures { result.begun ≡ 0 }
    {
        Server {
            alloc,
            terms,
            endpoint: Endpoint::new(alloc),
            domains: Domains::new(alloc),
            places: Slab::new(alloc),
            log: Log::new(alloc, terms.quiet),
            begun: 0,
            failed: 0,
            is_spent: false,
            resumes: 0,
            looked: 0,
        }
    }

    /// How many connections are served now.
    pub(crate) fn live(&self) -> usize
        ensures { result ≡ slab_len self.now.places }
    {
        self.places.len()
    }

    /// Accepts connections that wait, until so many were begun. Returns whether more may wait. If there is no descriptor or no room
    /// left, the connection that has waited longest for its stream to open gives way; one whose stream has opened never does.
    pub(crate) fn take_in<H: Host<S>>(&mut self, host: &mut H, count: u64, now: u64) -> bool
        requires { self.old.begun ≤ count }
        ensures begun { self.new.begun ≤ count }
        ensures kept { (key : ℕ) → HasOpened (get self.old.places key) → get self.new.places key ≡ get self.old.places key }
    {
        if now < self.resumes {
            return false;
        }
        'arrivals: for _ in 0..MOST_ACCEPTED {
            if self.begun >= count || self.is_spent {
                return false;
            }
            match host.accept() {
                Ok((socket, peer)) => self.begin(host, socket, peer, now),
                Err(error) => return self.pass_over(&error, now),
            }
        }
        true
    }

    // No connection was accepted. Returns whether more may wait.
    fn pass_over(&mut self, error: &io::Error, now: u64) -> bool
        ensures begun { self.new.begun ≡ self.old.begun }
        ensures kept { (key : ℕ) → HasOpened (get self.old.places key) → get self.new.places key ≡ get self.old.places key }
    {
        match error.kind() {
            ErrorKind::WouldBlock => false,
            // It was gone before it was accepted.
            ErrorKind::ConnectionAborted => true,
            ErrorKind::Interrupted => true,
            _ if lacks_descriptor(error) && self.make_room() => true,
            _ => {
                self.resumes = now.saturating_add(1);
                false
            }
        }
    }

    // Ends the connection that has waited longest for its stream to open. Returns whether there was one.
    fn make_room(&mut self) -> bool
        ensures begun { self.new.begun ≡ self.old.begun }
        ensures kept { (key : ℕ) → HasOpened (get self.old.places key) → get self.new.places key ≡ get self.old.places key }
    {
        match longest_starting(&self.places) {
            Some(key) => {
                self.end(key, true);
                true
            }
            None => false,
        }
    }

    // Begins to serve a connection. One that finds no room is closed at once.
    fn begin<H: Host<S>>(&mut self, host: &mut H, socket: S, peer: SocketAddr, now: u64)
        requires { self.old.begun < 2 ^ 64 - 1 }
        ensures begun { self.new.begun ≡ self.old.begun + 1 }
        ensures kept { (key : ℕ) → HasOpened (get self.old.places key) → get self.new.places key ≡ get self.old.places key }
    {
        let Ok(drawn) = host.draw() else {
            self.refuse();
            return;
        };
        match self.open(Arrival { peer, drawn, now }) {
            Ok(connection) => self.put(host, Place { connection, socket }),
            Err(refusal) => {
                self.note(refusal);
                self.refuse();
            }
        }
    }

    // Opens a stream for a connection. If there is no room, one that has not opened gives way.
    fn open(&mut self, arrival: Arrival) -> Result<Connection, NoRoom>
        ensures begun { self.new.begun ≡ self.old.begun }
        ensures kept { (key : ℕ) → HasOpened (get self.old.places key) → get self.new.places key ≡ get self.old.places key }
    {
        match self.try_open(arrival) {
            Err(NoRoom::Full) if self.make_room() => self.try_open(arrival),
            opened => opened,
        }
    }

    fn try_open(&mut self, arrival: Arrival) -> Result<Connection, NoRoom>
        ensures begun { self.new.begun ≡ self.old.begun }
        ensures same { self.new.places ≡ self.old.places }
    {
        open(
            self.alloc,
            &mut self.endpoint,
            &mut self.domains,
            self.terms,
            arrival,
        )
    }

    // Puts a connection in its place, and has the host watch its socket. If there is no memory for the place, it is closed.
    fn put<H: Host<S>>(&mut self, host: &mut H, place: Place<S>)
        requires { self.old.begun < 2 ^ 64 - 1 }
        ensures begun { self.new.begun ≡ self.old.begun + 1 }
        ensures kept { (key : ℕ) → IsSome (get self.old.places key) → get self.new.places key ≡ get self.old.places key }
    {
        if self.places.reserve(1).is_err() {
            let _ = close_connection(&mut self.endpoint, &mut self.domains, &place.connection);
            self.refuse();
            return;
        }
        let key = self.places.insert_reserved(place);
        self.begun += 1;
        self.watch(host, key);
    }

    // If all numbers of streams were given, no more connections are accepted.
    fn note(&mut self, refusal: NoRoom)
        ensures begun { self.new.begun ≡ self.old.begun }
        ensures same { self.new.places ≡ self.old.places }
        ensures spent { refusal ≡ NoRoom.Spent → self.new.is_spent ≡ true }
    {
        if refusal == NoRoom::Spent {
            self.is_spent = true;
            self.log.add_spent();
        }
    }

    // A connection found no room.
    fn refuse(&mut self)
        requires { self.old.begun < 2 ^ 64 - 1 }
        ensures begun { self.new.begun ≡ self.old.begun + 1 }
        ensures same { self.new.places ≡ self.old.places }
    {
        self.begun += 1;
        self.failed += 1;
    }

    // Has the host watch the socket of a new connection.
    fn watch<H: Host<S>>(&mut self, host: &mut H, key: usize)
        ensures begun { self.new.begun ≡ self.old.begun }
        ensures others { (other : ℕ) → other ≢ key → get self.new.places other ≡ get self.old.places other }
    {
        if !watch(&mut self.places, host, key) {
            self.end(key, true);
        }
    }

    /// The turn of a connection whose socket may be ready.
    pub(crate) fn take_turn<H: Host<S>>(&mut self, host: &mut H, key: usize, now: u64)
        ensures begun { self.new.begun ≡ self.old.begun }
        ensures others { (other : ℕ) → other ≢ key → get self.new.places other ≡ get self.old.places other }
    {
        let goes_on = take_turn_at(
            self.alloc,
            &mut self.endpoint,
            &mut self.places,
            host,
            key,
            &mut self.log,
            now,
        );
        if !goes_on {
            self.end(key, false);
        }
    }

    // Ends the connection at a key, if there is one, and closes its socket.
    fn end(&mut self, key: usize, fails: bool)
        ensures begun { self.new.begun ≡ self.old.begun }
        ensures terms { self.new.terms ≡ self.old.terms }
        ensures gone { self.new.places.slots ≡ slice_set self.old.places.slots key None }
        ensures others { (other : ℕ) → other ≢ key → get self.new.places other ≡ get self.old.places other }
    {
        let Some(place) = self.places.try_remove(key) else {
            return;
        };
        let closed = close_connection(&mut self.endpoint, &mut self.domains, &place.connection);
        if fails || closed.is_err() || !place.connection.is_completed() {
            self.failed += 1;
        }
    }

    /// Drops each connection that is late. It looks at them once a second.
    pub(crate) fn drop_late(&mut self, now: u64)
        ensures begun { self.new.begun ≡ self.old.begun }
        ensures kept { (key : ℕ) → ¬ IsLate self.old.terms now (get self.old.places key) → get self.new.places key ≡ get self.old.places key }
        ensures dropped { now ≢ self.old.looked → (key : ℕ) → ¬ IsLate self.old.terms now (get self.new.places key) }
    {
        if now == self.looked {
            return;
        }
        self.looked = now;
        'keys: for key in 0..self.places.capacity() {
            if is_late(&self.places, key, self.terms, now) {
                self.end(key, true);
            }
        }
    }

    /// Prints what there is to print, as far as the output takes it.
    pub(crate) fn print<W: Write>(&mut self, output: &mut W)
        ensures { self.new.begun ≡ self.old.begun }
    {
        self.log.print(output);
    }

    /// Prints the last lines. Returns how many the output did not take.
    pub(crate) fn finish<W: Write>(&mut self, output: &mut W) -> u64 {
        self.log.finish(output)
    }

    /// As [`Server::print`], if there is much.
    pub(crate) fn print_if_long<W: Write>(&mut self, output: &mut W)
        ensures { self.new.begun ≡ self.old.begun }
    {
        if self.log.is_long() {
            self.log.print(output);
        }
    }
}

// Whether the system, or the process, has no descriptor left.
fn lacks_descriptor(error: &io::Error) -> bool {
    match error.raw_os_error() {
        Some(number) => NO_DESCRIPTOR.contains(&number),
        None => false,
    }
}
