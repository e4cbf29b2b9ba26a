//! The connections that are served, each with its socket, under keys.

ghost use Rattle.std.specs.Prelude.{◌≡◌, ◌≢◌, ◌↔◌, ℕ, IsTrue, IfSome};
ghost use Rattle.iw_server.specs.Lateness.{IsLate, IsOverdue, IsStarting, is_starting};
ghost use Rattle.slab.specs.Slab.{get, slab_len};

use crate::connection::{Connection, Phase};
use crate::host::{Host, Socket};
use crate::log::Log;
use crate::terms::Terms;
use crate::turns::{Turn, take_turn};
use iw_connection::StreamNumber;
use iw_endpoint::Endpoint;
use slab::Slab;
use std::alloc::Global;

/// A connection and its socket.
#[derive(Drop)]
pub(crate) struct Place<S> {
    pub(crate) connection: Connection,
    pub(crate) socket: S,
}

/// Has the host watch the socket at a key. Returns whether it does.
pub(crate) fn watch<S, H: Host<S>>(places: &mut Slab<Place<S>>, host: &mut H, key: usize) -> bool
    ensures others { (other : ℕ) → other ≢ key → get places.new other ≡ get places.old other }
    ensures len { slab_len places.new ≡ slab_len places.old }
{
    match places.get_mut(key) {
        Some(place) => host.watch(&mut place.socket, key).is_ok(),
        None => true,
    }
}

// The turn of a connection, after which the host watches its socket again. Returns whether the connection goes on.
fn take_turn_of<S: Socket, H: Host<S>>(
    alloc: Global,
    endpoint: &mut Endpoint,
    place: &mut Place<S>,
    host: &mut H,
    key: usize,
    log: &mut Log,
    now: u64,
) -> bool {
    let turn = take_turn(
        alloc,
        endpoint,
        &mut place.connection,
        &mut place.socket,
        log,
        now,
    );
    match turn {
        Turn::Waits(waits) => {
            let is_watched = host.watch_again(&mut place.socket, key, waits).is_ok();
            if !is_watched {
                place.connection.has_failed = true;
            }
            is_watched
        }
        Turn::Over => false,
    }
}

/// The turn of the connection at a key, if there is one, and what the host is to watch then. Returns whether the connection is not
/// over.
pub(crate) fn take_turn_at<S: Socket, H: Host<S>>(
    alloc: Global,
    endpoint: &mut Endpoint,
    places: &mut Slab<Place<S>>,
    host: &mut H,
    key: usize,
    log: &mut Log,
    now: u64,
) -> bool
    ensures others { (other : ℕ) → other ≢ key → get places.new other ≡ get places.old other }
    ensures len { slab_len places.new ≡ slab_len places.old }
{
    match places.get_mut(key) {
        Some(place) => take_turn_of(alloc, endpoint, place, host, key, log, now),
        None => true,
    }
}

// Whether a connection's stream is not open yet.
fn is_starting(connection: &Connection) -> bool
    ensures { result ≡ is_starting connection.now.phase }
{
    match connection.phase {
        Phase::Starting => true,
        Phase::Running | Phase::Ended | Phase::Closed | Phase::Shut => false,
    }
}

// Whether a connection's time to open its stream is over, or nothing of use went on it for too long.
fn is_overdue(connection: &Connection, terms: Terms, now: u64) -> bool
    ensures { IsTrue result ↔ IsOverdue terms now connection.now }
{
    if is_starting(connection) {
        now.saturating_sub(connection.begun) > terms.start
    } else {
        now.saturating_sub(connection.moved) > terms.stall
    }
}

/// Whether there is a connection at a key that is late.
pub(crate) fn is_late<S>(places: &Slab<Place<S>>, key: usize, terms: Terms, now: u64) -> bool
    ensures { IsTrue result ↔ IsLate terms now (get places.now key) }
{
    match places.get(key) {
        Some(place) => is_overdue(&place.connection, terms, now),
        None => false,
    }
}

// The number of the stream of the connection at a key, if that is not open yet.
fn starting_at<S>(places: &Slab<Place<S>>, key: usize) -> Option<StreamNumber>
    ensures { IfSome result (λ number. IsStarting (get places.now key)) }
{
    let place = places.get(key)?;
    if is_starting(&place.connection) {
        Some(place.connection.stream)
    } else {
        None
    }
}

/// The key of the connection that has waited longest for its stream to open: the one whose stream has the lowest number.
pub(crate) fn longest_starting<S>(places: &Slab<Place<S>>) -> Option<usize>
    ensures { IfSome result (λ key. IsStarting (get places.now key)) }
{
    let mut longest: Option<(usize, StreamNumber)> = None;
    'keys: for key in 0..places.capacity() {
        if let Some(number) = starting_at(places, key) {
            match longest {
                Some((_, lowest)) if lowest <= number => {}
                _ => longest = Some((key, number)),
            }
        }
    }
    match longest {
        Some((key, _)) => Some(key),
        None => None,
    }
}
