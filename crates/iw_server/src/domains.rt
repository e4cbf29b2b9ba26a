ghost use Rattle.std.specs.Prelude.{◌≡◌, ◌<◌, ◌≤◌, ◌+◌, [], length, slice_index, IfSome, IfOk, OnErr};
ghost use Rattle.iw_server.specs.Domains.{HasRoom, MayAdd, taken_at, given_back_at};

use iw_endpoint::Endpoint;
use std::alloc::Global;
use std::marker::Model;

// How many regions a domain may have.
const MOST_REGIONS: u16 = 1_024;

// How many domains an endpoint may have.
const MOST_DOMAINS: usize = 255;

/// Why a connection finds no room.
#[derive(Clone, Copy, Debug, PartialEq, Eq)]
pub(crate) enum NoRoom {
    /// No domain has room for one more region, or memory ran out.
    Full,
    /// All numbers of streams were given.
    Spent,
}

/// How many regions there are in each protection domain. A domain has a place, from 0 on, and its number is one more. The next
/// domain is added once those before it are full.
#[derive(Drop)]
pub(crate) struct Domains {
    counts: Vec<u16>,
}

impl Model for Domains {
    ghost use Rattle.std.specs.Prelude.{List, ℕ};
    ghost use Rattle.iw_server.specs.Domains.{AreWithin};

    ghost Value = { List ℕ };

    ghost view = { λ d. d.counts.items };

    ghost invariant = { λ d. AreWithin d.counts.items };
}

// The first place with room.
fn place_with_room(counts: &[u16]) -> Option<usize>
    ensures { IfSome result (HasRoom counts.now) }
{
    counts.iter().position(|count| *count < MOST_REGIONS)
}

/// The number of the domain at a place.
pub(crate) fn number_at(place: usize) -> u8
    requires { place < 255 }
    ensures { result ≡ place + 1 }
{
    (place + 1) as u8
}

impl Domains {
    /// No domain.
    pub(crate) fn new(alloc: Global) -> Domains
        ensures { result ≡ [] }
    {
        Domains {
            counts: Vec::new(alloc),
        }
    }

    /// The place of a domain that has room for one more region. If there is none, the next domain is added to the endpoint. An `Err`
    /// changes nothing.
    pub(crate) fn with_room(&mut self, endpoint: &mut Endpoint) -> Result<usize, NoRoom>
        ensures room { IfOk result (HasRoom self.new) }
        ensures within { length self.new ≤ 255 }
        ensures added { MayAdd self.old self.new endpoint.old endpoint.new }
        ensures err { OnErr result (self.new ≡ self.old) }
    {
        if let Some(place) = place_with_room(self.counts.as_slice()) {
            return Ok(place);
        }
        let place = self.counts.len();
        if place >= MOST_DOMAINS {
            return Err(NoRoom::Full);
        }
        if self.counts.reserve(1).is_err() {
            return Err(NoRoom::Full);
        }
        match endpoint.add_domain(number_at(place)) {
            Ok(()) => {
                self.counts.push_reserved(0);
                Ok(place)
            }
            Err(_) => Err(NoRoom::Full),
        }
    }

    /// Counts one more region in the domain at this place.
    pub(crate) fn take(&mut self, place: usize)
        requires { HasRoom self.old place }
        ensures { self.new ≡ taken_at self.old place }
    {
        self.counts[place] += 1;
    }

    /// A region of the domain at this place is gone.
    pub(crate) fn give_back(&mut self, place: usize)
        ensures { self.new ≡ given_back_at self.old place }
    {
        if place < self.counts.len() {
            self.counts[place] = self.counts[place].saturating_sub(1);
        }
    }
}
