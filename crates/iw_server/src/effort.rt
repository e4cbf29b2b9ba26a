//! What one turn of a connection may do.

ghost use Rattle.std.specs.Prelude.{◌≡◌, ◌≤◌, ◌<◌, ◌-◌, ◌||◌, IfOk, OnOk, OnErr};
ghost use Rattle.iw_stream.specs.Kept.{IsWithinBuffer};
ghost use Rattle.iw_connection.specs.Steps.{GoesTo, Stops};
ghost use Rattle.iw_server.specs.Effort.{is_of_use};

use iw_connection::{Endpoint, Octets, Step, StreamNumber, is_progress};
use iw_endpoint::MAX_PLACE;

// How many steps a turn has: about as many as a read of full frames takes. So a peer whose frames carry nothing costs others no
// more than one that writes.
const MOST_STEPS: u64 = 64;

// No stream gets so far that a step could take it past MAX_PLACE.
const FARTHEST: u64 = MAX_PLACE - (1 << 24);

/// Why there is no next step.
#[derive(Clone, Copy, Debug, PartialEq, Eq)]
pub(crate) enum Halt {
    /// The turn is over. More may be to do.
    Spent,
    /// The connection is to be dropped.
    Broken,
}

/// How many steps a turn has left, and whether one of them was of use.
#[derive(Drop)]
pub(crate) struct Effort {
    left: u64,
    is_of_use: bool,
    ghost few: { left ≤ 64 },
}

// Whether a step is of use to the server: it places octets, receives a Send, or opens the stream. A Write of no octets is not.
fn is_of_use(step: &Step<Octets>) -> bool
    ensures { result ≡ is_of_use step.now }
{
    match step {
        Step::Placed { len, .. } | Step::Buffered { len, .. } => *len > 0,
        Step::Asked | Step::Opened(_) | Step::Received { .. } => true,
        Step::Done(_)
        | Step::Flushed(_)
        | Step::FlushedRecv(_)
        | Step::Closed(_)
        | Step::Requested { .. }
        | Step::Tried(_)
        | Step::Passed
        | Step::Terminated(_)
        | Step::Fault(_)
        | Step::Idle => false,
    }
}

impl Effort {
    /// That of a whole turn.
    pub(crate) fn new() -> Effort
        ensures left { result.left ≡ 64 }
    {
        Effort {
            left: MOST_STEPS,
            is_of_use: false,
        }
    }

    /// Whether a step was of use.
    pub(crate) fn is_of_use(&self) -> bool
        ensures { result ≡ self.now.is_of_use }
    {
        self.is_of_use
    }

    // Counts a step.
    fn count(&mut self, step: &Step<Octets>)
        ensures of_use { self.new.is_of_use ≡ (self.old.is_of_use || is_of_use step.now) }
        ensures left { self.new.left ≡ self.old.left - 1 }
    {
        self.left = self.left.saturating_sub(1);
        self.is_of_use = self.is_of_use || is_of_use(step);
    }
}

/// Works on to the next step of a stream that has to be acted on, as [`next`](iw_connection::next) does, with what is left of the
/// turn. An `Err` leaves the steps that were done before it, none of which has to be acted on.
pub(crate) fn next_step(
    endpoint: &mut Endpoint,
    number: StreamNumber,
    effort: &mut Effort,
) -> Result<Step<Octets>, Halt>
    ensures ok { IfOk result (λ step. GoesTo endpoint.old number step endpoint.new) }
    ensures within { IfOk result IsWithinBuffer }
    ensures err { OnErr result (Stops endpoint.old number endpoint.new) }
    ensures fewer { OnOk result (effort.new.left < effort.old.left) }
{
    let point = match endpoint.in_order_point(number) {
        Ok(point) => point,
        Err(_) => return Err(Halt::Broken),
    };
    if point > FARTHEST {
        return Err(Halt::Broken);
    }
    'steps: for n in 0..effort.left {
        match endpoint.work(number) {
            Ok(step) => {
                effort.count(&step);
                if !is_progress(&step) {
                    return Ok(step);
                }
            }
            Err(_) => return Err(Halt::Broken),
        }
    }
    Err(Halt::Spent)
}
