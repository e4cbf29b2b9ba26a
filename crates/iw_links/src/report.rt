use iw_octets::{Fault, Octets};
use iw_startup::StartupFault;

/// How a stream ended.
#[derive(Clone, Copy, Debug, PartialEq, Eq)]
pub enum Ended {
    /// By a fault of the peer's, which this end found.
    Fault(Fault),
    /// By the peer's Terminate, which names this fault.
    Terminated(Fault),
    /// By the peer's start-up frame.
    Closed(StartupFault),
}

/// The report of a connection. Its lines come in this order: the Send that was received, how the stream ended, and that
/// its link broke.
#[derive(Debug, PartialEq, Drop)]
pub struct Report {
    /// The octets of the Send that was received.
    pub received: Option<Octets>,
    /// How the stream ended, if the peer caused it.
    pub ended: Option<Ended>,
    /// The link broke: the reader or writer failed, the peer's output ended before a Send was received on a stream that
    /// had not ended, the Reply did not name a region, the window was full, or memory ran out.
    pub broken: bool,
}

impl Report {
    ghost use Rattle.std.specs.Prelude.{◌≡◌, ◌↔◌, IsTrue};
    ghost use Rattle.iw_links.specs.Exchange.{nothing_told, is_completed};

    /// A report of nothing.
    pub fn new() -> Report
        ensures { result ≡ nothing_told }
    {
        Report {
            received: None,
            ended: None,
            broken: false,
        }
    }

    /// Whether a Send was received, the stream did not end, and its link did not break.
    pub fn is_completed(&self) -> bool
        ensures { result ≡ is_completed self.now }
    {
        self.received.is_some() && self.ended.is_none() && !self.broken
    }
}
