ghost use Rattle.std.specs.Prelude.{◌≡◌};
ghost use Rattle.iw_program.specs.Status.{stopped_status};

use iw_output::Status;
use iw_schedules::ScheduleFault;
use iw_world::WorldFault;
use std::alloc::AllocError;
use std::error::Error;
use std::fmt;

/// Why a text has no trace. It prints as `line N: NAME`, as `event N: NAME` or as `no memory`.
#[derive(Clone, Copy, Debug, PartialEq, Eq)]
pub enum Refusal {
    /// The text is no schedule.
    Schedule(ScheduleFault),
    /// The schedule's events cannot happen.
    World(WorldFault),
    /// Out of memory for the text or its trace.
    NoMemory,
}

/// Why a replay did not write a whole trace.
#[derive(Clone, Copy, Debug, PartialEq, Eq)]
pub enum ReplayFault {
    /// The text of the input has no trace.
    Refused(Refusal),
    /// The input could not be read to its end.
    Input,
    /// The output did not take the whole trace.
    Output,
}

impl ReplayFault {
    /// The program's status after this fault.
    pub fn status(self) -> Status
        ensures { result ≡ stopped_status self }
    {
        match self {
            ReplayFault::Refused(_) => Status::Refused,
            ReplayFault::Input | ReplayFault::Output => Status::Failed,
        }
    }
}

impl fmt::Display for Refusal {
    ghost use Rattle.std.specs.Prelude.{Some};
    ghost use Rattle.iw_program.specs.FaultText.{refusal_text};

    ghost output = { λ refusal. Some (refusal_text refusal) };

    fn fmt<W: fmt::Write>(&self, f: &mut fmt::Formatter<W>) -> fmt::Result {
        match self {
            Refusal::Schedule(fault) => write!(f, "{fault}"),
            Refusal::World(WorldFault::NotSent(event)) => write!(f, "event {event}: NotSent"),
            Refusal::World(WorldFault::NoSuchStream(event)) => {
                write!(f, "event {event}: NoSuchStream")
            }
            Refusal::World(WorldFault::NoMemory) | Refusal::NoMemory => write!(f, "no memory"),
        }
    }
}

impl fmt::Display for ReplayFault {
    ghost use Rattle.std.specs.Prelude.{Some};
    ghost use Rattle.iw_program.specs.FaultText.{fault_text};

    ghost output = { λ fault. Some (fault_text fault) };

    fn fmt<W: fmt::Write>(&self, f: &mut fmt::Formatter<W>) -> fmt::Result {
        match self {
            ReplayFault::Refused(refusal) => write!(f, "{refusal}"),
            ReplayFault::Input => write!(f, "the schedule could not be read"),
            ReplayFault::Output => write!(f, "the trace could not be written"),
        }
    }
}

impl Error for Refusal {}

impl Error for ReplayFault {}

impl From<AllocError> for Refusal {
    ghost use Rattle.std.specs.Prelude.{◌≡◌};
    ghost use Rattle.iw_program.specs.declared.fault.Refusal.TheVariants.{NoMemory};

    ghost from_gives = { λ _ e. e ≡ NoMemory };

    fn from(_error: AllocError) -> Refusal {
        Refusal::NoMemory
    }
}

impl From<Refusal> for ReplayFault {
    ghost use Rattle.std.specs.Prelude.{◌≡◌};
    ghost use Rattle.iw_program.specs.declared.fault.ReplayFault.TheVariants.{Refused};

    ghost from_gives = { λ refusal e. e ≡ Refused refusal };

    fn from(refusal: Refusal) -> ReplayFault {
        ReplayFault::Refused(refusal)
    }
}
