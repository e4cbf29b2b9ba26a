ghost use Rattle.std.specs.Prelude.{◌≡◌};
ghost use Rattle.iw_schedules.specs.Reading.{fault_at};

use std::alloc::{AllocError, AllocFailed};
use std::error::Error;
use std::fmt;

/// What is wrong with a line of a schedule: the first fault from left to right.
#[derive(Clone, Copy, Debug, PartialEq, Eq)]
pub enum FaultName {
    /// An unknown word, end, role or kind; or too few or too many words.
    BadWord,
    /// A word that is no number, or no STag; or a number that is out of range.
    BadNumber,
    /// A word that is no octets, no rights or no options; or too many octets.
    BadOctets,
    /// The line is right, but with its events the schedule has more than 1,000,000.
    TooMany,
}

/// Why a schedule was not read. It prints as `line N: NAME`, or as `no memory`.
#[derive(Clone, Copy, Debug, PartialEq, Eq)]
pub enum ScheduleFault {
    /// The first line with a fault, and the fault. Lines are counted from 1.
    Line { line: u64, name: FaultName },
    /// Out of memory.
    NoMemory,
}

/// Why a part of a line was not read.
#[derive(Clone, Copy)]
pub(crate) enum ReadError {
    Fault(FaultName),
    NoMemory,
}

impl ReadError {
    /// The fault of a schedule, given that of a line.
    pub(crate) fn at(self, line: u64) -> ScheduleFault
        ensures { result ≡ fault_at line self }
    {
        match self {
            ReadError::Fault(name) => ScheduleFault::Line { line, name },
            ReadError::NoMemory => ScheduleFault::NoMemory,
        }
    }
}

impl fmt::Display for FaultName {
    ghost use Rattle.std.specs.Prelude.{Some};
    ghost use Rattle.iw_schedules.specs.FaultText.{fault_name};

    ghost output = { λ name. Some (fault_name name) };

    fn fmt<W: fmt::Write>(&self, f: &mut fmt::Formatter<W>) -> fmt::Result {
        f.write_str(match self {
            FaultName::BadWord => "BadWord",
            FaultName::BadNumber => "BadNumber",
            FaultName::BadOctets => "BadOctets",
            FaultName::TooMany => "TooMany",
        })
    }
}

impl fmt::Display for ScheduleFault {
    ghost use Rattle.std.specs.Prelude.{Some};
    ghost use Rattle.iw_schedules.specs.FaultText.{fault_text};

    ghost output = { λ fault. Some (fault_text fault) };

    fn fmt<W: fmt::Write>(&self, f: &mut fmt::Formatter<W>) -> fmt::Result {
        match self {
            ScheduleFault::Line { line, name } => write!(f, "line {line}: {name}"),
            ScheduleFault::NoMemory => write!(f, "no memory"),
        }
    }
}

impl Error for FaultName {}

impl Error for ScheduleFault {}

impl From<FaultName> for ReadError {
    ghost use Rattle.std.specs.Prelude.{◌≡◌};
    ghost use Rattle.iw_schedules.specs.declared.fault.ReadError.TheVariants.{Fault};

    ghost from_gives = { λ name e. e ≡ Fault name };

    fn from(name: FaultName) -> ReadError {
        ReadError::Fault(name)
    }
}

impl From<AllocError> for ReadError {
    ghost use Rattle.std.specs.Prelude.{◌≡◌};
    ghost use Rattle.iw_schedules.specs.declared.fault.ReadError.TheVariants.{NoMemory};

    ghost from_gives = { λ _ e. e ≡ NoMemory };

    fn from(_error: AllocError) -> ReadError {
        ReadError::NoMemory
    }
}

impl<T: Drop> From<AllocFailed<T>> for ReadError {
    ghost use Rattle.std.specs.Prelude.{◌≡◌};
    ghost use Rattle.iw_schedules.specs.declared.fault.ReadError.TheVariants.{NoMemory};

    ghost from_gives = { λ _ e. e ≡ NoMemory };

    fn from(_error: AllocFailed<T>) -> ReadError {
        ReadError::NoMemory
    }
}
