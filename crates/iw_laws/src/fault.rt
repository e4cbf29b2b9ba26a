use std::alloc::{AllocError, AllocFailed};
use thiserror::Error;

/// Why a run of events has no trace. Events are numbered from 1.
#[derive(Clone, Copy, Debug, PartialEq, Eq, Error)]
pub enum WorldFault {
    /// The event delivers octets that the other end has not emitted.
    #[error("event {0} delivers octets that were not emitted")]
    NotSent(usize),
    /// The event names a stream that was never opened at its end or, for a delivery, at the other.
    #[error("event {0} names a stream that was not opened")]
    NoSuchStream(usize),
    /// There is no memory.
    #[error("no memory")]
    NoMemory,
}

impl From<AllocError> for WorldFault {
    ghost use Rattle.std.specs.Prelude.{◌≡◌};
    ghost use Rattle.iw_laws.specs.declared.fault.WorldFault.TheVariants.{NoMemory};

    ghost from_gives = { λ _ e. e ≡ NoMemory };

    fn from(_error: AllocError) -> Self {
        WorldFault::NoMemory
    }
}

impl<T: Drop> From<AllocFailed<T>> for WorldFault {
    ghost use Rattle.std.specs.Prelude.{◌≡◌};
    ghost use Rattle.iw_laws.specs.declared.fault.WorldFault.TheVariants.{NoMemory};

    ghost from_gives = { λ _ e. e ≡ NoMemory };

    fn from(_error: AllocFailed<T>) -> Self {
        WorldFault::NoMemory
    }
}
