ghost use Rattle.std.specs.Prelude.{◌≡◌};
ghost use Rattle.iw_commands.specs.Status.{fault_status};

use iw_output::Status;
use std::alloc::AllocError;
use thiserror::Error;

/// Why a command stopped before its end.
#[derive(Clone, Copy, Debug, PartialEq, Eq, Error)]
pub enum CommandFault {
    /// The port could not be bound.
    #[error("the port could not be bound")]
    Port,
    /// The other process could not be started, or named no port.
    #[error("the other process could not be started, or named no port")]
    Program,
    /// The output did not take all that was to be printed.
    #[error("the output did not take all that was to be printed")]
    Output,
    /// Out of memory.
    #[error("no memory")]
    NoMemory,
}

impl CommandFault {
    /// The program's status after this fault.
    pub fn status(self) -> Status
        ensures { result ≡ fault_status self }
    {
        match self {
            CommandFault::Port | CommandFault::Program | CommandFault::Output => Status::Failed,
            CommandFault::NoMemory => Status::Refused,
        }
    }
}

impl From<AllocError> for CommandFault {
    ghost use Rattle.std.specs.Prelude.{◌≡◌};
    ghost use Rattle.iw_commands.specs.declared.fault.CommandFault.TheVariants.{NoMemory};

    ghost from_gives = { λ _ e. e ≡ NoMemory };

    fn from(_error: AllocError) -> CommandFault {
        CommandFault::NoMemory
    }
}
