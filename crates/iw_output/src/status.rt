ghost use Rattle.std.specs.Prelude.{◌≡◌};
ghost use Rattle.iw_output.specs.Status.{code_of, with};

/// How a run of the program ends.
#[derive(Clone, Copy, Debug, PartialEq, Eq)]
pub enum Status {
    /// It did what was asked.
    Completed,
    /// A stream ended by a fault (of start-up too), by the peer's Terminate or by a broken link; or something outside
    /// failed: input or output, a port, another process.
    Failed,
    /// What was asked was refused before anything was done; or memory ran out, perhaps after some of it was done.
    Refused,
}

impl Status {
    /// The exit status of the process.
    pub fn code(self) -> u8
        ensures { result ≡ code_of self }
    {
        match self {
            Status::Completed => 0,
            Status::Failed => 1,
            Status::Refused => 2,
        }
    }

    /// The status of a run with a part of this status and a later part of status `later`: that of the first part that
    /// is not completed, or `Completed`.
    pub fn with(self, later: Status) -> Status
        ensures { result ≡ with self later }
    {
        match self {
            Status::Completed => later,
            Status::Failed | Status::Refused => self,
        }
    }
}
