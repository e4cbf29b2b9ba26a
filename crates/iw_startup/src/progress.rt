use thiserror::Error;

/// How far the peer's frame has come.
#[derive(Clone, Copy, Debug, PartialEq, Eq)]
pub enum Progress {
    /// It is not whole.
    More,
    /// A responder has the whole Request. It waits for its user's answer, or has it.
    Asked,
    /// An initiator has the whole Reply, which accepts. [`Startup::mismatch`](crate::Startup::mismatch) tells whether it
    /// wants what this end does not have.
    Agreed,
    /// The peer's frame ends the connection.
    Faulted(StartupFault),
}

/// What is wrong with the peer's frame: the first that holds.
///
/// The first three are told once the 20 fixed octets are there, the last once the whole frame is.
#[derive(Clone, Copy, Debug, PartialEq, Eq, Error)]
pub enum StartupFault {
    /// It does not begin with the key of the frame that is due.
    #[error("the frame does not begin with the key that is due")]
    BadKey,
    /// Its revision is none that is due. On a stream that is `Plain` that is 1. Otherwise a Request may be of revision 1 or
    /// 2, and a Reply has to be of revision 2, with S.
    #[error("the frame's revision is not the one that is due")]
    BadRev,
    /// It names more than 512 octets of private data, or fewer than the 4 of the word that an enhanced frame has.
    #[error("the frame names too many or too few octets of private data")]
    BadLength,
    /// It is a Reply that rejects.
    #[error("the Reply rejects")]
    Rejected,
}
