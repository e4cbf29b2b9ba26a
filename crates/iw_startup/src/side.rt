use crate::config::PrivateData;

pub(crate) const REQUEST_KEY: &[u8; 16] = b"MPA ID Req Frame";

pub(crate) const REPLY_KEY: &[u8; 16] = b"MPA ID Rep Frame";

/// Which end of the connection this is, and what a responder answered.
#[derive(Debug, Drop)]
pub enum Side {
    /// It sends the Request and receives the Reply.
    Initiator,
    /// It receives the Request, and sends the Reply once its user has answered.
    Responder(Option<Reply>),
}

/// What a responder's user answered to a Request, with the private data of the Reply.
#[derive(Debug, Drop)]
pub enum Reply {
    /// The connection is to be.
    Accept(PrivateData),
    /// The connection is not to be.
    Reject(PrivateData),
}
