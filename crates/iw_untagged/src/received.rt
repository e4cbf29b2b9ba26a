/// A message that was delivered, in the buffer that was posted for it (RFC 5041 5.4).
#[derive(Debug, Drop, PartialEq, Eq)]
pub struct Received<O> {
    /// The message sequence number.
    pub msn: u32,
    /// The whole buffer.
    pub buffer: O,
    /// How many of the buffer's octets, from the first on, are the message.
    pub len: usize,
}
