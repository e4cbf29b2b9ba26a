/// A part of a message: what one segment carries (RFC 5041 5.2).
#[derive(Clone, Copy, Debug, PartialEq, Eq)]
pub struct Part {
    /// The offset of its first octet in the message.
    pub offset: usize,
    /// Its length in octets.
    pub n: usize,
    /// Whether it is the message's last.
    pub last: bool,
}
