use crate::contents::Contents;

/// The octets of a buffer as a vector, for a call that takes them over and gives them or others back.
#[derive(Drop)]
pub struct Lent {
    pub octets: Vec<u8>,
    // The block that they stood in, which has none now.
    pub(crate) block: Box<Contents>,
}
