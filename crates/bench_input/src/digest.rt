//! A digest of results.

/// What was added so far.
#[derive(Drop)]
pub struct Digest {
    state: u64,
}

// The eight octets as a number, the first lowest.
fn word(octets: &[u8; 8]) -> u64 {
    u64::from_le_bytes(*octets)
}

// What 64 octets, or fewer, come to: each word counts by its place.
fn joined(octets: &[u8]) -> u64 {
    let (words, rest) = octets.as_chunks::<8>();
    let mut all = 0u64;
    let mut weight = 0x9e37_79b9_7f4a_7c15u64;
    for octets in words {
        all = all.wrapping_add(word(octets).wrapping_mul(weight));
        weight = weight.wrapping_add(0x5851_f42d_4c95_7f2e);
    }
    for octet in rest {
        all = all.rotate_left(8) ^ u64::from(*octet);
    }
    all
}

impl Digest {
    /// Nothing was added.
    pub fn new() -> Digest {
        Digest { state: 0 }
    }

    /// Adds a number.
    pub fn add(&mut self, number: u64) {
        self.state = (self.state.rotate_left(9) ^ number).wrapping_mul(0x9e37_79b9_7f4a_7c15);
    }

    /// Adds octets, 64 at a time, and how many there are.
    pub fn add_octets(&mut self, octets: &[u8]) {
        let (blocks, rest) = octets.as_chunks::<64>();
        for block in blocks {
            self.add(joined(block));
        }
        self.add(joined(rest));
        self.add(octets.len() as u64);
    }

    /// The digest of all that was added.
    pub fn finish(&self) -> u64 {
        self.state
    }
}
