use std::alloc::Global;

/// How many octets a Write has, a read takes at most, and a plain write writes.
pub(crate) const BLOCK: usize = 65_536;

/// How a load is sent over the connection.
#[derive(Clone, Copy)]
pub(crate) enum Way {
    /// As plain octets, with no endpoint.
    Copied,
    /// As Writes, in ULPDUs of at most this many octets, with markers and CRCs or with neither.
    Written { mulpdu: u32, is_framed: bool },
}

/// Octets to carry: a number of blocks in each round. Each round is answered before the next begins.
#[derive(Clone, Copy)]
pub(crate) struct Load {
    pub(crate) way: Way,
    pub(crate) blocks: u32,
    pub(crate) rounds: u32,
}

impl Way {
    /// The way with this name.
    pub(crate) fn named(name: &str) -> Option<Way> {
        match name {
            "copied" => Some(Way::Copied),
            "plain-64512" => Some(Way::Written {
                mulpdu: 64_512,
                is_framed: false,
            }),
            "plain-1400" => Some(Way::Written {
                mulpdu: 1_400,
                is_framed: false,
            }),
            "framed-64512" => Some(Way::Written {
                mulpdu: 64_512,
                is_framed: true,
            }),
            "framed-1400" => Some(Way::Written {
                mulpdu: 1_400,
                is_framed: true,
            }),
            _ => None,
        }
    }
}

/// The names of the ways.
pub(crate) const WAYS: [&str; 5] = [
    "copied",
    "plain-64512",
    "plain-1400",
    "framed-64512",
    "framed-1400",
];

/// The octets of a block.
pub(crate) fn block(alloc: Global) -> anyhow::Result<Vec<u8>> {
    let mut octets = vec![in alloc; 0u8; BLOCK]?;
    let mut next = 1u8;
    for octet in octets.iter_mut() {
        *octet = next;
        next = next.wrapping_mul(5).wrapping_add(1);
    }
    Ok(octets)
}
