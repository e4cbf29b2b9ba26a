/// What is carried, and how.
#[repr(C)]
#[derive(Clone, Copy)]
pub struct Load {
    /// The frames have markers.
    pub markers: bool,
    /// The frames have CRCs.
    pub crc: bool,
    /// The streams begin with start-up frames.
    pub start_up: bool,
    /// The messages are Sends instead of Writes.
    pub sends: bool,
    /// The receiving streams share one pool of receive buffers.
    pub pooled: bool,
    /// The receiving ends read the messages, one at a time each, instead of the others writing them.
    pub reads: bool,
    /// After each round what came is compared with what was posted.
    pub compared: bool,
    /// The receiving streams' steps are called from two places of the code, by turns of rounds.
    pub two_callers: bool,
    /// The frames that are emitted together are delivered from the last to the first.
    pub reversed: bool,
    /// Of the frames that are emitted together, the last is delivered before all others.
    pub last_first: bool,
    /// Each marker of a window points to a random place.
    pub lying: bool,
    /// Each marker of a window points to a frame of its own, which is as long as possible and never whole.
    pub cut: bool,
    /// The receiving side reads what was emitted from memory, right to where it is to stand.
    pub in_place: bool,
    /// The maximum ULPDU, in octets.
    pub mulpdu: u32,
    /// How many octets a message has.
    pub message: usize,
    /// How many messages are posted together.
    pub posted: usize,
    /// How many receive buffers each receiving stream has posted, or added to the pool, before the first round.
    pub ahead: usize,
    /// How many pairs of streams go by turns.
    pub pairs: usize,
    /// How many frames of a stream are emitted together.
    pub batch: usize,
    /// The first of each `late` of these frames is delivered after all others.
    pub late: usize,
    /// The most octets of a delivery.
    pub delivery: usize,
    /// The first of each `gap` deliveries of a window is left out.
    pub gap: usize,
    /// How many rounds there are.
    pub rounds: usize,
}
