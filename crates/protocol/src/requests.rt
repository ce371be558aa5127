use denom::Denomination;

// Numbers of all sizes: whatever a script can say reaches the world, which refuses it. No `Option` for the timeout height: its 0
// is how none is said.

/// Which packet is meant: of which link, in which direction (0 from end 0 to end 1, and 1 back), with which sequence.
#[derive(Clone, Copy)]
pub struct PacketId {
    pub link: usize,
    pub direction: usize,
    pub sequence: usize,
}

/// What is to be sent: an amount of a denomination, by a channel of a chain, from a user there to a user at the far end, with a
/// timeout height there (0 for none).
#[derive(Clone, Copy)]
pub struct Transfer {
    pub chain: usize,
    pub channel: usize,
    pub sender: usize,
    pub receiver: usize,
    pub denomination: Denomination,
    pub amount: u64,
    pub timeout: u64,
}
