ghost use Rattle.std.specs.Prelude.{◌≡◌, ◌<◌, length, nat_eq, slice_index_or, slice_set};
ghost use Rattle.sums.specs.Sums.{count};
ghost use Rattle.register.specs.Keys.{number_of, found};
ghost use Rattle.protocol.specs.Calls.{no_packet, no_more_standing};
ghost use Rattle.tables.specs.Packets.{is_packet, stands_below, packet_step};
ghost use Rattle.tables.specs.View.{packet_view, packets_in};

use super::types::{Effect, Event, Packet, Packets, Standing};
use protocol::{BookFault, Mark, WorldFault};

impl Packet {
    // Whether this is the packet of a lane and a sequence: two numbers of all sizes, so no `==` of packets.
    fn is(&self, lane: usize, sequence: usize) -> bool
        ensures { result ≡ is_packet lane sequence (packet_view self.now) }
    {
        self.lane == lane && self.sequence == sequence
    }

    // Whether this packet stands and is of a lane and below a sequence.
    fn stands_below(&self, lane: usize, sequence: usize) -> bool
        ensures { result ≡ stands_below lane sequence (packet_view self.now) }
    {
        self.standing == Standing::Stands && self.lane == lane && self.sequence < sequence
    }

    /// What an event comes to.
    pub fn step(&self, event: Event, mark: Option<Mark>) -> Result<Effect, WorldFault>
        ensures { result ≡ packet_step self.now.standing event mark }
    {
        match (self.standing, event, mark) {
            (Standing::Ended, _, _) => Err(WorldFault::NotStanding),
            (Standing::Stands, Event::Receipt { expired: true }, _) => Err(
                WorldFault::PacketExpired,
            ),
            (Standing::Stands, Event::Receipt { expired: false }, None) => Ok(Effect::Arrives),
            (Standing::Stands, Event::Receipt { expired: false }, Some(_)) => Err(WorldFault::Book(
                BookFault::AlreadyMarked,
            )),
            (Standing::Stands, Event::Acknowledgement { .. }, None) => Err(WorldFault::NotMarked),
            (Standing::Stands, Event::Acknowledgement { blocked: true }, Some(_)) => Err(
                WorldFault::LowerStands,
            ),
            (Standing::Stands, Event::Acknowledgement { blocked: false }, Some(Mark::Good)) => Ok(
                Effect::Ends,
            ),
            (Standing::Stands, Event::Acknowledgement { blocked: false }, Some(_)) => Ok(
                Effect::EndsWithRefund,
            ),
            (Standing::Stands, Event::Timeout { expired: false }, _) => Err(WorldFault::NotExpired),
            (Standing::Stands, Event::Timeout { expired: true }, None) => Ok(
                Effect::EndsWithRefund,
            ),
            (Standing::Stands, Event::Timeout { expired: true }, Some(_)) => Err(
                WorldFault::Marked,
            ),
        }
    }
}

impl Packets {
    /// The place of the packet of a lane and a sequence, or nothing.
    pub fn find(&self, lane: usize, sequence: usize) -> Option<usize>
        ensures { result ≡ number_of (is_packet lane sequence) (packets_in self.now) }
    {
        self.as_slice()
            .iter()
            .position(|packet| packet.is(lane, sequence))
    }

    /// Whether a packet of a lane stands below a sequence.
    pub fn lower_stands(&self, lane: usize, sequence: usize) -> bool
        ensures { result ≡ found (stands_below lane sequence) (packets_in self.now) }
    {
        self.as_slice()
            .iter()
            .any(|packet| packet.stands_below(lane, sequence))
    }

    /// How many were sent on a lane.
    pub fn sent_on(&self, lane: usize) -> usize
        ensures { result ≡ count (λ p. nat_eq p.lane lane) (packets_in self.now) }
    {
        self.as_slice()
            .iter()
            .map(|packet| usize::from(packet.lane == lane))
            .sum()
    }

    /// Ends the standing of the packet at a place.
    pub fn end(&mut self, place: usize)
        requires { place < length (packets_in self.old) }
        ensures { packets_in self.new ≡ slice_set (packets_in self.old) place (no_more_standing (slice_index_or (packets_in self.old) place no_packet)) }
    {
        let mut packet = self.at(place);
        packet.standing = Standing::Ended;
        self.put(place, packet);
    }
}
