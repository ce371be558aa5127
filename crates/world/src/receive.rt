ghost use Rattle.std.specs.Prelude.{◌≡◌, Some, MatchResult};
ghost use Rattle.protocol.specs.Calls.{step, said, refusals};
ghost use Rattle.protocol.specs.Calls.Answer.{says};
ghost use Rattle.protocol.specs.Requests.{receiving};
ghost use Rattle.protocol.specs.Faults.{world_number};
ghost use Rattle.protocol.specs.Refusals.{first};
ghost use Rattle.protocol.specs.Book.{mark_number};
ghost use Rattle.world.specs.Receiving.{Receivable, home_mark, at_home, voucher_mark, with_voucher, arrival_at, delivered_at, if_good};
ghost use Rattle.tables.specs.View.{end_view, packet_view};
ghost use Rattle.world.specs.View.{view};

use super::world::World;
use books::Book;
use ledger::Ledger;
use protocol::{BookFault, Mark, PacketId, WorldFault, escrow_account};
use tables::{End, Event, Packet, Route};

impl<L: Ledger, F: Book, S: Book> World<L, F, S> {
    // The packet of a receipt and its route, unless the receipt is refused.
    fn receivable(&self, id: PacketId) -> Result<(Route, Packet), WorldFault>
        ensures { MatchResult result (λ q. Receivable (view L.meaning F.meaning S.meaning self.now) id.link id.direction id.sequence q.0 q.1) (λ f. first (refusals (view L.meaning F.meaning S.meaning self.now) (receiving id)) ≡ Some (world_number f)) }
    {
        let route = self
            .tables
            .links
            .route(id.link, id.direction)
            .ok_or(WorldFault::NoSuchLink)?;
        if route.closed {
            return Err(WorldFault::LinkClosed);
        }
        let place = self
            .tables
            .packets
            .find(route.lane, id.sequence)
            .ok_or(WorldFault::NoSuchPacket)?;
        let packet = self.tables.packets.at(place);
        let expired = self.tables.has_passed(route.far.chain, packet.timeout);
        let mark = self.look(route.kind, route.lane, id.sequence);
        packet.step(Event::Receipt { expired }, mark)?;
        if self.awaits_lower(route.kind, route.lane, id.sequence) {
            return Err(WorldFault::Book(BookFault::LowerUnmarked));
        }
        Ok((route, packet))
    }

    // Takes a denomination that comes home out of the escrow of the channel by which it comes, without its first hop.
    fn deliver_home(&mut self, far: End, packet: &Packet) -> Mark
        ensures answer { mark_number result ≡ home_mark (view L.meaning F.meaning S.meaning self.old) (end_view far) (packet_view packet.now) }
        ensures after { view L.meaning F.meaning S.meaning self.new ≡ if_good (mark_number result) (at_home (view L.meaning F.meaning S.meaning self.old) (end_view far) (packet_view packet.now)) (view L.meaning F.meaning S.meaning self.old) }
    {
        let freed = packet.denomination.stripped();
        let Some(number) = self.tables.number_of(far.chain, &freed) else {
            return Mark::LedgerRefused;
        };
        match self.ledger.transfer(
            far.chain,
            escrow_account(far.channel),
            packet.receiver,
            number,
            packet.amount,
        ) {
            Ok(()) => Mark::Good,
            Err(_) => Mark::LedgerRefused,
        }
    }

    // Credits a denomination that comes in behind the channel by which it comes, and registers it if it is new.
    fn deliver_voucher(&mut self, far: End, packet: &Packet) -> Mark
        ensures answer { mark_number result ≡ voucher_mark (view L.meaning F.meaning S.meaning self.old) (end_view far) (packet_view packet.now) }
        ensures after { view L.meaning F.meaning S.meaning self.new ≡ if_good (mark_number result) (with_voucher (view L.meaning F.meaning S.meaning self.old) (end_view far) (packet_view packet.now)) (view L.meaning F.meaning S.meaning self.old) }
    {
        let Some(voucher) = packet.denomination.behind(far.channel) else {
            return Mark::TooManyHops;
        };
        let Some(number) = self.tables.number_for(far.chain, &voucher) else {
            return Mark::RegisterFull;
        };
        match self
            .ledger
            .credit(far.chain, packet.receiver, number, packet.amount)
        {
            Ok(()) => {
                self.enrol(far.chain, &voucher);
                Mark::Good
            }
            Err(_) => Mark::LedgerRefused,
        }
    }

    // Delivers a packet by its first hop: what came in by the near channel goes home, anything else gets a voucher.
    fn deliver(&mut self, near: End, far: End, packet: &Packet) -> Mark
        ensures answer { mark_number result ≡ arrival_at (view L.meaning F.meaning S.meaning self.old) (end_view near) (end_view far) (packet_view packet.now) }
        ensures after { view L.meaning F.meaning S.meaning self.new ≡ if_good (mark_number result) (delivered_at (view L.meaning F.meaning S.meaning self.old) (end_view near) (end_view far) (packet_view packet.now)) (view L.meaning F.meaning S.meaning self.old) }
    {
        if packet.denomination.came_by(near.channel) {
            return self.deliver_home(far, packet);
        }
        self.deliver_voucher(far, packet)
    }

    /// Receives a packet at the end that its lane leads to, and answers its mark. Balances and register are altered with a good
    /// mark alone.
    pub fn receive(&mut self, id: PacketId) -> Result<Mark, WorldFault>
        ensures answer { said (λ m. says (mark_number m)) world_number result ≡ (step (view L.meaning F.meaning S.meaning self.old) (receiving id)).1 }
        ensures after { view L.meaning F.meaning S.meaning self.new ≡ (step (view L.meaning F.meaning S.meaning self.old) (receiving id)).0 }
    {
        let (route, packet) = self.receivable(id)?;
        let mark = self.deliver(route.near, route.far, &packet);
        self.take(route.kind, route.lane, id.sequence, mark)?;
        Ok(mark)
    }
}
