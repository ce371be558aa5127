ghost use Rattle.std.specs.Prelude.{◌≡◌, ◌<◌, List, length, is_err, Some, MatchResult};
ghost use Rattle.protocol.specs.Calls.{step, said, refusals, with_bal, ended};
ghost use Rattle.protocol.specs.Calls.Answer.{done};
ghost use Rattle.protocol.specs.Requests.{acknowledging, timing_out};
ghost use Rattle.protocol.specs.Faults.{world_number, ledger_number, told_by};
ghost use Rattle.protocol.specs.Refusals.{Refusal, first, answer_unless, left_by};
ghost use Rattle.protocol.specs.World.{is_strict};
ghost use Rattle.world.specs.Settling.{back_refusals, back_balances, refund_refused_at, refund_refusals, refunded_at, look_refusals, closed_if, On, Acknowledgeable, Expired};
ghost use Rattle.tables.specs.View.{end_view, packet_view, links_in, packets_in};
ghost use Rattle.world.specs.View.{view};

use super::world::World;
use books::Book;
use ledger::Ledger;
use protocol::{LedgerFault, PacketId, WorldFault, escrow_account};
use tables::{Effect, End, Event, Packet, Route};

// A packet that was sent, with the route of its lane and its place.
#[derive(Clone, Copy)]
struct Sent {
    route: Route,
    place: usize,
    packet: Packet,
}

impl<L: Ledger, F: Book, S: Book> World<L, F, S> {
    // The packet that is meant, with the route of its lane and its place.
    fn sent(&self, id: PacketId) -> Result<Sent, WorldFault>
        ensures { MatchResult result (λ q. On (view L.meaning F.meaning S.meaning self.now) id.link id.direction id.sequence q.route q.place q.packet) (λ f. (rest : List Refusal) → first (look_refusals (view L.meaning F.meaning S.meaning self.now) id.link id.direction id.sequence rest) ≡ Some (world_number f)) }
    {
        let route = self
            .tables
            .links
            .route(id.link, id.direction)
            .ok_or(WorldFault::NoSuchLink)?;
        let place = self
            .tables
            .packets
            .find(route.lane, id.sequence)
            .ok_or(WorldFault::NoSuchPacket)?;
        let packet = self.tables.packets.at(place);
        Ok(Sent {
            route,
            place,
            packet,
        })
    }

    // Credits what was burnt, and moves anything else back out of the channel's escrow.
    fn give_back(&mut self, near: End, packet: &Packet, number: usize) -> Result<(), LedgerFault>
        ensures answer { told_by ledger_number result ≡ answer_unless (back_refusals (L.meaning self.old.ledger) (end_view near) (packet_view packet.now) number) tt }
        ensures after { view L.meaning F.meaning S.meaning self.new ≡ left_by result (view L.meaning F.meaning S.meaning self.old) (with_bal (view L.meaning F.meaning S.meaning self.old) (back_balances (L.meaning self.old.ledger).balance (end_view near) (packet_view packet.now) number)) }
    {
        if packet.denomination.came_by(near.channel) {
            return self
                .ledger
                .credit(near.chain, packet.sender, number, packet.amount);
        }
        self.ledger.transfer(
            near.chain,
            escrow_account(near.channel),
            packet.sender,
            number,
            packet.amount,
        )
    }

    // Gives back what a packet carries, if its chain knows the denomination.
    fn pay_back(&mut self, near: End, packet: &Packet) -> Result<(), LedgerFault>
        ensures answer { is_err result ≡ refund_refused_at (view L.meaning F.meaning S.meaning self.old) (end_view near) (packet_view packet.now) }
        ensures after { view L.meaning F.meaning S.meaning self.new ≡ left_by result (view L.meaning F.meaning S.meaning self.old) (refunded_at (view L.meaning F.meaning S.meaning self.old) (end_view near) (packet_view packet.now)) }
    {
        let number = self
            .tables
            .number_of(near.chain, &packet.denomination)
            .ok_or(LedgerFault::NoSuchDenomination)?;
        self.give_back(near, packet, number)
    }

    // Undoes a send: gives back what the packet carries, and ends its standing.
    fn refund(&mut self, sent: &Sent) -> Result<(), WorldFault>
        requires { sent.now.place < length (packets_in self.old.tables.packets) }
        ensures answer { told_by world_number result ≡ answer_unless (refund_refusals (view L.meaning F.meaning S.meaning self.old) (end_view sent.now.route.near) (packet_view sent.now.packet)) tt }
        ensures after { view L.meaning F.meaning S.meaning self.new ≡ left_by result (view L.meaning F.meaning S.meaning self.old) (ended (refunded_at (view L.meaning F.meaning S.meaning self.old) (end_view sent.now.route.near) (packet_view sent.now.packet)) sent.now.place) }
    {
        match self.pay_back(sent.route.near, &sent.packet) {
            Ok(()) => {
                self.tables.packets.end(sent.place);
                Ok(())
            }
            Err(fault) => Err(WorldFault::RefundRefused(fault)),
        }
    }

    // Closes the link of a route if its book is strict.
    fn close_if_strict(&mut self, route: &Route)
        requires { route.now.link < length (links_in self.old.tables.links) }
        ensures { view L.meaning F.meaning S.meaning self.new ≡ closed_if (view L.meaning F.meaning S.meaning self.old) route.now.link ((view L.meaning F.meaning S.meaning self.old).books (is_strict route.now.kind)).strict }
    {
        if self.keeps_order(route.kind) {
            self.tables.links.close(route.link);
        }
    }

    // The packet of an acknowledgement and what comes to it, unless the world refuses.
    fn acknowledgeable(&self, id: PacketId) -> Result<(Sent, Effect), WorldFault>
        ensures { MatchResult result (λ q. Acknowledgeable (view L.meaning F.meaning S.meaning self.now) id.link id.direction id.sequence q.0.route q.0.place q.0.packet q.1) (λ f. first (refusals (view L.meaning F.meaning S.meaning self.now) (acknowledging id)) ≡ Some (world_number f)) }
    {
        let sent = self.sent(id)?;
        let route = sent.route;
        let mark = self.look(route.kind, route.lane, id.sequence);
        let blocked = self.keeps_order(route.kind)
            & self.tables.packets.lower_stands(route.lane, id.sequence);
        let effect = sent.packet.step(Event::Acknowledgement { blocked }, mark)?;
        Ok((sent, effect))
    }

    // The packet of a timeout, unless the world refuses.
    fn expired(&self, id: PacketId) -> Result<Sent, WorldFault>
        ensures { MatchResult result (λ q. Expired (view L.meaning F.meaning S.meaning self.now) id.link id.direction id.sequence q.route q.place q.packet) (λ f. first (refusals (view L.meaning F.meaning S.meaning self.now) (timing_out id)) ≡ Some (world_number f)) }
    {
        let sent = self.sent(id)?;
        let route = sent.route;
        let mark = self.look(route.kind, route.lane, id.sequence);
        let expired = route.closed | self.tables.has_passed(route.far.chain, sent.packet.timeout);
        sent.packet.step(Event::Timeout { expired }, mark)?;
        Ok(sent)
    }

    /// Ends the standing of a marked packet. A good mark changes no balance; any other refunds.
    pub fn ack(&mut self, id: PacketId) -> Result<(), WorldFault>
        ensures answer { said (λ _. done) world_number result ≡ (step (view L.meaning F.meaning S.meaning self.old) (acknowledging id)).1 }
        ensures after { view L.meaning F.meaning S.meaning self.new ≡ (step (view L.meaning F.meaning S.meaning self.old) (acknowledging id)).0 }
    {
        let (sent, effect) = self.acknowledgeable(id)?;
        if let Effect::EndsWithRefund = effect {
            return self.refund(&sent);
        }
        self.tables.packets.end(sent.place);
        Ok(())
    }

    /// Refunds an unmarked packet whose link is closed or whose timeout height is reached. On a strict link it also closes the
    /// link, both ways.
    pub fn timeout(&mut self, id: PacketId) -> Result<(), WorldFault>
        ensures answer { said (λ _. done) world_number result ≡ (step (view L.meaning F.meaning S.meaning self.old) (timing_out id)).1 }
        ensures after { view L.meaning F.meaning S.meaning self.new ≡ (step (view L.meaning F.meaning S.meaning self.old) (timing_out id)).0 }
    {
        let sent = self.expired(id)?;
        self.refund(&sent)?;
        self.close_if_strict(&sent.route);
        Ok(())
    }
}
