ghost use Rattle.std.specs.Prelude.{◌≡◌, ◌<◌, Some, MatchResult};
ghost use Rattle.denom.specs.Views.{denom_view};
ghost use Rattle.protocol.specs.Calls.{step, said, refusals, with_bal};
ghost use Rattle.protocol.specs.Calls.Answer.{says};
ghost use Rattle.protocol.specs.Requests.{sending};
ghost use Rattle.protocol.specs.Faults.{world_number, told_by, ledger_number};
ghost use Rattle.protocol.specs.Refusals.{first, answer_unless, left_by};
ghost use Rattle.world.specs.Sending.{Sendable, off_refusals, off_balances};
ghost use Rattle.world.specs.View.{view};

use super::world::World;
use books::Book;
use ledger::Ledger;
use protocol::{LedgerFault, PACKETS, Transfer, USERS, WorldFault, escrow_account};
use tables::{Packet, Route, Standing};

impl<L: Ledger, F: Book, S: Book> World<L, F, S> {
    // The route of a send and the number of its denomination, unless the world refuses it.
    fn sendable(&self, transfer: &Transfer) -> Result<(Route, usize), WorldFault>
        ensures { MatchResult result (λ q. Sendable (view L.meaning F.meaning S.meaning self.now) transfer.now.chain transfer.now.channel transfer.now.sender transfer.now.receiver (denom_view transfer.now.denomination) transfer.now.amount transfer.now.timeout q.0 q.1) (λ f. first (refusals (view L.meaning F.meaning S.meaning self.now) (sending transfer.now)) ≡ Some (world_number f)) }
    {
        let Transfer {
            chain,
            channel,
            sender,
            receiver,
            denomination,
            amount,
            timeout,
        } = transfer;
        if !self.serves(*chain) {
            return Err(WorldFault::NoSuchChain);
        }
        let route = self
            .tables
            .links
            .route_out(*chain, *channel)
            .ok_or(WorldFault::ChannelNotInUse)?;
        if *sender >= USERS || *receiver >= USERS {
            return Err(WorldFault::NoSuchUser);
        }
        if *amount == 0 {
            return Err(WorldFault::AmountOrStepZero);
        }
        let number = self
            .tables
            .number_of(*chain, denomination)
            .ok_or(WorldFault::NotRegistered)?;
        if route.closed {
            return Err(WorldFault::LinkClosed);
        }
        if self.tables.has_passed(route.far.chain, *timeout) {
            return Err(WorldFault::TimeoutTooLow);
        }
        if self.tables.packets.len() >= PACKETS {
            return Err(WorldFault::PacketsExhausted);
        }
        Ok((route, number))
    }

    // Burns what came in by the channel, and puts anything else into the channel's escrow.
    fn send_off(&mut self, transfer: &Transfer, number: usize) -> Result<(), LedgerFault>
        requires { transfer.now.channel < 8 }
        ensures answer { told_by ledger_number result ≡ answer_unless (off_refusals (L.meaning self.old.ledger) transfer.now.chain transfer.now.channel transfer.now.sender (denom_view transfer.now.denomination) number transfer.now.amount) tt }
        ensures after { view L.meaning F.meaning S.meaning self.new ≡ left_by result (view L.meaning F.meaning S.meaning self.old) (with_bal (view L.meaning F.meaning S.meaning self.old) (off_balances (L.meaning self.old.ledger).balance transfer.now.chain transfer.now.channel transfer.now.sender (denom_view transfer.now.denomination) number transfer.now.amount)) }
    {
        let Transfer {
            chain,
            channel,
            sender,
            denomination,
            amount,
            ..
        } = transfer;
        if denomination.came_by(*channel) {
            return self.ledger.debit(*chain, *sender, number, *amount);
        }
        self.ledger
            .transfer(*chain, *sender, escrow_account(*channel), number, *amount)
    }

    /// Sends what a transfer says, and answers the packet's sequence on its lane. What came in by the channel is burnt; anything
    /// else goes into the channel's escrow.
    pub fn send(&mut self, transfer: &Transfer) -> Result<usize, WorldFault>
        ensures answer { said says world_number result ≡ (step (view L.meaning F.meaning S.meaning self.old) (sending transfer.now)).1 }
        ensures after { view L.meaning F.meaning S.meaning self.new ≡ (step (view L.meaning F.meaning S.meaning self.old) (sending transfer.now)).0 }
    {
        let (route, number) = self.sendable(transfer)?;
        self.send_off(transfer, number)?;
        let sequence = self.tables.packets.sent_on(route.lane) + 1;
        self.tables.packets.push(Packet {
            lane: route.lane,
            sequence,
            sender: transfer.sender,
            receiver: transfer.receiver,
            denomination: transfer.denomination,
            amount: transfer.amount,
            timeout: transfer.timeout,
            standing: Standing::Stands,
        });
        Ok(sequence)
    }
}
