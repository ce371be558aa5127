// Which packets and which denominations a figure adds up.
ghost use Rattle.std.specs.Prelude.{◌≡◌, ◌&&◌, map, nat_lt, slice_index_or};
ghost use Rattle.sums.specs.Sums.{gate};
ghost use Rattle.denom.specs.Denomination.{same_list, same_token};
ghost use Rattle.denom.specs.Views.{denom_view, token_view};
ghost use Rattle.protocol.specs.Ledger.{users_hold};
ghost use Rattle.protocol.specs.World.{home_of, is_open as packet-open, on_lane_with, of_token, is_strict, no_link, mark_at, from_end};
ghost use Rattle.protocol.specs.Book.{mark_number};
ghost use Rattle.std.specs.Option.{option_map};
ghost use Rattle.tables.specs.View.{packet_view, link_view, links_in};
ghost use Rattle.world.specs.View.{view};

use super::balances::users_hold_at;
use books::Book;
use denom::{Denomination, TokenId};
use ledger::Confined;
use protocol::{CHAINS, DENOMINATIONS, LinkKind, Mark};
use sums::Row;
use tables::{Link, Packet, Standing, Tables};
use world::World;

// The denominations of a chain whose home is a token.
#[derive(Clone, Copy)]
pub struct Traces<'a, L: Confined, F: Book, S: Book> {
    pub(crate) world: &'a World<L, F, S>,
    pub(crate) chain: usize,
    pub(crate) token: &'a TokenId,
}

// The open packets of a token.
#[derive(Clone, Copy)]
pub struct OfToken<'a, L: Confined, F: Book, S: Book> {
    pub(crate) world: &'a World<L, F, S>,
    pub(crate) token: &'a TokenId,
}

// The open packets on a lane with a denomination.
#[derive(Clone, Copy)]
pub struct OnLane<'a, L: Confined, F: Book, S: Book> {
    pub(crate) world: &'a World<L, F, S>,
    pub(crate) lane: usize,
    pub(crate) denomination: &'a Denomination,
}

// The kind of a link; that of a free one where there is none, as a mark is defined.
fn kind_of(links: &[Link], link: usize) -> LinkKind
    ensures { is_strict result ≡ (slice_index_or (map link_view links.now) link no_link).kind }
{
    if link < links.len() {
        links[link].kind
    } else {
        LinkKind::Free
    }
}

// The mark of a packet, if it has one.
fn mark_of<L: Confined, F: Book, S: Book>(world: &World<L, F, S>, packet: &Packet) -> Option<Mark>
    ensures { option_map mark_number result ≡ mark_at (view L.meaning F.meaning S.meaning world.now) packet.now.lane packet.now.sequence }
{
    let kind = kind_of(world.tables().links.as_slice(), packet.lane / 2);
    world.look(kind, packet.lane, packet.sequence)
}

// Whether a packet stands without a mark, or with one that is not good.
fn is_open<L: Confined, F: Book, S: Book>(world: &World<L, F, S>, packet: &Packet) -> bool
    ensures { result ≡ packet-open (view L.meaning F.meaning S.meaning world.now) (packet_view packet.now) }
{
    packet.standing == Standing::Stands && mark_of(world, packet) != Some(Mark::Good)
}

// Whether a denomination has the symbol of a token; where it has not, its home need not be looked for.
fn has_symbol(denomination: &Denomination, token: &TokenId) -> bool
    ensures { result ≡ same_list (denom_view denomination.now).symbol (token_view token.now).symbol }
{
    denomination.symbol == token.symbol
}

// The chain that a packet was sent from; 0 where its lane's link is not there, as the end of a lane is defined.
fn sending_chain(tables: &Tables, packet: &Packet) -> usize
    ensures { result ≡ (from_end (links_in tables.now.links) packet.now.lane).chain }
{
    match tables.links.route(packet.lane / 2, packet.lane % 2) {
        Some(route) => route.near.chain,
        None => 0,
    }
}

// The token that a denomination of a chain stands for.
fn home_of(tables: &Tables, chain: usize, denomination: &Denomination) -> TokenId
    ensures { token_view result ≡ home_of (links_in tables.now.links) chain (denom_view denomination.now) }
{
    let (home, symbol) = tables.links.walk_home(chain, denomination);
    TokenId {
        chain: home,
        symbol,
    }
}

impl<'a, L: Confined, F: Book, S: Book> Row<Traces<'a, L, F, S>> for Denomination {
    ghost amount = { λ w e d. gate (nat_lt w.chain 8 && nat_lt d 32) (users_hold (view L.meaning F.meaning S.meaning w.world.now).ledger.balance w.chain d) };

    ghost counts = { λ w e d. same_token (home_of (view L.meaning F.meaning S.meaning w.world.now).links w.chain (denom_view e)) (token_view w.token.now) };

    fn worth(&self, which: &Traces<'a, L, F, S>, place: usize) -> u64 {
        if which.chain < CHAINS && place < DENOMINATIONS {
            users_hold_at(which.world.ledger(), which.chain, place)
        } else {
            0
        }
    }

    fn chosen(&self, which: &Traces<'a, L, F, S>, _place: usize) -> bool {
        has_symbol(self, which.token)
            && home_of(which.world.tables(), which.chain, self) == *which.token
    }
}

impl<'a, L: Confined, F: Book, S: Book> Row<OnLane<'a, L, F, S>> for Packet {
    ghost amount = { λ w p i. p.amount };

    ghost counts = { λ w p i. packet-open (view L.meaning F.meaning S.meaning w.world.now) (packet_view p) && on_lane_with w.lane (denom_view w.denomination.now) (packet_view p) };

    fn worth(&self, _which: &OnLane<'a, L, F, S>, _place: usize) -> u64 {
        self.amount
    }

    fn chosen(&self, which: &OnLane<'a, L, F, S>, _place: usize) -> bool {
        self.lane == which.lane
            && self.denomination == *which.denomination
            && is_open(which.world, self)
    }
}

impl<'a, L: Confined, F: Book, S: Book> Row<OfToken<'a, L, F, S>> for Packet {
    ghost amount = { λ w p i. p.amount };

    ghost counts = { λ w p i. packet-open (view L.meaning F.meaning S.meaning w.world.now) (packet_view p) && of_token (view L.meaning F.meaning S.meaning w.world.now) (token_view w.token.now) (packet_view p) };

    fn worth(&self, _which: &OfToken<'a, L, F, S>, _place: usize) -> u64 {
        self.amount
    }

    fn chosen(&self, which: &OfToken<'a, L, F, S>, _place: usize) -> bool {
        has_symbol(&self.denomination, which.token)
            && is_open(which.world, self)
            && home_of(
                which.world.tables(),
                sending_chain(which.world.tables(), self),
                &self.denomination,
            ) == *which.token
    }
}
