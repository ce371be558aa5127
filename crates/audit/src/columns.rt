// The figures of an audit. Each is a total of its own.
ghost use Rattle.std.specs.Prelude.{◌≡◌, ◌+◌, ◌*◌, ◌<◌, ◌≤◌};
ghost use Rattle.sums.specs.Sums.{sum_below};
ghost use Rattle.denom.specs.Denomination.{behind};
ghost use Rattle.denom.specs.Views.{denom_view, token_view};
ghost use Rattle.protocol.specs.House.{escrow_account};
ghost use Rattle.protocol.specs.Audit.{token_supply, token_open as open-of-token};
ghost use Rattle.protocol.specs.World.{supply_of as supply_in, held as held_in, open_packets, on_lane_with};
ghost use Rattle.world.specs.View.{view};
ghost use Rattle.audit.specs.Figures.{held_on};

use super::balances::{balance_at, supply_at};
use super::rows::{OfToken, OnLane, Traces};
use books::Book;
use denom::{Denomination, TokenId};
use ledger::Confined;
use protocol::{CHAINS, escrow_account};
use sums::add_up;
use tables::{End, Route};
use world::World;

// What all accounts of a chain have of a denomination.
pub(crate) fn supply_of<L: Confined, F: Book, S: Book>(
    world: &World<L, F, S>,
    chain: usize,
    denomination: &Denomination,
) -> u64
    ensures { result ≡ supply_in (view L.meaning F.meaning S.meaning world.now) chain (denom_view denomination.now) }
{
    match world.tables().number_of(chain, denomination) {
        Some(number) => supply_at(world.ledger(), chain, number),
        None => 0,
    }
}

// The supply of a token at home.
pub(crate) fn supply_of_token<L: Confined, F: Book, S: Book>(
    world: &World<L, F, S>,
    token: &TokenId,
) -> u64
    ensures { result ≡ token_supply (view L.meaning F.meaning S.meaning world.now) (token_view token.now) }
{
    supply_of(world, token.chain, &Denomination::hopless(token.symbol))
}

// What the open packets of a token carry.
pub(crate) fn open_of_token<'a, L: Confined, F: Book, S: Book>(
    world: &'a World<L, F, S>,
    token: &'a TokenId,
) -> u128
    ensures sum { result ≡ open-of-token (view L.meaning F.meaning S.meaning world.now) (token_view token.now) }
    ensures within { result ≤ 512 * 18446744073709551615 }
{
    add_up(world.tables().packets.as_slice(), &OfToken { world, token })
}

// What the open packets on a lane with a denomination carry.
pub(crate) fn open_on<'a, L: Confined, F: Book, S: Book>(
    world: &'a World<L, F, S>,
    lane: usize,
    denomination: &'a Denomination,
) -> u128
    ensures sum { result ≡ open_packets (view L.meaning F.meaning S.meaning world.now) (on_lane_with lane (denom_view denomination.now)) }
    ensures within { result ≤ 512 * 18446744073709551615 }
{
    add_up(
        world.tables().packets.as_slice(),
        &OnLane {
            world,
            lane,
            denomination,
        },
    )
}

// What the users of a chain hold of a token, under every trace.
fn held_on<'a, L: Confined, F: Book, S: Book>(
    world: &'a World<L, F, S>,
    chain: usize,
    token: &'a TokenId,
) -> u128
    ensures sum { result ≡ held_on (view L.meaning F.meaning S.meaning world.now) (token_view token.now) chain }
    ensures within { result ≤ 32 * 18446744073709551615 }
{
    add_up(
        world.tables().denominations_on(chain),
        &Traces {
            world,
            chain,
            token,
        },
    )
}

// What all users hold of a token, under every trace on every chain.
pub(crate) fn held<L: Confined, F: Book, S: Book>(world: &World<L, F, S>, token: &TokenId) -> u128
    ensures sum { result ≡ held_in (view L.meaning F.meaning S.meaning world.now) (token_view token.now) }
    ensures within { result ≤ 256 * 18446744073709551615 }
{
    // A loop: that the sum fits is told by what each call answers, and a `sum` would ask it of the totals themselves.
    let mut sum: u128 = 0;
    for chain in 0..CHAINS {
        sum += held_on(world, chain, token);
    }
    sum
}

// What the account of an end's channel has of the denomination with a number.
pub(crate) fn escrow_at<L: Confined, F: Book, S: Book>(
    world: &World<L, F, S>,
    near: &End,
    number: usize,
) -> u64
    requires { number < 32 }
    ensures { result ≡ (view L.meaning F.meaning S.meaning world.now).ledger.balance near.now.chain (escrow_account near.now.channel) number }
{
    balance_at(
        world.ledger(),
        near.chain,
        escrow_account(near.channel),
        number,
    )
}

// The whole supply of a denomination's voucher at the far end.
pub(crate) fn vouchers_of<L: Confined, F: Book, S: Book>(
    world: &World<L, F, S>,
    far: &End,
    denomination: &Denomination,
) -> u64
    ensures { result ≡ supply_in (view L.meaning F.meaning S.meaning world.now) far.now.chain (behind far.now.channel (denom_view denomination.now)) }
{
    match denomination.behind(far.channel) {
        Some(voucher) => supply_of(world, far.chain, &voucher),
        None => 0,
    }
}

// What the open packets on a lane with a denomination's voucher, behind the far end's channel, carry.
fn open_vouchers<L: Confined, F: Book, S: Book>(
    world: &World<L, F, S>,
    lane: usize,
    far: &End,
    denomination: &Denomination,
) -> u128
    ensures sum { result ≡ open_packets (view L.meaning F.meaning S.meaning world.now) (on_lane_with lane (behind far.now.channel (denom_view denomination.now))) }
    ensures within { result ≤ 512 * 18446744073709551615 }
{
    match denomination.behind(far.channel) {
        Some(voucher) => open_on(world, lane, &voucher),
        None => 0,
    }
}

// What the open packets of a route's link carry, outward with a denomination and homeward with its voucher.
pub(crate) fn open_across<L: Confined, F: Book, S: Book>(
    world: &World<L, F, S>,
    route: &Route,
    homeward: usize,
    denomination: &Denomination,
) -> u128
    ensures sum { result ≡ open_packets (view L.meaning F.meaning S.meaning world.now) (on_lane_with route.now.lane (denom_view denomination.now)) + open_packets (view L.meaning F.meaning S.meaning world.now) (on_lane_with homeward (behind route.now.far.channel (denom_view denomination.now))) }
    ensures within { result ≤ 1024 * 18446744073709551615 }
{
    open_on(world, route.lane, denomination)
        + open_vouchers(world, homeward, &route.far, denomination)
}
