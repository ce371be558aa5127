ghost use Rattle.std.specs.Prelude.{◌≡◌, ◌/◌, ◌%◌, ◌≤◌, false, length, if◌then◌else◌, Some, None, MatchOption};
ghost use Rattle.figures.specs.Figures.{over};
ghost use Rattle.protocol.specs.Audit.{count_line, escrow_line};
ghost use Rattle.audit.specs.declared.slots.Slot.TheVariants.{Token};
ghost use Rattle.audit.specs.Slots.{slot_at, has_escrow, has_line, line_in, slots, Entered};
ghost use Rattle.world.specs.View.{view};

use super::columns::{escrow_at, held, open_across, open_of_token, supply_of_token, vouchers_of};
use super::lines::{put_counts, put_escrow, put_token};
use super::slots::{Entry, Slot};
use books::Book;
use ledger::Confined;
use protocol::{DENOMINATIONS, LINE_ROOM};
use world::World;

// How many slots there are.
pub(crate) fn count_slots<L: Confined, F: Book, S: Book>(world: &World<L, F, S>) -> usize
    ensures { result ≡ slots (view L.meaning F.meaning S.meaning world.now) }
{
    let tokens = world.tables().tokens.len();
    let links = world.tables().links.len();
    1 + tokens + 2 * DENOMINATIONS * links
}

// The slot at a place.
pub(crate) fn slot_of<L: Confined, F: Book, S: Book>(world: &World<L, F, S>, place: usize) -> Slot
    ensures { result ≡ slot_at (length (view L.meaning F.meaning S.meaning world.now).tokens) place }
{
    let tokens = world.tables().tokens.len();
    if place == 0 {
        Slot::Counts
    } else if place <= tokens {
        Slot::Token(place - 1)
    } else {
        let rest = place - 1 - tokens;
        Slot::Escrow {
            lane: rest / DENOMINATIONS,
            number: rest % DENOMINATIONS,
        }
    }
}

// The escrow of a denomination, by its number, at the end that a lane leads from, if there is any.
pub(crate) fn entry_at<L: Confined, F: Book, S: Book>(
    world: &World<L, F, S>,
    lane: usize,
    number: usize,
) -> Option<Entry>
    ensures { MatchOption result (has_escrow (view L.meaning F.meaning S.meaning world.now) lane number ≡ false) (λ e. Entered (view L.meaning F.meaning S.meaning world.now) lane number e) }
{
    let route = world.tables().links.route(lane / 2, lane % 2)?;
    let known = world.tables().denominations_on(route.near.chain);
    let denomination = known.get(number)?;
    let escrow = escrow_at(world, &route.near, number);
    if escrow == 0 {
        return None;
    }
    Some(Entry {
        route,
        denomination: *denomination,
        escrow,
    })
}

// Writes the line of the counts.
fn write_counts<L: Confined, F: Book, S: Book>(
    world: &World<L, F, S>,
    buffer: &mut [u8; LINE_ROOM],
) -> usize
    ensures length { result ≡ length (count_line (view L.meaning F.meaning S.meaning world.now)) }
    ensures buffer { buffer.new ≡ over (count_line (view L.meaning F.meaning S.meaning world.now)) buffer.old }
{
    let tables = world.tables();
    let tokens = tables.tokens.len();
    let links = tables.links.len();
    let packets = tables.packets.len();
    put_counts(buffer, tokens, links, packets)
}

// Writes the line of a token, by its number.
fn write_token<L: Confined, F: Book, S: Book>(
    world: &World<L, F, S>,
    number: usize,
    buffer: &mut [u8; LINE_ROOM],
) -> Option<usize>
    ensures answer { result ≡ (if has_line (view L.meaning F.meaning S.meaning world.now) (Token number) then Some (length (line_in (view L.meaning F.meaning S.meaning world.now) (Token number))) else None) }
    ensures buffer { buffer.new ≡ (if has_line (view L.meaning F.meaning S.meaning world.now) (Token number) then over (line_in (view L.meaning F.meaning S.meaning world.now) (Token number)) buffer.old else buffer.old) }
{
    let token = world.tables().tokens.as_slice().get(number)?;
    let supply = supply_of_token(world, token);
    let users = held(world, token);
    let carried = open_of_token(world, token);
    let len = put_token(buffer, token.chain, &token.symbol, supply, users, carried);
    Some(len)
}

// Writes the line of an escrow.
fn write_escrow<L: Confined, F: Book, S: Book>(
    world: &World<L, F, S>,
    lane: usize,
    number: usize,
    buffer: &mut [u8; LINE_ROOM],
) -> Option<usize>
    ensures answer { result ≡ (if has_escrow (view L.meaning F.meaning S.meaning world.now) lane number then Some (length (escrow_line (view L.meaning F.meaning S.meaning world.now) (lane / 2) (lane % 2) number)) else None) }
    ensures buffer { buffer.new ≡ (if has_escrow (view L.meaning F.meaning S.meaning world.now) lane number then over (escrow_line (view L.meaning F.meaning S.meaning world.now) (lane / 2) (lane % 2) number) buffer.old else buffer.old) }
{
    let entry = entry_at(world, lane, number)?;
    let vouchers = vouchers_of(world, &entry.route.far, &entry.denomination);
    let homeward = 2 * (lane / 2) + (1 - lane % 2);
    let carried = open_across(world, &entry.route, homeward, &entry.denomination);
    let len = put_escrow(
        buffer,
        lane / 2,
        lane % 2,
        &entry.denomination,
        entry.escrow,
        vouchers,
        carried,
    );
    Some(len)
}

// Writes the line of a slot over the front of a buffer, if the slot has one, and answers its length.
pub(crate) fn write_slot<L: Confined, F: Book, S: Book>(
    world: &World<L, F, S>,
    slot: Slot,
    buffer: &mut [u8; LINE_ROOM],
) -> Option<usize>
    ensures answer { result ≡ (if has_line (view L.meaning F.meaning S.meaning world.now) slot then Some (length (line_in (view L.meaning F.meaning S.meaning world.now) slot)) else None) }
    ensures buffer { buffer.new ≡ (if has_line (view L.meaning F.meaning S.meaning world.now) slot then over (line_in (view L.meaning F.meaning S.meaning world.now) slot) buffer.old else buffer.old) }
    ensures size { length buffer.new ≡ 256 }
{
    match slot {
        Slot::Counts => Some(write_counts(world, buffer)),
        Slot::Token(number) => write_token(world, number, buffer),
        Slot::Escrow { lane, number } => write_escrow(world, lane, number, buffer),
    }
}

// Whether a slot has a line.
pub(crate) fn is_filled<L: Confined, F: Book, S: Book>(world: &World<L, F, S>, slot: Slot) -> bool
    ensures { result ≡ has_line (view L.meaning F.meaning S.meaning world.now) slot }
{
    match slot {
        Slot::Counts => true,
        Slot::Token(number) => number < world.tables().tokens.len(),
        Slot::Escrow { lane, number } => entry_at(world, lane, number).is_some(),
    }
}
