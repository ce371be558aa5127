ghost use Rattle.std.specs.Prelude.{◌≡◌, ◌<◌, ◌≤◌, true, length, MatchOption, OnOk};
ghost use Rattle.figures.specs.Figures.{over};
ghost use Rattle.figures.specs.Sinks.{Handed};
ghost use Rattle.protocol.specs.Audit.{audit_lines, audit_line, line_refusals};
ghost use Rattle.protocol.specs.Faults.{told_by, audit_number};
ghost use Rattle.protocol.specs.Refusals.{answer_unless, left_by};
ghost use Rattle.world.specs.View.{view};
ghost use Rattle.audit.specs.Accounts.{AddsUp};
ghost use Rattle.audit.specs.Slots.{at_place, Nth};

use super::entries::{count_slots, is_filled, slot_of, write_slot};
use super::slots::Slot;
use books::Book;
use figures::Sink;
use ledger::Confined;
use protocol::{AuditFault, LINE_ROOM};
use world::World;

// Hands the line of a slot to a sink, if the slot has one.
fn put_slot<L: Confined, F: Book, S: Book, O: Sink>(
    world: &World<L, F, S>,
    place: usize,
    buffer: &mut [u8; LINE_ROOM],
    out: &mut O,
) -> Result<(), O::Error>
    ensures { OnOk result (Handed O.takes out.old (at_place (view L.meaning F.meaning S.meaning world.now) place) out.new) }
{
    let slot = slot_of(world, place);
    match write_slot(world, slot, buffer) {
        Some(len) => out.put(&buffer[0..len]),
        None => Ok(()),
    }
}

/// Hands the lines of the audit to a sink, one after another. Where calls have reached the world, every line adds up.
pub fn write_audit<L: Confined, F: Book, S: Book, O: Sink>(
    world: &World<L, F, S>,
    out: &mut O,
) -> Result<(), O::Error>
    ensures lines { OnOk result (Handed O.takes out.old (audit_lines (view L.meaning F.meaning S.meaning world.now)) out.new) }
    ensures accounts { AddsUp (view L.meaning F.meaning S.meaning world.now) }
{
    let mut buffer = [0; LINE_ROOM];
    for place in 0..count_slots(world) {
        put_slot(world, place, &mut buffer, out)?;
    }
    Ok(())
}

// The slot that has line n.
fn find_line<L: Confined, F: Book, S: Book>(world: &World<L, F, S>, n: usize) -> Option<Slot>
    ensures { MatchOption result (length (audit_lines (view L.meaning F.meaning S.meaning world.now)) ≤ n) (λ s. Nth (view L.meaning F.meaning S.meaning world.now) n s) }
{
    (0..count_slots(world))
        .map(|place| slot_of(world, place))
        .filter(|slot| is_filled(world, *slot))
        .nth(n)
}

/// Writes line n of the audit over the front of a buffer, and answers its length with LF. A buffer of less than 256 bytes, and a
/// number that no line has, is refused and leaves the buffer as it was; otherwise the bytes behind the line keep their values.
/// Where calls have reached the world, every line adds up.
pub fn write_line<L: Confined, F: Book, S: Book>(
    world: &World<L, F, S>,
    n: usize,
    buffer: &mut [u8],
) -> Result<usize, AuditFault>
    ensures answer { told_by audit_number result ≡ answer_unless (line_refusals (view L.meaning F.meaning S.meaning world.now) (length buffer.old) n) (length (audit_line (view L.meaning F.meaning S.meaning world.now) n)) }
    ensures buffer { buffer.new ≡ left_by result buffer.old (over (audit_line (view L.meaning F.meaning S.meaning world.now) n) buffer.old) }
    ensures accounts { AddsUp (view L.meaning F.meaning S.meaning world.now) }
{
    let Some(room) = buffer.first_chunk_mut() else {
        return Err(AuditFault::BufferTooSmall);
    };
    let Some(slot) = find_line(world, n) else {
        return Err(AuditFault::NoSuchLine);
    };
    match write_slot(world, slot, room) {
        Some(len) => Ok(len),
        None => Err(AuditFault::NoSuchLine),
    }
}
