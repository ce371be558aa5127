ghost use Rattle.std.specs.Prelude.{◌≡◌, not, ◌&&◌, if◌then◌else◌};
ghost use Rattle.std.specs.Option.{option_map};
ghost use Rattle.protocol.specs.Book.{mark_number, lower_marked, taken, take_refusals};
ghost use Rattle.protocol.specs.Calls.{same_kind, with_books};
ghost use Rattle.protocol.specs.Faults.{told_by, book_number};
ghost use Rattle.protocol.specs.Refusals.{answer_unless, left_by};
ghost use Rattle.protocol.specs.World.{is_strict};
ghost use Rattle.world.specs.View.{view};

use super::world::World;
use books::Book;
use ledger::Ledger;
use protocol::{BookFault, LinkKind, Mark};

// Whether a strict book waits for a lower sequence of a lane.
fn awaits_lower<B: Book>(book: &B, lane: usize, sequence: usize) -> bool
    ensures { result ≡ ((B.meaning book.now).strict && not (lower_marked (B.meaning book.now) lane sequence)) }
{
    book.is_strict() && !book.lower_marked(lane, sequence)
}

// The books by the kind of link that each serves. Each method matches on the kind: the books are of two types, so that one closure
// cannot call either, and a `dyn` of one may not be handed out.
impl<L: Ledger, F: Book, S: Book> World<L, F, S> {
    /// The mark of a sequence of a lane, in the book for links of a kind.
    pub fn look(&self, kind: LinkKind, lane: usize, sequence: usize) -> Option<Mark>
        ensures { option_map mark_number result ≡ ((view L.meaning F.meaning S.meaning self.now).books (is_strict kind)).mark lane sequence }
    {
        match kind {
            LinkKind::Free => self.free.look(lane, sequence),
            LinkKind::Strict => self.strict.look(lane, sequence),
        }
    }

    pub(crate) fn keeps_order(&self, kind: LinkKind) -> bool
        ensures { result ≡ ((view L.meaning F.meaning S.meaning self.now).books (is_strict kind)).strict }
    {
        match kind {
            LinkKind::Free => self.free.is_strict(),
            LinkKind::Strict => self.strict.is_strict(),
        }
    }

    pub(crate) fn awaits_lower(&self, kind: LinkKind, lane: usize, sequence: usize) -> bool
        ensures { result ≡ (((view L.meaning F.meaning S.meaning self.now).books (is_strict kind)).strict && not (lower_marked ((view L.meaning F.meaning S.meaning self.now).books (is_strict kind)) lane sequence)) }
    {
        match kind {
            LinkKind::Free => awaits_lower(&self.free, lane, sequence),
            LinkKind::Strict => awaits_lower(&self.strict, lane, sequence),
        }
    }

    pub(crate) fn take(
        &mut self,
        kind: LinkKind,
        lane: usize,
        sequence: usize,
        mark: Mark,
    ) -> Result<(), BookFault>
        ensures answer { told_by book_number result ≡ answer_unless (take_refusals ((view L.meaning F.meaning S.meaning self.old).books (is_strict kind)) lane sequence) tt }
        ensures after { view L.meaning F.meaning S.meaning self.new ≡ left_by result (view L.meaning F.meaning S.meaning self.old) (with_books (view L.meaning F.meaning S.meaning self.old) (λ k. (if same_kind k (is_strict kind) then taken ((view L.meaning F.meaning S.meaning self.old).books k) lane sequence (mark_number mark) else (view L.meaning F.meaning S.meaning self.old).books k))) }
    {
        match kind {
            LinkKind::Free => self.free.take(lane, sequence, mark),
            LinkKind::Strict => self.strict.take(lane, sequence, mark),
        }
    }
}
