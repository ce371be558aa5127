ghost use Rattle.std.specs.Prelude.{◌≡◌, ◌<◌, ◌≤◌, true, false, None};
ghost use Rattle.std.specs.Option.{option_map};
ghost use Rattle.protocol.specs.Book.{mark_number, taken, take_refusals};
ghost use Rattle.protocol.specs.Faults.{told_by, book_number};
ghost use Rattle.protocol.specs.Refusals.{answer_unless};
ghost use Rattle.books.specs.Table.{mark_in, book_of, book_bounded, empty_book};

use crate::book::Book;
use protocol::{BookFault, LANES, Mark, PACKETS};

// A place for each sequence of each lane.
const PLACES: usize = LANES * PACKETS;

/// A book with a place for the mark of each sequence of each lane. A strict one admits an unmarked sequence once all
/// lower ones of its lane are marked, another admits the unmarked sequences in any order.
#[derive(Drop)]
pub struct ReceiptBook<const STRICT: bool> {
    places: [Option<Mark>; PLACES],
}

/// A book that admits the unmarked sequences, in any order.
pub type FreeBook = ReceiptBook<false>;

/// A book that admits an unmarked sequence once all lower ones of its lane are marked.
pub type StrictBook = ReceiptBook<true>;

impl<const STRICT: bool> ReceiptBook<STRICT> {
    /// A book without marks.
    pub fn new() -> ReceiptBook<STRICT>
        ensures { book_of STRICT result.places ≡ empty_book STRICT }
    {
        ReceiptBook {
            places: [None; PLACES],
        }
    }

    // Refuses what neither kind of book takes: a lane or a sequence outside the book, and a sequence that has a mark.
    fn unmarked(&self, lane: usize, sequence: usize) -> Result<(), BookFault>
        ensures { told_by book_number result ≡ answer_unless (take_refusals (book_of false self.now.places) lane sequence) tt }
    {
        if lane >= LANES {
            return Err(BookFault::NoSuchLane);
        }
        if sequence == 0 || sequence > PACKETS {
            return Err(BookFault::NoSuchSequence);
        }
        if self.look(lane, sequence).is_some() {
            return Err(BookFault::AlreadyMarked);
        }
        Ok(())
    }

    fn write(&mut self, lane: usize, sequence: usize, mark: Mark)
        requires lane { lane < 32 }
        requires sequence { (1 ≤ sequence) × (sequence ≤ 512) }
        ensures { mark_in self.new.places ≡ (taken (book_of STRICT self.old.places) lane sequence (mark_number mark)).mark }
    {
        self.places[lane * PACKETS + (sequence - 1)] = Some(mark);
    }
}

impl<const STRICT: bool> Book for ReceiptBook<STRICT> {
    ghost meaning = { λ b. book_of STRICT b.places };

    ghost bounded = { λ b. book_bounded STRICT b.places };

    fn is_strict(&self) -> bool {
        STRICT
    }

    fn look(&self, lane: usize, sequence: usize) -> Option<Mark> {
        if lane >= LANES || sequence == 0 || sequence > PACKETS {
            return None;
        }
        self.places[lane * PACKETS + (sequence - 1)]
    }

    fn take(&mut self, lane: usize, sequence: usize, mark: Mark) -> Result<(), BookFault> {
        self.unmarked(lane, sequence)?;
        if STRICT && !self.lower_marked(lane, sequence) {
            return Err(BookFault::LowerUnmarked);
        }
        self.write(lane, sequence, mark);
        Ok(())
    }

    fn clear(&mut self) {
        self.places = [None; PLACES];
    }
}
