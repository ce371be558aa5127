ghost use Rattle.std.specs.Prelude.{◌≡◌};
ghost use Rattle.std.specs.Option.{option_map};
ghost use Rattle.protocol.specs.Book.{Book as Meaning, mark_number, lower_marked, taken, wiped, take_refusals};
ghost use Rattle.protocol.specs.Faults.{told_by, book_number};
ghost use Rattle.protocol.specs.Refusals.{answer_unless, left_by};
ghost use Rattle.books.specs.Bounds.{Bounded};

use protocol::{BookFault, Mark};

// Lane and sequence come as they are: numbers outside the book are refused, so a struct of them would promise nothing.

/// The marks of received packets, by lane and sequence.
pub trait Book {
    ghost meaning: { Self → Meaning };

    // There are marks on lanes 0 to 31 and sequences 1 to 512 alone.
    ghost bounded: { (b : Self) → Bounded (meaning b) };

    /// Whether the book takes the sequences of a lane in their order alone.
    fn is_strict(&self) -> bool
        ensures { result ≡ (meaning self.now).strict };

    /// The mark of a sequence of a lane, if there is one.
    fn look(&self, lane: usize, sequence: usize) -> Option<Mark>
        ensures { option_map mark_number result ≡ (meaning self.now).mark lane sequence };

    /// Whether each lower sequence of the lane has a mark.
    fn lower_marked(&self, lane: usize, sequence: usize) -> bool
        ensures { result ≡ lower_marked (meaning self.now) lane sequence }
    {
        (1..sequence).all(|lower| self.look(lane, lower).is_some())
    }

    /// Writes a mark, if the book admits the sequence.
    fn take(&mut self, lane: usize, sequence: usize, mark: Mark) -> Result<(), BookFault>
        ensures answer { told_by book_number result ≡ answer_unless (take_refusals (meaning self.old) lane sequence) tt }
        ensures after { meaning self.new ≡ left_by result (meaning self.old) (taken (meaning self.old) lane sequence (mark_number mark)) };

    /// Removes all marks.
    fn clear(&mut self)
        ensures { meaning self.new ≡ wiped (meaning self.old) };
}
