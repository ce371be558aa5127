// Notes as rows of the adding-up routine.
ghost use Rattle.note_bank.specs.Notes.{note_in};

use crate::place::Note;
use sums::{Column, Row};

impl Row<Column> for Note {
    ghost amount = { λ w n i. n.amount };

    ghost counts = { note_in };

    fn worth(&self, _which: &Column, _place: usize) -> u64 {
        self.amount
    }

    fn chosen(&self, which: &Column, _place: usize) -> bool {
        which.has(self.holding.account, self.holding.denomination)
    }
}
