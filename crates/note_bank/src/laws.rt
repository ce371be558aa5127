// What a bank over places with notes means, said of its places.
ghost use Rattle.std.specs.Prelude.{◌≡◌, Option};
ghost use Rattle.protocol.specs.Ledger.{Lawful};
ghost use Rattle.note_bank.specs.declared.notes.Notes.{Notes};
ghost use Rattle.note_bank.specs.Notes.{notes_meaning};
ghost use Rattle.note_bank.specs.Meaning.{places_of};

use crate::notes::NoteBank;
use ledger::Ledger;

/// A bank is the ledger that its places with notes mean, and that ledger keeps both laws.
pub fn bank_means_its_notes()
    ensures meaning { (b : _) → ⟦<NoteBank as Ledger>⟧.meaning b ≡ notes_meaning (places_of b.store) }
    ensures lawful { (o : Option Notes) → Lawful (notes_meaning (places_of o)) }
{}
