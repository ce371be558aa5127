ghost use Rattle.std.specs.Prelude.{◌≡◌, ℕ, ◌<◌, ◌≤◌, take, IfSome, vec_len, slice_index_or};
ghost use Rattle.protocol.specs.House.{most};
ghost use Rattle.protocol.specs.Ledger.{supply as supply_of, put as balance-put};
ghost use Rattle.bank.specs.OneChain.{chains_kept};
ghost use Rattle.note_bank.specs.Notes.{FreeFrom, Full, note_chains, note_balances, notes_kept};

use crate::pairs;
use crate::place::{Note, Place};
use bank::{Bank, Holding, Store};
use sums::{Column, add_up};

// How many places one chain takes.
const PLACES: usize = 1024;

/// A bank that serves one chain, without bars, on 1,024 places for notes; over less memory it serves none.
pub type NoteBank = Bank<Notes>;

/// The balances of one chain as notes, each in a place of its own. All notes lie in the first `used` places: the memory is
/// handed over, and no `Vec` of notes grows on it.
#[derive(Drop)]
pub struct Notes {
    places: Vec<Place>,
    used: usize,
    ghost large: { 1024 ≤ vec_len places },
    ghost supplies: { (c d : ℕ) → supply_of (note_balances places.items) c d ≤ most },
    ghost front: { used ≤ vec_len places },
    ghost rest: { FreeFrom used places.items },
}

fn wipe(places: &mut Vec<Place>)
    ensures len { vec_len places.new ≡ vec_len places.old }
    ensures empty { note_balances places.new.items ≡ (λ _ _ _. 0) }
    ensures supplies { (c d : ℕ) → supply_of (note_balances places.new.items) c d ≤ most }
    ensures free { FreeFrom 0 places.new.items }
{
    places.fill(None);
}

impl Notes {
    // The places that may hold notes.
    fn front(&self) -> &[Place]
        ensures { result.now ≡ take self.now.used self.now.places.items }
    {
        &self.places[0..self.used]
    }

    // Two notes joined, where each of 1,024 places or more holds one; the place that is free then.
    fn join(&mut self) -> usize
        requires served { 1024 ≤ self.old.used }
        requires full { Full (take self.old.used self.old.places.items) }
        ensures after { note_balances self.new.places.items ≡ note_balances self.old.places.items }
        ensures within { result < self.new.used }
        ensures free { slice_index_or self.new.places.items result None ≡ None }
    {
        let (first, second) = pairs::find_pair(self.front());
        pairs::join(&mut self.places, first, second);
        second
    }

    // The first place that no note lies in yet, where there is one, and else a place freed by joining two notes.
    fn fresh_place(&mut self) -> usize
        requires full { Full (take self.old.used self.old.places.items) }
        ensures after { note_balances self.new.places.items ≡ note_balances self.old.places.items }
        ensures within { result < self.new.used }
        ensures free { slice_index_or self.new.places.items result None ≡ None }
    {
        let place = self.used;
        if place < PLACES {
            self.used = place + 1;
            place
        } else {
            self.join()
        }
    }

    // A free place among those used: one that was freed before, or else a fresh one.
    fn free_place(&mut self) -> usize
        ensures after { note_balances self.new.places.items ≡ note_balances self.old.places.items }
        ensures within { result < self.new.used }
        ensures free { slice_index_or self.new.places.items result None ≡ None }
    {
        match pairs::find_free(self.front()) {
            Some(place) => place,
            None => self.fresh_place(),
        }
    }

    // The notes of a holding are taken away.
    fn release(&mut self, holding: Holding)
        ensures { note_balances self.new.places.items ≡ balance-put (note_balances self.old.places.items) 0 holding.account holding.denomination 0 }
    {
        pairs::release(&mut self.places[0..self.used], holding);
    }
}

impl Store for Notes {
    type Unit = Place;

    ghost room = { note_chains };

    ghost balances = { λ s. note_balances s.places.items };

    ghost kept = { λ s. notes_kept s.places.items s.supplies };

    fn over(mut places: Vec<Place>) -> Option<Notes>
        ensures chains { chains_kept result ≡ note_chains places.items }
        ensures empty { IfSome result (λ s. note_balances s.places.items ≡ (λ _ _ _. 0)) }
    {
        if places.len() < PLACES {
            return None;
        }
        places.truncate(PLACES);
        wipe(&mut places);
        Some(Notes { places, used: 0 })
    }

    fn at(&self, holding: Holding) -> u64 {
        let column = Column {
            denomination: holding.denomination,
            from: holding.account,
            to: holding.account + 1,
        };
        add_up(self.front(), &column) as u64
    }

    fn sum_of(&self, accounts: usize, denomination: usize) -> u64 {
        let column = Column {
            denomination,
            from: 0,
            to: accounts,
        };
        add_up(self.front(), &column) as u64
    }

    // A new note.
    fn give(&mut self, holding: Holding, amount: u64) {
        let place = self.free_place();
        self.places[place] = Some(Note { holding, amount });
    }

    // What is left of the notes is one note.
    fn leave(&mut self, holding: Holding, rest: u64) {
        self.release(holding);
        if rest > 0 {
            self.give(holding, rest);
        }
    }

    fn clear(&mut self) {
        wipe(&mut self.places);
        self.used = 0;
    }
}
