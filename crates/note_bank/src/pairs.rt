// What is done with the places: finding a free one, joining two notes, freeing places.
ghost use Rattle.std.specs.Prelude.{◌≡◌, ℕ, ◌+◌, ◌<◌, ◌≤◌, map, length, MatchOption, slice_index_or};
ghost use Rattle.protocol.specs.House.{most};
ghost use Rattle.note_bank.specs.Notes.{Full, Alike, amount_of, belongs, held, released};

use crate::place::{Note, Place};
use bank::Holding;
use protocol::{ACCOUNTS, DENOMINATIONS};

// How many pairs of an account and a denomination there are. The table of those seen has a place for each: a map would take
// memory, and no refusal says that there is none.
const PAIRS: usize = ACCOUNTS * DENOMINATIONS;

// A free place, if there is one.
pub(crate) fn find_free(places: &[Place]) -> Option<usize>
    ensures { MatchOption result (Full places.now) (λ i. (i < length places.now) × (slice_index_or places.now i None ≡ None)) }
{
    places.iter().position(|place| place.is_none())
}

// Two notes of one owner and denomination. Where each of more than 768 places holds a note, there are two.
pub(crate) fn find_pair(places: &[Place]) -> (usize, usize)
    requires full { Full places.now }
    requires many { 768 < length places.now }
    ensures order { result.0 < result.1 }
    ensures within { result.1 < length places.now }
    ensures alike { Alike (slice_index_or places.now result.0 None) (slice_index_or places.now result.1 None) }
{
    let mut seen: [Option<usize>; PAIRS] = [None; PAIRS];
    for (index, place) in places.iter().enumerate() {
        if let Some(note) = place {
            let pair = note.holding.place();
            if let Some(earlier) = seen[pair] {
                return (earlier, index);
            }
            seen[pair] = Some(index);
        }
    }
    unreachable()
}

// Two notes of one owner and denomination as one.
fn joint(first: Note, second: Note) -> Note
    requires { first.amount + second.amount ≤ most }
    ensures holding { result.holding ≡ first.holding }
    ensures amount { result.amount ≡ first.amount + second.amount }
{
    Note {
        holding: first.holding,
        amount: first.amount + second.amount,
    }
}

// Joins two notes of one owner and denomination into the first, and frees the place of the second.
pub(crate) fn join(places: &mut [Place], first: usize, second: usize)
    requires order { first < second }
    requires within { second < length places.old }
    requires alike { Alike (slice_index_or places.old first None) (slice_index_or places.old second None) }
    requires fits { amount_of (slice_index_or places.old first None) + amount_of (slice_index_or places.old second None) ≤ most }
    ensures same { (a d : ℕ) → held places.new a d ≡ held places.old a d }
    ensures free { slice_index_or places.new second None ≡ None }
    ensures behind { (k : ℕ) → second < k → slice_index_or places.new k None ≡ slice_index_or places.old k None }
{
    if let (Some(kept), Some(joined)) = (places[first], places[second]) {
        places[first] = Some(joint(kept, joined));
        places[second] = None;
    }
}

// Whether a note of the holding lies there.
fn is_note_of(place: &Place, holding: Holding) -> bool
    ensures { result ≡ belongs holding.account holding.denomination place.now }
{
    place.is_some_and(|note| note.holding == holding)
}

// Frees each place with a note of the holding.
pub(crate) fn release(places: &mut [Place], holding: Holding)
    ensures { places.new ≡ map (released holding.account holding.denomination) places.old }
{
    for place in places.iter_mut() {
        if is_note_of(place, holding) {
            *place = None;
        }
    }
}
