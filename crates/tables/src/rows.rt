ghost use Rattle.std.specs.Prelude.{◌≡◌, ℕ, ◌<◌, ◌≤◌, [], ◌∷◌, ◌++◌, length, take, slice_index_or, slice_set};
ghost use Rattle.register.specs.Keys.{number_of, kept, kept_count, kept_number};
ghost use Rattle.tables.specs.Registers.{joined};
ghost use Rattle.tables.specs.Rows.{rows_of};

use super::types::Rows;
use register::{Register, find_in};

impl<T: Copy, const N: usize> Rows<T, N> {
    // No rows; the free places hold `blank`.
    pub(crate) fn none(blank: T) -> Rows<T, N>
        ensures { rows_of result ≡ [] }
    {
        Rows {
            places: [blank; N],
            count: 0,
        }
    }

    /// The rows in order of arrival.
    pub fn as_slice(&self) -> &[T]
        ensures { result.now ≡ rows_of self.now }
    {
        let places = &self.places[..];
        &places[..self.count]
    }

    /// How many there are.
    pub fn len(&self) -> usize
        ensures { result ≡ length (rows_of self.now) }
    {
        self.as_slice().len()
    }

    /// The row at a place.
    pub fn at(&self, place: usize) -> T
        requires { place < length (rows_of self.now) }
        ensures { result ≡ slice_index_or (rows_of self.now) place result }
    {
        self.as_slice()[place]
    }

    /// One row more, behind those that came before.
    pub fn push(&mut self, row: T)
        requires { length (rows_of self.old) < N }
        ensures { rows_of self.new ≡ rows_of self.old ++ row ∷ [] }
    {
        let at = self.count;
        self.places[at] = row;
        self.count = at + 1;
    }

    // Another row at a place.
    pub(crate) fn put(&mut self, place: usize, row: T)
        requires { place < length (rows_of self.old) }
        ensures { rows_of self.new ≡ slice_set (rows_of self.old) place row }
    {
        self.places[place] = row;
    }
}

// Offers a key to a register over the first `count` places of `keys`, and answers its number.
fn offer<K: Eq + Copy>(keys: &mut [K], count: &mut usize, key: K) -> Option<usize>
    requires { count.old ≤ length keys.old }
    ensures answer { result ≡ kept_number (length keys.old) count.old (number_of (K.eq key) (take count.old keys.old)) }
    ensures count { count.new ≡ kept_count (length keys.old) count.old (number_of (K.eq key) (take count.old keys.old)) }
    ensures keys { keys.new ≡ kept keys.old count.old key (number_of (K.eq key) (take count.old keys.old)) }
{
    let mut register = Register::over(keys, *count);
    let number = register.enter(key);
    *count = register.count();
    number
}

impl<K: Eq + Copy, const N: usize> Rows<K, N> {
    /// The number of a key, or nothing.
    pub fn number_of(&self, key: &K) -> Option<usize>
        ensures { result ≡ number_of (K.eq key.now) (rows_of self.now) }
    {
        find_in(self.as_slice(), key)
    }

    /// The number of a key, which is put behind the others where it is new; nothing where there is no room for it.
    pub fn enter(&mut self, key: K) -> Option<usize>
        ensures answer { result ≡ kept_number N (length (rows_of self.old)) (number_of (K.eq key) (rows_of self.old)) }
        ensures after { rows_of self.new ≡ joined N key (rows_of self.old) (number_of (K.eq key) (rows_of self.old)) }
    {
        offer(&mut self.places, &mut self.count, key)
    }
}
