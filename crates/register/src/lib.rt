// Distinct keys in order of arrival, kept on memory that is lent.
#![tactic(auto)]

ghost use Rattle.std.specs.Prelude.{◌≡◌, ℕ, ◌+◌, ◌<◌, ◌≤◌, length, slice_set};
ghost use Rattle.register.specs.Keys.{number_of, kept, kept_count, kept_number, StaysDistinct, KeepsOrder, OneNumber};

/// The number of the first of the keys that is the same as `key`, or nothing.
pub fn find_in<K: Eq>(keys: &[K], key: &K) -> Option<usize>
    ensures { result ≡ number_of (K.PartialEq.eq key.now) keys.now }
{
    keys.iter().position(|other| key == other)
}

// The count stands beside the keys, as their memory is lent.
/// The keys that stand in the first `count` places of a lent slice.
#[derive(Drop)]
pub struct Register<'a, K> {
    keys: &'a mut [K],
    count: usize,
}

impl<'a, K: Eq + Copy> Register<'a, K> {
    ghost use Rattle.register.specs.Held.{held};

    /// A register over the first `count` places of `keys`.
    pub fn over(keys: &'a mut [K], count: usize) -> Register<'a, K>
        ensures count { result.count ≡ count }
        ensures keys { result.keys.now ≡ keys.old }
        ensures lender { result.keys.ghost_name ≡ keys.entry.ghost_name }
    {
        Register { keys, count }
    }

    /// How many keys there are.
    pub fn count(&self) -> usize
        ensures { result ≡ self.now.count }
    {
        let Register { count, .. } = self;
        *count
    }

    /// The number of a key, or nothing.
    pub fn find(&self, key: &K) -> Option<usize>
        requires { self.now.count ≤ length self.now.keys.now }
        ensures { result ≡ number_of (K.PartialEq.eq key.now) (held self.now) }
    {
        find_in(&self.keys[0..self.count], key)
    }

    /// The number of a key, which is put behind the others where it is new; nothing where there is no room for it.
    pub fn enter(&mut self, key: K) -> Option<usize>
        requires { self.old.count ≤ length self.old.keys.now }
        ensures answer { result ≡ kept_number (length self.old.keys.now) self.old.count (number_of (K.PartialEq.eq key) (held self.old)) }
        ensures count { self.new.count ≡ kept_count (length self.old.keys.now) self.old.count (number_of (K.PartialEq.eq key) (held self.old)) }
        ensures keys { self.new.keys.now ≡ kept self.old.keys.now self.old.count key (number_of (K.PartialEq.eq key) (held self.old)) }
        ensures lender { self.new.keys.ghost_name ≡ self.old.keys.ghost_name }
    {
        if let Some(number) = self.find(&key) {
            return Some(number);
        }
        let at = self.count;
        if at >= self.keys.len() {
            return None;
        }
        self.keys[at] = key;
        self.count = at + 1;
        Some(at)
    }
}

/// What a register rests on, for every kind of key: offered keys leave the others in their order and distinct, and keys that are
/// the same have one number.
pub fn register_laws<K: Eq>() -> u8
    ensures distinct { StaysDistinct K.PartialEq.eq }
    ensures order { KeepsOrder K.PartialEq.eq }
    ensures number { OneNumber K.PartialEq.eq }
{
    0
}
