// The one adding-up routine: the amounts of those rows of a slice that count, whatever the rows are.
#![tactic(auto)]

ghost use Rattle.std.specs.Prelude.{◌≡◌, ℕ, ◌*◌, ◌≤◌, Bool, length};
ghost use Rattle.sums.specs.Sums.{counted, amount_held, held_counts};
ghost use Rattle.sums.specs.Columns.{column_has, in_column};

/// A row that has an amount, and that counts in a sum or not, by what is wanted and by its place in the slice.
pub trait Row<Which> {
    ghost amount: { Which → Self → ℕ → ℕ };

    ghost counts: { Which → Self → ℕ → Bool };

    /// The amount of the row at this place.
    fn worth(&self, which: &Which, place: usize) -> u64
        ensures { result ≡ amount which.now self.now place };

    /// Whether the row at this place is one of those wanted.
    fn chosen(&self, which: &Which, place: usize) -> bool
        ensures { result ≡ counts which.now self.now place };
}

/// The sum of the amounts of the rows wanted. It fits, whatever the amounts.
pub fn add_up<Which, R: Row<Which>>(rows: &[R], which: &Which) -> u128
    ensures sum { result ≡ counted (R.Row.amount which.now) (R.Row.counts which.now) rows.now }
    ensures within { result ≤ length rows.now * 18446744073709551615 }
{
    let mut sum: u128 = 0;
    for (place, row) in rows.iter().enumerate() {
        if row.chosen(which, place) {
            sum += u128::from(row.worth(which, place));
        }
    }
    sum
}

// A table of amounts has so many denominations to an account.
const DENOMINATIONS: usize = 32;

/// Of a table of amounts with 32 denominations to an account: one denomination of the accounts from `from` up to, but
/// not with, `to`.
#[derive(Clone, Copy)]
pub struct Column {
    pub denomination: usize,
    pub from: usize,
    pub to: usize,
}

impl Column {
    /// Whether a denomination of an account is of the column.
    pub fn has(&self, account: usize, denomination: usize) -> bool
        ensures { result ≡ column_has self.now account denomination }
    {
        denomination == self.denomination && self.from <= account && account < self.to
    }
}

impl Row<Column> for u64 {
    ghost amount = { λ w x i. x };

    ghost counts = { in_column };

    fn worth(&self, _which: &Column, _place: usize) -> u64 {
        *self
    }

    fn chosen(&self, which: &Column, place: usize) -> bool {
        which.has(place / DENOMINATIONS, place % DENOMINATIONS)
    }
}

/// A place that may hold a row: an empty one is worth nothing, and is never wanted.
impl<Which, R: Row<Which>> Row<Which> for Option<R> {
    ghost amount = { λ w. amount_held (R.Row.amount w) };

    ghost counts = { λ w. held_counts (R.Row.counts w) };

    fn worth(&self, which: &Which, place: usize) -> u64 {
        match self {
            Some(row) => row.worth(which, place),
            None => 0,
        }
    }

    fn chosen(&self, which: &Which, place: usize) -> bool {
        match self {
            Some(row) => row.chosen(which, place),
            None => false,
        }
    }
}
