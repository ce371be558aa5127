ghost use Rattle.std.specs.Prelude.{◌≡◌, ℕ, ◌+◌, ◌<◌, ◌≤◌, ◌&&◌, length, ◌==◌, nat_lt, slice_index};
ghost use Rattle.figures.specs.Figures.{figure, number_read, over, NumbersReadBack, NumbersWriteBack};

fn has_leading_zero(text: &[u8]) -> bool
    ensures { result ≡ (nat_lt 1 (length text.now) && slice_index text.now 0 == 48) }
{
    matches!(text, [b'0', _, ..])
}

/// The number that a text writes in base ten: no leading zeros, at most 2^64 - 1.
pub fn read_number(text: &[u8]) -> Option<u64>
    ensures { result ≡ number_read text.now }
{
    if text.is_empty() || has_leading_zero(text) {
        return None;
    }
    let mut n: u64 = 0;
    for b in text {
        if !b.is_ascii_digit() {
            return None;
        }
        n = n.checked_mul(10)?.checked_add(u64::from(*b - b'0'))?;
    }
    Some(n)
}

// By hand: the digits go straight into the lent rest of a line, without a text of their own.
/// Writes the digits of a number over the front of a buffer, and answers how many there are.
pub fn write_figure(out: &mut [u8], n: u128) -> usize
    requires { length (figure n) ≤ length out.old }
    ensures answer { result ≡ length (figure n) }
    ensures buffer { out.new ≡ over (figure n) out.old }
{
    if n < 10 {
        out[0] = b'0' + n as u8;
        return 1;
    }
    let at = write_figure(out, n / 10);
    out[at] = b'0' + (n % 10) as u8;
    at + 1
}

/// Reading and writing numbers are inverse to each other.
pub fn numbers_and_texts() -> u8
    ensures reads { NumbersReadBack }
    ensures writes { NumbersWriteBack }
{
    0
}
