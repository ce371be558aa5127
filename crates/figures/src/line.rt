ghost use Rattle.std.specs.Prelude.{◌≡◌, ℕ, ◌+◌, ◌≤◌, ◌∷◌, length};
ghost use Rattle.figures.specs.Figures.{figure, over};

use super::numbers::write_figure;

// The length stands beside the buffer, as the memory is the caller's.
/// A line that is written from the front into a lent buffer, piece by piece.
#[derive(Drop)]
pub struct Line<'a> {
    buffer: &'a mut [u8],
    at: usize,
}

impl<'a> Line<'a> {
    ghost use Rattle.figures.specs.Lines.{HasRoom, Appends};

    /// A line that has nothing yet.
    pub fn over(buffer: &'a mut [u8]) -> Line<'a>
        ensures at { result.at ≡ 0 }
        ensures buffer { result.buffer.now ≡ buffer.old }
        ensures lender { result.buffer.ghost_name ≡ buffer.entry.ghost_name }
    {
        Line { buffer, at: 0 }
    }

    /// How many bytes it has.
    pub fn len(&self) -> usize
        ensures { result ≡ self.now.at }
    {
        let Line { at, .. } = self;
        *at
    }

    /// The digits of a number, written into the part of the buffer that is still free.
    pub fn figure(&mut self, n: u128)
        requires { HasRoom (length (figure n)) self.old }
        ensures { Appends (figure n) self.old self.new }
    {
        let at = self.at;
        let wrote = write_figure(&mut self.buffer[at..], n);
        self.at = at + wrote;
    }

    /// Some bytes, laid into the part of the buffer that is still free.
    pub fn bytes(&mut self, text: &[u8])
        requires { HasRoom (length text.now) self.old }
        ensures { Appends text.now self.old self.new }
    {
        let at = self.at;
        put_bytes(&mut self.buffer[at..], text);
        self.at = at + text.len();
    }

    /// A space and some bytes.
    #[tactic(auto, using(crate::proofs::Parts::space_more))]
    pub fn word(&mut self, text: &[u8])
        requires { HasRoom (1 + length text.now) self.old }
        ensures { Appends (32 ∷ text.now) self.old self.new }
    {
        self.bytes(b" ");
        self.bytes(text);
    }

    /// A space and the digits of a number.
    #[tactic(auto, using(crate::proofs::Parts::space_more))]
    pub fn figure_word(&mut self, n: u128)
        requires { HasRoom (1 + length (figure n)) self.old }
        ensures { Appends (32 ∷ figure n) self.old self.new }
    {
        self.bytes(b" ");
        self.figure(n);
    }
}

/// Lays a text over the front of a buffer.
pub fn put_bytes(out: &mut [u8], text: &[u8])
    requires { length text.now ≤ length out.old }
    ensures { out.new ≡ over text.now out.old }
{
    out[0..text.len()].copy_from_slice(text);
}
