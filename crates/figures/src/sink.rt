ghost use Rattle.std.specs.Prelude.{◌≡◌, ℕ, List, ◌++◌, OnOk};

use std::alloc::AllocError;

/// Where texts go, one after another.
pub trait Sink {
    /// Why a text was not taken.
    type Error;

    // What it is to have taken a text: the sink before, the text, the sink after.
    ghost takes: { Self → List ℕ → Self → Type 0 };

    /// Takes a text.
    fn put(&mut self, text: &[u8]) -> Result<(), Self::Error>
        ensures { OnOk result (takes self.old text.now self.new) };
}

/// A vector of bytes takes a text behind those that it has.
impl Sink for Vec<u8> {
    type Error = AllocError;

    ghost takes = { λ before text after. after.items ≡ before.items ++ text };

    fn put(&mut self, text: &[u8]) -> Result<(), AllocError> {
        self.extend_from_slice(text)
    }
}
