ghost use Rattle.std.specs.Prelude.{◌≡◌, ℕ, ◌+◌, ◌*◌, ◌≤◌, true, length, nat_lt};
ghost use Rattle.figures.specs.Lines.{HasRoom, Appends};
ghost use Rattle.denom.specs.Text.{each, trace_text, denom_text};
ghost use Rattle.denom.specs.Views.{denom_view, hops_of, symbol_of};

use super::types::{Denomination, Hops, Symbol};
use figures::Line;

impl Hops {
    /// The hops, the first hop first.
    pub fn as_slice(&self) -> &[u8]
        ensures { result.now ≡ hops_of self.now }
    {
        &self.at[0..self.count]
    }
}

impl Symbol {
    /// The symbol's bytes.
    pub fn as_slice(&self) -> &[u8]
        ensures { result.now ≡ symbol_of self.now }
    {
        &self.bytes[0..self.len]
    }
}

// Writes each hop and then the symbol into the part of the line that is still free.
fn write_trace(line: &mut Line, hops: &[u8], symbol: &[u8])
    requires room { HasRoom (19 * length hops.now + length symbol.now) line.old }
    requires channels { each (λ h. nat_lt h 8) hops.now ≡ true }
    ensures { Appends (trace_text hops.now symbol.now) line.old line.new }
{
    if hops.is_empty() {
        line.bytes(symbol);
        return;
    }
    line.bytes(b"transfer/channel-");
    let digit = [b'0' + hops[0], b'/'];
    line.bytes(&digit);
    write_trace(line, &hops[1..], symbol);
}

/// Writes a denomination into the part of a line that is still free, at most 130 bytes.
pub fn write_denomination(line: &mut Line, denomination: &Denomination)
    requires { HasRoom 130 line.old }
    ensures short { length (denom_text (denom_view denomination.now)) ≤ 130 }
    ensures text { Appends (denom_text (denom_view denomination.now)) line.old line.new }
{
    write_trace(
        line,
        denomination.hops.as_slice(),
        denomination.symbol.as_slice(),
    );
}
