ghost use Rattle.std.specs.Prelude.{◌≡◌, ℕ, ◌+◌, ◌-◌, ◌*◌, ◌<◌, ◌≤◌, true, [], ◌∷◌, length, drop, IfSome, IfOk, MatchResult, ◌≢◌};
ghost use Rattle.denom.specs.Denomination.{hopless};
ghost use Rattle.std.specs.Result.{result_map_both};
ghost use Rattle.denom.specs.Text.{hop_of, letter_or_digit, each, is_symbol, read_from, denom_of};
ghost use Rattle.denom.specs.Views.{symbol_answer, hops_after, count_after, hops_of, symbol_of, denom_view, denom_answer};
ghost use Rattle.denom.specs.Laws.{DenomsReadBack, DenomsWriteBack};

use super::types::{Denomination, Hops, MOST_HOPS, Symbol, TextFault};
use figures::put_bytes;

// The hop that a text begins with.
fn hop_of(text: &[u8]) -> Option<u8>
    ensures value { result ≡ hop_of text.now }
    ensures long { IfSome result (λ h. (19 ≤ length text.now) × (h < 8)) }
{
    match text.strip_prefix(b"transfer/channel-")? {
        [digit @ b'0'..=b'7', b'/', ..] => Some(*digit - b'0'),
        _ => None,
    }
}

fn is_letter_or_digit(c: u8) -> bool
    ensures { result ≡ letter_or_digit c }
{
    c.is_ascii_lowercase() || c.is_ascii_digit()
}

fn all_letters_or_digits(text: &[u8]) -> bool
    ensures { result ≡ each letter_or_digit text.now }
{
    text.iter().all(|c| is_letter_or_digit(*c))
}

fn spells_symbol(text: &[u8]) -> bool
    ensures { result ≡ is_symbol text.now }
{
    match text {
        [first, rest @ ..] => {
            first.is_ascii_lowercase() && rest.len() <= 15 && all_letters_or_digits(rest)
        }
        [] => false,
    }
}

// Reads on after `depth` hops. A hop is stored once the rest has been read, so a refusal leaves the record as it was.
fn read_from<'a>(text: &'a [u8], depth: usize, hops: &mut Hops) -> Result<&'a [u8], TextFault>
    requires { depth ≤ 6 }
    ensures answer { result_map_both (λ s. s.now) (λ e. e) result ≡ symbol_answer (read_from (6 - depth) text.now) }
    ensures hops { hops.new.at ≡ hops_after (read_from (6 - depth) text.now) depth hops.old.at }
    ensures count { hops.new.count ≡ count_after (read_from (6 - depth) text.now) depth hops.old.count }
{
    if depth < MOST_HOPS {
        if let Some(hop) = hop_of(text) {
            let symbol = read_from(&text[19..], depth + 1, hops)?;
            hops.at[depth] = hop;
            return Ok(symbol);
        }
    }
    if !spells_symbol(text) {
        return Err(TextFault::NotADenomination);
    }
    hops.count = depth;
    Ok(text)
}

/// Reads a denomination. The answer is its symbol, the part of the text behind the hops; the hops go into the record that is
/// lent, which a refusal leaves as it was.
pub fn read_denomination<'a>(text: &'a [u8], hops: &mut Hops) -> Result<&'a [u8], TextFault>
    ensures answer { result_map_both (λ s. s.now) (λ e. e) result ≡ symbol_answer (denom_of text.now) }
    ensures hops { hops.new.at ≡ hops_after (denom_of text.now) 0 hops.old.at }
    ensures count { hops.new.count ≡ count_after (denom_of text.now) 0 hops.old.count }
    ensures held { IfSome (denom_of text.now) (λ e. hops_of hops.new ≡ e.hops) }
    ensures place { IfOk result (λ s. s.now ≡ drop (19 * hops.new.count) text.now) }
{
    read_from(text, 0, hops)
}

impl Hops {
    /// No hops.
    pub fn none() -> Hops
        ensures { hops_of result ≡ [] }
    {
        Hops {
            at: [0; 6],
            count: 0,
        }
    }
}

/// The symbol that a text spells.
impl TryFrom<&[u8]> for Symbol {
    ghost use Rattle.denom.specs.declared.types.TextFault.TheVariants.{NotASymbol};

    type Error = TextFault;

    ghost try_from_gives = { λ text r. MatchResult r (λ s. (is_symbol text.now ≡ true) × (symbol_of s ≡ text.now)) (λ e. (e ≡ NotASymbol) × (is_symbol text.now ≢ true)) };

    fn try_from(text: &[u8]) -> Result<Symbol, TextFault> {
        if !spells_symbol(text) {
            return Err(TextFault::NotASymbol);
        }
        Ok(Symbol::copied(text))
    }
}

impl Symbol {
    // A record of its own for a text that is a symbol.
    fn copied(text: &[u8]) -> Symbol
        requires { is_symbol text.now ≡ true }
        ensures { symbol_of result ≡ text.now }
    {
        let mut bytes = [0; 16];
        put_bytes(&mut bytes, text);
        Symbol {
            bytes,
            len: text.len(),
        }
    }
}

/// The denomination that a text stands for.
impl TryFrom<&[u8]> for Denomination {
    type Error = TextFault;

    ghost try_from_gives = { λ text r. result_map_both denom_view (λ e. e) r ≡ denom_answer (denom_of text.now) };

    fn try_from(text: &[u8]) -> Result<Denomination, TextFault> {
        let mut hops = Hops::none();
        let symbol = Symbol::copied(read_denomination(text, &mut hops)?);
        Ok(Denomination { hops, symbol })
    }
}

impl Denomination {
    /// The denomination `a`, for places of a table that hold nothing yet.
    pub fn blank() -> Denomination
        ensures { denom_view result ≡ hopless (97 ∷ []) }
    {
        Denomination::hopless(Symbol::copied(b"a"))
    }
}

/// Each accepted text has one denomination; each denomination is written as one text, which reads back as that denomination.
pub fn denominations_and_texts() -> u8
    ensures reads { DenomsReadBack }
    ensures writes { DenomsWriteBack }
{
    0
}
