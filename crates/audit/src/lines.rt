// The lines of an audit as text, each written over the front of a buffer; the bytes behind it keep their values.
ghost use Rattle.std.specs.Prelude.{◌≡◌, ◌^◌, ◌<◌, ◌≤◌, [], ◌∷◌, length, codes};
ghost use Rattle.figures.specs.Figures.{figure, line_of, over};
ghost use Rattle.figures.specs.Lines.{HasRoom, Appends};
ghost use Rattle.denom.specs.Text.{denom_text};
ghost use Rattle.denom.specs.Views.{denom_view, symbol_of};

use denom::{Denomination, Symbol, write_denomination};
use figures::Line;
use protocol::LINE_ROOM;

// How many tokens, links and packets there have been.
#[tactic(auto, using(figures::proofs::Digits::length_figure_64, figures::proofs::Digits::length_figure_24))]
pub(crate) fn put_counts(
    buffer: &mut [u8; LINE_ROOM],
    tokens: usize,
    links: usize,
    packets: usize,
) -> usize
    ensures length { result ≡ length (line_of (codes "audit") (figure tokens ∷ figure links ∷ figure packets ∷ [])) }
    ensures buffer { buffer.new ≡ over (line_of (codes "audit") (figure tokens ∷ figure links ∷ figure packets ∷ [])) buffer.old }
{
    let mut line = Line::over(buffer);
    line.bytes(b"audit");
    line.figure_word(tokens as u128);
    line.figure_word(links as u128);
    line.figure_word(packets as u128);
    line.bytes(b"\n");
    line.len()
}

// A token: its supply at home, what users hold of it, and its open packets.
#[tactic(auto, using(figures::proofs::Digits::length_figure_64, figures::proofs::Digits::length_figure_24))]
pub(crate) fn put_token(
    buffer: &mut [u8; LINE_ROOM],
    chain: usize,
    symbol: &Symbol,
    supply: u64,
    users: u128,
    carried: u128,
) -> usize
    requires users { users < 10 ^ 24 }
    requires carried { carried < 10 ^ 24 }
    ensures length { result ≡ length (line_of (codes "token") (figure chain ∷ symbol_of symbol.now ∷ figure supply ∷ figure users ∷ figure carried ∷ [])) }
    ensures buffer { buffer.new ≡ over (line_of (codes "token") (figure chain ∷ symbol_of symbol.now ∷ figure supply ∷ figure users ∷ figure carried ∷ [])) buffer.old }
{
    let mut line = Line::over(buffer);
    line.bytes(b"token");
    line.figure_word(chain as u128);
    line.word(symbol.as_slice());
    line.figure_word(supply as u128);
    line.figure_word(users);
    line.figure_word(carried);
    line.bytes(b"\n");
    line.len()
}

// A space and a denomination.
#[tactic(auto, using(figures::proofs::Parts::space_more))]
fn denomination_word(line: &mut Line, denomination: &Denomination)
    requires { HasRoom 131 line.old }
    ensures short { length (denom_text (denom_view denomination.now)) ≤ 130 }
    ensures text { Appends (32 ∷ denom_text (denom_view denomination.now)) line.old line.new }
{
    line.bytes(b" ");
    write_denomination(line, denomination);
}

// The escrow of a denomination at an end of a link, and what it backs: its vouchers and its open packets.
#[tactic(auto, using(figures::proofs::Digits::length_figure_64, figures::proofs::Digits::length_figure_24))]
pub(crate) fn put_escrow(
    buffer: &mut [u8; LINE_ROOM],
    link: usize,
    end: usize,
    denomination: &Denomination,
    escrow: u64,
    vouchers: u64,
    carried: u128,
) -> usize
    requires carried { carried < 10 ^ 24 }
    ensures length { result ≡ length (line_of (codes "escrow") (figure link ∷ figure end ∷ denom_text (denom_view denomination.now) ∷ figure escrow ∷ figure vouchers ∷ figure carried ∷ [])) }
    ensures buffer { buffer.new ≡ over (line_of (codes "escrow") (figure link ∷ figure end ∷ denom_text (denom_view denomination.now) ∷ figure escrow ∷ figure vouchers ∷ figure carried ∷ [])) buffer.old }
{
    let mut line = Line::over(buffer);
    line.bytes(b"escrow");
    line.figure_word(link as u128);
    line.figure_word(end as u128);
    denomination_word(&mut line, denomination);
    line.figure_word(escrow as u128);
    line.figure_word(vouchers as u128);
    line.figure_word(carried);
    line.bytes(b"\n");
    line.len()
}
