ghost use Rattle.std.specs.Prelude.{◌≡◌};
ghost use Rattle.std.specs.Result.{result_map_both};
ghost use Rattle.denom.specs.Views.{symbol_of, denom_view};
ghost use Rattle.protocol.specs.Faults.{script_number};
ghost use Rattle.protocol.specs.World.{is_strict};
ghost use Rattle.commands.specs.Commands.{name_of, words_of, number_word, denom_word, symbol_word, kind_word};

use super::commands::Name;
use denom::{Denomination, Symbol};
use figures::read_number;
use protocol::{LinkKind, ScriptFault};
use script::word_at;

impl Name {
    // No `TryFrom`: there is one way to fail, and the caller names the fault.
    /// The command that a word names.
    pub fn of(word: &[u8]) -> Option<Name>
        ensures { result ≡ name_of word.now }
    {
        match word {
            b"open" => Some(Name::Open),
            b"issue" => Some(Name::Issue),
            b"retire" => Some(Name::Retire),
            b"pay" => Some(Name::Pay),
            b"send" => Some(Name::Send),
            b"receive" => Some(Name::Receive),
            b"ack" => Some(Name::Ack),
            b"timeout" => Some(Name::Timeout),
            b"tick" => Some(Name::Tick),
            b"bar" => Some(Name::Bar),
            b"unbar" => Some(Name::Unbar),
            b"home" => Some(Name::Home),
            b"audit" => Some(Name::Audit),
            _ => None,
        }
    }

    /// How many words the command has, its name among them.
    pub fn words(self) -> usize
        ensures { result ≡ words_of self }
    {
        match self {
            Name::Audit => 1,
            Name::Tick | Name::Bar | Name::Unbar | Name::Home => 3,
            Name::Open | Name::Receive | Name::Ack | Name::Timeout => 4,
            Name::Issue | Name::Retire => 5,
            Name::Pay => 6,
            Name::Send => 8,
        }
    }
}

// The word at a place as a number.
pub(crate) fn number_at(line: &[u8], place: usize) -> Result<u64, ScriptFault>
    ensures { result_map_both (λ n. n) script_number result ≡ number_word line.now place }
{
    read_number(word_at(line, place)).ok_or(ScriptFault::BadWord)
}

// The same where the number says which of several things is meant.
pub(crate) fn index_at(line: &[u8], place: usize) -> Result<usize, ScriptFault>
    ensures { result_map_both (λ n. n) script_number result ≡ number_word line.now place }
{
    number_at(line, place).map(|n| n as usize)
}

// The word at a place as a kind of link. No `TryFrom`, as for names.
pub(crate) fn kind_at(line: &[u8], place: usize) -> Result<LinkKind, ScriptFault>
    ensures { result_map_both is_strict script_number result ≡ kind_word line.now place }
{
    match word_at(line, place) {
        b"free" => Ok(LinkKind::Free),
        b"strict" => Ok(LinkKind::Strict),
        _ => Err(ScriptFault::BadWord),
    }
}

// The word at a place as a symbol.
pub(crate) fn symbol_at(line: &[u8], place: usize) -> Result<Symbol, ScriptFault>
    ensures { result_map_both symbol_of script_number result ≡ symbol_word line.now place }
{
    Symbol::try_from(word_at(line, place)).map_err(|_| ScriptFault::BadWord)
}

// The word at a place as a denomination.
pub(crate) fn denomination_at(line: &[u8], place: usize) -> Result<Denomination, ScriptFault>
    ensures { result_map_both denom_view script_number result ≡ denom_word line.now place }
{
    Denomination::try_from(word_at(line, place)).map_err(|_| ScriptFault::BadWord)
}
