ghost use Rattle.std.specs.Prelude.{◌≡◌};
ghost use Rattle.std.specs.Result.{result_map_both};
ghost use Rattle.std.specs.Option.{option_map as mapped-some};
ghost use Rattle.protocol.specs.Faults.{script_number};
ghost use Rattle.commands.specs.Commands.{request_of, request, asked, parsed, packet_words, user_words};
ghost use Rattle.script.specs.Lines.{script_too_long};
ghost use Rattle.commands.specs.declared.commands.Name.TheVariants.{Open as Open-name, Issue as Issue-name, Retire as Retire-name, Pay as Pay-name, Send as Send-name, Tick as Tick-name, Home as Home-name};

use super::commands::{Command, Name};
use super::words::{denomination_at, index_at, kind_at, number_at, symbol_at};
use protocol::{PacketId, ScriptFault, Transfer};
use script::{count_words, is_comment, is_well_formed, word_at};

/// The most bytes that a line may have, its LF not counted.
pub const MOST_LINE: usize = 255;

/// The most bytes that a script may have.
pub const MOST_SCRIPT: usize = 65536;

fn open_in(line: &[u8]) -> Result<Command, ScriptFault>
    ensures { result_map_both request_of script_number result ≡ request Open-name line.now }
{
    let first = index_at(line, 1)?;
    let second = index_at(line, 2)?;
    let kind = kind_at(line, 3)?;
    Ok(Command::Open {
        first,
        second,
        kind,
    })
}

fn issue_in(line: &[u8]) -> Result<Command, ScriptFault>
    ensures { result_map_both request_of script_number result ≡ request Issue-name line.now }
{
    let chain = index_at(line, 1)?;
    let user = index_at(line, 2)?;
    let symbol = symbol_at(line, 3)?;
    let amount = number_at(line, 4)?;
    Ok(Command::Issue {
        chain,
        user,
        symbol,
        amount,
    })
}

fn send_in(line: &[u8]) -> Result<Command, ScriptFault>
    ensures { result_map_both request_of script_number result ≡ request Send-name line.now }
{
    let chain = index_at(line, 1)?;
    let channel = index_at(line, 2)?;
    let sender = index_at(line, 3)?;
    let receiver = index_at(line, 4)?;
    let denomination = denomination_at(line, 5)?;
    let amount = number_at(line, 6)?;
    let timeout = number_at(line, 7)?;
    Ok(Command::Send(Transfer {
        chain,
        channel,
        sender,
        receiver,
        denomination,
        amount,
        timeout,
    }))
}

fn retire_in(line: &[u8]) -> Result<Command, ScriptFault>
    ensures { result_map_both request_of script_number result ≡ request Retire-name line.now }
{
    let chain = index_at(line, 1)?;
    let user = index_at(line, 2)?;
    let denomination = denomination_at(line, 3)?;
    let amount = number_at(line, 4)?;
    Ok(Command::Retire {
        chain,
        user,
        denomination,
        amount,
    })
}

fn pay_in(line: &[u8]) -> Result<Command, ScriptFault>
    ensures { result_map_both request_of script_number result ≡ request Pay-name line.now }
{
    let chain = index_at(line, 1)?;
    let user = index_at(line, 2)?;
    let payee = index_at(line, 3)?;
    let denomination = denomination_at(line, 4)?;
    let amount = number_at(line, 5)?;
    Ok(Command::Pay {
        chain,
        user,
        payee,
        denomination,
        amount,
    })
}

fn home_in(line: &[u8]) -> Result<Command, ScriptFault>
    ensures { result_map_both request_of script_number result ≡ request Home-name line.now }
{
    let chain = index_at(line, 1)?;
    let denomination = denomination_at(line, 2)?;
    Ok(Command::Home {
        chain,
        denomination,
    })
}

fn tick_in(line: &[u8]) -> Result<Command, ScriptFault>
    ensures { result_map_both request_of script_number result ≡ request Tick-name line.now }
{
    let chain = index_at(line, 1)?;
    let step = number_at(line, 2)?;
    Ok(Command::Tick { chain, step })
}

// Chain and user of `bar` and `unbar`.
fn user_in(line: &[u8]) -> Result<(usize, usize), ScriptFault>
    ensures { result_map_both (λ p. p) script_number result ≡ user_words line.now }
{
    let chain = index_at(line, 1)?;
    let user = index_at(line, 2)?;
    Ok((chain, user))
}

// Link, direction and sequence of `receive`, `ack` and `timeout`.
fn packet_in(line: &[u8]) -> Result<PacketId, ScriptFault>
    ensures { result_map_both (λ p. p) script_number result ≡ packet_words line.now }
{
    let link = index_at(line, 1)?;
    let direction = index_at(line, 2)?;
    let sequence = index_at(line, 3)?;
    Ok(PacketId {
        link,
        direction,
        sequence,
    })
}

// The words behind a name.
fn words_in(name: Name, line: &[u8]) -> Result<Command, ScriptFault>
    ensures { result_map_both request_of script_number result ≡ request name line.now }
{
    match name {
        Name::Open => open_in(line),
        Name::Issue => issue_in(line),
        Name::Retire => retire_in(line),
        Name::Pay => pay_in(line),
        Name::Send => send_in(line),
        Name::Receive => packet_in(line).map(Command::Receive),
        Name::Ack => packet_in(line).map(Command::Ack),
        Name::Timeout => packet_in(line).map(Command::Timeout),
        Name::Tick => tick_in(line),
        Name::Bar => {
            let (chain, user) = user_in(line)?;
            Ok(Command::Bar { chain, user })
        }
        Name::Unbar => {
            let (chain, user) = user_in(line)?;
            Ok(Command::Unbar { chain, user })
        }
        Name::Home => home_in(line),
        Name::Audit => Ok(Command::Audit),
    }
}

// The command on a line that is neither too long nor passed over.
fn command_in(line: &[u8]) -> Result<Command, ScriptFault>
    ensures { result_map_both request_of script_number result ≡ asked line.now }
{
    if !is_well_formed(line) {
        return Err(ScriptFault::BadByteOrSpace);
    }
    let name = Name::of(word_at(line, 0)).ok_or(ScriptFault::UnknownCommand)?;
    if count_words(line) != name.words() {
        return Err(ScriptFault::WrongNumberOfWords);
    }
    words_in(name, line)
}

/// The command on a line, or nothing where the line is passed over; of the reasons to refuse it, the first.
pub fn parse_line(line: &[u8]) -> Result<Option<Command>, ScriptFault>
    ensures { result_map_both (mapped-some request_of) script_number result ≡ parsed line.now }
{
    if line.len() > MOST_LINE {
        return Err(ScriptFault::LineTooLong);
    }
    if is_comment(line) {
        return Ok(None);
    }
    command_in(line).map(Some)
}

/// Whether a script is too long for any of it to be carried out.
pub fn is_too_long(script: &[u8]) -> bool
    ensures { result ≡ script_too_long script.now }
{
    script.len() > MOST_SCRIPT
}
