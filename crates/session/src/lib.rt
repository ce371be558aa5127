// A script carried out on a world: what each line does and answers.
#![tactic(auto)]

ghost use Rattle.std.specs.Prelude.{◌≡◌, Bool, OnOk};
ghost use Rattle.commands.specs.Answers.{answer_of};
ghost use Rattle.commands.specs.Commands.{request_of};
ghost use Rattle.protocol.specs.Book.{Book as BookMeaning};
ghost use Rattle.protocol.specs.Ledger.{Ledger as Meaning};
ghost use Rattle.session.specs.Conservation.{Reached, Conserves};
ghost use Rattle.session.specs.Session.{performed, carried_out, some_answer, script_after};
ghost use Rattle.script.specs.Lines.{lines};
ghost use Rattle.world.specs.View.{view};

use books::Book;
use commands::{Command, MOST_ANSWER, Reply, parse_line, write_answer};
use denom::TokenId;
use ledger::Ledger;
use protocol::{Fault, ScriptFault};
use script::Script;
use std::io;
use std::io::Write;
use world::World;

/// Carries out a command. `audit`, which is not served, is refused like an unknown one.
pub fn perform<L: Ledger, F: Book, S: Book>(
    world: &mut World<L, F, S>,
    command: Command,
) -> Result<Reply, Fault>
    ensures answer { answer_of result ≡ (performed (view L.meaning F.meaning S.meaning world.old) (request_of command)).1 }
    ensures after { view L.meaning F.meaning S.meaning world.new ≡ (performed (view L.meaning F.meaning S.meaning world.old) (request_of command)).0 }
{
    match command {
        Command::Open {
            first,
            second,
            kind,
        } => {
            let link = world.open(first, second, kind)?;
            Ok(Reply::Number(link as u64))
        }
        Command::Tick { chain, step } => {
            world.tick(chain, step)?;
            Ok(Reply::Done)
        }
        Command::Bar { chain, user } => {
            world.bar(chain, user)?;
            Ok(Reply::Done)
        }
        Command::Unbar { chain, user } => {
            world.unbar(chain, user)?;
            Ok(Reply::Done)
        }
        Command::Issue {
            chain,
            user,
            symbol,
            amount,
        } => {
            world.issue(chain, user, symbol, amount)?;
            Ok(Reply::Done)
        }
        Command::Retire {
            chain,
            user,
            denomination,
            amount,
        } => {
            world.retire(chain, user, &denomination, amount)?;
            Ok(Reply::Done)
        }
        Command::Pay {
            chain,
            user,
            payee,
            denomination,
            amount,
        } => {
            world.pay(chain, user, payee, &denomination, amount)?;
            Ok(Reply::Done)
        }
        Command::Send(transfer) => {
            let sequence = world.send(&transfer)?;
            Ok(Reply::Number(sequence as u64))
        }
        Command::Receive(packet) => {
            let mark = world.receive(packet)?;
            Ok(Reply::Number(u64::from(mark.number())))
        }
        Command::Ack(packet) => {
            world.ack(packet)?;
            Ok(Reply::Done)
        }
        Command::Timeout(packet) => {
            world.timeout(packet)?;
            Ok(Reply::Done)
        }
        Command::Home {
            chain,
            denomination,
        } => {
            let (home, symbol) = world.home(chain, &denomination)?;
            Ok(Reply::Home(TokenId {
                chain: home,
                symbol,
            }))
        }
        Command::Audit => Err(Fault::Script(ScriptFault::UnknownCommand)),
    }
}

// The line as a command, and what that answers.
fn carry_line<L: Ledger, F: Book, S: Book>(
    world: &mut World<L, F, S>,
    line: &[u8],
) -> Result<Option<Reply>, Fault>
    ensures answer { some_answer result ≡ (carried_out (view L.meaning F.meaning S.meaning world.old) line.now).1 }
    ensures after { view L.meaning F.meaning S.meaning world.new ≡ (carried_out (view L.meaning F.meaning S.meaning world.old) line.now).0 }
{
    match parse_line(line)? {
        Some(command) => Ok(Some(perform(world, command)?)),
        None => Ok(None),
    }
}

/// Carries out the command on a line; a line that is passed over answers nothing. Whatever calls, over whatever ledger and books,
/// led to the world that it leaves: conservation holds of it.
pub fn carry_out<L: Ledger, F: Book, S: Book>(
    world: &mut World<L, F, S>,
    line: &[u8],
) -> Result<Option<Reply>, Fault>
    ensures answer { some_answer result ≡ (carried_out (view L.meaning F.meaning S.meaning world.old) line.now).1 }
    ensures after { view L.meaning F.meaning S.meaning world.new ≡ (carried_out (view L.meaning F.meaning S.meaning world.old) line.now).0 }
    ensures reached { (l : Meaning) (bs : Bool → BookMeaning) → Reached l bs (view L.meaning F.meaning S.meaning world.old) → Reached l bs (view L.meaning F.meaning S.meaning world.new) }
    ensures conserved { Conserves (view L.meaning F.meaning S.meaning world.new) }
{
    carry_line(world, line)
}

// Writes the answer to a line.
fn print_answer(
    out: &mut impl Write,
    number: usize,
    answer: Result<Reply, Fault>,
) -> io::Result<()> {
    let mut buffer = [0; MOST_ANSWER];
    match write_answer(&mut buffer, number, answer) {
        Some(len) if len <= MOST_ANSWER => out.write_all(&buffer[0..len]),
        _ => Ok(()),
    }
}

// Carries out a line and writes its answer, if it has one.
fn answer_line<L: Ledger, F: Book, S: Book>(
    world: &mut World<L, F, S>,
    number: usize,
    line: &[u8],
    out: &mut impl Write,
) -> io::Result<()>
    ensures after { view L.meaning F.meaning S.meaning world.new ≡ (carried_out (view L.meaning F.meaning S.meaning world.old) line.now).0 }
    ensures reached { (l : Meaning) (bs : Bool → BookMeaning) → Reached l bs (view L.meaning F.meaning S.meaning world.old) → Reached l bs (view L.meaning F.meaning S.meaning world.new) }
    ensures conserved { Conserves (view L.meaning F.meaning S.meaning world.new) }
{
    match carry_out(world, line) {
        Ok(None) => Ok(()),
        Ok(Some(reply)) => print_answer(out, number, Ok(reply)),
        Err(fault) => print_answer(out, number, Err(fault)),
    }
}

/// Carries out a script line by line, and writes each answer as it comes; it stops where an answer cannot be written. A world that
/// calls have reached is left as one that calls have reached, and conservation holds of it.
pub fn answer_lines<L: Ledger, F: Book, S: Book>(
    world: &mut World<L, F, S>,
    text: &[u8],
    out: &mut impl Write,
) -> io::Result<()>
    ensures after { OnOk result (view L.meaning F.meaning S.meaning world.new ≡ script_after (view L.meaning F.meaning S.meaning world.old) (lines text.now)) }
    ensures reached { (l : Meaning) (bs : Bool → BookMeaning) → Reached l bs (view L.meaning F.meaning S.meaning world.old) → Reached l bs (view L.meaning F.meaning S.meaning world.new) }
    ensures conserved { Conserves (view L.meaning F.meaning S.meaning world.new) }
{
    let script = Script::over(text);
    for (number, line) in script {
        answer_line(world, number, line, out)?;
    }
    Ok(())
}
