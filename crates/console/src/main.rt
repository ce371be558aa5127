// Reads a script from standard input and answers it line by line on standard output.
#![tactic(auto)]

use account_bank::AccountBank;
use books::{FreeBook, StrictBook};
use commands::{MOST_SCRIPT, is_too_long};
use layers::{Barring, Beside};
use note_bank::NoteBank;
use session::answer_lines;
use std::alloc::Global;
use std::io::{BufWriter, Read, Write};
use world::World;

// Puts a world together and answers a script on it. It stays a function of its own, so that a script that is too long takes no
// stack for a world.
#[inline(never)]
fn answer_on_a_world(text: &[u8], heap: Global, out: &mut impl Write) -> anyhow::Result<()> {
    let accounts = AccountBank::new(vec![in heap; 0u64; 768]?);
    let notes = NoteBank::new(vec![in heap; None; 1024]?);
    let ledger = Barring::new(Beside::new(accounts, notes));
    let mut world = World::new(ledger, FreeBook::new(), StrictBook::new());
    answer_lines(&mut world, text, out)?;
    Ok(())
}

// Answers a script.
fn answer_script(text: &[u8], rt: &HostRuntime) -> anyhow::Result<()> {
    let heap = rt.alloc();
    let mut out = BufWriter::new(heap, rt.stdout())?;
    if is_too_long(text) {
        out.write_all(b"0 no 1 script\n")?;
    } else {
        answer_on_a_world(text, heap, &mut out)?;
    }
    out.flush()?;
    Ok(())
}

fn main(rt: HostRuntime) -> anyhow::Result<()> {
    // One byte more than a script may have tells one that is too long.
    let most = MOST_SCRIPT + 1;
    let mut text = Vec::with_capacity(rt.alloc(), most)?;
    rt.stdin().take(most as u64).read_to_end(&mut text)?;
    answer_script(&text, &rt)
}
