// Runs a script over four chains, whose links have different channel numbers at their two ends.
#![tactic(auto)]

use account_bank::AccountBank;
use books::{FreeBook, StrictBook};
use layers::{Barring, Beside};
use note_bank::NoteBank;
use session::answer_lines;
use std::io::{BufWriter, Write};
use world::World;

const SCRIPT: &[u8] =
    b"# links 0 and 3 join chains 0 and 1, link 1 chains 1 and 2, link 2 chains 0 and 2, link 4 is strict
open 0 1 free
open 1 2 free
open 0 2 free
open 0 1 free
open 1 2 strict
issue 0 2 gold 100
# out to chain 1, and on to chain 2
send 0 0 2 5 gold 40 0
receive 0 0 1
send 1 1 5 6 transfer/channel-0/gold 30 0
receive 1 0 1
home 2 transfer/channel-0/transfer/channel-0/gold
home 1 transfer/channel-0/gold
# home by the same road
send 2 0 6 7 transfer/channel-0/transfer/channel-0/gold 10 0
receive 1 1 1
send 1 0 7 2 transfer/channel-0/gold 10 0
receive 0 1 1
pay 0 2 3 gold 70
pay 0 2 3 gold 1
# home by a sister link: a longer trace
send 1 2 5 3 transfer/channel-0/gold 5 0
receive 3 1 1
home 0 transfer/channel-2/transfer/channel-0/gold
pay 0 3 4 transfer/channel-2/transfer/channel-0/gold 5
retire 0 4 transfer/channel-2/transfer/channel-0/gold 5
ack 3 1 1
ack 3 1 1
receive 3 1 1
# timeouts, and a strict link
issue 1 1 ore 50
send 1 3 1 1 ore 10 5
send 1 3 1 1 ore 10 0
send 1 3 1 1 ore 10 0
receive 4 0 2
receive 4 0 1
receive 4 0 2
receive 4 0 2
ack 4 0 2
ack 4 0 1
ack 4 0 3
timeout 4 0 3
tick 2 5
send 1 3 1 1 ore 10 5
send 1 3 1 1 ore 1 9
timeout 4 0 4
tick 2 4
receive 4 0 4
timeout 4 0 2
timeout 4 0 4
pay 1 1 2 ore 20
timeout 4 0 3
send 1 3 1 1 ore 1 0
receive 4 0 3
ack 4 0 2
timeout 4 0 4
ack 4 2 1
ack 5 0 1
ack 4 0 9
home 0 ore
home 3 ore
home 4 ore
# the printed example on a link of its own
open 0 3 free
issue 0 8 silver 100
send 0 3 8 5 silver 40 0
receive 5 0 1
send 3 0 5 3 transfer/channel-0/silver 10 0
home 3 transfer/channel-0/silver
# all sixteen links, which take all channels of the four chains
open 0 3 strict
open 0 3 free
open 1 3 free
open 3 1 free
open 2 3 free
open 3 2 free
open 2 3 strict
open 0 1 free
open 1 2 free
open 0 2 free
open 0 1 free
open 0 0 free
open 0 4 free
";

fn main(rt: HostRuntime) -> anyhow::Result<()> {
    let heap = rt.alloc();
    let mut out = BufWriter::new(heap, rt.stdout())?;
    let first = AccountBank::new(vec![in heap; 0u64; 768]?);
    let second = NoteBank::new(vec![in heap; None; 1024]?);
    let third = AccountBank::new(vec![in heap; 0u64; 768]?);
    let fourth = NoteBank::new(vec![in heap; None; 1024]?);
    let ledger = Barring::new(Beside::new(Beside::new(first, second), Beside::new(third, fourth)));
    let mut world = World::new(ledger, FreeBook::new(), StrictBook::new());
    answer_lines(&mut world, SCRIPT, &mut out)?;
    out.flush()?;
    Ok(())
}
