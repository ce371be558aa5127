use denom::{Denomination, Symbol};
use protocol::{LinkKind, PacketId, Transfer};

/// The first word of a command.
#[derive(Clone, Copy, PartialEq, Eq, Debug)]
pub enum Name {
    Open,
    Issue,
    Retire,
    Pay,
    Send,
    Receive,
    Ack,
    Timeout,
    Tick,
    Bar,
    Unbar,
    Home,
    Audit,
}

/// A command with its arguments, in the order of its words.
#[derive(Clone, Copy)]
pub enum Command {
    Open {
        first: usize,
        second: usize,
        kind: LinkKind,
    },
    Issue {
        chain: usize,
        user: usize,
        symbol: Symbol,
        amount: u64,
    },
    Retire {
        chain: usize,
        user: usize,
        denomination: Denomination,
        amount: u64,
    },
    Pay {
        chain: usize,
        user: usize,
        payee: usize,
        denomination: Denomination,
        amount: u64,
    },
    Send(Transfer),
    Receive(PacketId),
    Ack(PacketId),
    Timeout(PacketId),
    Tick {
        chain: usize,
        step: u64,
    },
    Bar {
        chain: usize,
        user: usize,
    },
    Unbar {
        chain: usize,
        user: usize,
    },
    Home {
        chain: usize,
        denomination: Denomination,
    },
    Audit,
}
