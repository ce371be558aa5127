ghost use Rattle.std.specs.Prelude.{◌<◌};

use bank::Holding;

/// An amount of a denomination that belongs to an account; it is at least 1.
#[derive(Clone, Copy)]
pub struct Note {
    pub(crate) holding: Holding,
    pub(crate) amount: u64,
    ghost some: { 0 < amount },
}

/// A place of the bank's memory: it holds a note, or is free.
pub type Place = Option<Note>;
