// The record that the certifier keeps of a transaction.
use bounded::Bounded;
use model::{Mark, Phase, Write};

#[derive(Clone, Copy)]
pub struct Slot {
    pub stamp: u64,
    pub attempt: u64,
    pub phase: Phase,
    // granules read, in order, each once
    pub notes: Bounded<usize, 64>,
    // granules written with what was last written there, in order of first writing
    pub writes: Bounded<Write, 16>,
    // how many of the writes have been appended
    pub puts: usize,
    pub mark: Mark,
}
