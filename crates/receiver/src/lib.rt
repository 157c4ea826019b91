// The receiver: its record, listing and reading.
#![tactic(auto)]

pub mod call;
pub mod listing;

use framing::Framing;
use notices::{Notice, Slot};
use packet::Circuits;

// A receiver's record.
#[derive(Clone, Copy)]
pub struct Receiver {
    pub circuits: Circuits,
    pub slots: [Slot; 4],
    pub framing: Framing,
}

// What an accepted reading call tells: a notice, and how many bits it read.
#[derive(Clone, Copy)]
pub struct Told {
    pub notice: Notice,
    pub bits: usize,
}
