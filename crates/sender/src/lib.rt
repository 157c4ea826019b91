// Block making. The sender's record, listing and offering stand in the crate `offering`.
#![tactic(auto)]

pub mod blocks;

// A system packet: its enable bits, its code and its information.
#[derive(Clone, Copy)]
pub struct SystemPacket<'a> {
    pub enable: u8,
    pub code: u8,
    pub information: &'a [u8],
}

// What a block call asks for: a block of n bits, of which u may be used, with a system packet or none.
#[derive(Clone, Copy)]
pub struct BlockRequest<'a> {
    pub n: usize,
    pub u: usize,
    pub system: Option<SystemPacket<'a>>,
}

// The answer to a block call that is accepted: the frames placed, the bits used and the zeros that stuffing added among them.
#[derive(Clone, Copy, Debug, PartialEq, Eq)]
pub struct Block {
    pub placed: usize,
    pub used: usize,
    pub zeros: usize,
}
