// A packet that passed: a body that passes has at most 21 bytes, two of which are the check.
ghost use Rattle.std.specs.Prelude.{◌≡◌, ◌≤◌, ◌<◌, length, if◌then◌else◌, None, Some};
ghost use Rattle.parsing.specs.Packets.{lead, information, malformed};
ghost use Rattle.parsing.specs.Headers.{message_part};

use parsing::packets::{Packet, Segmented};
use std::marker::Model;

// A packet that passed. A clause sees its bytes: 2 to 19.
#[derive(Drop)]
pub struct Passed<'a> {
    packet: Packet<'a>,
}

impl<'a> Model for Passed<'a> {
    ghost use Rattle.std.specs.Prelude.{ℕ, List, ◌≤◌, length};

    ghost Value = { List ℕ };

    ghost view = { λ p. p.packet };

    ghost invariant = { λ p. length p.packet ≤ 19 };
}

// A packet that passed and has a segment. A clause sees the packet's bytes.
#[derive(Drop)]
pub struct PassedSegmented<'a> {
    packet: Segmented<'a>,
}

impl<'a> Model for PassedSegmented<'a> {
    ghost use Rattle.std.specs.Prelude.{ℕ, List, ◌≤◌, length};

    ghost Value = { List ℕ };

    ghost view = { λ p. p.packet };

    ghost invariant = { λ p. length p.packet ≤ 19 };
}

impl<'a> Passed<'a> {
    // The packet of these bytes.
    pub fn new(bytes: &'a [u8]) -> Passed<'a>
        requires { (2 ≤ length bytes.now) × (length bytes.now ≤ 19) }
        ensures { result ≡ bytes.now }
    {
        let packet = Packet::new(bytes);
        Passed { packet }
    }

    // The packet, however long.
    pub fn packet(&self) -> &Packet<'a>
        ensures { result.now ≡ self.now }
    {
        &self.packet
    }

    // The packet, which has a segment.
    pub fn segmented(&self) -> PassedSegmented<'a>
        requires { lead self.now < length self.now }
        ensures { result ≡ self.now }
    {
        let packet = self.packet.segmented();
        PassedSegmented { packet }
    }

    // The packet with its segment, unless it is malformed.
    pub fn well_formed(&self) -> Option<PassedSegmented<'a>>
        ensures { result ≡ (if malformed self.now then None else Some self.now) }
    {
        let packet = self.packet.well_formed()?;
        Some(PassedSegmented { packet })
    }
}

impl<'a> PassedSegmented<'a> {
    // The packet, however long.
    pub fn packet(&self) -> &Segmented<'a>
        ensures { result.now ≡ self.now }
    {
        &self.packet
    }

    // The message bytes in the packet, at most 17.
    pub fn part(&self) -> &'a [u8]
        ensures { (result.now ≡ message_part self.now) × (length result.now ≤ 17) }
    {
        self.packet.part()
    }

    // The information bytes of a system packet, at most 16.
    pub fn information(&self) -> &'a [u8]
        ensures { (result.now ≡ information self.now) × (length result.now ≤ 16) }
    {
        self.packet.information()
    }
}
