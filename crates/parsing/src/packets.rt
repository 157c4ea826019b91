// A packet that passed is taken apart.
ghost use Rattle.std.specs.Prelude.{◌≡◌, ◌+◌, ◌≤◌, ◌<◌, ◌/◌, ◌%◌, not, ◌||◌, length, ltb, eqb, if◌then◌else◌, None, Some};
ghost use Rattle.packet.specs.Packets.{link_number};
ghost use Rattle.parsing.specs.Packets.{address, link, extended, index, lead, segment_in, circuit_in, code, information, descriptor, enable, malformed_system, malformed};

use super::headers::Segment;
use packet::{Circuit, Link};
use std::marker::Model;

// A packet. A clause sees its bytes: at least an address and a control byte.
#[derive(Drop)]
pub struct Packet<'a> {
    bytes: &'a [u8],
}

impl<'a> Model for Packet<'a> {
    ghost use Rattle.std.specs.Prelude.{ℕ, List, ◌≤◌, length};

    ghost Value = { List ℕ };

    ghost view = { λ p. p.bytes.now };

    ghost invariant = { λ p. 2 ≤ length p.bytes.now };
}

// A packet with a segment behind its address, control and extension bytes. A clause sees the packet's bytes.
#[derive(Drop)]
pub struct Segmented<'a> {
    packet: Packet<'a>,
}

impl<'a> Model for Segmented<'a> {
    ghost use Rattle.std.specs.Prelude.{ℕ, List, ◌<◌, length};
    ghost use Rattle.parsing.specs.Packets.{lead};

    ghost Value = { List ℕ };

    ghost view = { λ p. p.packet };

    ghost invariant = { λ p. lead p.packet < length p.packet };
}

impl<'a> Packet<'a> {
    // The packet of these bytes.
    pub fn new(bytes: &'a [u8]) -> Packet<'a>
        requires { 2 ≤ length bytes.now }
        ensures { result ≡ bytes.now }
    {
        Packet { bytes }
    }

    // The address byte.
    #[tactic(auto, unfolding(crate::specs::Packets::address))]
    pub fn address(&self) -> u8
        ensures { result ≡ address self.now }
    {
        self.bytes[0]
    }

    // The link, by its number in A7 A6 of the control byte.
    #[tactic(auto, unfolding(crate::specs::Packets::link, crate::specs::Packets::control_in, packet::specs::Packets::link_number))]
    pub fn link(&self) -> Link
        ensures { link_number result ≡ link self.now }
    {
        match self.bytes[1] / 64 {
            0 => Link::Between,
            1 => Link::Last,
            2 => Link::First,
            _ => Link::System,
        }
    }

    // 1 if an extension byte is present, else 0: A5 of the control byte.
    #[tactic(auto, unfolding(crate::specs::Packets::extended, crate::specs::Packets::control_in))]
    fn extended(&self) -> u8
        ensures { result ≡ extended self.now }
    {
        self.bytes[1] / 32 % 2
    }

    // The continuity index, A4 A3 A2 of the control byte.
    #[tactic(auto, unfolding(crate::specs::Packets::index, crate::specs::Packets::control_in))]
    pub fn index(&self) -> u8
        ensures { result ≡ index self.now }
    {
        self.bytes[1] / 4 % 8
    }

    // The enable bits of a system packet.
    #[tactic(auto, unfolding(crate::specs::Packets::enable, crate::specs::Packets::control_in))]
    pub fn enable(&self) -> u8
        ensures { result ≡ enable self.now }
    {
        self.bytes[1] % 16
    }

    // The place where the segment begins.
    #[tactic(auto, unfolding(crate::specs::Packets::lead))]
    fn lead(&self) -> usize
        ensures { result ≡ lead self.now }
    {
        2 + usize::from(self.extended())
    }

    // The segment; nothing where the packet ends before it.
    #[tactic(auto, unfolding(crate::specs::Packets::segment_in))]
    pub fn segment(&self) -> &'a [u8]
        ensures { result.now ≡ segment_in self.now }
    {
        let lead = self.lead().min(self.bytes.len());
        &self.bytes[lead..]
    }

    // The circuit that the packet names; an extension byte that is cut off counts as 0.
    #[tactic(auto, unfolding(crate::specs::Packets::circuit_in, crate::specs::Packets::address))]
    pub fn circuit(&self) -> Circuit
        ensures { result ≡ circuit_in self.now }
    {
        let extended = self.extended();
        let extension = if extended == 0 || self.bytes.len() < 3 {
            0
        } else {
            self.bytes[2]
        };
        Circuit {
            address: self.bytes[0],
            extended,
            extension,
        }
    }

    // The packet, which has a segment.
    pub fn segmented(&self) -> Segmented<'a>
        requires { lead self.now < length self.now }
        ensures { result ≡ self.now }
    {
        let packet = Packet { bytes: self.bytes };
        Segmented { packet }
    }

    // The packet with its segment, unless it is malformed.
    #[tactic(auto, using(crate::proofs::Links::same_system), unfolding(crate::specs::Packets::malformed))]
    pub fn well_formed(&self) -> Option<Segmented<'a>>
        ensures { result ≡ (if malformed self.now then None else Some self.now) }
    {
        if self.bytes.len() <= self.lead() {
            return None;
        }
        let packet = self.segmented();
        let malformed = if self.address() == 0xff {
            packet.malformed_system()
        } else {
            16 < packet.segment().len() || self.link() == Link::System
        };
        if malformed { None } else { Some(packet) }
    }
}

impl<'a> Segmented<'a> {
    // The packet.
    pub fn packet(&self) -> &Packet<'a>
        ensures { result.now ≡ self.now }
    {
        &self.packet
    }

    // The segment.
    #[tactic(auto, unfolding(crate::specs::Packets::segment_in, crate::specs::Packets::lead))]
    pub fn segment(&self) -> Segment<'a>
        ensures { (result ≡ segment_in self.now) × (length result + 2 ≤ length self.now) }
    {
        Segment::new(self.packet.segment())
    }

    // The descriptor of a system packet.
    #[tactic(auto, unfolding(crate::specs::Packets::descriptor))]
    fn descriptor(&self) -> u8
        ensures { result ≡ descriptor self.now }
    {
        self.segment().bytes()[0]
    }

    // The block code of a system packet.
    #[tactic(auto, unfolding(crate::specs::Packets::code))]
    pub fn code(&self) -> u8
        ensures { result ≡ code self.now }
    {
        self.descriptor() / 16
    }

    // The information bytes of a system packet: all behind its descriptor.
    #[tactic(auto, unfolding(crate::specs::Packets::information))]
    pub fn information(&self) -> &'a [u8]
        ensures { (result.now ≡ information self.now) × (length result.now + 3 ≤ length self.now) }
    {
        &self.segment().bytes()[1..]
    }

    // A packet at FF hex is malformed.
    #[tactic(auto, using(crate::proofs::Links::same_system), unfolding(crate::specs::Packets::malformed_system, crate::specs::Packets::control_in, crate::specs::Packets::code))]
    fn malformed_system(&self) -> bool
        ensures { result ≡ malformed_system self.now }
    {
        let packet = &self.packet;
        let descriptor = self.descriptor();
        let information = self.information();
        packet.link() != Link::System
            || packet.bytes[1] / 16 % 2 == 1
            || wrong_descriptor(descriptor, information.len())
    }
}

// A descriptor has a block code above 8, or another length than the information bytes behind it.
fn wrong_descriptor(descriptor: u8, information: usize) -> bool
    ensures { result ≡ ltb 8 (descriptor / 16) || not (eqb (descriptor % 16) information) }
{
    match descriptor / 16 {
        0..=8 => usize::from(descriptor % 16) != information,
        9..=15 => true,
        _ => true,
    }
}
