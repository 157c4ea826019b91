// A packet's segment, the header in a message's first one, and the message bytes in a packet.
ghost use Rattle.std.specs.Prelude.{◌≡◌, ◌+◌, ◌≤◌, drop, length};
ghost use Rattle.parsing.specs.Headers.{two_bytes, header_length, message_length, wrong_header, message_part};

use super::packets::Segmented;
use packet::Link;
use std::marker::Model;

// The segment of a packet. A clause sees its bytes: at least one.
#[derive(Drop)]
pub struct Segment<'a> {
    bytes: &'a [u8],
}

impl<'a> Model for Segment<'a> {
    ghost use Rattle.std.specs.Prelude.{ℕ, List, ◌≤◌, length};

    ghost Value = { List ℕ };

    ghost view = { λ s. s.bytes.now };

    ghost invariant = { λ s. 1 ≤ length s.bytes.now };
}

impl<'a> Segment<'a> {
    // The segment of these bytes.
    pub fn new(bytes: &'a [u8]) -> Segment<'a>
        requires { 1 ≤ length bytes.now }
        ensures { result ≡ bytes.now }
    {
        Segment { bytes }
    }

    // Its bytes.
    pub fn bytes(&self) -> &'a [u8]
        ensures { result.now ≡ self.now }
    {
        self.bytes
    }

    // Its length in bytes.
    pub fn len(&self) -> usize
        ensures { result ≡ length self.now }
    {
        self.bytes.len()
    }

    // The header has two bytes.
    #[tactic(auto, unfolding(crate::specs::Headers::two_bytes))]
    fn two_bytes(&self) -> bool
        ensures { result ≡ two_bytes self.now }
    {
        self.bytes[0] / 16 % 2 == 1
    }

    // The header's length.
    #[tactic(auto, unfolding(crate::specs::Headers::header_length))]
    pub fn header_length(&self) -> usize
        ensures { result ≡ header_length self.now }
    {
        if self.two_bytes() { 2 } else { 1 }
    }

    // The bytes behind the header.
    pub fn body(&self) -> &'a [u8]
        ensures { (result.now ≡ drop (header_length self.now) self.now) × (length result.now ≤ length self.now) }
    {
        let header = self.header_length().min(self.bytes.len());
        &self.bytes[header..]
    }

    // The message length that the header holds.
    #[tactic(auto, unfolding(crate::specs::Headers::message_length))]
    pub fn message_length(&self) -> usize
        ensures { (result ≡ message_length self.now) × (result ≤ 4095) }
    {
        let low = self.bytes[0] % 16;
        if !self.two_bytes() {
            return usize::from(low);
        }
        let second = if self.bytes.len() < 2 {
            0
        } else {
            self.bytes[1]
        };
        usize::from(u16::from_be_bytes([low, second]))
    }

    // The header is wrong, where that of long messages is taken or not.
    #[tactic(auto, unfolding(crate::specs::Headers::wrong_header))]
    pub fn header_wrong(&self, taken: bool) -> bool
        ensures { result ≡ wrong_header taken self.now }
    {
        if !self.two_bytes() {
            return false;
        }
        let n = self.message_length();
        self.bytes.len() < 2 || n < 16 || (n == packet::LONG_HEADER && !taken)
    }
}

impl<'a> Segmented<'a> {
    // The message bytes in the packet.
    #[tactic(auto, using(crate::proofs::Links::same_first), unfolding(crate::specs::Headers::message_part))]
    pub fn part(&self) -> &'a [u8]
        ensures { (result.now ≡ message_part self.now) × (length result.now + 2 ≤ length self.now) }
    {
        let segment = self.segment();
        if self.packet().link() == Link::First {
            return segment.body();
        }
        segment.bytes()
    }
}
