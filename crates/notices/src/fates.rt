// What becomes of a circuit's packet, and the slot then.
ghost use Rattle.std.specs.Prelude.{◌≡◌, ◌+◌, ◌<◌, ◌≤◌, if◌then◌else◌};
ghost use Rattle.packet.specs.Messages.{longest_long};
ghost use Rattle.notices.specs.Fates.{is_copy, loss_of, still_open, first_fate, between_fate, last_fate, fate_of, closed_slot, open_length, slot_after};
ghost use Rattle.notices.specs.LongFates.{LongFates};

use super::passed::PassedSegmented;
use super::slots::SlotInRange;
use super::{Fate, Slot};
use packet::Link;
use parsing::headers::Segment;
use parsing::packets::{Packet, Segmented};

// What becomes of a first packet's segment, where the header of long messages is taken or not.
#[tactic(auto, unfolding(crate::specs::Fates::first_fate))]
fn first_fate(taken: bool, segment: &Segment<'_>) -> Fate
    ensures { result ≡ first_fate taken segment.now }
{
    if segment.header_wrong(taken) {
        return Fate::Wrong;
    }
    let message = segment.message_length();
    let body = segment.body().len();
    if body == message {
        return Fate::Whole(message);
    }
    if segment.len() == 16 && body < message {
        return Fate::Begun;
    }
    Fate::Wrong
}

// The length of the message that a first segment opens.
#[tactic(auto, unfolding(crate::specs::Fates::open_length, packet::specs::Messages::longest_long))]
fn open_length(segment: &Segment<'_>) -> usize
    ensures { (result ≡ open_length segment.now) × (result ≤ longest_long) }
{
    let message = segment.message_length();
    if message == packet::LONG_HEADER {
        return packet::LONGEST_LONG;
    }
    message
}

// What becomes of a long message's packets.
#[tactic(auto, using(crate::proofs::LongFates::long_fates))]
fn long_fates()
    ensures { LongFates }
{}

impl Slot {
    // The slot with no message open, after this packet.
    #[tactic(auto, unfolding(crate::specs::Fates::closed_slot))]
    fn closed(packet: &Packet<'_>) -> Slot
        ensures { result ≡ closed_slot packet.now }
    {
        Slot {
            seen: true,
            last: packet.index(),
            length: 0,
            place: 0,
        }
    }
}

impl SlotInRange {
    // The packet is a copy of the circuit's last one.
    #[tactic(auto, unfolding(crate::specs::Fates::is_copy))]
    fn is_copy(self, packet: &Packet<'_>) -> bool
        ensures { result ≡ is_copy self packet.now }
    {
        let slot = self.slot();
        slot.seen && packet.index() == slot.last
    }

    // How many packets of the circuit were lost before this one, which is no copy.
    #[tactic(auto, unfolding(crate::specs::Fates::loss_of))]
    fn loss_of(self, packet: &Packet<'_>) -> u8
        ensures { result ≡ loss_of self packet.now }
    {
        let slot = self.slot();
        if !slot.seen {
            return 0;
        }
        packet.index().wrapping_sub(slot.last).wrapping_sub(1) % 8
    }

    // A message is open that this packet does not drop.
    #[tactic(auto, using(parsing::proofs::Links::same_first), unfolding(crate::specs::Fates::still_open, crate::specs::Slots::open_message))]
    fn still_open(self, packet: &Packet<'_>) -> bool
        ensures { result ≡ still_open self packet.now }
    {
        let slot = self.slot();
        slot.place < slot.length && self.loss_of(packet) == 0 && packet.link() != Link::First
    }

    // What becomes of a segment between, where a message is open.
    #[tactic(auto, unfolding(crate::specs::Fates::between_fate, packet::specs::Messages::longest_long))]
    fn between_fate(self, segment: &Segment<'_>) -> Fate
        ensures { result ≡ between_fate self segment.now }
    {
        let slot = self.slot();
        if segment.len() == 16 && usize::from(slot.place) + 16 < usize::from(slot.length) {
            Fate::Held
        } else {
            Fate::Wrong
        }
    }

    // What becomes of a last segment, where a message is open.
    #[tactic(auto, unfolding(crate::specs::Fates::last_fate, packet::specs::Messages::longest, packet::specs::Messages::longest_long))]
    fn last_fate(self, segment: &Segment<'_>) -> Fate
        ensures { result ≡ last_fate self segment.now }
    {
        let slot = self.slot();
        let length = usize::from(slot.length);
        let due = usize::from(slot.length - slot.place);
        if due < segment.len() {
            return Fate::Wrong;
        }
        let end = usize::from(slot.place) + segment.len();
        let complete = if packet::LONGEST_MESSAGE < length {
            packet::LONGEST_MESSAGE < end
        } else {
            end == length
        };
        if complete {
            Fate::Whole(end)
        } else {
            Fate::Wrong
        }
    }

    // What becomes of a packet, where the header of long messages is taken or not.
    #[tactic(auto, unfolding(crate::specs::Fates::fate_of, packet::specs::Packets::link_number))]
    pub fn fate_of(self, taken: bool, packet: &Segmented<'_>) -> Fate
        ensures { result ≡ fate_of taken self packet.now }
    {
        if self.is_copy(packet.packet()) {
            return Fate::Copy;
        }
        let segment = packet.segment();
        match packet.packet().link() {
            Link::First => first_fate(taken, &segment),
            _ if !self.still_open(packet.packet()) => Fate::Orphan,
            Link::Between => self.between_fate(&segment),
            Link::Last | Link::System => self.last_fate(&segment),
        }
    }

    // The circuit's slot after a first packet that more are due to.
    #[tactic(auto, unfolding(crate::specs::Fates::slot_after, packet::specs::Messages::longest_long))]
    fn begun(self, packet: &PassedSegmented<'_>) -> Slot
        ensures { result ≡ slot_after Fate.Begun self packet.now }
    {
        Slot {
            seen: true,
            last: packet.packet().packet().index(),
            length: open_length(&packet.packet().segment()) as u16,
            place: packet.part().len() as u16,
        }
    }

    // The circuit's slot after a packet.
    // Stays: (d) what Held asks of the slot: as a type, a fate together with its slot would be taken apart here, and the notice tells the fate alone.
    #[tactic(auto, unfolding(crate::specs::Fates::slot_after, packet::specs::Messages::longest_long))]
    pub fn slot_after(self, fate: Fate, packet: &PassedSegmented<'_>) -> Slot
        requires { fate ≡ Fate.Held → self.place + 16 < self.length }
        ensures { result ≡ slot_after fate self packet.now }
    {
        let slot = self.slot();
        match fate {
            Fate::Copy => slot,
            Fate::Begun => self.begun(packet),
            Fate::Held => Slot {
                seen: true,
                last: packet.packet().packet().index(),
                length: slot.length,
                place: slot.place + 16,
            },
            Fate::Whole(_) | Fate::Orphan | Fate::Wrong => Slot::closed(packet.packet().packet()),
        }
    }

    // The loss that a notice tells.
    pub fn loss_told(self, packet: &Packet<'_>) -> u8
        ensures { result ≡ (if is_copy self packet.now then 0 else loss_of self packet.now) }
    {
        if self.is_copy(packet) {
            return 0;
        }
        self.loss_of(packet)
    }
}
