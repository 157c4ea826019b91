// A slot has a copy to place or none, and slots and records are in range or not.
ghost use Rattle.std.specs.Prelude.{◌≡◌, ◌≤◌, length};
ghost use Rattle.packet.specs.Messages.{longest_long};
ghost use Rattle.offering.specs.Record.{pending, slot_in_range, slots_in_range, in_range, PendingIffLeft};
ghost use Rattle.offering.specs.Offering.{offered_slot};

use super::{Offer, Sender, Slot};

// A message of the slot has a copy to place.
#[tactic(auto, unfolding(crate::specs::Record::pending))]
pub fn pending(t: Slot) -> bool
    ensures { result ≡ pending t }
{
    (t.place as usize) < packet::packets(t.length as usize)
}

// The slot is in range, where its message may have so many bytes.
#[tactic(auto, unfolding(crate::specs::Record::slot_in_range))]
pub fn slot_in_range(t: Slot, most: usize) -> bool
    ensures { result ≡ slot_in_range most t }
{
    if 7 < t.index {
        return false;
    }
    if 3 < t.priority {
        return false;
    }
    if 5 < t.repetition {
        return false;
    }
    let length = t.length as usize;
    if most < length {
        return false;
    }
    let packets = packet::packets(length);
    let place = t.place as usize;
    if packets < place {
        return false;
    }
    if t.repetition < t.copy {
        return false;
    }
    t.left as usize == packets - place
}

// The first `count` slots are in range.
// Stays: (d) a loop in four crates, over other slots in records and in bytes: one function for them would take the test of a slot, which is all that the loop has.
fn slots_in_range(slots: [Slot; 4], count: usize, given: bool) -> bool
    requires { count ≤ 4 }
    ensures { result ≡ slots_in_range given 0 count slots }
{
    for (i, t) in slots[..count].iter().enumerate() {
        if !slot_in_range(*t, packet::longest_at(given, i)) {
            return false;
        }
    }
    true
}

// The slot with a message to send.
// Stays: (d) the length is asked of an offer that has just been let pass; a type for that would be taken apart again here.
pub fn offered_slot(t: Slot, offer: Offer<'_>) -> Slot
    requires { length offer.message.now ≤ longest_long }
    ensures { result ≡ offered_slot t offer.entry.priority offer.entry.repetition offer.entry.message.now }
{
    let packets = packet::packets(offer.message.len()) as u16;
    Slot {
        index: t.index,
        priority: offer.priority,
        repetition: offer.repetition,
        copy: 0,
        length: offer.message.len() as u16,
        place: 0,
        left: packets,
    }
}

// In range a message is pending exactly if packets are left.
fn pending_iff_left()
    ensures { PendingIffLeft }
{}

impl Sender {
    // The record is in range, where a long buffer is given or not.
    #[tactic(auto, unfolding(crate::specs::Record::in_range, packet::specs::Answers::answer_of, packet::specs::Answers::answered))]
    pub fn in_range(&self, given: bool) -> bool
        ensures { result ≡ in_range given self.now }
    {
        let circuits = self.circuits;
        if 4 < circuits.count {
            return false;
        }
        if circuits.check().is_err() {
            return false;
        }
        if 3 < self.last {
            return false;
        }
        if 15 < self.enable {
            return false;
        }
        let slots = self.slots;
        slots_in_range(slots, circuits.count as usize, given)
    }
}
