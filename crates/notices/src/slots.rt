// Slots in range.
ghost use Rattle.std.specs.Prelude.{◌≡◌, ◌≤◌, true, take};
ghost use Rattle.packet.specs.Messages.{longest_long};
ghost use Rattle.notices.specs.Slots.{slot_in_range, slots_in_range};

use super::Slot;
use std::marker::Model;

// A slot in range, with a long message's length at most. A clause sees the slot.
#[derive(Clone, Copy)]
pub struct SlotInRange {
    slot: Slot,
}

impl Model for SlotInRange {
    ghost use Rattle.std.specs.Prelude.{◌≤◌};
    ghost use Rattle.packet.specs.Messages.{longest_long};
    ghost use Rattle.notices.specs.declared.Slot.{Slot};

    ghost Value = { Slot };

    ghost view = { λ t. t.slot };

    ghost invariant = { λ t. (t.slot.last ≤ 7) × (t.slot.length ≤ longest_long) × (t.slot.place ≤ t.slot.length) };

    ghost inverse = { λ slot. record { slot = slot } };
}

impl SlotInRange {
    // The slot, which is in range.
    #[tactic(auto, unfolding(crate::specs::Slots::slot_in_range))]
    pub fn new(slot: Slot) -> SlotInRange
        requires { slot_in_range longest_long slot ≡ true }
        ensures { result ≡ slot }
    {
        SlotInRange { slot }
    }

    // The slot.
    pub fn slot(self) -> Slot
        ensures { (result ≡ self) × (result.last ≤ 7) × (result.length ≤ longest_long) × (result.place ≤ result.length) }
    {
        self.slot
    }
}

// The slot is in range, where a message has so many bytes at most.
#[tactic(auto, unfolding(crate::specs::Slots::slot_in_range))]
pub fn slot_in_range(t: Slot, most: usize) -> bool
    ensures { result ≡ slot_in_range most t }
{
    t.last <= 7 && usize::from(t.length) <= most && t.place <= t.length
}

// The first slots are in range, where a long buffer is given or not.
// Stays: (d) a line in four crates, of other slots in records and in bytes: one function for them would take the test of a slot, which is all that the line has.
pub fn slots_in_range(slots: [Slot; 4], count: usize, given: bool) -> bool
    requires { count ≤ 4 }
    ensures { result ≡ slots_in_range given 0 (take count slots) }
{
    slots[..count]
        .iter()
        .enumerate()
        .all(|(i, t)| slot_in_range(*t, packet::longest_at(given, i)))
}
