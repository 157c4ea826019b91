// What a notice writes.
ghost use Rattle.std.specs.Prelude.{◌≡◌, ◌+◌, ◌*◌, ◌<◌, ◌≤◌, Bool, true, length};
ghost use Rattle.std.proofs.lemmas.List.Edits.{sets};
ghost use Rattle.packet.specs.Messages.{longest, longest_long};
ghost use Rattle.packet.specs.Stores.{region, stores};
ghost use Rattle.parsing.specs.Packets.{information};
ghost use Rattle.parsing.specs.Headers.{message_part};
ghost use Rattle.notices.specs.Slots.{slot_in_range};
ghost use Rattle.notices.specs.Stores.{system_place, store_length, place_of, is_long, with_part, stores_after_fate, fits_long, writable, stores_after_notice};

use super::passed::{Passed, PassedSegmented};
use super::slots::SlotInRange;
use super::{Fate, Notice, Slot};
use packet::Link;
use parsing::packets::{Packet, Segmented};

// Where system information begins, behind the regions, and the store with it, in bytes.
pub const SYSTEM: usize = 4 * packet::REGION;

// Stays: (d) as a type, `store_length ≤ length store.old` is `store: &mut [u8; STORE]`, and each caller splits the store lent (`store.first_chunk_mut()`) and joins it again in its contract.
pub const STORE: usize = SYSTEM + 16;

// A listed circuit's number, and its slot in range.
#[derive(Clone, Copy)]
pub struct CircuitSlot {
    pub circuit: usize,
    pub slot: SlotInRange,
    ghost listed: { circuit < 4 },
}

impl SlotInRange {
    // Where in its region or in the long buffer a packet's message bytes go.
    #[tactic(auto, using(parsing::proofs::Links::same_first), unfolding(crate::specs::Stores::place_of))]
    fn place_of(self, packet: &Packet<'_>) -> usize
        ensures { result ≡ place_of self packet.now }
    {
        if packet.link() == Link::First {
            return 0;
        }
        let slot = self.slot();
        usize::from(slot.place)
    }

    // The packet is of a long message.
    #[tactic(auto, using(parsing::proofs::Links::same_first), unfolding(crate::specs::Stores::is_long, packet::specs::Messages::longest))]
    fn is_long(self, packet: &Segmented<'_>) -> bool
        ensures { result ≡ is_long self packet.now }
    {
        if packet.packet().link() == Link::First {
            return packet.segment().message_length() == packet::LONG_HEADER;
        }
        packet::LONGEST_MESSAGE < usize::from(self.slot().length)
    }
}

impl CircuitSlot {
    // The slot of a circuit, which is in range.
    pub fn new(circuit: usize, slot: Slot) -> CircuitSlot
        requires { (circuit < 4) × (slot_in_range longest_long slot ≡ true) }
        ensures { (result.circuit ≡ circuit) × (result.slot ≡ slot) }
    {
        CircuitSlot {
            circuit,
            slot: SlotInRange::new(slot),
        }
    }

    // A packet's message bytes go to their place in the circuit's region, where they belong to no long message.
    #[tactic(auto, unfolding(crate::specs::Stores::store_length, crate::specs::Stores::system_place, packet::specs::Stores::region, packet::specs::Messages::longest))]
    fn write_region(self, store: &mut [u8], packet: &PassedSegmented<'_>)
        requires { (place_of self.slot packet.now ≤ longest) × (store_length ≤ length store.old) }
        ensures { store.new ≡ sets store.old (region * self.circuit + place_of self.slot packet.now) (message_part packet.now) }
    {
        let start = packet::REGION * self.circuit;
        let at = self.slot.place_of(packet.packet().packet());
        copying::copy_at(&mut store[start..], at, packet.part());
    }

    // A packet's message bytes go to their place in the circuit's region or, of a long message, in the buffer for it.
    #[tactic(auto, using(crate::proofs::StoreLaws::place_of_most), unfolding(crate::specs::Stores::with_part))]
    fn write_part(self, store: &mut [u8], long: &mut [u8], packet: &PassedSegmented<'_>)
        requires { (store_length ≤ length store.old)
            × (is_long self.slot packet.now ≡ true → place_of self.slot packet.now + length (message_part packet.now) ≤ length long.old) }
        ensures { (given : Bool) → stores store.new given long.new
            ≡ with_part self.circuit self.slot packet.now (stores store.old given long.old) }
    {
        if self.slot.is_long(packet.packet()) {
            let at = self.slot.place_of(packet.packet().packet());
            copying::copy_at(long, at, packet.part());
        } else {
            self.write_region(store, packet);
        }
    }

    // The store and the long buffer after a circuit's packet.
    #[tactic(auto, unfolding(crate::specs::Stores::stores_after_fate, crate::specs::Stores::writes, crate::specs::Stores::fits_long))]
    pub fn write_fate(
        self,
        store: &mut [u8],
        long: &mut [u8],
        fate: Fate,
        packet: &PassedSegmented<'_>,
    )
        requires { (store_length ≤ length store.old) × (fits_long fate self.slot packet.now long.old ≡ true) }
        ensures { (given : Bool) → stores store.new given long.new
            ≡ stores_after_fate fate self.circuit self.slot packet.now (stores store.old given long.old) }
    {
        match fate {
            Fate::Begun | Fate::Held | Fate::Whole(_) => self.write_part(store, long, packet),
            Fate::Copy | Fate::Orphan | Fate::Wrong => (),
        }
    }
}

// A system packet's information goes behind the regions.
#[tactic(auto, unfolding(crate::specs::Stores::store_length, crate::specs::Stores::system_place, packet::specs::Stores::region))]
pub fn write_system(store: &mut [u8], packet: &PassedSegmented<'_>)
    requires { store_length ≤ length store.old }
    ensures { store.new ≡ sets store.old system_place (information packet.now) }
{
    copying::copy_at(store, SYSTEM, packet.information());
}

// What the notice of a packet writes, where the slots were these.
#[tactic(auto, unfolding(crate::specs::Stores::stores_after_notice, crate::specs::Stores::writable, crate::specs::Slots::slot_at, crate::specs::Slots::fresh_slot))]
pub fn write(
    store: &mut [u8],
    long: &mut [u8],
    notice: Notice,
    slots: [Slot; 4],
    packet: &Passed<'_>,
)
    requires { (writable notice slots packet.now long.old ≡ true) × (store_length ≤ length store.old) }
    ensures { (given : Bool) → stores store.new given long.new
        ≡ stores_after_notice notice slots packet.now (stores store.old given long.old) }
{
    match notice {
        Notice::End | Notice::Spoilt | Notice::Malformed | Notice::Elsewhere => (),
        Notice::System { .. } => write_system(store, &packet.segmented()),
        Notice::Circuit { number, fate, .. } => {
            let at = CircuitSlot::new(number, slots[number]);
            at.write_fate(store, long, fate, &packet.segmented());
        }
    }
}
