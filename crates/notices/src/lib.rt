// What becomes of a packet that passed: the notice, the circuit's slot, and what is written.
#![tactic(auto)]

ghost use Rattle.std.specs.Prelude.{◌≡◌, ◌≤◌, true, length, take};
ghost use Rattle.parsing.specs.Packets.{code, information, enable};
ghost use Rattle.notices.specs.declared.Notice.TheVariants.{System};
ghost use Rattle.notices.specs.Slots.{slot_at, slots_in_range};
ghost use Rattle.notices.specs.Heard.{heard_at, heard};

pub mod fates;
pub mod passed;
pub mod slots;
pub mod stores;

use packet::{Circuits, Link};
use parsing::packets::Segmented;
use passed::{Passed, PassedSegmented};
use stores::CircuitSlot;

// What a circuit has heard (specs/Slots.antt has the meaning of each field).
// Stays: (a) `seen` beside `last`: records of any bytes come back as they were (receiver_unpacks and receiver_packs of receiver_layout), and an Option<u8> drops the `last` of a slot that is not seen.
#[derive(Clone, Copy, Debug, PartialEq, Eq)]
pub struct Slot {
    pub seen: bool,
    pub last: u8,
    pub length: u16,
    pub place: u16,
}

// What became of a circuit's packet.
#[derive(Clone, Copy, Debug, PartialEq, Eq)]
pub enum Fate {
    Copy,
    Begun,
    Held,
    Whole(usize),
    Orphan,
    Wrong,
}

// What a read tells.
#[derive(Clone, Copy, Debug, PartialEq, Eq)]
pub enum Notice {
    End,
    Spoilt,
    Malformed,
    System { enable: u8, code: u8, length: usize },
    Elsewhere,
    Circuit { number: usize, loss: u8, fate: Fate },
}

// What a packet leaves and tells, and whether it was the first packet of a listed circuit's message (link 10).
#[derive(Clone, Copy, Debug, PartialEq, Eq)]
pub struct Hearing {
    pub slots: [Slot; 4],
    pub notice: Notice,
    pub first: bool,
}

// A listed circuit's packet is heard, where its slot is among these, and a long buffer is given or not.
#[tactic(auto, using(parsing::proofs::Links::same_first, crate::proofs::FateLaws::held_within), unfolding(crate::specs::Heard::heard_at))]
fn hear_circuit(
    given: bool,
    slots: [Slot; 4],
    at: CircuitSlot,
    passed: &PassedSegmented<'_>,
) -> Hearing
    requires { at.slot ≡ slot_at slots at.circuit }
    ensures { result ≡ heard_at given at.circuit slots passed.now }
{
    let slot = at.slot;
    let segmented = passed.packet();
    let packet = segmented.packet();
    let fate = slot.fate_of(packet::takes_long(given, at.circuit), segmented);
    let mut after = slots;
    after[at.circuit] = slot.slot_after(fate, passed);
    Hearing {
        slots: after,
        notice: Notice::Circuit {
            number: at.circuit,
            loss: slot.loss_told(packet),
            fate,
        },
        first: packet.link() == Link::First,
    }
}

// The notice of a system packet.
pub fn system_notice(packet: &Segmented<'_>) -> Notice
    ensures { result ≡ System (enable packet.now) (code packet.now) (length (information packet.now)) }
{
    Notice::System {
        enable: packet.packet().enable(),
        code: packet.code(),
        length: packet.information().len(),
    }
}

// A packet that passed is heard by the circuits with these slots, where a long buffer is given or not.
#[tactic(auto, unfolding(crate::specs::Heard::heard, crate::specs::Heard::heard_by, crate::specs::Heard::system_heard))]
pub fn hear(given: bool, circuits: Circuits, slots: [Slot; 4], passed: &Passed<'_>) -> Hearing
    requires { (circuits.count ≤ 4) × (slots_in_range given 0 (take circuits.count slots) ≡ true) }
    ensures { result ≡ heard given circuits slots passed.now }
{
    let Some(packet) = passed.well_formed() else {
        return Hearing {
            slots,
            notice: Notice::Malformed,
            first: false,
        };
    };
    if passed.packet().address() == 0xff {
        return Hearing {
            slots,
            notice: system_notice(packet.packet()),
            first: false,
        };
    }
    let Some(number) = circuits.number_of(passed.packet().circuit()) else {
        return Hearing {
            slots,
            notice: Notice::Elsewhere,
            first: false,
        };
    };
    hear_circuit(
        given,
        slots,
        CircuitSlot::new(number, slots[number]),
        &packet,
    )
}
