// A receiver's record, and the answer of reading, in bytes.
#![tactic(auto)]

pub mod answers;

ghost use Rattle.std.specs.Prelude.{◌≡◌, ◌+◌, ◌≤◌, length};
ghost use Rattle.std.proofs.lemmas.List.Edits.{sets};
ghost use Rattle.receiver_layout.specs.ReceiverBytes.{receiver_length, slot_bytes, slot_in, slots_bytes, receiver_bytes, is_receiver};

use framing_layout::put_framing;
use layout::{circuits_bytes, word_at};
use notices::Slot;
use receiver::Receiver;

// The lengths of a receiver's record and of a reading call's answer.
pub const LENGTH: usize = 61;

pub const ANSWER: usize = 16;

// The bytes are some record's.
// Stays: (a) slices with a length clause, here and in `put_receiver` and `put_read_answer`: an array of just 61 bytes asks more than at least 61, and docs/PROOFS.md names these functions.
#[tactic(auto, unfolding(crate::specs::ReceiverBytes::is_receiver, layout::specs::Layout::byte_at))]
pub fn is_receiver(bytes: &[u8]) -> bool
    requires { receiver_length ≤ length bytes.now }
    ensures { result ≡ is_receiver bytes.now }
{
    [bytes[13], bytes[19], bytes[25], bytes[31]]
        .iter()
        .all(|seen| *seen <= 1)
}

// The slot in six bytes.
#[tactic(auto, unfolding(crate::specs::ReceiverBytes::slot_in, layout::specs::Layout::byte_at))]
pub fn slot_in(bytes: &[u8], at: usize) -> Slot
    requires { at + 6 ≤ length bytes.now }
    ensures { result ≡ slot_in bytes.now at }
{
    Slot {
        seen: bytes[at] == 1,
        last: bytes[at + 1],
        length: word_at(bytes, at + 2),
        place: word_at(bytes, at + 4),
    }
}

// A slot's bytes.
#[tactic(auto, using(bits::proofs::BitInByte::bool_byte_bit_value), unfolding(crate::specs::ReceiverBytes::slot_bytes, layout::specs::Layout::low_bytes))]
fn slot_bytes(t: Slot) -> [u8; 6]
    ensures { result ≡ slot_bytes t }
{
    let length = t.length.to_le_bytes();
    let place = t.place.to_le_bytes();
    [
        u8::from(t.seen),
        t.last,
        length[0],
        length[1],
        place[0],
        place[1],
    ]
}

// A slot's bytes go to byte `at` and those behind it.
// Stays: (d) its like in sender_layout has other fields in other places: one function for both would be `copying::copy_at` with a length as a const parameter.
pub fn put_slot(bytes: &mut [u8], at: usize, t: Slot)
    requires { at + 6 ≤ length bytes.old }
    ensures { bytes.new ≡ sets bytes.old at (slot_bytes t) }
{
    let slot = slot_bytes(t);
    copying::copy_at(bytes, at, &slot);
}

// The bytes of the four slots go to their place behind the circuits.
fn put_slots(bytes: &mut [u8], slots: [Slot; 4])
    requires { receiver_length ≤ length bytes.old }
    ensures { bytes.new ≡ sets bytes.old 13 (slots_bytes slots) }
{
    let parts = slots.map(slot_bytes);
    copying::copy_at(bytes, 13, parts.as_flattened());
}

// The record's bytes go to the start of the bytes lent.
pub fn put_receiver(bytes: &mut [u8], receiver: Receiver)
    requires { receiver_length ≤ length bytes.old }
    ensures { bytes.new ≡ sets bytes.old 0 (receiver_bytes receiver) }
{
    let circuits = receiver.circuits;
    let slots = receiver.slots;
    let framing = receiver.framing;
    let front = circuits_bytes(circuits);
    copying::copy_in(bytes, &front);
    put_slots(bytes, slots);
    put_framing(bytes, 37, framing);
}
