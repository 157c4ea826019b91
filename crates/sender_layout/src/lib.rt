// A sender's record, and the answer of block making, in bytes.
#![tactic(auto)]

ghost use Rattle.std.specs.Prelude.{◌≡◌, ◌+◌, ◌≤◌, length};
ghost use Rattle.std.proofs.lemmas.List.Edits.{sets};
ghost use Rattle.sender_layout.specs.SenderBytes.{sender_length, slot_bytes, slot_in, slots_bytes, sender_bytes, sender_in};
ghost use Rattle.sender_layout.specs.Answers.{block_answer_length, block_answer_bytes};

use layout::{circuits_bytes, circuits_in, put_number, word_at};
use offering::{Sender, Slot};
use sender::Block;
use std::array;

// The lengths of a sender's record and of a block's answer.
pub const LENGTH: usize = 55;

pub const ANSWER: usize = 12;

// The slot in ten bytes.
pub fn slot_in(bytes: &[u8], at: usize) -> Slot
    requires { at + 10 ≤ length bytes.now }
    ensures { result ≡ slot_in bytes.now at }
{
    Slot {
        index: bytes[at],
        priority: bytes[at + 1],
        repetition: bytes[at + 2],
        copy: bytes[at + 3],
        length: word_at(bytes, at + 4),
        place: word_at(bytes, at + 6),
        left: word_at(bytes, at + 8),
    }
}

// The record in bytes.
pub fn sender_in(bytes: &[u8]) -> Sender
    requires { sender_length ≤ length bytes.now }
    ensures { result ≡ sender_in bytes.now }
{
    Sender {
        circuits: circuits_in(bytes),
        slots: array::from_fn(|i| slot_in(bytes, 13 + 10 * i)),
        last: bytes[53],
        enable: bytes[54],
    }
}

// A slot's bytes.
fn slot_bytes(t: Slot) -> [u8; 10]
    ensures { result ≡ slot_bytes t }
{
    let length = t.length.to_le_bytes();
    let place = t.place.to_le_bytes();
    let left = t.left.to_le_bytes();
    [
        t.index,
        t.priority,
        t.repetition,
        t.copy,
        length[0],
        length[1],
        place[0],
        place[1],
        left[0],
        left[1],
    ]
}

// A slot's bytes go to byte `at` and those behind it.
// Stays: (d) its like in receiver_layout has other fields in other places: one function for both would be `copying::copy_at` with a length as a const parameter.
pub fn put_slot(bytes: &mut [u8], at: usize, t: Slot)
    requires { at + 10 ≤ length bytes.old }
    ensures { bytes.new ≡ sets bytes.old at (slot_bytes t) }
{
    let slot = slot_bytes(t);
    copying::copy_at(bytes, at, &slot);
}

// The bytes of the four slots go to their place behind the circuits.
fn put_slots(bytes: &mut [u8], slots: [Slot; 4])
    requires { sender_length ≤ length bytes.old }
    ensures { bytes.new ≡ sets bytes.old 13 (slots_bytes slots) }
{
    let parts = slots.map(slot_bytes);
    copying::copy_at(bytes, 13, parts.as_flattened());
}

// The record's bytes go to the start of the bytes lent.
pub fn put_sender(bytes: &mut [u8], sender: Sender)
    requires { sender_length ≤ length bytes.old }
    ensures { bytes.new ≡ sets bytes.old 0 (sender_bytes sender) }
{
    let front = circuits_bytes(sender.circuits);
    let end = [sender.last, sender.enable];
    copying::copy_in(bytes, &front);
    put_slots(bytes, sender.slots);
    copying::copy_at(bytes, 53, &end);
}

// A block's answer goes to the start of the bytes lent: the frames placed, the bits used and the zeros added among them.
pub fn put_block_answer(bytes: &mut [u8], block: Block)
    requires { block_answer_length ≤ length bytes.old }
    ensures { bytes.new ≡ sets bytes.old 0 (block_answer_bytes block.placed block.used block.zeros) }
{
    put_number(bytes, 0, 4, block.placed);
    put_number(bytes, 4, 4, block.used);
    put_number(bytes, 8, 4, block.zeros);
}
