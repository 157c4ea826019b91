// Reading by the receiver whose record is in bytes: it is judged there, and only what changes is written.
#![tactic(auto)]

ghost use Rattle.std.specs.Prelude.{◌≡◌, Bool, true, List, ℕ, ◌+◌, ◌*◌, ◌≤◌, ◌<◌, length, take};
ghost use Rattle.std.proofs.lemmas.List.Edits.{sets};
ghost use Rattle.packet.specs.Answers.{answer_of};
ghost use Rattle.packet.specs.Messages.{longest_long};
ghost use Rattle.packet.specs.Stores.{stores, takes_long, longest_at};
ghost use Rattle.notices.specs.declared.Slot.{Slot};
ghost use Rattle.notices.specs.Slots.{slot_at, slot_in_range, slots_in_range};
ghost use Rattle.notices.specs.Stores.{store_length, stores_after_notice};
ghost use Rattle.notices.specs.Fates.{fate_of, slot_after};
ghost use Rattle.notices.specs.Heard.{heard_at, system_heard};
ghost use Rattle.receiver.specs.Record.{in_range};
ghost use Rattle.receiver.specs.Reading.{passed, read_refusal, stores_after_read};
ghost use Rattle.receiver_layout.specs.ReceiverBytes.{receiver_length, slot_bytes, receiver_bytes, receiver_in, is_receiver};
ghost use Rattle.receiver_layout.specs.Answers.{read_answer_length};
ghost use Rattle.receiver_calls.specs.Reading.{record_after_read, answer_after_read};

use framing::Check;
use framing_layout::{framing_in, put_framing};
use notices::passed::{Passed, PassedSegmented};
use notices::stores::CircuitSlot;
use notices::{Notice, slots, stores, system_notice};
use packet::{Answer, Refusal};
use receiver::Receiver;
use receiver::call::quiet_notice;
use receiver_layout::answers::put_read_answer;
use receiver_layout::{put_slot, slot_in};
use scanning::Stretch;

// The first `count` slots in the bytes are in range, where a long buffer is given or not.
// Stays: (d) the clauses on the lengths of record and store: with arrays `read` lends `record.first_chunk_mut::<61>().unwrap()` to a second function like it, and 110 lines of laws lead from the first bytes to all.
fn slots_in_range(bytes: &[u8], count: usize, given: bool) -> bool
    requires { (receiver_length ≤ length bytes.now) × (count ≤ 4) }
    ensures { result ≡ slots_in_range given 0 (take count (receiver_in bytes.now).slots) }
{
    (0..count).all(|i| slots::slot_in_range(
        slot_in(bytes, 13 + 6 * i),
        packet::longest_at(given, i),
    ))
}

// The record in the bytes is in range, where a long buffer is given or not.
#[tactic(auto, unfolding(receiver::specs::Record::in_range, receiver_layout::specs::ReceiverBytes::receiver_in, layout::specs::Layout::circuits_in, layout::specs::Layout::byte_at))]
fn in_range(bytes: &[u8], given: bool) -> bool
    requires { receiver_length ≤ length bytes.now }
    ensures { result ≡ in_range given (receiver_in bytes.now) }
{
    layout::circuits_in_range(bytes)
        && slots_in_range(bytes, bytes[0] as usize, given)
        && framing_layout::in_range(bytes, 37)
}

// A reading call is accepted, or refused.
#[tactic(auto, unfolding(packet::specs::Answers::answer_of, packet::specs::Answers::answered, packet::specs::Answers::refusal_of, receiver::specs::Reading::read_refusal, notices::specs::Stores::store_length, notices::specs::Stores::system_place, packet::specs::Stores::region))]
fn check(
    record: &[u8],
    store: &[u8],
    given: bool,
    long: &[u8],
    bits: &[u8],
    from: usize,
    to: usize,
) -> Answer
    requires { receiver_length ≤ length «record».now }
    ensures { result ≡ answer_of (read_refusal (receiver_in «record».now) (stores store.now given long.now) bits.now from to) }
{
    if !in_range(record, given) {
        return Err(Refusal::OutOfRange);
    }
    if store.len() < Receiver::STORE {
        return Err(Refusal::ShortStore);
    }
    if packet::long_short(given, long) {
        return Err(Refusal::ShortLong);
    }
    if to < from || bits::past(bits, to) {
        return Err(Refusal::WrongStretch);
    }
    Ok(())
}

// A listed circuit's packet is heard: its slot in the bytes is written, and the store or the long buffer.
// Stays: (d) `circuit < 4` is asked of a number that its one caller has just found: as a type this is `Place::new(circuit)` there, taken apart again here.
fn hear_circuit(
    record: &mut [u8],
    store: &mut [u8],
    given: bool,
    long: &mut [u8],
    circuit: usize,
    packet: &PassedSegmented<'_>,
) -> Notice
    requires { (receiver_length ≤ length «record».old) × (store_length ≤ length store.old) × (given ≡ true → longest_long ≤ length long.old)
        × (circuit < 4) × (slot_in_range (longest_at given circuit) (slot_at (receiver_in «record».old).slots circuit) ≡ true) }
    ensures { (result ≡ (heard_at given circuit (receiver_in «record».old).slots packet.now).notice)
        × («record».new ≡ sets «record».old (13 + 6 * circuit) (slot_bytes (slot_after (fate_of (takes_long given circuit) (slot_at (receiver_in «record».old).slots circuit) packet.now) (slot_at (receiver_in «record».old).slots circuit) packet.now)))
        × (stores store.new given long.new ≡ stores_after_notice result (receiver_in «record».old).slots packet.now (stores store.old given long.old)) }
{
    let at = 13 + 6 * circuit;
    let listed = CircuitSlot::new(circuit, slot_in(record, at));
    let slot = listed.slot;
    let fate = slot.fate_of(packet::takes_long(given, circuit), packet.packet());
    let loss = slot.loss_told(packet.packet().packet());
    let after = slot.slot_after(fate, packet);
    put_slot(record, at, after);
    listed.write_fate(store, long, fate, packet);
    Notice::Circuit {
        number: circuit,
        loss,
        fate,
    }
}

// A system packet is heard: its information goes to the store.
fn hear_system(store: &mut [u8], packet: &PassedSegmented<'_>) -> Notice
    requires { store_length ≤ length store.old }
    ensures { (ts : List Slot) (given : Bool) (long : List ℕ) → (result ≡ (system_heard ts packet.now).notice)
        × (stores store.new given long ≡ stores_after_notice result ts packet.now (stores store.old given long)) }
{
    stores::write_system(store, packet);
    system_notice(packet.packet())
}

// A packet that passed is heard by the receiver whose record is in the bytes.
fn hear(
    record: &mut [u8],
    store: &mut [u8],
    given: bool,
    long: &mut [u8],
    packet: &Passed<'_>,
) -> Notice
    requires { (receiver_length ≤ length «record».old) × (is_receiver «record».old ≡ true) × (in_range given (receiver_in «record».old) ≡ true)
        × (store_length ≤ length store.old) × (given ≡ true → longest_long ≤ length long.old) }
    ensures { (result ≡ (passed (receiver_in «record».old) (stores store.old given long.old) packet.now).notice)
        × («record».new ≡ sets «record».old 0 (receiver_bytes (passed (receiver_in «record».old) (stores store.old given long.old) packet.now).receiver))
        × (stores store.new given long.new ≡ (passed (receiver_in «record».old) (stores store.old given long.old) packet.now).store) }
{
    let Some(segmented) = packet.well_formed() else {
        return Notice::Malformed;
    };
    if packet.packet().address() == 0xff {
        return hear_system(store, &segmented);
    }
    let Some(number) = layout::number_in(record, packet.packet().circuit()) else {
        return Notice::Elsewhere;
    };
    hear_circuit(record, store, given, long, number, &segmented)
}

// The bits from number `from` up to `to` are read, until the first notice, by the receiver whose record is in the bytes, with the long buffer where it is given.
// Stays: (a) a twin of the call on a record as a value, which document 01 has, with the parameters of the functions for C (include/aes18.h); (b) in the bytes only what changes is written.
pub fn read(
    record: &mut [u8],
    store: &mut [u8],
    given: bool,
    long: &mut [u8],
    bits: &[u8],
    from: usize,
    to: usize,
    answer: &mut [u8],
) -> Answer
    requires { (receiver_length ≤ length «record».old) × (is_receiver «record».old ≡ true) × (read_answer_length ≤ length answer.old) }
    ensures { (result ≡ answer_of (read_refusal (receiver_in «record».old) (stores store.old given long.old) bits.now from to))
        × («record».new ≡ record_after_read «record».old (stores store.old given long.old) bits.now from to)
        × (stores store.new given long.new ≡ stores_after_read (receiver_in «record».old) (stores store.old given long.old) bits.now from to)
        × (answer.new ≡ answer_after_read «record».old (stores store.old given long.old) bits.now from to answer.old) }
{
    check(record, store, given, long, bits, from, to)?;
    let stretch = Stretch {
        bytes: bits,
        from,
        to,
    };
    let scan = scanning::scan_left(framing_in(record, 37), stretch);
    let read = scan.at - from;
    let notice = match scan.check {
        Check::Packet(n) => hear(record, store, given, long, &Passed::new(&scan.bytes[..n])),
        check => quiet_notice(check),
    };
    put_framing(record, 37, scan.framing);
    put_read_answer(answer, notice, read);
    Ok(())
}
