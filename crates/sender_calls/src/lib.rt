// Calls of the sender whose record is in the bytes lent.
#![tactic(auto)]

ghost use Rattle.std.specs.Prelude.{◌≡◌, true, ◌+◌, ◌*◌, ◌≤◌, ◌<◌, length};
ghost use Rattle.std.proofs.lemmas.List.Edits.{sets};
ghost use Rattle.packet.specs.Messages.{longest_long};
ghost use Rattle.packet.specs.Stores.{region, stores, stores_of};
ghost use Rattle.packet.specs.Answers.{answer_of};
ghost use Rattle.offering.specs.Record.{slots_in_range, in_range};
ghost use Rattle.offering.specs.Offering.{offer_refusal, offered_slot, stores_after_offer, long_refusal, stores_after_long};
ghost use Rattle.sender.specs.Blocks.{block_refusal, buffer_after_block};
ghost use Rattle.sender.specs.BlockCalls.{asked};
ghost use Rattle.sender_layout.specs.SenderBytes.{sender_length, slot_bytes, slot_in, sender_in};
ghost use Rattle.sender_layout.specs.Answers.{block_answer_length};
ghost use Rattle.sender_calls.specs.Calls.{record_after_offer, record_after_long, record_after_block, answer_after_block};

use layout::circuits_in_range;
use offering::long::LongOffer;
use offering::slots::{offered_slot, pending, slot_in_range};
use offering::{Offer, Sender};
use packet::{Answer, Refusal, Stores};
use sender::BlockRequest;
use sender::blocks::{check_later, write_block};
use sender_layout::{put_block_answer, put_sender, put_slot, sender_in, slot_in};

// The first `count` slots in the bytes are in range.
// Stays: (d) a line here, in receiver_calls, offering and notices, of other slots in records and in bytes: one function would take the test of a slot, which is all that the line has; `count ≤ 4` and the length are asked since PROOFS names what is lent, at least 55 bytes.
fn slots_in_range(bytes: &[u8], given: bool, count: usize) -> bool
    requires { (sender_length ≤ length bytes.now) × (count ≤ 4) }
    ensures { result ≡ slots_in_range given 0 count (sender_in bytes.now).slots }
{
    (0..count).all(|i| slot_in_range(slot_in(bytes, 13 + 10 * i), packet::longest_at(given, i)))
}

// The record in the bytes is in range, where a long buffer is given or not.
pub fn in_range(bytes: &[u8], given: bool) -> bool
    requires { sender_length ≤ length bytes.now }
    ensures { result ≡ in_range given (sender_in bytes.now) }
{
    circuits_in_range(bytes)
        && bytes[53] <= 3
        && bytes[54] <= 15
        && slots_in_range(bytes, given, usize::from(bytes[0]))
}

// What is offered is refused, or not.
#[tactic(auto, using(offering::proofs::Ranges::in_range_facts, offering::proofs::Offers::bounds_circuit), unfolding(offering::specs::Offering::bounds_refusal, offering::specs::Offering::offer_refusal, packet::specs::Answers::answer_of, packet::specs::Answers::answered, packet::specs::Answers::refusal_of, sender_layout::specs::SenderBytes::sender_in, layout::specs::Layout::circuits_in, layout::specs::Layout::byte_at))]
fn check_offer(record: &[u8], store: &[u8], given: bool, long: &[u8], offer: Offer<'_>) -> Answer
    requires { sender_length ≤ length «record».now }
    ensures { result ≡ answer_of (offer_refusal (sender_in «record».now) (stores store.now given long.now) offer.entry.circuit offer.entry.priority offer.entry.repetition offer.entry.message.now) }
{
    if !in_range(record, given) {
        return Err(Refusal::OutOfRange);
    }
    offer.check_bounds(store, given, long, usize::from(record[0]))?;
    if pending(slot_in(record, 13 + 10 * offer.circuit)) {
        return Err(Refusal::Pending);
    }
    Ok(())
}

// A long offer is refused, or not.
#[tactic(auto, using(offering::proofs::Ranges::in_range_facts), unfolding(offering::specs::Offering::long_bounds_refusal, offering::specs::Offering::long_refusal, packet::specs::Answers::answer_of, packet::specs::Answers::answered, packet::specs::Answers::refusal_of, sender_layout::specs::SenderBytes::sender_in, layout::specs::Layout::circuits_in, layout::specs::Layout::byte_at))]
fn check_long(record: &[u8], store: &[u8], long: &[u8], offer: LongOffer<'_>) -> Answer
    requires { sender_length ≤ length «record».now }
    ensures { result ≡ answer_of (long_refusal (sender_in «record».now) (stores store.now true long.now) offer.entry.priority offer.entry.repetition offer.entry.message.now) }
{
    if !in_range(record, true) {
        return Err(Refusal::OutOfRange);
    }
    offer.check_bounds(store, long, usize::from(record[0]))?;
    if pending(slot_in(record, 13)) {
        return Err(Refusal::Pending);
    }
    Ok(())
}

// The circuit's slot has a message to send.
// Stays: (d) the circuit and the length are asked of an offer that has just been let pass: as a type this is `put(record, Judged::new(offer))`, taken apart again here.
fn put(record: &mut [u8], offer: Offer<'_>)
    requires { (sender_length ≤ length «record».old) × (offer.circuit < 4) × (length offer.message.now ≤ longest_long) }
    ensures { «record».new ≡ sets «record».old (13 + 10 * offer.entry.circuit) (slot_bytes (offered_slot (slot_in «record».old (13 + 10 * offer.entry.circuit)) offer.entry.priority offer.entry.repetition offer.entry.message.now)) }
{
    let at = 13 + 10 * offer.circuit;
    let slot = slot_in(record, at);
    put_slot(record, at, offered_slot(slot, offer));
}

// An offer is accepted: its message goes to the start of the circuit's region, and the circuit's slot has it to send.
// Stays: (d) as for `put`.
#[tactic(auto, using(bits::proofs::Lists::sets_part), unfolding(packet::specs::Stores::region))]
fn accept(record: &mut [u8], store: &mut [u8], offer: Offer<'_>)
    requires { (sender_length ≤ length «record».old) × (offer.circuit < 4) × (length offer.message.now ≤ longest_long)
        × (region * offer.circuit + length offer.message.now ≤ length store.old) }
    ensures { («record».new ≡ sets «record».old (13 + 10 * offer.entry.circuit) (slot_bytes (offered_slot (slot_in «record».old (13 + 10 * offer.entry.circuit)) offer.entry.priority offer.entry.repetition offer.entry.message.now)))
        × (store.new ≡ sets store.old (region * offer.entry.circuit) offer.entry.message.now) }
{
    let start = Sender::REGION * offer.circuit;
    copying::copy_in(&mut store[start..], offer.message);
    put(record, offer);
}

// A message is offered at a circuit, with the long buffer given or not. Of the record only the circuit's slot is written.
// Stays: (a) a twin, as `offer_long` and `block` below, of the call on a record as a value, which the documents have; (b) in the bytes only what changes is written.
pub fn offer(
    record: &mut [u8],
    store: &mut [u8],
    given: bool,
    long: &[u8],
    offer: Offer<'_>,
) -> Answer
    requires { sender_length ≤ length «record».old }
    ensures { (result ≡ answer_of (offer_refusal (sender_in «record».old) (stores store.old given long.now) offer.entry.circuit offer.entry.priority offer.entry.repetition offer.entry.message.now))
        × («record».new ≡ record_after_offer «record».old (stores store.old given long.now) offer.entry.circuit offer.entry.priority offer.entry.repetition offer.entry.message.now)
        × (stores store.new given long.now ≡ stores_after_offer (sender_in «record».old) (stores store.old given long.now) offer.entry.circuit offer.entry.priority offer.entry.repetition offer.entry.message.now) }
{
    check_offer(record, store, given, long, offer)?;
    accept(record, store, offer);
    Ok(())
}

// A long message is offered at circuit 0.
pub fn offer_long(record: &mut [u8], store: &[u8], long: &mut [u8], offer: LongOffer<'_>) -> Answer
    requires { sender_length ≤ length «record».old }
    ensures { (result ≡ answer_of (long_refusal (sender_in «record».old) (stores store.now true long.old) offer.entry.priority offer.entry.repetition offer.entry.message.now))
        × («record».new ≡ record_after_long «record».old (stores store.now true long.old) offer.entry.priority offer.entry.repetition offer.entry.message.now)
        × (stores store.now true long.new ≡ stores_after_long (sender_in «record».old) (stores store.now true long.old) offer.entry.priority offer.entry.repetition offer.entry.message.now) }
{
    check_long(record, store, long, offer)?;
    copying::copy_in(long, offer.message);
    put(record, offer.numbered());
    Ok(())
}

// A block, as the request asks for it.
pub fn block(
    record: &mut [u8],
    lent: &Stores<'_>,
    request: &BlockRequest<'_>,
    buf: &mut [u8],
    answer: &mut [u8],
) -> Answer
    requires { (sender_length ≤ length «record».old) × (block_answer_length ≤ length answer.old) }
    ensures { (result ≡ answer_of (block_refusal (sender_in «record».old) (stores_of lent.now) buf.old request.now.n request.now.u (asked request.now.system)))
        × («record».new ≡ record_after_block «record».old (stores_of lent.now) request.now.n request.now.u (asked request.now.system) buf.old)
        × (buf.new ≡ buffer_after_block (sender_in «record».old) (stores_of lent.now) buf.old request.now.n request.now.u (asked request.now.system))
        × (answer.new ≡ answer_after_block «record».old (stores_of lent.now) request.now.n request.now.u (asked request.now.system) buf.old answer.old) }
{
    if !in_range(record, lent.given) {
        return Err(Refusal::OutOfRange);
    }
    check_later(lent, buf, request)?;
    let mut sender = sender_in(record);
    let block = write_block(&mut sender, lent, buf, request);
    put_sender(record, sender);
    put_block_answer(answer, block);
    Ok(())
}
