// The AES18 user-bit channel for C and Rust: the calls of document 01, with enable bits that hold over, packets still to go and added zeros (document 02,
// asks 4 to 6), long messages (ask 7), pass totals and the serial line (asks 1 and 3), and reading with the framing alone, over records and answers laid out in bytes
// (include/aes18.h).
#![tactic(auto)]

ghost use Rattle.std.specs.Prelude.{◌≡◌, true};
ghost use Rattle.packet.specs.Stores.{stores, store_alone, stores_of};
ghost use Rattle.aes18.specs.SenderCalls as sends;
ghost use Rattle.aes18.specs.SenderCalls.{system_asked};
ghost use Rattle.aes18.specs.ReceiverCalls as receives;
ghost use Rattle.aes18.specs.TotalsCalls.{note_answered, note_record};
ghost use Rattle.aes18.specs.FramingCalls.{framing_read_answered, framing_read_record, framing_read_packet, framing_read_answer};
ghost use Rattle.aes18.specs.LineCalls.{line_write_answered, line_written, line_write_answer, line_read_answered, line_read_record, line_read_packet, line_read_answer};

use layout::{answer_number, clipped, put_number};
use offering::long::LongOffer;
use offering::{Offer, Sender};
use packet::{Refusal, Stores};
use receiver::Receiver;
use sender::{BlockRequest, SystemPacket};
use serial::writing::write;

// The answer where a record, a packet's place or an answer is shorter than it has to be.
// Stays: (a) a number, and a test in each call: C takes a call's answer as a number (include/aes18.h, and the contracts' `no_room`).
const NO_ROOM: u32 = 255;

// A sender's record, for the circuits of a list.
#[tactic(auto, using(crate::proofs::Numbers::number_listed), unfolding(crate::specs::Room::no_room, crate::specs::SenderCalls::list_answered, crate::specs::SenderCalls::list_record))]
pub fn aes18_sender_list(record: &mut [u8], list: &[u8]) -> u32
    ensures { (result ≡ sends.list_answered «record».old list.now)
        × («record».new ≡ sends.list_record «record».old list.now) }
{
    if record.len() < sender_layout::LENGTH {
        return NO_ROOM;
    }
    let listed = Sender::list(list);
    sender_layout::put_sender(record, listed.record);
    answer_number(listed.answer)
}

// A message is offered at a circuit, beside the long buffer where it is given.
// Stays: (a) eight parameters: they are those of the functions for C (include/aes18.h), and the buffer that one of them has.
#[tactic(auto, unfolding(crate::specs::Room::no_room, crate::specs::SenderCalls::offer_answered, crate::specs::SenderCalls::offer_record, crate::specs::SenderCalls::offer_stores))]
fn offer(
    record: &mut [u8],
    store: &mut [u8],
    given: bool,
    buffer: &[u8],
    circuit: u64,
    priority: u64,
    repetition: u64,
    message: &[u8],
) -> u32
    ensures { (result ≡ sends.offer_answered «record».old (stores store.old given buffer.now) circuit priority repetition message.now)
        × («record».new ≡ sends.offer_record «record».old (stores store.old given buffer.now) circuit priority repetition message.now)
        × (stores store.new given buffer.now ≡ sends.offer_stores «record».old (stores store.old given buffer.now) circuit priority repetition message.now) }
{
    if record.len() < sender_layout::LENGTH {
        return NO_ROOM;
    }
    let offer = Offer {
        circuit: circuit as usize,
        priority: clipped(priority),
        repetition: clipped(repetition),
        message,
    };
    answer_number(sender_calls::offer(record, store, given, buffer, offer))
}

// A message is offered at a circuit.
pub fn aes18_sender_offer(
    record: &mut [u8],
    store: &mut [u8],
    circuit: u64,
    priority: u64,
    repetition: u64,
    message: &[u8],
) -> u32
    ensures { (result ≡ sends.offer_answered «record».old (store_alone store.old) circuit priority repetition message.now)
        × («record».new ≡ sends.offer_record «record».old (store_alone store.old) circuit priority repetition message.now)
        × (store_alone store.new ≡ sends.offer_stores «record».old (store_alone store.old) circuit priority repetition message.now) }
{
    offer(
        record,
        store,
        false,
        &[],
        circuit,
        priority,
        repetition,
        message,
    )
}

// The same of a sender that has a long buffer beside the store.
pub fn aes18_sender_offer_beside(
    record: &mut [u8],
    store: &mut [u8],
    buffer: &[u8],
    circuit: u64,
    priority: u64,
    repetition: u64,
    message: &[u8],
) -> u32
    ensures { (result ≡ sends.offer_answered «record».old (stores store.old true buffer.now) circuit priority repetition message.now)
        × («record».new ≡ sends.offer_record «record».old (stores store.old true buffer.now) circuit priority repetition message.now)
        × (stores store.new true buffer.now ≡ sends.offer_stores «record».old (stores store.old true buffer.now) circuit priority repetition message.now) }
{
    offer(
        record, store, true, buffer, circuit, priority, repetition, message,
    )
}

// A long message is offered at circuit 0.
#[tactic(auto, unfolding(crate::specs::Room::no_room, crate::specs::SenderCalls::long_answered, crate::specs::SenderCalls::long_record, crate::specs::SenderCalls::long_stores))]
pub fn aes18_sender_offer_long(
    record: &mut [u8],
    store: &[u8],
    buffer: &mut [u8],
    priority: u64,
    repetition: u64,
    message: &[u8],
) -> u32
    ensures { (result ≡ sends.long_answered «record».old (stores store.now true buffer.old) priority repetition message.now)
        × («record».new ≡ sends.long_record «record».old (stores store.now true buffer.old) priority repetition message.now)
        × (stores store.now true buffer.new ≡ sends.long_stores «record».old (stores store.now true buffer.old) priority repetition message.now) }
{
    if record.len() < sender_layout::LENGTH {
        return NO_ROOM;
    }
    let offer = LongOffer {
        priority: clipped(priority),
        repetition: clipped(repetition),
        message,
    };
    answer_number(sender_calls::offer_long(record, store, buffer, offer))
}

// A block of n bits, of which u may be used, with a system packet where `system` is not 0, from what is lent.
// Stays: (a) `system` beside three numbers, and ten parameters: they are those of the functions for C (include/aes18.h).
#[tactic(auto, unfolding(crate::specs::Room::no_room, crate::specs::SenderCalls::block_answered, crate::specs::SenderCalls::block_record, crate::specs::SenderCalls::block_written, crate::specs::SenderCalls::block_answer))]
fn make_block(
    record: &mut [u8],
    lent: &Stores<'_>,
    n: u64,
    u: u64,
    system: u64,
    enable: u64,
    code: u64,
    info: &[u8],
    block: &mut [u8],
    answer: &mut [u8],
) -> u32
    ensures { (result ≡ sends.block_answered «record».old (stores_of lent.now) n u (system_asked system enable code info.now) block.old answer.old)
        × («record».new ≡ sends.block_record «record».old (stores_of lent.now) n u (system_asked system enable code info.now) block.old answer.old)
        × (block.new ≡ sends.block_written «record».old (stores_of lent.now) n u (system_asked system enable code info.now) block.old answer.old)
        × (answer.new ≡ sends.block_answer «record».old (stores_of lent.now) n u (system_asked system enable code info.now) block.old answer.old) }
{
    if record.len() < sender_layout::LENGTH {
        return NO_ROOM;
    }
    if answer.len() < sender_layout::ANSWER {
        return NO_ROOM;
    }
    let packet = SystemPacket {
        enable: clipped(enable),
        code: clipped(code),
        information: info,
    };
    let request = BlockRequest {
        n: n as usize,
        u: u as usize,
        system: (system != 0).then_some(packet),
    };
    answer_number(sender_calls::block(record, lent, &request, block, answer))
}

// A block of n bits, of which u may be used, with a system packet where `system` is not 0. Its enable bits are in force from then on.
// Stays: (a) as for `make_block`.
pub fn aes18_sender_block(
    record: &mut [u8],
    store: &[u8],
    n: u64,
    u: u64,
    system: u64,
    enable: u64,
    code: u64,
    info: &[u8],
    block: &mut [u8],
    answer: &mut [u8],
) -> u32
    ensures { (result ≡ sends.block_answered «record».old (store_alone store.now) n u (system_asked system enable code info.now) block.old answer.old)
        × («record».new ≡ sends.block_record «record».old (store_alone store.now) n u (system_asked system enable code info.now) block.old answer.old)
        × (block.new ≡ sends.block_written «record».old (store_alone store.now) n u (system_asked system enable code info.now) block.old answer.old)
        × (answer.new ≡ sends.block_answer «record».old (store_alone store.now) n u (system_asked system enable code info.now) block.old answer.old) }
{
    make_block(
        record,
        &Stores::alone(store),
        n,
        u,
        system,
        enable,
        code,
        info,
        block,
        answer,
    )
}

// The same of a sender that has a long buffer beside the store.
// Stays: (a) as for `make_block`.
pub fn aes18_sender_block_beside(
    record: &mut [u8],
    store: &[u8],
    buffer: &[u8],
    n: u64,
    u: u64,
    system: u64,
    enable: u64,
    code: u64,
    info: &[u8],
    block: &mut [u8],
    answer: &mut [u8],
) -> u32
    ensures { (result ≡ sends.block_answered «record».old (stores store.now true buffer.now) n u (system_asked system enable code info.now) block.old answer.old)
        × («record».new ≡ sends.block_record «record».old (stores store.now true buffer.now) n u (system_asked system enable code info.now) block.old answer.old)
        × (block.new ≡ sends.block_written «record».old (stores store.now true buffer.now) n u (system_asked system enable code info.now) block.old answer.old)
        × (answer.new ≡ sends.block_answer «record».old (stores store.now true buffer.now) n u (system_asked system enable code info.now) block.old answer.old) }
{
    make_block(
        record,
        &Stores::beside(store, buffer),
        n,
        u,
        system,
        enable,
        code,
        info,
        block,
        answer,
    )
}

// A receiver's record, for the circuits of a list.
#[tactic(auto, using(crate::proofs::Numbers::number_listed), unfolding(crate::specs::Room::no_room, crate::specs::ReceiverCalls::list_answered, crate::specs::ReceiverCalls::list_record))]
pub fn aes18_receiver_list(record: &mut [u8], list: &[u8]) -> u32
    ensures { (result ≡ receives.list_answered «record».old list.now)
        × («record».new ≡ receives.list_record «record».old list.now) }
{
    if record.len() < receiver_layout::LENGTH {
        return NO_ROOM;
    }
    let listed = Receiver::list(list);
    receiver_layout::put_receiver(record, listed.record);
    answer_number(listed.answer)
}

// The bits from number `from` up to `to` are read until the first notice, beside the long buffer where it is given.
// Stays: (a) eight parameters: they are those of the functions for C (include/aes18.h), and the buffer that one of them has.
#[tactic(auto, using(crate::proofs::Numbers::number_read), unfolding(crate::specs::Room::no_room, crate::specs::ReceiverCalls::read_answered, crate::specs::ReceiverCalls::read_record, crate::specs::ReceiverCalls::read_stores, crate::specs::ReceiverCalls::read_answer, packet::specs::Answers::refusal_number, receiver_calls::specs::Reading::record_after_read, receiver::specs::Reading::stores_after_read, receiver_calls::specs::Reading::answer_after_read))]
fn read(
    record: &mut [u8],
    store: &mut [u8],
    given: bool,
    buffer: &mut [u8],
    bits: &[u8],
    from: u64,
    to: u64,
    answer: &mut [u8],
) -> u32
    ensures { (result ≡ receives.read_answered «record».old (stores store.old given buffer.old) bits.now from to answer.old)
        × («record».new ≡ receives.read_record «record».old (stores store.old given buffer.old) bits.now from to answer.old)
        × (stores store.new given buffer.new ≡ receives.read_stores «record».old (stores store.old given buffer.old) bits.now from to answer.old)
        × (answer.new ≡ receives.read_answer «record».old (stores store.old given buffer.old) bits.now from to answer.old) }
{
    if record.len() < receiver_layout::LENGTH {
        return NO_ROOM;
    }
    if answer.len() < receiver_layout::ANSWER {
        return NO_ROOM;
    }
    if !receiver_layout::is_receiver(record) {
        return u32::from(Refusal::OutOfRange);
    }
    let read = receiver_calls::read(
        record,
        store,
        given,
        buffer,
        bits,
        from as usize,
        to as usize,
        answer,
    );
    answer_number(read)
}

// The bits from number `from` up to `to` are read until the first notice.
pub fn aes18_receiver_read(
    record: &mut [u8],
    store: &mut [u8],
    bits: &[u8],
    from: u64,
    to: u64,
    answer: &mut [u8],
) -> u32
    ensures { (result ≡ receives.read_answered «record».old (store_alone store.old) bits.now from to answer.old)
        × («record».new ≡ receives.read_record «record».old (store_alone store.old) bits.now from to answer.old)
        × (store_alone store.new ≡ receives.read_stores «record».old (store_alone store.old) bits.now from to answer.old)
        × (answer.new ≡ receives.read_answer «record».old (store_alone store.old) bits.now from to answer.old) }
{
    read(record, store, false, &mut [], bits, from, to, answer)
}

// The same of a receiver that has a long buffer beside the store.
pub fn aes18_receiver_read_beside(
    record: &mut [u8],
    store: &mut [u8],
    buffer: &mut [u8],
    bits: &[u8],
    from: u64,
    to: u64,
    answer: &mut [u8],
) -> u32
    ensures { (result ≡ receives.read_answered «record».old (stores store.old true buffer.old) bits.now from to answer.old)
        × («record».new ≡ receives.read_record «record».old (stores store.old true buffer.old) bits.now from to answer.old)
        × (stores store.new true buffer.new ≡ receives.read_stores «record».old (stores store.old true buffer.old) bits.now from to answer.old)
        × (answer.new ≡ receives.read_answer «record».old (stores store.old true buffer.old) bits.now from to answer.old) }
{
    read(record, store, true, buffer, bits, from, to, answer)
}

// A reading call's answer is noted in a record of pass totals.
#[tactic(auto, unfolding(crate::specs::Room::no_room, crate::specs::TotalsCalls::note_answered, crate::specs::TotalsCalls::note_record))]
pub fn aes18_totals_note(record: &mut [u8], answer: &[u8]) -> u32
    ensures { (result ≡ note_answered «record».old answer.now)
        × («record».new ≡ note_record «record».old answer.now) }
{
    if record.len() < totals_layout::LENGTH {
        return NO_ROOM;
    }
    if answer.len() < receiver_layout::ANSWER {
        return NO_ROOM;
    }
    let totals = totals_layout::totals_in(record);
    let after = totals_layout::answers::note(totals, answer);
    totals_layout::put_totals(record, after);
    0
}

// A packet is written as a frame of the serial line.
#[tactic(auto, using(crate::proofs::Numbers::frame_written, crate::proofs::Numbers::frame_refused), unfolding(crate::specs::Room::no_room, crate::specs::LineCalls::line_write_answered, crate::specs::LineCalls::line_written, crate::specs::LineCalls::line_write_answer, serial_layout::specs::LineBytes::line_write_bytes, serial::specs::Writing::output_after))]
pub fn aes18_line_write(packet: &[u8], line: &mut [u8], answer: &mut [u8]) -> u32
    ensures { (result ≡ line_write_answered packet.now line.old answer.old)
        × (line.new ≡ line_written packet.now line.old answer.old)
        × (answer.new ≡ line_write_answer packet.now line.old answer.old) }
{
    if answer.len() < serial_layout::WRITE_ANSWER {
        return NO_ROOM;
    }
    match write(packet, line) {
        Ok(n) => {
            put_number(answer, 0, serial_layout::WRITE_ANSWER, n);
            0
        }
        Err(refusal) => u32::from(refusal),
    }
}

// The bytes of a serial line are read until the first packet.
#[tactic(auto, using(crate::proofs::LineReading::read_fits), unfolding(crate::specs::Room::no_room, crate::specs::LineCalls::line_read_answered, crate::specs::LineCalls::line_read_record, crate::specs::LineCalls::line_read_packet, crate::specs::LineCalls::line_read_answer, serial::specs::Machine::length_given))]
pub fn aes18_line_read(record: &mut [u8], line: &[u8], packet: &mut [u8], answer: &mut [u8]) -> u32
    ensures { (result ≡ line_read_answered «record».old packet.old answer.old)
        × («record».new ≡ line_read_record «record».old line.now packet.old answer.old)
        × (packet.new ≡ line_read_packet «record».old line.now packet.old answer.old)
        × (answer.new ≡ line_read_answer «record».old line.now packet.old answer.old) }
{
    if record.len() < serial_layout::LENGTH {
        return NO_ROOM;
    }
    if packet.len() < layout::PACKET {
        return NO_ROOM;
    }
    if answer.len() < serial_layout::READ_ANSWER {
        return NO_ROOM;
    }
    let reading = serial_layout::line_in(record).read(line);
    let length = reading.packet.unwrap_or(0);
    serial_layout::put_line(record, reading.line);
    layout::put_packet(packet, reading.frame, length);
    serial_layout::put_read_answer(answer, length, reading.read);
    0
}

// The bits from number `from` up to `to` are read, with the framing alone, until the first body that passes or is spoilt.
#[tactic(auto, using(crate::proofs::Numbers::number_framed), unfolding(crate::specs::Room::no_room, crate::specs::FramingCalls::framing_short, crate::specs::FramingCalls::framing_read_answered, crate::specs::FramingCalls::framing_read_record, crate::specs::FramingCalls::framing_read_packet, crate::specs::FramingCalls::framing_read_answer))]
pub fn aes18_framing_read(
    framing: &mut [u8],
    bits: &[u8],
    from: u64,
    to: u64,
    packet: &mut [u8],
    answer: &mut [u8],
) -> u32
    ensures { (result ≡ framing_read_answered framing.old bits.now from to packet.old answer.old)
        × (framing.new ≡ framing_read_record framing.old bits.now from to packet.old answer.old)
        × (packet.new ≡ framing_read_packet framing.old bits.now from to packet.old answer.old)
        × (answer.new ≡ framing_read_answer framing.old bits.now from to packet.old answer.old) }
{
    if framing.len() < framing_layout::LENGTH {
        return NO_ROOM;
    }
    if packet.len() < layout::PACKET {
        return NO_ROOM;
    }
    if answer.len() < framing_layout::ANSWER {
        return NO_ROOM;
    }
    let read = framing_layout::call::read(
        framing,
        bits,
        from as usize,
        to as usize,
        packet,
        answer,
    );
    answer_number(read)
}
