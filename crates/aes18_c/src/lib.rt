// The static library for C and Rust: each function of the crate aes18, called with C's conventions under its own name (include/aes18.h).
// Stays: (a) a twin of each function of aes18: a crate is a library or a static library, and C finds each under its own name.
#![tactic(auto)]

ghost use Rattle.std.specs.Prelude.{◌≡◌, true};
ghost use Rattle.packet.specs.Stores.{stores, store_alone};
ghost use Rattle.aes18.specs.SenderCalls as sends;
ghost use Rattle.aes18.specs.SenderCalls.{system_asked};
ghost use Rattle.aes18.specs.ReceiverCalls as receives;
ghost use Rattle.aes18.specs.TotalsCalls.{note_answered, note_record};
ghost use Rattle.aes18.specs.FramingCalls.{framing_read_answered, framing_read_record, framing_read_packet, framing_read_answer};
ghost use Rattle.aes18.specs.LineCalls.{line_write_answered, line_written, line_write_answer, line_read_answered, line_read_record, line_read_packet, line_read_answer};

// A sender's record, for the circuits of a list.
#[unsafe(no_mangle)]
pub extern "C" fn aes18_sender_list(record: &mut [u8], list: &[u8]) -> u32
    ensures { (result ≡ sends.list_answered «record».old list.now)
        × («record».new ≡ sends.list_record «record».old list.now) }
{
    aes18::aes18_sender_list(record, list)
}

// A message is offered at a circuit.
#[unsafe(no_mangle)]
pub extern "C" fn aes18_sender_offer(
    record: &mut [u8],
    store: &mut [u8],
    circuit: u64,
    priority: u64,
    repetition: u64,
    message: &[u8],
) -> u32
    ensures { (result ≡ sends.offer_answered «record».old (store_alone store.old) circuit priority repetition message.now)
        × («record».new ≡ sends.offer_record «record».old (store_alone store.old) circuit priority repetition message.now)
        × (store_alone store.new ≡ sends.offer_stores «record».old (store_alone store.old) circuit priority repetition message.now) }
{
    aes18::aes18_sender_offer(record, store, circuit, priority, repetition, message)
}

// The same of a sender that has a long buffer beside the store.
#[unsafe(no_mangle)]
pub extern "C" fn aes18_sender_offer_beside(
    record: &mut [u8],
    store: &mut [u8],
    buffer: &[u8],
    circuit: u64,
    priority: u64,
    repetition: u64,
    message: &[u8],
) -> u32
    ensures { (result ≡ sends.offer_answered «record».old (stores store.old true buffer.now) circuit priority repetition message.now)
        × («record».new ≡ sends.offer_record «record».old (stores store.old true buffer.now) circuit priority repetition message.now)
        × (stores store.new true buffer.now ≡ sends.offer_stores «record».old (stores store.old true buffer.now) circuit priority repetition message.now) }
{
    aes18::aes18_sender_offer_beside(
        record, store, buffer, circuit, priority, repetition, message,
    )
}

// A long message is offered at circuit 0.
#[unsafe(no_mangle)]
pub extern "C" fn aes18_sender_offer_long(
    record: &mut [u8],
    store: &[u8],
    buffer: &mut [u8],
    priority: u64,
    repetition: u64,
    message: &[u8],
) -> u32
    ensures { (result ≡ sends.long_answered «record».old (stores store.now true buffer.old) priority repetition message.now)
        × («record».new ≡ sends.long_record «record».old (stores store.now true buffer.old) priority repetition message.now)
        × (stores store.now true buffer.new ≡ sends.long_stores «record».old (stores store.now true buffer.old) priority repetition message.now) }
{
    aes18::aes18_sender_offer_long(record, store, buffer, priority, repetition, message)
}

// A block of n bits, of which u may be used, with a system packet where `system` is not 0. Its enable bits are in force from then on.
#[unsafe(no_mangle)]
pub extern "C" fn aes18_sender_block(
    record: &mut [u8],
    store: &[u8],
    n: u64,
    u: u64,
    system: u64,
    enable: u64,
    code: u64,
    info: &[u8],
    block: &mut [u8],
    answer: &mut [u8],
) -> u32
    ensures { (result ≡ sends.block_answered «record».old (store_alone store.now) n u (system_asked system enable code info.now) block.old answer.old)
        × («record».new ≡ sends.block_record «record».old (store_alone store.now) n u (system_asked system enable code info.now) block.old answer.old)
        × (block.new ≡ sends.block_written «record».old (store_alone store.now) n u (system_asked system enable code info.now) block.old answer.old)
        × (answer.new ≡ sends.block_answer «record».old (store_alone store.now) n u (system_asked system enable code info.now) block.old answer.old) }
{
    aes18::aes18_sender_block(
        record, store, n, u, system, enable, code, info, block, answer,
    )
}

// The same of a sender that has a long buffer beside the store.
#[unsafe(no_mangle)]
pub extern "C" fn aes18_sender_block_beside(
    record: &mut [u8],
    store: &[u8],
    buffer: &[u8],
    n: u64,
    u: u64,
    system: u64,
    enable: u64,
    code: u64,
    info: &[u8],
    block: &mut [u8],
    answer: &mut [u8],
) -> u32
    ensures { (result ≡ sends.block_answered «record».old (stores store.now true buffer.now) n u (system_asked system enable code info.now) block.old answer.old)
        × («record».new ≡ sends.block_record «record».old (stores store.now true buffer.now) n u (system_asked system enable code info.now) block.old answer.old)
        × (block.new ≡ sends.block_written «record».old (stores store.now true buffer.now) n u (system_asked system enable code info.now) block.old answer.old)
        × (answer.new ≡ sends.block_answer «record».old (stores store.now true buffer.now) n u (system_asked system enable code info.now) block.old answer.old) }
{
    aes18::aes18_sender_block_beside(
        record, store, buffer, n, u, system, enable, code, info, block, answer,
    )
}

// A receiver's record, for the circuits of a list.
#[unsafe(no_mangle)]
pub extern "C" fn aes18_receiver_list(record: &mut [u8], list: &[u8]) -> u32
    ensures { (result ≡ receives.list_answered «record».old list.now)
        × («record».new ≡ receives.list_record «record».old list.now) }
{
    aes18::aes18_receiver_list(record, list)
}

// The bits from number `from` up to `to` are read until the first notice.
#[unsafe(no_mangle)]
pub extern "C" fn aes18_receiver_read(
    record: &mut [u8],
    store: &mut [u8],
    bits: &[u8],
    from: u64,
    to: u64,
    answer: &mut [u8],
) -> u32
    ensures { (result ≡ receives.read_answered «record».old (store_alone store.old) bits.now from to answer.old)
        × («record».new ≡ receives.read_record «record».old (store_alone store.old) bits.now from to answer.old)
        × (store_alone store.new ≡ receives.read_stores «record».old (store_alone store.old) bits.now from to answer.old)
        × (answer.new ≡ receives.read_answer «record».old (store_alone store.old) bits.now from to answer.old) }
{
    aes18::aes18_receiver_read(record, store, bits, from, to, answer)
}

// The same of a receiver that has a long buffer beside the store.
#[unsafe(no_mangle)]
pub extern "C" fn aes18_receiver_read_beside(
    record: &mut [u8],
    store: &mut [u8],
    buffer: &mut [u8],
    bits: &[u8],
    from: u64,
    to: u64,
    answer: &mut [u8],
) -> u32
    ensures { (result ≡ receives.read_answered «record».old (stores store.old true buffer.old) bits.now from to answer.old)
        × («record».new ≡ receives.read_record «record».old (stores store.old true buffer.old) bits.now from to answer.old)
        × (stores store.new true buffer.new ≡ receives.read_stores «record».old (stores store.old true buffer.old) bits.now from to answer.old)
        × (answer.new ≡ receives.read_answer «record».old (stores store.old true buffer.old) bits.now from to answer.old) }
{
    aes18::aes18_receiver_read_beside(record, store, buffer, bits, from, to, answer)
}

// A reading call's answer is noted in a record of pass totals.
#[unsafe(no_mangle)]
pub extern "C" fn aes18_totals_note(record: &mut [u8], answer: &[u8]) -> u32
    ensures { (result ≡ note_answered «record».old answer.now)
        × («record».new ≡ note_record «record».old answer.now) }
{
    aes18::aes18_totals_note(record, answer)
}

// A packet is written as a frame of the serial line.
#[unsafe(no_mangle)]
pub extern "C" fn aes18_line_write(packet: &[u8], line: &mut [u8], answer: &mut [u8]) -> u32
    ensures { (result ≡ line_write_answered packet.now line.old answer.old)
        × (line.new ≡ line_written packet.now line.old answer.old)
        × (answer.new ≡ line_write_answer packet.now line.old answer.old) }
{
    aes18::aes18_line_write(packet, line, answer)
}

// The bytes of a serial line are read until the first packet.
#[unsafe(no_mangle)]
pub extern "C" fn aes18_line_read(
    record: &mut [u8],
    line: &[u8],
    packet: &mut [u8],
    answer: &mut [u8],
) -> u32
    ensures { (result ≡ line_read_answered «record».old packet.old answer.old)
        × («record».new ≡ line_read_record «record».old line.now packet.old answer.old)
        × (packet.new ≡ line_read_packet «record».old line.now packet.old answer.old)
        × (answer.new ≡ line_read_answer «record».old line.now packet.old answer.old) }
{
    aes18::aes18_line_read(record, line, packet, answer)
}

// The bits from number `from` up to `to` are read, with the framing alone, until the first body that passes or is spoilt.
#[unsafe(no_mangle)]
pub extern "C" fn aes18_framing_read(
    framing: &mut [u8],
    bits: &[u8],
    from: u64,
    to: u64,
    packet: &mut [u8],
    answer: &mut [u8],
) -> u32
    ensures { (result ≡ framing_read_answered framing.old bits.now from to packet.old answer.old)
        × (framing.new ≡ framing_read_record framing.old bits.now from to packet.old answer.old)
        × (packet.new ≡ framing_read_packet framing.old bits.now from to packet.old answer.old)
        × (answer.new ≡ framing_read_answer framing.old bits.now from to packet.old answer.old) }
{
    aes18::aes18_framing_read(framing, bits, from, to, packet, answer)
}
