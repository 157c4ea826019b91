// Blocks: the opening, the frames behind it, the closing ones and the spare zeros.
ghost use Rattle.std.specs.Prelude.{◌≡◌, ◌+◌, ◌*◌, ◌≤◌, ◌<◌, true, cond, ◌++◌, length, leb, IfSome};
ghost use Rattle.hdlc.specs.Frames.{flag, frame};
ghost use Rattle.hdlc.specs.Writing.{Room, FrameWritten};
ghost use Rattle.packet.specs.Packets.{system_packet};
ghost use Rattle.packet.specs.Answers.{answer_of};
ghost use Rattle.offering.specs.declared.Sender.{Sender};
ghost use Rattle.packet.specs.Stores.{stores, store_alone, stores_of};
ghost use Rattle.offering.specs.Record.{slot_at, pending, in_range, LongEnough};
ghost use Rattle.writing.specs.NextFrame.{next_frame};
ghost use Rattle.sender.specs.Blocks.{fill_up, system_packets, enable_bits, in_force, wrong_system, block_refusal};
ghost use Rattle.sender.specs.BlockCalls.{asked, Allowed, OpeningWritten, FramesWritten, Closed, BlockWritten, BlockCalled};

use crate::{Block, BlockRequest, SystemPacket};
use hdlc::led::below;
use hdlc::zeros::Framed;
use offering::Sender;
use packet::{Answer, Refusal, Stores};
use picking::rule;

// The longest frame of a packet, with its flag: 19 bytes and the FCS, stuffed.
const LONGEST: usize = 209;

// A system packet's frame written at bit `at`, and the flag behind it.
fn put_system(buf: &mut [u8], at: usize, packet: SystemPacket<'_>) -> Framed
    requires allowed { Allowed packet.enable packet.code packet.information.now }
    requires room { Room buf.old at (frame (system_packet packet.enable packet.code packet.information.now) ++ flag) }
    ensures { FrameWritten buf.old at (system_packet packet.entry.enable packet.entry.code packet.entry.information.now) buf.new result }
{
    let information = packet.information;
    let n = information.len() as u8;
    let descriptor = below(16 * packet.code + n, 0);
    let number = below(0xff, below(192 + packet.enable, descriptor));
    let end = hdlc::led::write_led(buf, at, number, 3, information);
    Framed::of(3 + information.len(), at, end)
}

// What a block begins with: a flag, and if one is wanted the system packet's frame and a flag.
fn put_opening(buf: &mut [u8], system: Option<SystemPacket<'_>>) -> Framed
    requires bound { 256 ≤ 8 * length buf.old }
    requires allowed { IfSome system (λ packet. Allowed packet.enable packet.code packet.information.now) }
    ensures { OpeningWritten buf.old (system_packets (asked system.entry)) buf.new result }
{
    let at = hdlc::put_flag(buf, 0);
    match system {
        Some(packet) => put_system(buf, at, packet),
        None => Framed { at, zeros: 0 },
    }
}

// The frame that is next at a circuit, with its flag, does not pass u. Only near u is it measured, written into an array of its own.
// Stays: (d) the facts are those that `writing::put_next` asks for: as a struct this is `fits(Next { sender, lent, circuit }, at, u)`, and its one caller calls `put_next` with the three parts.
fn fits(sender: &Sender, lent: &Stores<'_>, circuit: usize, at: usize, u: usize) -> bool
    requires sender_value { in_range lent.now.given sender.now ≡ true }
    requires circuit_lt_count { circuit < sender.now.circuits.count }
    requires circuit_value { pending (slot_at sender.now circuit) ≡ true }
    requires long_enough { LongEnough (stores_of lent.now) }
    requires at_le_u { (at ≤ u) × (u ≤ 27000) }
    ensures { result ≡ leb (at + length (next_frame sender.now (stores_of lent.now) circuit)) u }
{
    if at + LONGEST <= u {
        return true;
    }
    let mut scratch = [0u8; 27];
    let measured = writing::put_next(&mut scratch, 0, sender, lent, circuit);
    at + measured.at <= u
}

// Frames behind what is written already, each with a flag after it, until none waits or the next would pass u; the zeros are counted on from there.
fn fill(buf: &mut [u8], sender: &mut Sender, lent: &Stores<'_>, front: Framed, u: usize) -> Block
    requires sender_value { in_range lent.now.given sender.old ≡ true }
    requires long_enough { LongEnough (stores_of lent.now) }
    requires zeros_le_at { (front.zeros ≤ front.at) × (front.at ≤ u) × (u ≤ 8 * length buf.old) × (u ≤ 27000) }
    ensures { FramesWritten buf.old front (fill_up sender.old (stores_of lent.now) front.at sender.old.enable u) buf.new sender.new result }
{
    let enable = sender.enable;
    let mut used = front.at;
    let mut placed = 0;
    let mut zeros = front.zeros;
    while let Some(circuit) = rule::pick(*sender, enable) {
        if !fits(sender, lent, circuit, used, u) {
            break;
        }
        let framed = writing::put_next(buf, used, sender, lent, circuit);
        used = framed.at;
        zeros += framed.zeros;
        rule::serve(sender, circuit);
        placed += 1;
    }
    Block {
        placed,
        used,
        zeros,
    }
}

// The enable bits in force in a block: its system packet's, or those held before it.
#[tactic(auto, unfolding(crate::specs::BlockCalls::asked, crate::specs::Blocks::enable_bits, crate::specs::Blocks::in_force))]
fn in_force(held: u8, system: Option<SystemPacket<'_>>) -> u8
    ensures { result ≡ in_force held (enable_bits (asked system.entry)) }
{
    system.map_or(held, |packet| packet.enable)
}

// The end of a block of n bits: ones from bit `used` on, and zeros in what is left of the last byte.
fn close(buf: &mut [u8], used: usize, n: usize)
    requires { (used ≤ n) × (n ≤ 27000) × (n ≤ 8 * length buf.old) }
    ensures { Closed buf.old used n buf.new }
{
    bits::put_long_run(buf, used, n - used, true);
    bits::put_run(buf, n, 8 * n.div_ceil(8) - n, false);
}

// What is asked for as a system packet is refused, or not.
#[tactic(auto, unfolding(crate::specs::BlockCalls::asked, crate::specs::Blocks::wrong_system, packet::specs::Answers::answer_of, packet::specs::Answers::answered, packet::specs::Answers::refusal_of))]
fn check_system(system: Option<SystemPacket<'_>>) -> Answer
    ensures { result ≡ answer_of (cond (wrong_system (asked system.entry)) 13 0) }
{
    match system {
        Some(packet) if 15 < packet.enable || 8 < packet.code || 15 < packet.information.len() => {
            Err(Refusal::WrongSystem)
        }
        _ => Ok(()),
    }
}

// A block call to a sender in range is refused, or not.
#[tactic(auto, unfolding(crate::specs::Blocks::block_refusal, crate::specs::Blocks::wrong_size, crate::specs::Blocks::short_buffer, offering::specs::Record::store_length, packet::specs::Stores::region, packet::specs::Answers::answer_of, packet::specs::Answers::answered, packet::specs::Answers::refusal_of))]
pub fn check_later(lent: &Stores<'_>, buf: &[u8], request: &BlockRequest<'_>) -> Answer
    ensures { (s : Sender) → in_range lent.now.given s ≡ true → result ≡ answer_of (block_refusal s (stores_of lent.now) buf.now request.now.n request.now.u (asked request.now.system)) }
{
    if lent.store.len() < Sender::STORE {
        return Err(Refusal::ShortStore);
    }
    if packet::long_short(lent.given, lent.long) {
        return Err(Refusal::ShortLong);
    }
    if !(256..=27000).contains(&request.n) || !(256..=request.n).contains(&request.u) {
        return Err(Refusal::WrongSize);
    }
    if buf.len() < request.n.div_ceil(8) {
        return Err(Refusal::ShortBuffer);
    }
    check_system(request.system)
}

// A block call is refused, or not.
#[tactic(auto, unfolding(crate::specs::Blocks::block_refusal, packet::specs::Answers::answer_of, packet::specs::Answers::answered, packet::specs::Answers::refusal_of))]
fn check(sender: &Sender, lent: &Stores<'_>, buf: &[u8], request: &BlockRequest<'_>) -> Answer
    ensures { result ≡ answer_of (block_refusal sender.now (stores_of lent.now) buf.now request.now.n request.now.u (asked request.now.system)) }
{
    if !sender.in_range(lent.given) {
        return Err(Refusal::OutOfRange);
    }
    check_later(lent, buf, request)
}

// A block that no refusal stops.
pub fn write_block(
    sender: &mut Sender,
    lent: &Stores<'_>,
    buf: &mut [u8],
    request: &BlockRequest<'_>,
) -> Block
    requires { block_refusal sender.old (stores_of lent.now) buf.old request.now.n request.now.u (asked request.now.system) ≡ 0 }
    ensures { BlockWritten sender.old (stores_of lent.now) buf.old request.now.n request.now.u (asked request.now.system) buf.new sender.new result }
{
    let opening = put_opening(buf, request.system);
    let enable = in_force(sender.enable, request.system);
    sender.enable = enable;
    let block = fill(buf, sender, lent, opening, request.u);
    close(buf, block.used, request.n);
    block
}

// A block made into the buffer, as the request asks for it, or refused: a system packet, if one is wanted, and the frames that are next. The
// system packet's enable bits are in force from then on.
fn make(
    sender: &mut Sender,
    lent: &Stores<'_>,
    buf: &mut [u8],
    request: &BlockRequest<'_>,
) -> Result<Block, Refusal>
    ensures { BlockCalled sender.old (stores_of lent.now) buf.old request.now.n request.now.u (asked request.now.system) buf.new sender.new result }
{
    check(sender, lent, buf, request)?;
    let block = write_block(sender, lent, buf, request);
    Ok(block)
}

// A block made from the messages in the store, by an end that has no long buffer.
pub fn make_block(
    sender: &mut Sender,
    store: &[u8],
    buf: &mut [u8],
    request: &BlockRequest<'_>,
) -> Result<Block, Refusal>
    ensures { BlockCalled sender.old (store_alone store.now) buf.old request.now.n request.now.u (asked request.now.system) buf.new sender.new result }
{
    make(sender, &Stores::alone(store), buf, request)
}

// A block made from the messages in the store and in the long buffer, by an end that has it.
pub fn make_block_beside(
    sender: &mut Sender,
    store: &[u8],
    long: &[u8],
    buf: &mut [u8],
    request: &BlockRequest<'_>,
) -> Result<Block, Refusal>
    ensures { BlockCalled sender.old (stores store.now true long.now) buf.old request.now.n request.now.u (asked request.now.system) buf.new sender.new result }
{
    make(sender, &Stores::beside(store, long), buf, request)
}
