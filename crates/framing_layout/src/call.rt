// Reading with a framing alone: lent bits are read up to the first body that passes or is spoilt.
ghost use Rattle.std.specs.Prelude.{◌≡◌, ◌≤◌, length};
ghost use Rattle.layout.specs.Layout.{packet_length};
ghost use Rattle.packet.specs.Answers.{answer_of};
ghost use Rattle.framing_layout.specs.FramingBytes.{framing_length, framing_in, framing_answer_length};
ghost use Rattle.framing_layout.specs.Reading.{framing_refusal, framing_after, packet_after, answer_after};

use super::{framing_in, length_given, put_answer, put_framing};
use layout::put_packet;
use packet::{Answer, Refusal};
use scanning::Stretch;

// The bits from number `from` up to `to` are read with the framing in the bytes `record`.
// Stays: (a) six parameters: those of the function for C (include/aes18.h).
pub fn read(
    record: &mut [u8],
    bits: &[u8],
    from: usize,
    to: usize,
    packet: &mut [u8],
    answer: &mut [u8],
) -> Answer
    requires { (framing_length ≤ length «record».old) × (packet_length ≤ length packet.old) × (framing_answer_length ≤ length answer.old) }
    ensures { (result ≡ answer_of (framing_refusal (framing_in «record».old 0) bits.now from to))
        × («record».new ≡ framing_after «record».old bits.now from to)
        × (packet.new ≡ packet_after «record».old bits.now from to packet.old)
        × (answer.new ≡ answer_after «record».old bits.now from to answer.old) }
{
    let framing = framing_in(record, 0);
    if !framing.in_range() {
        return Err(Refusal::OutOfRange);
    }
    let Some(stretch) = Stretch::of(bits, from, to) else {
        return Err(Refusal::WrongStretch);
    };
    let scan = scanning::scan_left(framing, stretch);
    put_framing(record, 0, scan.framing);
    put_packet(packet, scan.bytes, length_given(scan.check));
    put_answer(answer, scan.check, scan.at - from);
    Ok(())
}
