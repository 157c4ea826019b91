// Writing HDLC frames into a lent buffer: bits are stuffed as the bytes are known, and no packet or FCS is kept.
#![tactic(auto)]

ghost use Rattle.std.specs.Prelude.{◌≡◌, [], ◌∷◌, ◌++◌, ◌≤◌};
ghost use Rattle.bits.specs.Bits.{byte_bits, bits_of};
ghost use Rattle.hdlc.specs.Stuffing.{stuff_from};
ghost use Rattle.hdlc.specs.Frames.{flag, frame};
ghost use Rattle.hdlc.specs.Chunks.{WriterRoom, WriterPut};
ghost use Rattle.hdlc.specs.Writing.{Room, Written, Put, Stuffed, stuffed_by, ending, FrameWritten};

mod chunks;
mod cuts;
pub mod led;
pub mod zeros;

use bits::writer::BitWriter;
use chunks::{Chunk, Free};
use zeros::Framed;

// Where the next bit of a frame goes, how many ones may come before the one behind which a 0 is stuffed, and the FCS register.
// Stays: (a) `free` is a number and no `Free`, since `stuff_bytes` and `end_frame` promise of pens with more than four free too (`Stuffed`, `pen_after`).
#[derive(Clone, Copy)]
pub struct Pen {
    pub at: usize,
    pub free: u8,
    pub fcs: u16,
}

impl Pen {
    // The pen at the start of a frame.
    pub fn new(at: usize) -> Pen
        ensures { (result.at ≡ at) × (result.free ≡ 4) × (result.fcs ≡ 0xffff) }
    {
        Pen {
            at,
            free: 4,
            fcs: fcs::PRESET,
        }
    }
}

// One bit written at the pen, and a 0 behind it if it is the fifth one in a row. The FCS register is left to `stuff_by_bits`.
fn stuff_bit(buf: &mut [u8], pen: Pen, bit: bool) -> Pen
    requires { Room buf.old pen.at (stuffed_by pen (bit ∷ [])) }
    ensures { (Put buf.old pen (bit ∷ []) buf.new result) × (result.fcs ≡ pen.fcs) }
{
    let at = pen.at;
    let free = pen.free;
    bits::put_bit(buf, at, bit);
    if !bit {
        return Pen {
            at: at + 1,
            free: 4,
            fcs: pen.fcs,
        };
    }
    if free == 0 {
        bits::put_bit(buf, at + 1, false);
        return Pen {
            at: at + 2,
            free: 4,
            fcs: pen.fcs,
        };
    }
    Pen {
        at: at + 1,
        free: free - 1,
        fcs: pen.fcs,
    }
}

// The bits of a byte written at the pen bit by bit, stuffed, lowest first.
fn stuff_by_bits(buf: &mut [u8], pen: Pen, byte: u8) -> Pen
    requires { Room buf.old pen.at (stuffed_by pen (byte_bits byte)) }
    ensures { Stuffed buf.old pen (byte_bits byte) buf.new result }
{
    let mut p = pen;
    for k in 0..8usize {
        p = stuff_bit(buf, p, (byte >> k) % 2 == 1);
    }
    Pen {
        at: p.at,
        free: p.free,
        fcs: fcs::fcs_byte(pen.fcs, byte),
    }
}

// The bits of bytes written at the pen bit by bit, stuffed.
fn stuff_in_turn(buf: &mut [u8], pen: Pen, bytes: &[u8]) -> Pen
    requires { Room buf.old pen.at (stuffed_by pen (bits_of bytes.now)) }
    ensures { Stuffed buf.old pen (bits_of bytes.now) buf.new result }
{
    let mut p = pen;
    for &byte in bytes {
        p = stuff_by_bits(buf, p, byte);
    }
    p
}

// A byte put with a bit writer, stuffed, where so many ones may come before the one that gets a 0 behind it.
fn put_one(buf: &mut [u8], writer: BitWriter, free: Free, byte: u8) -> BitWriter
    requires { WriterRoom buf.old writer (stuff_from (byte_bits byte) free.ones) }
    ensures { WriterPut buf.old writer (stuff_from (byte_bits byte) free.ones) buf.new result }
{
    let chunk = Chunk::of(free, byte);
    writer.put(buf, chunk.len, chunk.value)
}

// Two bytes put with a bit writer, stuffed: at once, if neither gets a 0.
fn put_two(buf: &mut [u8], writer: BitWriter, free: Free, low: u8, high: u8) -> BitWriter
    requires { WriterRoom buf.old writer (stuff_from (byte_bits low ++ byte_bits high) free.ones) }
    ensures { WriterPut buf.old writer (stuff_from (byte_bits low ++ byte_bits high) free.ones) buf.new result }
{
    if free.plain_two(low, high) {
        return writer.put(buf, 16, low as u32 + 256 * (high as u32));
    }
    let first = put_one(buf, writer, free, low);
    put_one(buf, first, free.behind(low), high)
}

// The bits of bytes written at the pen, stuffed: with one bit writer and two bytes at a time, unless the pen is none that a frame leaves.
pub fn stuff_bytes(buf: &mut [u8], pen: Pen, bytes: &[u8]) -> Pen
    requires { Room buf.old pen.at (stuffed_by pen (bits_of bytes.now)) }
    ensures { Stuffed buf.old pen (bits_of bytes.now) buf.new result }
{
    let at = pen.at;
    if 4 < pen.free {
        return stuff_in_turn(buf, pen, bytes);
    }
    if bytes.is_empty() {
        return pen;
    }
    let mut free = Free::new(pen.free);
    let mut fcs = pen.fcs;
    let mut writer = BitWriter::new(buf, at);
    for i in 0..bytes.len() / 2 {
        let low = bytes[2 * i];
        let high = bytes[2 * i + 1];
        writer = put_two(buf, writer, free, low, high);
        free = free.behind(low).behind(high);
        fcs = fcs::fcs_two(fcs, low, high);
    }
    if bytes.len() % 2 == 1 {
        let last = bytes[bytes.len() - 1];
        writer = put_one(buf, writer, free, last);
        free = free.behind(last);
        fcs = fcs::fcs_byte(fcs, last);
    }
    Pen {
        at: writer.close(buf),
        free: free.ones,
        fcs,
    }
}

// A flag written at bit `at`.
pub fn put_flag(buf: &mut [u8], at: usize) -> usize
    requires { Room buf.old at flag }
    ensures { Written buf.old at flag buf.new result }
{
    let writer = BitWriter::new(buf, at).put(buf, 8, 0x7e);
    writer.close(buf)
}

// The end of a frame written at the pen: the FCS of what the pen has written, low byte first, and a flag; with one bit writer, unless the pen is none that a frame leaves.
pub fn end_frame(buf: &mut [u8], pen: Pen) -> usize
    requires { Room buf.old pen.at (ending pen) }
    ensures { Written buf.old pen.at (ending pen) buf.new result }
{
    let at = pen.at;
    let fcs = 0xffff - pen.fcs;
    let low = (fcs % 256) as u8;
    let high = (fcs / 256) as u8;
    if 4 < pen.free {
        let p = stuff_by_bits(buf, pen, low);
        let q = stuff_by_bits(buf, p, high);
        return put_flag(buf, q.at);
    }
    let free = Free::new(pen.free);
    let first = put_one(buf, BitWriter::new(buf, at), free, low);
    let writer = put_one(buf, first, free.behind(low), high);
    let flagged = writer.put(buf, 8, 0x7e);
    flagged.close(buf)
}

// A packet's frame written at bit `at`, and the flag behind it.
pub fn write_frame(buf: &mut [u8], at: usize, packet: &[u8]) -> Framed
    requires { Room buf.old at (frame packet.now ++ flag) }
    ensures { FrameWritten buf.old at packet.now buf.new result }
{
    let pen = stuff_bytes(buf, Pen::new(at), packet);
    let end = end_frame(buf, pen);
    Framed::of(packet.len(), at, end)
}
