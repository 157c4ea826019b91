// Packets whose first bytes stand in a number, the first one lowest.
ghost use Rattle.std.specs.Prelude.{[], ◌++◌, ◌^◌, ◌≤◌, ◌<◌};
ghost use Rattle.bits.specs.Bits.{bits_of};
ghost use Rattle.hdlc.specs.Frames.{flag, frame};
ghost use Rattle.hdlc.specs.Leads.{led, Below};
ghost use Rattle.hdlc.specs.Writing.{Room, Written, Stuffed, stuffed_by};

use crate::chunks::Free;
use crate::{Pen, end_frame, put_one, stuff_bytes};
use bits::writer::BitWriter;

// A byte put below the others of a number.
pub fn below(byte: u8, others: u64) -> u64
    requires { others < 2 ^ 56 }
    ensures { Below byte others result }
{
    byte as u64 + 256 * others
}

// The n lowest bytes of a number written at the pen, stuffed, the lowest first.
fn stuff_number(buf: &mut [u8], pen: Pen, number: u64, n: usize) -> Pen
    requires n_nonzero { (0 < n) × (pen.free ≤ 4) }
    requires room { Room buf.old pen.at (stuffed_by pen (bits_of (led number n []))) }
    ensures { Stuffed buf.old pen (bits_of (led number n [])) buf.new result }
{
    let at = pen.at;
    let mut free = Free::new(pen.free);
    let mut fcs = pen.fcs;
    let mut writer = BitWriter::new(buf, at);
    let mut rest = number;
    for _ in 0..n {
        let byte = (rest % 256) as u8;
        writer = put_one(buf, writer, free, byte);
        free = free.behind(byte);
        fcs = fcs::fcs_byte(fcs, byte);
        rest /= 256;
    }
    Pen {
        at: writer.close(buf),
        free: free.ones,
        fcs,
    }
}

// The frame of a packet whose first n bytes are the lowest of a number, and whose others are lent, written at bit `at`, and the flag behind it.
pub fn write_led(buf: &mut [u8], at: usize, number: u64, n: usize, bytes: &[u8]) -> usize
    requires n_nonzero { 0 < n }
    requires room { Room buf.old at (frame (led number n bytes.now) ++ flag) }
    ensures { Written buf.old at (frame (led number n bytes.now) ++ flag) buf.new result }
{
    let pen = stuff_number(buf, Pen::new(at), number, n);
    let end = stuff_bytes(buf, pen, bytes);
    end_frame(buf, end)
}
