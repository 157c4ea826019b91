// Bytes stuffed in two parts (document 02, ask 2). Nobody calls these functions: they carry what is promised of a cut.
ghost use Rattle.std.specs.Prelude.{◌++◌};
ghost use Rattle.bits.specs.Bits.{bits_of};
ghost use Rattle.hdlc.specs.Writing.{Room, Stuffed, stuffed_by};
ghost use Rattle.hdlc.specs.Cuts.{CutBetweenBytes};

use crate::{Pen, stuff_bytes};

// A first part stuffed, and behind it the rest stuffed on from the run of ones that it left, are the whole stuffed: no code.
fn cut_between_bytes()
    ensures { CutBetweenBytes }
{}

// The code: a first part stuffed, and then the rest with the pen that it left, leave buffer and pen as `stuff_bytes` leaves them for the whole.
fn stuff_in_two(buf: &mut [u8], pen: Pen, first: &[u8], rest: &[u8]) -> Pen
    requires { Room buf.old pen.at (stuffed_by pen (bits_of (first.now ++ rest.now))) }
    ensures { Stuffed buf.old pen (bits_of (first.now ++ rest.now)) buf.new result }
{
    let between = stuff_bytes(buf, pen, first);
    stuff_bytes(buf, between, rest)
}
