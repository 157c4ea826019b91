// The record of a serial line's reader and its answer, in bytes.
#![tactic(auto)]

ghost use Rattle.std.specs.Prelude.{◌≡◌, ◌≤◌, length};
ghost use Rattle.std.proofs.lemmas.List.Edits.{sets};
ghost use Rattle.serial_layout.specs.LineBytes.{line_length, line_bytes, line_in, line_read_length, line_read_bytes};

use layout::put_number;
use serial::Line;

// The lengths of the record and of the answers of writing and of reading.
pub const LENGTH: usize = 24;

pub const WRITE_ANSWER: usize = 8;

pub const READ_ANSWER: usize = 16;

// The record in bytes.
#[tactic(auto, unfolding(crate::specs::LineBytes::line_in, crate::specs::LineBytes::yes, layout::specs::Layout::byte_at))]
pub fn line_in(bytes: &[u8]) -> Line
    requires { line_length ≤ length bytes.now }
    ensures { result ≡ line_in bytes.now }
{
    let mut kept = [0u8; 21];
    kept.copy_from_slice(&bytes[3..24]);
    Line {
        inside: bytes[0] != 0,
        escape: bytes[1] != 0,
        count: bytes[2],
        bytes: kept,
    }
}

// The record's bytes go to the start of the bytes lent.
pub fn put_line(bytes: &mut [u8], line: Line)
    requires { line_length ≤ length bytes.old }
    ensures { bytes.new ≡ sets bytes.old 0 (line_bytes line) }
{
    let head = [line.inside as u8, line.escape as u8, line.count];
    let kept = line.bytes;
    copying::copy_in(bytes, &head);
    copying::copy_at(bytes, 3, &kept);
}

// A reading call's answer goes to the start of the bytes lent: the packet's length, and how many bytes were read.
pub fn put_read_answer(bytes: &mut [u8], packet: usize, read: usize)
    requires { line_read_length ≤ length bytes.old }
    ensures { bytes.new ≡ sets bytes.old 0 (line_read_bytes packet read) }
{
    put_number(bytes, 0, 8, packet);
    put_number(bytes, 8, 8, read);
}
