// Writing one packet as an octet-stuffed frame.
ghost use Rattle.std.specs.Prelude.{◌≡◌, ◌||◌, ◌+◌, ◌*◌, ◌≤◌, length};
ghost use Rattle.std.proofs.lemmas.List.Edits.{sets};
ghost use Rattle.serial.specs.Octets.{is_flag, is_escape, escaped, escaped_bytes};
ghost use Rattle.serial.specs.Writing.{write_answer, output_after};

use super::{ESCAPE, FLAG};
use packet::Refusal;

// The byte is written behind an escape.
#[tactic(auto, unfolding(crate::specs::Octets::is_flag, crate::specs::Octets::is_escape))]
fn is_escaped(byte: u8) -> bool
    ensures { result ≡ (is_flag byte || is_escape byte) }
{
    matches!(byte, FLAG | ESCAPE)
}

// A byte goes to place `at` of the output, and the place behind it is answered.
fn put_byte(output: &mut [u8], at: usize, byte: u8) -> usize
    requires { at + 2 ≤ length output.old }
    ensures { (result ≡ at + length (escaped byte)) × (output.new ≡ sets output.old at (escaped byte)) }
{
    if is_escaped(byte) {
        output[at] = ESCAPE;
        output[at + 1] = byte ^ 0x20;
        return at + 2;
    }
    output[at] = byte;
    at + 1
}

// Bytes go to place `at` of the output and behind it, and the place behind them is answered.
fn put_bytes(output: &mut [u8], at: usize, bytes: &[u8]) -> usize
    requires { at + 2 * length bytes.now ≤ length output.old }
    ensures { (result ≡ at + length (escaped_bytes bytes.now))
        × (output.new ≡ sets output.old at (escaped_bytes bytes.now)) }
{
    let mut behind = at;
    for &byte in bytes {
        behind = put_byte(output, behind, byte);
    }
    behind
}

// A packet's frame goes to the start of the output.
pub fn write(packet: &[u8], output: &mut [u8]) -> Result<usize, Refusal>
    ensures { (result ≡ write_answer packet.now output.old)
        × (output.new ≡ output_after packet.now output.old) }
{
    let n = packet.len();
    if n < 2 || 19 < n {
        return Err(Refusal::WrongPacket);
    }
    if output.len() < 2 * (n + 2) + 2 {
        return Err(Refusal::ShortOutput);
    }
    let fcs = fcs::fcs(packet);
    output[0] = FLAG;
    let low = put_bytes(output, 1, packet);
    let high = put_byte(output, low, (fcs % 256) as u8);
    let end = put_byte(output, high, (fcs / 256) as u8);
    output[end] = FLAG;
    Ok(end + 1)
}
