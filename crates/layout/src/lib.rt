// What records and answers share in bytes: numbers of several bytes, the circuits of a record and the place for a packet.
#![tactic(auto, unfolding(crate::specs::Layout::byte_at, crate::specs::Layout::circuit_bytes, crate::specs::Layout::circuit_from, crate::specs::Layout::circuits_in, crate::specs::Layout::number_at, crate::specs::Layout::circuits_bytes))]

ghost use Rattle.std.specs.Prelude.{◌&&◌, ◌≡◌, ◌+◌, ◌%◌, ◌≤◌, min, leb, eqb, length, take};
ghost use Rattle.std.proofs.lemmas.List.Edits.{sets};
ghost use Rattle.packet.specs.Answers.{answer_number};
ghost use Rattle.packet.specs.Circuits.{circuits_refusal, listed, number_from};
ghost use Rattle.layout.specs.Layout.{low_bytes, number_at, circuit_bytes, circuit_from, circuits_bytes, circuits_in, packet_length};

use packet::{Answer, Circuit, Circuits, circuit_lists};

// The length of the place for a packet.
pub const PACKET: usize = 19;

// The lowest byte of a number.
// Stays: (d) `n.to_le_bytes()[0]` is no plainer.
pub fn low_byte(n: usize) -> u8
    ensures { result ≡ n % 256 }
{
    (n % 256) as u8
}

// The number in two bytes, lowest first.
pub fn word_at(bytes: &[u8], at: usize) -> u16
    requires { at + 2 ≤ length bytes.now }
    ensures { result ≡ number_at 2 bytes.now at }
{
    u16::from_le_bytes([bytes[at], bytes[at + 1]])
}

// The circuit in three bytes.
fn circuit_from(bytes: &[u8], at: usize) -> Circuit
    requires { at + 3 ≤ length bytes.now }
    ensures { result ≡ circuit_from bytes.now at }
{
    Circuit {
        address: bytes[at],
        extended: bytes[at + 1],
        extension: bytes[at + 2],
    }
}

// The three bytes of a circuit.
fn circuit_bytes(circuit: Circuit) -> [u8; 3]
    ensures { result ≡ circuit_bytes circuit }
{
    [circuit.address, circuit.extended, circuit.extension]
}

// The circuits that a record begins with.
// Stays: (d) with `bytes: &[u8; 13]` here and in the two functions below, each caller writes `circuits_in(record.first_chunk().unwrap())` for `circuits_in(record)`.
pub fn circuits_in(bytes: &[u8]) -> Circuits
    requires { 13 ≤ length bytes.now }
    ensures { result ≡ circuits_in bytes.now }
{
    Circuits {
        count: bytes[0],
        list: std::array::from_fn(|i| circuit_from(bytes, 1 + 3 * i)),
    }
}

// The circuits that a record begins with are at most four, and listing refuses them by none of 2, 3 and 4.
pub fn circuits_in_range(bytes: &[u8]) -> bool
    requires { 13 ≤ length bytes.now }
    ensures { result ≡ (leb (circuits_in bytes.now).count 4 && eqb (circuits_refusal (listed (circuits_in bytes.now))) 0) }
{
    let count = usize::from(bytes[0]);
    if 4 < count {
        return false;
    }
    let end = 1 + 3 * count;
    circuit_lists::check(&bytes[1..end]).is_ok()
}

// The number of a circuit among those that a record begins with.
pub fn number_in(bytes: &[u8], circuit: Circuit) -> Option<usize>
    requires { (13 ≤ length bytes.now) × ((circuits_in bytes.now).count ≤ 4) }
    ensures { result ≡ number_from (listed (circuits_in bytes.now)) circuit 0 }
{
    let count = usize::from(bytes[0]);
    let end = 1 + 3 * count;
    circuit_lists::number_in(&bytes[1..end], circuit)
}

// The bytes of a record's circuits.
// Stays: (a) beside `Circuits::bytes` of packet, which is private and gives the twelve bytes alone, as `tests/arrays` names them.
pub fn circuits_bytes(circuits: Circuits) -> [u8; 13]
    ensures { result ≡ circuits_bytes circuits }
{
    let list = circuits.list.map(circuit_bytes);
    let mut bytes = [circuits.count; 13];
    bytes[1..].copy_from_slice(list.as_flattened());
    bytes
}

// A number as a byte, 255 if it is larger: no number that a call takes in a byte goes so far.
pub fn clipped(n: u64) -> u8
    ensures { result ≡ min n 255 }
{
    n.min(255) as u8
}

// A number goes to `width` bytes from byte `at` on, lowest first.
pub fn put_number(bytes: &mut [u8], at: usize, width: usize, n: usize)
    requires { at + width ≤ length bytes.old }
    ensures { bytes.new ≡ sets bytes.old at (low_bytes width n) }
{
    let mut left = n;
    for byte in &mut bytes[at..at + width] {
        *byte = low_byte(left);
        left /= 256;
    }
}

// The first bytes of a frame, its packet, go to the start of the bytes lent.
// Stays: (a) an array and a length: no heap; the length is a part of the record's.
pub fn put_packet(bytes: &mut [u8], frame: [u8; 21], n: usize)
    requires { (n ≤ packet_length) × (packet_length ≤ length bytes.old) }
    ensures { bytes.new ≡ sets bytes.old 0 (take n frame) }
{
    copying::copy_in(bytes, &frame[..n]);
}

// The number of an answer.
// Stays: (a) a number: C takes a call's answer so (include/aes18.h).
#[tactic(auto, unfolding(packet::specs::Answers::answer_number))]
pub fn answer_number(answer: Answer) -> u32
    ensures { result ≡ answer_number answer }
{
    match answer {
        Ok(()) => 0,
        Err(refusal) => u32::from(refusal),
    }
}
