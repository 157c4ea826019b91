// A framing, and reading with it alone, in bytes.
#![tactic(auto)]

pub mod call;

ghost use Rattle.std.specs.Prelude.{◌≡◌, ◌+◌, ◌≤◌, length};
ghost use Rattle.std.proofs.lemmas.List.Edits.{sets};
ghost use Rattle.framing.specs.Range.{in_range};
ghost use Rattle.framing_layout.specs.FramingBytes.{framing_length, framing_bytes, framing_in, framing_answer_length, stop_number, length_given, framing_answer_bytes};

use framing::{Check, Framing};
use layout::{low_byte, put_number};

// The lengths of a framing and of a reading call's answer.
pub const LENGTH: usize = 24;

pub const ANSWER: usize = 16;

// The framing whose bytes begin with byte `at`.
pub fn framing_in(bytes: &[u8], at: usize) -> Framing
    requires { at + framing_length ≤ length bytes.now }
    ensures { result ≡ framing_in bytes.now at }
{
    let mut kept = [0u8; 21];
    copying::copy_in(&mut kept, &bytes[at + 3..at + 24]);
    Framing {
        phase: bytes[at],
        ones: bytes[at + 1],
        count: bytes[at + 2],
        bits: kept,
    }
}

// The framing whose bytes begin with byte `at` is one that bits leave.
pub fn in_range(bytes: &[u8], at: usize) -> bool
    requires { at + framing_length ≤ length bytes.now }
    ensures { result ≡ in_range (framing_in bytes.now at) }
{
    framing_in(bytes, at).in_range()
}

// The framing's bytes go to byte `at` and those behind it.
pub fn put_framing(bytes: &mut [u8], at: usize, framing: Framing)
    requires { at + framing_length ≤ length bytes.old }
    ensures { bytes.new ≡ sets bytes.old at (framing_bytes framing) }
{
    let head = [framing.phase, framing.ones, framing.count];
    let kept = framing.bits;
    copying::copy_at(bytes, at, &head);
    copying::copy_at(bytes, at + 3, &kept);
}

// What a read stopped at, by number.
// Stays: (a) `framing_answer_bytes` and the header give these numbers; an enum cast by `as` would have to be a second one, since `Packet` has a length.
#[tactic(auto, unfolding(crate::specs::FramingBytes::stop_number))]
fn stop_number(check: Check) -> u8
    ensures { result ≡ stop_number check }
{
    match check {
        Check::Packet(_) => 2,
        Check::Spoilt => 1,
        Check::Nothing => 0,
    }
}

// The length of the packet that it gives; 0 where there is none.
#[tactic(auto, unfolding(crate::specs::FramingBytes::length_given))]
pub fn length_given(check: Check) -> usize
    ensures { result ≡ length_given check }
{
    match check {
        Check::Packet(n) => n,
        Check::Spoilt | Check::Nothing => 0,
    }
}

// A reading call's answer goes to the start of the bytes lent.
pub fn put_answer(bytes: &mut [u8], check: Check, read: usize)
    requires { framing_answer_length ≤ length bytes.old }
    ensures { bytes.new ≡ sets bytes.old 0 (framing_answer_bytes check read) }
{
    let told = [
        stop_number(check),
        low_byte(length_given(check)),
        0,
        0,
        0,
        0,
        0,
        0,
    ];
    copying::copy_in(bytes, &told);
    put_number(bytes, 8, 8, read);
}
