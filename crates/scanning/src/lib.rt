// Lent bits read with a framing, up to the first body that passes or is spoilt: by words where that can be (`at_once`), and else bit by bit.
#![tactic(auto)]

ghost use Rattle.std.specs.Prelude.{◌≡◌, true, ◌+◌, ◌^◌, ◌<◌, MatchOption};
ghost use Rattle.bits.specs.Bits.{bits_of};
ghost use Rattle.framing.specs.Range.{in_range};
ghost use Rattle.framing.specs.Scanning as machine;
ghost use Rattle.framing.specs.declared.Scan.{Scan};
ghost use Rattle.scanning.specs.Ahead.{stop};
ghost use Rattle.scanning.specs.Stretch.{bits_in};

mod at_once;
mod stretch;

use at_once::ahead;
use framing::{Check, Framing, Head, Scan};
pub use stretch::Stretch;

// How far bits were read at once: the numbers of the framing then, and the number of the next bit.
#[derive(Clone, Copy)]
struct Ahead {
    head: Head,
    at: usize,
}

// The end of the bits: the bit behind them is number `at`, and no body stopped the scan.
#[tactic(auto, unfolding(framing::specs::Scanning::ended))]
fn ended(framing: Framing, at: usize) -> Scan
    ensures { result ≡ machine.ended framing at }
{
    Scan {
        framing,
        at,
        check: Check::Nothing,
        bytes: [0; 21],
    }
}

// The end at a bit, number `at`, that closes a body, by what that gives.
fn stopped(mut framing: Framing, bit: bool, at: usize, check: Check) -> Scan
    requires { at + 1 < 2 ^ 64 }
    ensures { result ≡ stop framing bit at check }
{
    let bytes = framing.bits;
    framing.step(bit);
    Scan {
        framing,
        at: at + 1,
        check,
        bytes,
    }
}

// The bits of a stretch read one by one, up to the first body that passes or is spoilt.
fn scan_bits(framing: Framing, stretch: Stretch<'_>) -> Scan
    ensures { result ≡ machine.scan framing stretch.entry.from (bits_in stretch.entry) }
{
    let mut bits = framing.bits;
    let mut head = framing.head();
    for at in stretch.from..stretch.to {
        let bit = stretch.bit(at);
        if head.framing(bits).closes(bit) {
            let framing = head.framing(bits);
            match framing.check() {
                Check::Nothing => {}
                check => return stopped(framing, bit, at, check),
            }
        }
        head = head.step(bit, &mut bits);
    }
    ended(head.framing(bits), stretch.to)
}

// The bits of a stretch read, up to the first body that passes or is spoilt, with a framing that bits leave: words at once where that can be, and else bit by bit.
// Stays: (d) a `loop`: each turn goes on by as many bits as were read at once, and one, and a chain over the bits would read each of them.
pub fn scan_left(framing: Framing, stretch: Stretch<'_>) -> Scan
    requires { in_range framing ≡ true }
    ensures { result ≡ machine.scan framing stretch.entry.from (bits_in stretch.entry) }
{
    let mut bits = framing.bits;
    let mut head = framing.head();
    let mut at = stretch.from;
    loop {
        let ahead = ahead(head, stretch.behind(at), &mut bits);
        head = ahead.head;
        at = ahead.at;
        if at == stretch.to {
            return ended(head.framing(bits), at);
        }
        let bit = stretch.bit(at);
        if head.framing(bits).closes(bit) {
            let framing = head.framing(bits);
            match framing.check() {
                Check::Nothing => {}
                check => return stopped(framing, bit, at, check),
            }
        }
        head = head.step(bit, &mut bits);
        at += 1;
    }
}

// The same with any framing: whether bits leave it is asked only where there are words to read.
pub fn scan(framing: Framing, stretch: Stretch<'_>) -> Scan
    ensures { result ≡ machine.scan framing stretch.entry.from (bits_in stretch.entry) }
{
    if !stretch.has_word(stretch.from) || !framing.in_range() {
        return scan_bits(framing, stretch);
    }
    scan_left(framing, stretch)
}
