// Bits read a word at a time from a framing that bits leave: before any zero as long as they are ones, outside a body and in one as long as no six ones
// stand in a row.
ghost use Rattle.std.specs.Prelude.{◌≡◌, true, false, cond, ◌++◌, ◌+◌, ◌^◌, ◌≤◌, ◌<◌, eqb, get_or, replicate};
ghost use Rattle.bits.specs.Bits.{low_bits, bits_of};
ghost use Rattle.framing.specs.Heads.{framing_of};
ghost use Rattle.framing.specs.Machine.{fresh};
ghost use Rattle.framing.specs.Range.{LeftBy};
ghost use Rattle.scanning.specs.Ahead.{outside, ReadAhead};

use crate::{Ahead, Stretch};
use framing::{Head, plain_zeros};
use words::{Word, gathering};

// A word of ones.
const ONES: u64 = 0xff_ffff_ffff_ffff;

// Words of ones read before any zero.
// Stays: (d) a `while`: `for at in (from..last).step_by(56)` needs the place of the last word first, and behind it once more the place where the words ended. The two below go on by pieces of a word, of lengths that only reading tells.
fn ones_ahead(stretch: Stretch<'_>) -> usize
    ensures { ReadAhead fresh fresh (bits_of stretch.entry.bytes.now) stretch.entry.from result stretch.entry.to }
{
    let mut at = stretch.from;
    while stretch.has_word(at) {
        let word = Word::at(stretch.bytes, at);
        if word.bits != ONES {
            return at;
        }
        at += 56;
    }
    at
}

// If this is true, a word is there, and no sixth one in a row stands first in it.
fn goes_on(stretch: Stretch<'_>, at: usize, ones: usize) -> bool
    requires { at ≤ stretch.to }
    ensures { result ≡ true → (at + 64 ≤ stretch.entry.to) × (ones ≡ 5 → false ≡ get_or (bits_of stretch.entry.bytes.now) at false) }
{
    stretch.has_word(at) && (ones != 5 || !stretch.bit(at))
}

// Words read outside a body, behind a zero and so many ones.
fn hunt(behind: u8, stretch: Stretch<'_>) -> Ahead
    requires { (behind ≤ 5) × LeftBy (outside behind) }
    ensures { ReadAhead (outside behind) (framing_of result.head (replicate 21 0)) (bits_of stretch.entry.bytes.now) stretch.entry.from result.at stretch.entry.to }
{
    let mut ones = behind as usize;
    let mut at = stretch.from;
    while goes_on(stretch, at, ones) {
        if ones == 5 {
            ones = 0;
            at += 1;
            continue;
        }
        let word = Word::at(stretch.bytes, at);
        let n = word.until_five(ones);
        ones = word.ones_behind(ones, n);
        at += n;
    }
    Ahead {
        head: Head {
            phase: 1,
            ones: ones as u8,
            count: 0,
        },
        at,
    }
}

// The bits held back, zeros and then ones, as a number.
fn held_bits(zeros: usize, ones: usize) -> u64
    requires { (zeros ≤ 1) × (ones ≤ 5) }
    ensures { (low_bits (zeros + ones) result ≡ replicate zeros false ++ replicate ones true) × (result < 2 ^ (zeros + ones)) }
{
    ((1 << ones) - 1) << zeros
}

// The phase behind n bits up to the fifth one in a row, where so many ones stand before them.
// Stays: (a) a number: a record lent by C holds any byte as its phase.
fn phase_behind(phase: u8, n: usize, ones: usize) -> u8
    requires { (n ≤ 56) × (ones ≤ 4) }
    ensures { result ≡ cond (eqb (n + ones) 5) phase 3 }
{
    if n + ones == 5 { phase } else { 3 }
}

// Words read in a body, piece by piece: bits up to the fifth one in a row, and the zero behind it, which is dropped.
fn body_ahead(head: Head, stretch: Stretch<'_>, bits: &mut [u8; 21]) -> Ahead
    requires { (1 < head.phase) × (head.ones ≤ 5) × LeftBy (framing_of head bits.old) }
    ensures { ReadAhead (framing_of head bits.old) (framing_of result.head bits.new) (bits_of stretch.entry.bytes.now) stretch.entry.from result.at stretch.entry.to }
{
    let mut phase = head.phase;
    let mut ones = head.ones as usize;
    let mut at = stretch.from;
    let zeros = plain_zeros(phase);
    let first = gathering::kept(bits, head.count as usize);
    let mut gathered = gathering::gather(first, bits, held_bits(zeros, ones), zeros + ones);
    while goes_on(stretch, at, ones) {
        if ones == 5 {
            phase = 4;
            ones = 0;
            at += 1;
            continue;
        }
        let word = Word::at(stretch.bytes, at);
        let len = word.until_five(ones);
        gathered = gathering::gather(gathered, bits, words::lowest(word.bits, len), len);
        phase = phase_behind(phase, len, ones);
        ones = word.ones_behind(ones, len);
        at += len;
    }
    let count = gathering::settled(gathered, bits, plain_zeros(phase) + ones);
    Ahead {
        head: Head {
            phase,
            ones: ones as u8,
            count,
        },
        at,
    }
}

// Words read from this head on, as its phase asks, if there are any.
// Stays: (d) `LeftBy` is asked of a head and bits that lie apart (b): a type would have to join them.
pub fn ahead(head: Head, stretch: Stretch<'_>, bits: &mut [u8; 21]) -> Ahead
    requires { LeftBy (framing_of head bits.old) }
    ensures { ReadAhead (framing_of head bits.old) (framing_of result.head bits.new) (bits_of stretch.entry.bytes.now) stretch.entry.from result.at stretch.entry.to }
{
    if !stretch.has_word(stretch.from) || 5 < head.ones {
        return Ahead {
            head,
            at: stretch.from,
        };
    }
    match head.phase {
        0 => Ahead {
            head,
            at: ones_ahead(stretch),
        },
        1 => hunt(head.ones, stretch),
        _ => body_ahead(head, stretch, bits),
    }
}
