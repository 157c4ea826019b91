// Lent bits 56 at a time, from any bit on, as a number; and runs of ones among them.
#![tactic(auto)]

ghost use Rattle.std.specs.Prelude.{◌≡◌, ◌+◌, ◌-◌, ◌*◌, ◌%◌, ◌^◌, ◌≤◌, ◌<◌, length, take, drop};
ghost use Rattle.std.specs.Int.Count.{count_leading_zeros};
ghost use Rattle.bits.specs.Bits.{low_bits, bits_of};
ghost use Rattle.hdlc.specs.Stuffing.{end_ones};
ghost use Rattle.words.specs.Runs.{until_five};

pub mod gathering;

// 56 bits as a number, the first one lowest.
#[derive(Clone, Copy)]
pub struct Word {
    pub bits: u64,
    ghost low: { bits < 2 ^ 56 },
}

// Bits gathered: how many whole bytes there are of them, how many bits more, and these as a number.
// Stays: (d) `n ≤ 56` and `ones ≤ 4` are asked in three places each, of a count beside a word: as types this is `lowest(bits, Few::new(n))`, and the number is taken out again at once, to be added to others.
#[derive(Clone, Copy)]
pub struct Gathered {
    pub bytes: usize,
    pub len: usize,
    pub rest: u64,
}

// Eight bytes as a number, the first one lowest.
fn eight_bytes(s: &[u8], i: usize) -> u64
    requires { i + 8 ≤ length s.now }
    ensures { low_bits 64 result ≡ bits_of (take 8 (drop i s.now)) }
{
    u64::from_le_bytes(s[i..i + 8].try_into().unwrap())
}

// The n lowest bits of a number.
pub fn lowest(bits: u64, n: usize) -> u64
    requires { n ≤ 56 }
    ensures { result ≡ bits % 2 ^ n }
{
    bits % (1 << n)
}

impl Word {
    // The 56 bits from bit `at` on.
    pub fn at(s: &[u8], at: usize) -> Word
        requires { at + 64 ≤ 8 * length s.now }
        ensures { low_bits 56 result.bits ≡ take 56 (drop at (bits_of s.now)) }
    {
        Word {
            bits: (eight_bytes(s, at / 8) >> (at % 8)) % 0x100_0000_0000_0000,
        }
    }

    // The word behind a number of ones.
    fn behind(self, ones: usize) -> u64
        requires { ones ≤ 5 }
        ensures { result ≡ self.bits * 2 ^ ones + (2 ^ ones - 1) }
    {
        (self.bits << ones) + ((1 << ones) - 1)
    }

    // How many of the word's bits there are up to the fifth one in a row, where so many ones stand before it.
    // Stays: (d) with `ones ≤ 4` in a type this is `word.until_five(Few::new(ones))`, and `hunt` and `body_ahead`, whose count goes to five, still prove it at each word.
    pub fn until_five(self, ones: usize) -> usize
        requires { ones ≤ 4 }
        ensures { result ≡ until_five (low_bits 56 self.bits) ones }
    {
        let x = self.behind(ones);
        let pairs = x & (x / 2);
        let fives = pairs & (pairs / 4) & (x / 16);
        let n = fives.trailing_zeros() as usize + 5 - ones;
        n.min(56)
    }

    // How many ones end the word's bits.
    fn end_ones(self) -> usize
        ensures { result ≡ count_leading_zeros 56 (2 ^ 56 - 1 - self.bits) }
    {
        (0xff_ffff_ffff_ffff - self.bits).leading_zeros() as usize - 8
    }

    // How many ones end the word's bits up to the fifth one in a row, the first n, where so many ones stand before it.
    pub fn ones_behind(self, ones: usize, n: usize) -> usize
        requires { (ones ≤ 4) × (n ≡ until_five (low_bits 56 self.bits) ones) }
        ensures { (result ≡ end_ones (take n (low_bits 56 self.bits)) ones) × (result ≤ 5) }
    {
        if n < 56 {
            return 5;
        }
        self.end_ones()
    }
}
