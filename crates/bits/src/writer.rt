// A bit writer: bits are held back until they fill a byte of the buffer, which is lent at each call. What lies behind the last bit is kept.
ghost use Rattle.std.specs.Prelude.{◌≡◌, ◌+◌, ◌*◌, ◌^◌, ◌≤◌, ◌<◌, length};
ghost use Rattle.std.proofs.lemmas.List.Edits.{sets};
ghost use Rattle.bits.specs.Bits.{low_bits, bits_of};
ghost use Rattle.bits.specs.Writer.{PartHeld, next_bit, with_held};

use crate::power;

// The number of the byte to be filled, how many of its lowest bits are held, and these.
#[derive(Clone, Copy)]
pub struct BitWriter {
    pub byte: usize,
    pub count: usize,
    pub bits: u32,
}

impl BitWriter {
    // A writer whose next bit is bit `at`. It holds the bits that its byte has before that one.
    pub fn new(s: &[u8], at: usize) -> BitWriter
        requires { at < 8 * length s.now }
        ensures { PartHeld result × (next_bit result ≡ at) × (with_held s.now result ≡ bits_of s.now) }
    {
        let byte = at / 8;
        let count = at % 8;
        let bits = (s[byte] as u32) % power(count);
        BitWriter { byte, count, bits }
    }

    // The n lowest bits of a number written, 8 to 16 of them.
    pub fn put(self, s: &mut [u8], n: usize, value: u32) -> BitWriter
        requires { PartHeld self × (next_bit self + n ≤ 8 * length s.old) × (8 ≤ n) × (n ≤ 16) × (value < 2 ^ n) }
        ensures { PartHeld result × (next_bit result ≡ next_bit self + n)
            × (with_held s.new result ≡ sets (with_held s.old self) (next_bit self) (low_bits n value)) }
    {
        let byte = self.byte;
        let all = self.bits + value * power(self.count);
        let count = self.count + n - 8;
        s[byte] = (all % 256) as u8;
        if count < 8 {
            return BitWriter {
                byte: byte + 1,
                count: count,
                bits: all / 256,
            };
        }
        s[byte + 1] = (all / 256 % 256) as u8;
        BitWriter {
            byte: byte + 2,
            count: count - 8,
            bits: all / 65536,
        }
    }

    // The held bits written, and the number of the bit behind them.
    pub fn close(self, s: &mut [u8]) -> usize
        requires { PartHeld self × (next_bit self ≤ 8 * length s.old) × (next_bit self < 2 ^ 64) }
        ensures { (result ≡ next_bit self) × (bits_of s.new ≡ with_held s.old self) }
    {
        let byte = self.byte;
        let count = self.count;
        if count == 0 {
            return 8 * byte;
        }
        let old = s[byte] as u32;
        s[byte] = (old - old % power(count) + self.bits) as u8;
        8 * byte + count
    }
}
