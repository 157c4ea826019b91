// A bit reader: lent bytes and the number of the next bit, held together. `bit_at` stands above it with plain parameters.
ghost use Rattle.std.specs.Prelude.{◌≡◌, ◌*◌, ◌<◌, false, length, get_or};
ghost use Rattle.bits.specs.Bits.{bits_of};

use crate::get_bit;

// The lent bytes, and the next bit's number.
#[derive(Clone, Copy)]
pub struct BitReader<'a> {
    pub bytes: &'a [u8],
    pub at: usize,
}

impl<'a> BitReader<'a> {
    // A reader of lent bytes whose next bit is bit `at`.
    pub fn new(bytes: &'a [u8], at: usize) -> BitReader<'a>
        ensures { (result.bytes ≡ bytes.entry) × (result.at ≡ at) }
    {
        BitReader { bytes, at }
    }

    // The next bit: the reader is taken apart, and `get_bit` does the work.
    pub fn next_bit(self) -> bool
        requires { self.at < 8 * length self.bytes.now }
        ensures { result ≡ get_or (bits_of self.entry.bytes.now) self.entry.at false }
    {
        get_bit(self.bytes, self.at)
    }
}

// Bit `at` of lent bytes, through a reader. Its contract says nothing of a reader.
// Stays: (a) a twin of `get_bit`: document 01 names the bit reader, which is taken apart to call the covered function; this alone calls `next_bit`.
pub fn bit_at(bytes: &[u8], at: usize) -> bool
    requires { at < 8 * length bytes.now }
    ensures { result ≡ get_or (bits_of bytes.now) at false }
{
    BitReader::new(bytes, at).next_bit()
}
