// A byte's bits stuffed at once, as a number. A byte and the ones before it have at most two runs of five ones.
ghost use Rattle.std.specs.Prelude.{true, ◌++◌, ◌≡◌, ◌+◌, ◌-◌, ◌*◌, ◌/◌, ◌%◌, ◌^◌, ◌≤◌, ◌<◌};
ghost use Rattle.bits.specs.Bits.{byte_bits};
ghost use Rattle.hdlc.specs.Chunks.{five_ones, StuffedByte};
ghost use Rattle.hdlc.specs.Stuffing.{stuff_from, free_after};

// How many ones may come before the one that gets a 0 behind it.
#[derive(Clone, Copy)]
pub struct Free {
    pub ones: u8,
    ghost few: { ones ≤ 4 },
}

// Stuffed bits, lowest first, and how many they are.
#[derive(Clone, Copy)]
pub struct Chunk {
    pub value: u32,
    pub len: usize,
}

// Where five ones in a row begin among a number's bits.
fn five_ones(x: u32) -> u32
    ensures { result ≡ five_ones x }
{
    let two = x & (x / 2);
    two & (two / 4) & (x / 16)
}

// The number with a 0 put in below its bit k.
fn with_zero(x: u32, k: usize) -> u32
    requires { (x < 512) × (k ≤ 9) }
    ensures { result ≡ x % 2 ^ k + x / 2 ^ k * 2 ^ (k + 1) }
{
    let low = bits::power(k);
    x % low + x / low * bits::power(k + 1)
}

impl Chunk {
    // A byte stuffed, where so many ones may come before the one that gets a 0 behind it.
    pub fn of(free: Free, byte: u8) -> Chunk
        ensures { StuffedByte free.ones byte result }
    {
        let whole = byte as u32;
        let first = five_ones(((whole + 1) << (4 - free.ones)) - 1);
        if first == 0 {
            return Chunk {
                value: whole,
                len: 8,
            };
        }
        let k = first.trailing_zeros() as usize + free.ones as usize + 1;
        let one = with_zero(whole, k);
        let second = five_ones(whole >> k);
        if second == 0 {
            return Chunk { value: one, len: 9 };
        }
        Chunk {
            value: with_zero(one, k + second.trailing_zeros() as usize + 6),
            len: 10,
        }
    }
}

impl Free {
    // So many ones, at most four.
    pub fn new(ones: u8) -> Free
        requires { ones ≤ 4 }
        ensures { result.ones ≡ ones }
    {
        Free { ones }
    }

    // How many ones may come behind a byte before the one that gets a 0 behind it. It is told without the byte's chunk, so that the next byte need not wait for that.
    pub fn behind(self, byte: u8) -> Free
        ensures { result.ones ≡ free_after (byte_bits byte) self.ones }
    {
        if byte == 0xff {
            return Free {
                ones: if 2 < self.ones {
                    self.ones - 3
                } else {
                    self.ones + 2
                },
            };
        }
        let ones = byte.leading_ones() as u8;
        if ones < 5 {
            return Free { ones: 4 - ones };
        }
        Free { ones: 9 - ones }
    }

    // If this is true, two bytes get no 0, where so many ones may come before the one that gets a 0 behind it.
    pub fn plain_two(self, low: u8, high: u8) -> bool
        ensures { result ≡ true → stuff_from (byte_bits low ++ byte_bits high) self.ones ≡ byte_bits low ++ byte_bits high }
    {
        let both = low as u32 + 256 * (high as u32);
        five_ones(((both + 1) << (4 - self.ones)) - 1) == 0
    }
}
