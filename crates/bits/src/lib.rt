// User bits in bytes, lowest first: whether bits are there, get one bit, put one bit, put a run of equal bits.
//
// A contract says what all bits of the buffer are afterwards; since a list of bytes is determined by its bits
// (`bits_of_injective` in proofs/Bits.antt), it determines every byte.
#![tactic(auto)]

ghost use Rattle.std.specs.Prelude.{◌≡◌, ◌+◌, ◌*◌, ◌^◌, ◌≤◌, ◌<◌, false, length, get_or, set, replicate, ltb};
ghost use Rattle.std.proofs.lemmas.List.Edits.{sets};
ghost use Rattle.bits.specs.Bits.{byte_bits, bits_of};

pub mod reader;
pub mod writer;

// The weight of bit k in a number.
pub fn power(k: usize) -> u32
    requires { k < 32 }
    ensures { result ≡ 2 ^ k }
{
    1 << k
}

// Bit `at` of the buffer.
pub fn get_bit(s: &[u8], at: usize) -> bool
    requires { at < 8 * length s.now }
    ensures { result ≡ get_or (bits_of s.now) at false }
{
    (s[at / 8] >> (at % 8)) % 2 == 1
}

// The bits up to number `to` lie past the bytes.
pub fn past(bytes: &[u8], to: usize) -> bool
    ensures { result ≡ ltb (8 * length bytes.now) to }
{
    bytes.len() < to.div_ceil(8)
}

// The byte with its bit k, below 8, set to `bit`.
fn with_bit(b: u8, k: usize, bit: bool) -> u8
    requires { k < 8 }
    ensures { byte_bits result ≡ set (byte_bits b) k bit }
{
    let old = b & (1 << k);
    b - old + ((bit as u8) << k)
}

// Bit `at` of the buffer becomes `bit`.
pub fn put_bit(s: &mut [u8], at: usize, bit: bool)
    requires { at < 8 * length s.old }
    ensures { bits_of s.new ≡ set (bits_of s.old) at bit }
{
    let i = at / 8;
    s[i] = with_bit(s[i], at % 8, bit);
}

// The n bits from bit `at` on become `bit`.
pub fn put_run(s: &mut [u8], at: usize, n: usize, bit: bool)
    requires { (at + n ≤ 8 * length s.old) × (at + n < 2 ^ 64) }
    ensures { bits_of s.new ≡ sets (bits_of s.old) at (replicate n bit) }
{
    for i in 0..n {
        put_bit(s, at + i, bit);
    }
}

// The byte whose eight bits are `bit`.
fn byte_of(bit: bool) -> u8
    ensures { byte_bits result ≡ replicate 8 bit }
{
    if bit {
        return 0xff;
    }
    0
}

// The n bytes from byte `from` on become `byte`.
fn put_bytes(s: &mut [u8], from: usize, n: usize, byte: u8)
    requires { from + n ≤ length s.old }
    ensures { s.new ≡ sets s.old from (replicate n byte) }
{
    s[from..from + n].fill(byte);
}

// The n bits from bit `at` on become `bit`, as many as they are: those before the first whole byte, the whole bytes, and those behind them.
pub fn put_long_run(s: &mut [u8], at: usize, n: usize, bit: bool)
    requires { (at + n ≤ 8 * length s.old) × (at + n < 2 ^ 64) }
    ensures { bits_of s.new ≡ sets (bits_of s.old) at (replicate n bit) }
{
    let before = (8 - at % 8) % 8;
    if n < before {
        put_run(s, at, n, bit);
        return;
    }
    let whole = (n - before) / 8;
    put_run(s, at, before, bit);
    put_bytes(s, (at + before) / 8, whole, byte_of(bit));
    put_run(s, at + before + 8 * whole, (n - before) % 8, bit);
}
