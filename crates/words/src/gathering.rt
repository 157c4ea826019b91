// Bits gathered in 21 bytes, a stretch at a time: an accumulator holds what is not yet a whole byte.
ghost use Rattle.std.specs.Prelude.{◌≡◌, Bool, false, cond, List, ◌++◌, ◌+◌, ◌*◌, ◌/◌, ◌%◌, ◌^◌, ◌≤◌, ◌<◌, leb, length, get_or, set, replicate};
ghost use Rattle.bits.specs.Bits.{low_bits, fill_bytes};
ghost use Rattle.words.specs.Gathering.{Gathers};

use crate::Gathered;

// A byte goes to its place, if there is one.
fn put_byte(stored: &mut [u8; 21], i: usize, byte: u8)
    ensures { length stored.old ≡ 21 → stored.new ≡ set stored.old i byte }
{
    if i < 21 {
        stored[i] = byte;
    }
}

// The first bits that the bytes have, so many: at most 169, and all of them 0 if there are so many.
// Stays: (a) a count beside fixed memory, here and in `gather`: no heap, and the bytes are those of a framing lent.
pub fn kept(stored: &mut [u8; 21], count: usize) -> Gathered
    requires { count ≤ 169 }
    ensures { ((y : List Bool) → length y ≡ count → stored.old ≡ fill_bytes 21 y → (168 < count → y ≡ replicate 169 false) → Gathers result stored.new y)
        × (result.len < 8) × (result.bytes ≤ 21) }
{
    let i = count / 8;
    if 21 <= i {
        return Gathered {
            bytes: 21,
            len: count - 168,
            rest: 0,
        };
    }
    let rest = u64::from(stored[i]);
    stored[i] = 0;
    Gathered {
        bytes: i,
        len: count % 8,
        rest,
    }
}

// Whole bytes of the rest are stored.
fn stored_bytes(g: Gathered, stored: &mut [u8; 21]) -> Gathered
    requires { (g.len < 64) × (g.bytes < 2 ^ 62) }
    ensures { ((y : List Bool) → Gathers g stored.old y → Gathers result stored.new y) × (result.len < 8) }
{
    let end = g.bytes + g.len / 8;
    let mut rest = g.rest;
    for i in g.bytes..end {
        put_byte(stored, i, (rest % 256) as u8);
        rest /= 256;
    }
    Gathered {
        bytes: end,
        len: g.len % 8,
        rest,
    }
}

// The lowest n bits of a number behind those gathered.
pub fn gather(g: Gathered, stored: &mut [u8; 21], value: u64, n: usize) -> Gathered
    requires { (g.len < 8) × (g.rest < 2 ^ g.len) × (g.bytes < 2 ^ 62) × (n ≤ 56) × (value < 2 ^ n) }
    ensures { ((y : List Bool) → Gathers g stored.old y → Gathers result stored.new (y ++ low_bits n value)) × (result.len < 8) }
{
    let more = Gathered {
        bytes: g.bytes,
        len: g.len + n,
        rest: g.rest + (value << g.len),
    };
    stored_bytes(more, stored)
}

// Of the byte of bit `end` the bits before it are left, and the byte behind that becomes 0.
fn cut(stored: &mut [u8; 21], end: usize)
    requires { end ≤ 168 }
    ensures { length stored.old ≡ 21 →
        stored.new ≡ set (set stored.old (end / 8) (get_or stored.old (end / 8) 0 % 2 ^ (end % 8))) (end / 8 + 1) 0 }
{
    let i = end / 8;
    if 21 <= i {
        return;
    }
    stored[i] = crate::lowest(u64::from(stored[i]), end % 8) as u8;
    put_byte(stored, i + 1, 0);
}

// The bits gathered but for the last ones, those held back, in the bytes, and how many they are: 169 for more than 168.
pub fn settled(g: Gathered, stored: &mut [u8; 21], held: usize) -> u8
    requires { (g.len < 8) × (held ≤ 6) × (held ≤ 8 * g.bytes + g.len) }
    ensures { (x v : List Bool) → length v ≡ held → Gathers g stored.old (x ++ v) →
        (result ≡ cond (leb (length x) 168) (length x) 169) × (stored.new ≡ cond (leb (length x) 168) (fill_bytes 21 x) (replicate 21 0)) }
{
    if 21 < g.bytes {
        *stored = [0; 21];
        return 169;
    }
    let end = 8 * g.bytes + g.len - held;
    if 168 < end {
        *stored = [0; 21];
        return 169;
    }
    put_byte(stored, g.bytes, (g.rest % 256) as u8);
    cut(stored, end);
    end as u8
}
