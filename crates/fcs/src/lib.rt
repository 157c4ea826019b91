// HDLC's 16-bit frame check sequence, by bytes and without any framing of its own.
#![tactic(auto)]

ghost use Rattle.std.specs.Prelude.{◌++◌, ◌≡◌};
ghost use Rattle.bits.specs.Bits.{byte_bits, bits_of};
ghost use Rattle.fcs.specs.Fcs.{fcs_run, fcs_of};

// The register before the first bit.
pub const PRESET: u16 = 0xffff;

// The register after one more byte: the high byte shifted down, and the entry that the usual table of 256 has for the low byte, in closed form.
pub fn fcs_byte(register: u16, byte: u8) -> u16
    ensures { result ≡ fcs_run register (byte_bits byte) }
{
    let x = (register ^ byte as u16) % 256;
    let y = (x ^ (x * 16)) % 256;
    (register / 256) ^ ((y * 256) ^ (y * 8) ^ (y / 16))
}

// The register after two more bytes: what sixteen zeros make of the sum of register and bytes, in closed form.
pub fn fcs_two(register: u16, low: u8, high: u8) -> u16
    ensures { result ≡ fcs_run register (byte_bits low ++ byte_bits high) }
{
    let x = register ^ (low as u16 + 256 * (high as u16));
    let y = x ^ (x << 4) ^ (x << 8) ^ (x << 11) ^ (x << 12);
    y ^ (y >> 5) ^ (y >> 12)
}

// The register after more bytes: two by two, and the last one.
pub fn fcs_bytes(register: u16, bytes: &[u8]) -> u16
    ensures { result ≡ fcs_run register (bits_of bytes.now) }
{
    let mut r = register;
    for i in 0..bytes.len() / 2 {
        r = fcs_two(r, bytes[2 * i], bytes[2 * i + 1]);
    }
    if bytes.len() % 2 == 1 {
        return fcs_byte(r, bytes[bytes.len() - 1]);
    }
    r
}

// The FCS of bytes.
pub fn fcs(bytes: &[u8]) -> u16
    ensures { result ≡ fcs_of bytes.now }
{
    0xffff - fcs_bytes(PRESET, bytes)
}
