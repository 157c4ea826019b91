// A stretch of lent bits.
ghost use Rattle.std.specs.Prelude.{◌≡◌, true, false, ◌+◌, ◌*◌, ◌≤◌, ◌<◌, length, get_or, MatchOption, IsTrue, ◌↔◌};
ghost use Rattle.bits.specs.Bits.{bits_of};
ghost use Rattle.scanning.specs.Lacking.{lacking};

// A stretch of lent bits: those from number `from` up to number `to`.
#[derive(Clone, Copy)]
pub struct Stretch<'a> {
    pub bytes: &'a [u8],
    pub from: usize,
    pub to: usize,
    ghost in_order: { from ≤ to },
    ghost lent: { to ≤ 8 * length bytes.now },
}

impl<'a> Stretch<'a> {
    // The bits from number `from` up to number `to`, if the bytes have them.
    pub fn of(bytes: &'a [u8], from: usize, to: usize) -> Option<Stretch<'a>>
        ensures { MatchOption result (lacking bytes.now from to ≡ true) (λ stretch. (lacking bytes.now from to ≡ false)
            × (stretch.bytes ≡ bytes.entry) × (stretch.from ≡ from) × (stretch.to ≡ to)) }
    {
        if to < from || bits::past(bytes, to) {
            return None;
        }
        Some(Stretch { bytes, from, to })
    }

    // Bit `at`.
    pub fn bit(self, at: usize) -> bool
        requires { at < self.to }
        ensures { result ≡ get_or (bits_of self.entry.bytes.now) at false }
    {
        bits::reader::bit_at(self.bytes, at)
    }

    // There is a word from bit `at` on, and the bits behind it that reading one asks for.
    pub fn has_word(self, at: usize) -> bool
        requires { at ≤ self.to }
        ensures { IsTrue result ↔ (at + 64 ≤ self.entry.to) }
    {
        64 <= self.to - at
    }

    // The bits from number `at` on.
    pub fn behind(self, at: usize) -> Stretch<'a>
        requires { at ≤ self.to }
        ensures { (result.bytes ≡ self.entry.bytes) × (result.from ≡ at) × (result.to ≡ self.entry.to) }
    {
        Stretch {
            bytes: self.bytes,
            from: at,
            to: self.to,
        }
    }
}
