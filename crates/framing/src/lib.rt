// Reading HDLC framing: the framing record, its range, one step of it by a bit, and the check of a closed body.
#![tactic(auto)]

ghost use Rattle.std.specs.Prelude.{◌≡◌, true, false, cond, List, ◌++◌, ℕ, ◌+◌, ◌*◌, ◌^◌, ◌≤◌, ◌<◌, eqb, length, take, drop, replicate};
ghost use Rattle.bits.specs.Bits.{bits_of};
ghost use Rattle.hdlc.specs.Stuffing.{end_ones};
ghost use Rattle.framing.specs.Heads.{framing_of};
ghost use Rattle.framing.specs.Overwritten.{overwritten};
ghost use Rattle.framing.specs.Machine as machine;
ghost use Rattle.framing.specs.Range as range;

// What is kept between two bits (specs/Machine.antt has the meaning of each field).
// Stays: (a) numbers, and a count beside fixed memory: a record lent by C holds any bytes here, and the machine and `in_range` speak of every number as a phase.
#[derive(Clone, Copy)]
pub struct Framing {
    pub phase: u8,
    pub ones: u8,
    pub count: u8,
    pub bits: [u8; 21],
}

// What a closed body gives: a packet of so many bytes at the start of the framing's bits, a spoilt frame, or nothing.
#[derive(Clone, Copy)]
pub enum Check {
    Packet(usize),
    Spoilt,
    Nothing,
}

// How a scan ended: the framing then, the number of the next bit, and what the body that stopped it gives, with its bytes.
// Stays: (a) an array: no heap; `check` has the length of what stands in it.
#[derive(Clone, Copy)]
pub struct Scan {
    pub framing: Framing,
    pub at: usize,
    pub check: Check,
    pub bytes: [u8; 21],
}

// The numbers of a framing apart from its bits, which are changed where they lie.
// Stays: (b) apart from the bits: with a framing changed in place a scan of random bytes takes more than a quarter longer (298 ms for 234, measured), and the bar is the time that the older form took.
#[derive(Clone, Copy)]
pub struct Head {
    pub phase: u8,
    pub ones: u8,
    pub count: u8,
}

impl Head {
    // The framing of this head and these bits.
    pub fn framing(self, bits: [u8; 21]) -> Framing
        ensures { result ≡ framing_of self bits }
    {
        Framing {
            phase: self.phase,
            ones: self.ones,
            count: self.count,
            bits,
        }
    }

    // No bit kept, in a phase.
    #[tactic(auto, unfolding(crate::specs::Machine::empty))]
    fn empty(phase: u8, bits: &mut [u8; 21]) -> Head
        ensures { framing_of result bits.new ≡ machine.empty phase }
    {
        *bits = [0; 21];
        Head {
            phase,
            ones: 0,
            count: 0,
        }
    }

    // A one read.
    #[tactic(auto, unfolding(crate::specs::Machine::one_read, crate::specs::Machine::fresh))]
    fn one_read(self, bits: &mut [u8; 21]) -> Head
        ensures { framing_of result bits.new ≡ machine.one_read (framing_of self bits.old) }
    {
        if self.phase == 0 {
            return self;
        }
        if self.ones < 6 {
            return Head {
                phase: self.phase,
                ones: self.ones + 1,
                count: self.count,
            };
        }
        Head::empty(0, bits)
    }

    // A zero read in a body: the bits held back are kept, if there is room, and the new zero is held back.
    fn keep(self, bits: &mut [u8; 21]) -> Head
        ensures { framing_of result bits.new ≡ machine.keep (framing_of self bits.old) }
    {
        let phase = phase_after(self.ones);
        let at = self.count as usize;
        let plain = plain_zeros(self.phase);
        let ones = self.ones as usize;
        let end = at + plain + ones;
        if 168 < end {
            *bits = [0; 21];
            return Head {
                phase,
                ones: 0,
                count: 169,
            };
        }
        put_held(bits, at, plain, ones);
        Head {
            phase,
            ones: 0,
            count: end as u8,
        }
    }

    // A zero read.
    #[tactic(auto, unfolding(crate::specs::Machine::zero_read))]
    fn zero_read(self, bits: &mut [u8; 21]) -> Head
        ensures { framing_of result bits.new ≡ machine.zero_read (framing_of self bits.old) }
    {
        if self.phase == 0 {
            Head::empty(1, bits)
        } else if 6 <= self.ones {
            Head::empty(2, bits)
        } else if self.phase == 1 {
            Head::empty(1, bits)
        } else {
            self.keep(bits)
        }
    }

    // One more bit read.
    #[tactic(auto, unfolding(crate::specs::Machine::step))]
    pub fn step(self, bit: bool, bits: &mut [u8; 21]) -> Head
        ensures { framing_of result bits.new ≡ machine.step (framing_of self bits.old) bit }
    {
        if bit {
            self.one_read(bits)
        } else {
            self.zero_read(bits)
        }
    }
}

impl Framing {
    // Before the first bit.
    #[tactic(auto, unfolding(crate::specs::Machine::fresh, crate::specs::Machine::empty))]
    pub fn fresh() -> Framing
        ensures { result ≡ machine.fresh }
    {
        Framing {
            phase: 0,
            ones: 0,
            count: 0,
            bits: [0; 21],
        }
    }

    // The numbers apart from the bits.
    pub fn head(self) -> Head
        ensures { framing_of result self.bits ≡ self }
    {
        Head {
            phase: self.phase,
            ones: self.ones,
            count: self.count,
        }
    }

    // One more bit read.
    pub fn step(&mut self, bit: bool)
        ensures { self.new ≡ machine.step self.old bit }
    {
        let head = self.head().step(bit, &mut self.bits);
        *self = head.framing(self.bits);
    }

    // Whether the next bit ends a flag that closes a body.
    #[tactic(auto, unfolding(crate::specs::Machine::closes))]
    pub fn closes(&self, bit: bool) -> bool
        ensures { result ≡ machine.closes self.now bit }
    {
        !bit && 6 <= self.ones && 3 <= self.phase
    }

    // The length of the packet of the body that is closed, if it passes.
    #[tactic(auto, unfolding(crate::specs::Machine::verdict_of, crate::specs::Machine::whole))]
    fn verdict(&self) -> Option<usize>
        ensures { result ≡ machine.verdict_of self.now }
    {
        if self.phase != 3 {
            return None;
        }
        let count = self.count as usize;
        if count < 32 || 168 < count || count % 8 != 0 {
            return None;
        }
        let n = count / 8 - 2;
        let given = u16::from_le_bytes([self.bits[n], self.bits[n + 1]]);
        if given != fcs::fcs(&self.bits[..n]) {
            return None;
        }
        Some(n)
    }

    // What the body that is closed gives.
    #[tactic(auto, unfolding(crate::specs::Machine::verdict_of, crate::specs::Machine::check))]
    pub fn check(&self) -> Check
        ensures { result ≡ machine.check self.now }
    {
        let Some(n) = self.verdict() else {
            return if self.count < 32 {
                Check::Nothing
            } else {
                Check::Spoilt
            };
        };
        Check::Packet(n)
    }

    // How many bits are held.
    #[tactic(auto, unfolding(crate::specs::Range::kept))]
    fn kept(&self) -> usize
        ensures { result ≡ range.kept self.now }
    {
        if self.count < 169 {
            self.count as usize
        } else {
            0
        }
    }

    // What the phase asks of ones, count and bits.
    #[tactic(auto, unfolding(crate::specs::Range::phase_right))]
    fn phase_right(&self) -> bool
        ensures { result ≡ range.phase_right self.now }
    {
        match self.phase {
            0 => self.ones == 0 && self.count == 0,
            1 | 2 => self.count == 0,
            3 => true,
            4 => self.count == 169 || in_fives(end_ones(&self.bits, self.count as usize)),
            _ => false,
        }
    }

    // Whether some bits leave this framing.
    #[tactic(auto, unfolding(crate::specs::Range::in_range))]
    pub fn in_range(&self) -> bool
        ensures { result ≡ range.in_range self.now }
    {
        self.ones < 7
            && self.count < 170
            && zero_from(&self.bits, self.kept())
            && self.phase_right()
    }
}

// A number of zeros and then a number of ones, written from bit `at` on.
fn put_held(bytes: &mut [u8], at: usize, zeros: usize, ones: usize)
    requires { (at + zeros + ones ≤ 8 * length bytes.old) × (at + zeros + ones < 2 ^ 64) }
    ensures { bytes.new ≡ overwritten bytes.old at (replicate zeros false ++ replicate ones true) }
{
    bits::put_run(bytes, at, zeros, false);
    bits::put_run(bytes, at + zeros, ones, true);
}

// How many zeros are held back as plain bits, in a phase.
// Stays: (a) a number: a record lent by C holds any byte as its phase.
pub fn plain_zeros(phase: u8) -> usize
    ensures { result ≡ cond (eqb phase 3) 1 0 }
{
    if phase == 3 { 1 } else { 0 }
}

// The phase in which a zero behind a number of ones is held back.
#[tactic(auto, unfolding(crate::specs::Machine::phase_after))]
fn phase_after(ones: u8) -> u8
    ensures { result ≡ machine.phase_after ones }
{
    if ones == 5 { 4 } else { 3 }
}

// Whether every byte is 0.
fn zero_bytes(bytes: &[u8]) -> bool
    ensures { result ≡ range.all_zero (bits_of bytes.now) }
{
    bytes.iter().all(|byte| *byte == 0)
}

// Whether every bit from number `from` on is 0: those of its own byte, and the bytes behind that.
fn zero_from(bytes: &[u8; 21], from: usize) -> bool
    ensures { result ≡ range.all_zero (drop from (bits_of bytes.now)) }
{
    if 168 <= from {
        return true;
    }
    let i = from / 8;
    bytes[i] >> (from % 8) == 0 && zero_bytes(&bytes[i + 1..])
}

// How many ones end the first n bits.
// Stays: (a) a count beside fixed memory: `Framing` is a record lent by C.
fn end_ones(bytes: &[u8; 21], n: usize) -> usize
    ensures { result ≡ end_ones (take n (bits_of bytes.now)) 0 }
{
    let mut ones: usize = 0;
    for at in 0..n.min(168) {
        ones = if bits::get_bit(bytes, at) {
            ones + 1
        } else {
            0
        };
    }
    ones
}

// Whether a zero can stand behind the last five of so many ones.
#[tactic(auto, unfolding(crate::specs::Range::in_fives))]
fn in_fives(ones: usize) -> bool
    ensures { result ≡ range.in_fives ones }
{
    5 <= ones && ones % 5 == 0
}
