// Octet-stuffed frames on a serial line (RFC 1662): one packet written, and a line read back byte by byte, cut anywhere.
#![tactic(auto)]

ghost use Rattle.std.specs.Prelude.{◌≡◌, cond, ◌-◌, Some, None};
ghost use Rattle.serial.specs.Machine as machine;
ghost use Rattle.serial.specs.SerialLine.{SerialLine};

pub mod writing;

// The flag, and the escape.
pub const FLAG: u8 = 0x7e;

pub const ESCAPE: u8 = 0x7d;

// What a reader keeps between two bytes (specs/Machine.antt has the meaning of each field).
// Stays: (a) two flags, and a count beside fixed memory: a record lent by C holds any number as its count, `line_packs` of serial_layout gives back each byte of a record, and `any_record` of `SerialLine` speaks of all records.
#[derive(Clone, Copy)]
pub struct Line {
    pub inside: bool,
    pub escape: bool,
    pub count: u8,
    pub bytes: [u8; 21],
}

// What a reading call answers: the record behind the bytes read, how many these are, and the length of the packet, if there is one; it begins `frame`.
// Stays: (a) an array: no heap; `packet` has the length of what stands in it.
#[derive(Clone, Copy)]
pub struct Reading {
    pub line: Line,
    pub read: usize,
    pub packet: Option<usize>,
    pub frame: [u8; 21],
}

impl Line {
    // Before the first byte.
    #[tactic(auto, unfolding(crate::specs::Machine::fresh))]
    pub fn fresh() -> Line
        ensures { result ≡ machine.fresh }
    {
        Line {
            inside: false,
            escape: false,
            count: 0,
            bytes: [0; 21],
        }
    }

    // Behind a flag.
    #[tactic(auto, unfolding(crate::specs::Machine::opened))]
    fn opened() -> Line
        ensures { result ≡ machine.opened }
    {
        Line {
            inside: true,
            escape: false,
            count: 0,
            bytes: [0; 21],
        }
    }

    // One more byte of a frame; more than 21 are not kept.
    #[tactic(auto, unfolding(crate::specs::Machine::keep, crate::specs::Machine::opened))]
    fn keep(&mut self, byte: u8)
        ensures { self.new ≡ machine.keep self.old byte }
    {
        if 21 <= self.count {
            *self = Line {
                count: 22,
                ..Line::opened()
            };
            return;
        }
        self.bytes[self.count as usize] = byte;
        self.inside = true;
        self.escape = false;
        self.count += 1;
    }

    // A byte behind a flag that is none itself.
    #[tactic(auto, unfolding(crate::specs::Machine::taken, crate::specs::Octets::is_escape, crate::specs::Octets::toggled))]
    fn take(&mut self, byte: u8)
        ensures { self.new ≡ machine.taken self.old byte }
    {
        if self.escape {
            self.keep(byte ^ 0x20);
        } else if byte == ESCAPE {
            self.inside = true;
            self.escape = true;
        } else {
            self.keep(byte);
        }
    }

    // One more byte read.
    #[tactic(auto, unfolding(crate::specs::Machine::step, crate::specs::Octets::is_flag))]
    fn step(&mut self, byte: u8)
        ensures { self.new ≡ machine.step self.old byte }
    {
        if byte == FLAG {
            *self = Line::opened();
        } else if self.inside {
            self.take(byte);
        }
    }

    // The length of the packet that a flag ends now, if it ends one.
    fn packet(&self) -> Option<usize>
        ensures { result ≡ cond (machine.passes self.now) (Some (self.now.count - 2)) None }
    {
        if !self.inside || self.escape || self.count < 4 || 21 < self.count {
            return None;
        }
        let n = self.count as usize - 2;
        let given = u16::from_le_bytes([self.bytes[n], self.bytes[n + 1]]);
        if given != fcs::fcs(&self.bytes[..n]) {
            return None;
        }
        Some(n)
    }

    // The bytes of a line read, up to the flag that gives a packet.
    pub fn read(self, line: &[u8]) -> Reading
        ensures { result ≡ machine.reading self line.now }
    {
        let mut after = self;
        for (at, &byte) in line.iter().enumerate() {
            if byte == FLAG {
                if let Some(n) = after.packet() {
                    return Reading {
                        line: Line::opened(),
                        read: at + 1,
                        packet: Some(n),
                        frame: after.bytes,
                    };
                }
            }
            after.step(byte);
        }
        Reading {
            line: after,
            read: line.len(),
            packet: None,
            frame: [0; 21],
        }
    }
}

// The serial line is as document 02 says: no code, only the function that carries it.
fn serial_line()
    ensures { SerialLine }
{}
