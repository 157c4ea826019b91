// The zeros that stuffing adds to a frame (document 02, ask 6).
ghost use Rattle.std.specs.Prelude.{◌≡◌, ◌+◌, ◌-◌, ◌*◌, ◌≤◌};
ghost use Rattle.hdlc.specs.AddedZeros.{AddedZeros};

// What flags and frames that are written come to: the bit behind them, and how many zeros stuffing added.
#[derive(Clone, Copy)]
pub struct Framed {
    pub at: usize,
    pub zeros: usize,
}

// The added zeros, their number and their bound: no code.
fn added_zeros()
    ensures { AddedZeros }
{}

impl Framed {
    // The frame of a packet of n bytes, with its flag, from bit `from` up to bit `to`: the bits beyond those of packet, FCS and flag were added.
    pub fn of(n: usize, from: usize, to: usize) -> Framed
        requires { from + 8 * (n + 3) ≤ to }
        ensures { (result.at ≡ to) × (result.zeros ≡ to - from - 8 * (n + 3)) }
    {
        Framed {
            at: to,
            zeros: to - from - 8 * (n + 3),
        }
    }
}
