// Pass totals: four figures for each circuit number, brought up to date with each notice.
#![tactic(auto)]

ghost use Rattle.std.specs.Prelude.{◌≡◌, ◌+◌, min};
ghost use Rattle.notices.specs.declared.Notice.TheVariants.{Circuit};
ghost use Rattle.totals.specs.Figures.{counts, plus, most, capped};
ghost use Rattle.totals.specs.Totals.{empty_totals, noted, PassTotals};

use notices::{Fate, Notice};

// The most that a figure says.
pub const MOST: u32 = u32::MAX;

// A circuit's figures: messages whole, their bytes, packets lost, packets orphaned.
#[derive(Clone, Copy, Debug, PartialEq, Eq)]
pub struct Figures {
    pub messages: u32,
    pub bytes: u32,
    pub lost: u32,
    pub orphaned: u32,
}

// The figures of the circuit numbers 0 to 3.
#[derive(Clone, Copy, Debug, PartialEq, Eq)]
pub struct Totals {
    pub circuits: [Figures; 4],
}

// A figure with more counted.
#[tactic(auto, unfolding(crate::specs::Figures::most))]
fn raised(figure: u32, more: usize) -> u32
    ensures { result ≡ min (figure + more) most }
{
    let more = u32::try_from(more).unwrap_or(MOST);
    figure.saturating_add(more)
}

impl Figures {
    // The figures with more counted.
    #[tactic(auto, unfolding(crate::specs::Figures::plus, crate::specs::Figures::capped))]
    fn raise(self, messages: usize, bytes: usize, lost: usize, orphaned: usize) -> Figures
        ensures { result ≡ capped (plus self (record { messages = messages; bytes = bytes; lost = lost; orphaned = orphaned })) }
    {
        Figures {
            messages: raised(self.messages, messages),
            bytes: raised(self.bytes, bytes),
            lost: raised(self.lost, lost),
            orphaned: raised(self.orphaned, orphaned),
        }
    }

    // The figures with a notice of their circuit counted.
    #[tactic(auto, unfolding(crate::specs::Figures::counts))]
    fn with(self, loss: u8, fate: Fate) -> Figures
        ensures { result ≡ capped (plus self (counts loss fate)) }
    {
        let lost = usize::from(loss);
        match fate {
            Fate::Copy | Fate::Begun | Fate::Held | Fate::Wrong => self.raise(0, 0, lost, 0),
            Fate::Whole(n) => self.raise(1, n, lost, 0),
            Fate::Orphan => self.raise(0, 0, lost, 1),
        }
    }
}

impl Totals {
    // Nothing noted yet.
    #[tactic(auto, unfolding(crate::specs::Totals::empty_totals, crate::specs::Figures::no_figures))]
    pub fn empty() -> Totals
        ensures { result ≡ empty_totals }
    {
        let none = Figures {
            messages: 0,
            bytes: 0,
            lost: 0,
            orphaned: 0,
        };
        Totals {
            circuits: [none; 4],
        }
    }

    // The record after a notice of a circuit.
    #[tactic(auto, unfolding(crate::specs::Totals::noted, crate::specs::Totals::figures_at, crate::specs::Figures::no_figures))]
    fn note_circuit(self, number: usize, loss: u8, fate: Fate) -> Totals
        ensures { result ≡ noted self (Circuit number loss fate) }
    {
        let mut circuits = self.circuits;
        if number < circuits.len() {
            circuits[number] = circuits[number].with(loss, fate);
        }
        Totals { circuits }
    }

    // The record after a notice.
    #[tactic(auto, unfolding(crate::specs::Totals::noted))]
    pub fn note(self, notice: Notice) -> Totals
        ensures { result ≡ noted self notice }
    {
        match notice {
            Notice::End
            | Notice::Spoilt
            | Notice::Malformed
            | Notice::System { .. }
            | Notice::Elsewhere => self,
            Notice::Circuit { number, loss, fate } => self.note_circuit(number, loss, fate),
        }
    }
}

// Pass totals are as document 02 says: no code, only the function that carries it.
fn pass_totals()
    ensures { PassTotals }
{}
