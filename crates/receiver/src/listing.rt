// A receiver is listed, and its record is judged.
ghost use Rattle.std.specs.Prelude.{◌≡◌};
ghost use Rattle.packet.specs.Answers.{answer_of};
ghost use Rattle.packet.specs.Circuits.{list_refusal, listing};
ghost use Rattle.receiver.specs.Record.{fresh, in_range};

use super::Receiver;
use framing::Framing;
use notices::{Slot, slots, stores};
use packet::{Circuits, Listed};

impl Receiver {
    // A circuit's region, where system information begins, and the store of four regions and that information, in bytes.
    pub const REGION: usize = packet::REGION;

    pub const SYSTEM: usize = stores::SYSTEM;

    pub const STORE: usize = stores::STORE;

    // The record of a receiver that has read nothing.
    #[tactic(auto, unfolding(crate::specs::Record::fresh, notices::specs::Slots::fresh_slot))]
    pub fn fresh(circuits: Circuits) -> Receiver
        ensures { result ≡ fresh circuits }
    {
        let slot = Slot {
            seen: false,
            last: 0,
            length: 0,
            place: 0,
        };
        Receiver {
            circuits,
            slots: [slot; 4],
            framing: Framing::fresh(),
        }
    }

    // A receiver for the circuits of a list.
    pub fn list(bytes: &[u8]) -> Listed<Receiver>
        ensures { (result.answer ≡ answer_of (list_refusal bytes.now)) × (result.record ≡ fresh (listing bytes.now)) }
    {
        Listed::of(bytes, Receiver::fresh)
    }

    // The record is in range, where a long buffer is given or not.
    #[tactic(auto, using(crate::proofs::InRange::listed_right), unfolding(crate::specs::Record::in_range))]
    pub fn in_range(self, given: bool) -> bool
        ensures { result ≡ in_range given self }
    {
        self.circuits.count <= 4
            && self.circuits.check().is_ok()
            && slots::slots_in_range(self.slots, self.circuits.count as usize, given)
            && self.framing.in_range()
    }
}
