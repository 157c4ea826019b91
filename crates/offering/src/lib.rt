// The sender's record: a sender is listed, and a message is offered at a circuit.
#![tactic(auto)]

ghost use Rattle.std.specs.Prelude.{◌≡◌, ◌+◌, ◌*◌, ◌≤◌, ◌<◌, true, length};
ghost use Rattle.std.proofs.lemmas.List.Edits.{sets};
ghost use Rattle.packet.specs.Answers.{answer_of};
ghost use Rattle.packet.specs.Circuits.{list_refusal, listing};
ghost use Rattle.packet.specs.Messages.{longest_long};
ghost use Rattle.packet.specs.Stores.{region, stores, store_alone};
ghost use Rattle.offering.specs.Record.{fresh};
ghost use Rattle.offering.specs.Offering.{bounds_refusal, offer_refusal, offered_sender, sender_after_offer, stores_after_offer};

pub mod long;
pub mod slots;

use packet::{Answer, Circuits, Listed, Refusal};
use slots::{offered_slot, pending};

// What a circuit has to send (specs/Record.antt has the meaning of each field).
#[derive(Clone, Copy)]
pub struct Slot {
    pub index: u8,
    pub priority: u8,
    pub repetition: u8,
    pub copy: u8,
    pub length: u16,
    pub place: u16,
    pub left: u16,
}

// A sender's record.
#[derive(Clone, Copy)]
pub struct Sender {
    pub circuits: Circuits,
    pub slots: [Slot; 4],
    pub last: u8,
    pub enable: u8,
}

// A message for a circuit: its priority, how many copies of each packet follow the first, and its bytes.
#[derive(Clone, Copy)]
pub struct Offer<'a> {
    pub circuit: usize,
    pub priority: u8,
    pub repetition: u8,
    pub message: &'a [u8],
}

impl Offer<'_> {
    // What is offered is refused by 5 to 9 or 19, or not, by a sender for `count` circuits.
    #[tactic(auto, unfolding(crate::specs::Offering::bounds_refusal, crate::specs::Record::store_length, packet::specs::Stores::region, packet::specs::Messages::longest, packet::specs::Answers::answer_of, packet::specs::Answers::answered, packet::specs::Answers::refusal_of))]
    pub fn check_bounds(self, store: &[u8], given: bool, long: &[u8], count: usize) -> Answer
        ensures { result ≡ answer_of (bounds_refusal (stores store.now given long.now) count self.entry.circuit self.entry.priority self.entry.repetition self.entry.message.now) }
    {
        if store.len() < Sender::STORE {
            return Err(Refusal::ShortStore);
        }
        if packet::long_short(given, long) {
            return Err(Refusal::ShortLong);
        }
        if count <= self.circuit {
            return Err(Refusal::NoSuchCircuit);
        }
        if 3 < self.priority {
            return Err(Refusal::PriorityTooHigh);
        }
        if 5 < self.repetition {
            return Err(Refusal::RepetitionTooHigh);
        }
        if packet::LONGEST_MESSAGE < self.message.len() {
            return Err(Refusal::MessageTooLong);
        }
        Ok(())
    }
}

impl Sender {
    // A circuit's region, and the store of four, in bytes.
    pub const REGION: usize = packet::REGION;

    pub const STORE: usize = 4 * packet::REGION;

    // The record of a sender that has sent nothing.
    #[tactic(auto, unfolding(crate::specs::Record::fresh, crate::specs::Record::fresh_slot))]
    pub fn fresh(circuits: Circuits) -> Sender
        ensures { result ≡ fresh circuits }
    {
        let slot = Slot {
            index: 0,
            priority: 0,
            repetition: 0,
            copy: 0,
            length: 0,
            place: 1,
            left: 0,
        };
        Sender {
            circuits,
            slots: [slot; 4],
            last: 3,
            enable: 15,
        }
    }

    // A sender for the circuits of a list.
    pub fn list(bytes: &[u8]) -> Listed<Sender>
        ensures { (result.answer ≡ answer_of (list_refusal bytes.now)) × (result.«record» ≡ fresh (listing bytes.now)) }
    {
        Listed::of(bytes, Sender::fresh)
    }

    // An offer is refused, or not.
    #[tactic(auto, using(crate::proofs::Ranges::in_range_facts, crate::proofs::Offers::bounds_circuit), unfolding(crate::specs::Offering::bounds_refusal, crate::specs::Offering::offer_refusal, crate::specs::Record::slot_at, crate::specs::Record::no_slot, packet::specs::Answers::answer_of, packet::specs::Answers::answered, packet::specs::Answers::refusal_of))]
    fn check_offer(&self, store: &[u8], given: bool, long: &[u8], offer: Offer<'_>) -> Answer
        ensures { result ≡ answer_of (offer_refusal self.now (stores store.now given long.now) offer.entry.circuit offer.entry.priority offer.entry.repetition offer.entry.message.now) }
    {
        if !self.in_range(given) {
            return Err(Refusal::OutOfRange);
        }
        offer.check_bounds(store, given, long, self.circuits.count as usize)?;
        if pending(self.slots[offer.circuit]) {
            Err(Refusal::Pending)
        } else {
            Ok(())
        }
    }

    // The record with a message to send.
    // Stays: (d) the circuit and the length are asked of an offer that has just been let pass: as a type this is `self.put(Judged::new(offer))`, taken apart again here.
    #[tactic(auto, unfolding(crate::specs::Offering::offered_sender, crate::specs::Record::slot_at, crate::specs::Record::no_slot))]
    fn put(&mut self, offer: Offer<'_>)
        requires { (offer.circuit < 4) × (length offer.message.now ≤ longest_long) }
        ensures { self.new ≡ offered_sender self.old offer.entry.circuit offer.entry.priority offer.entry.repetition offer.entry.message.now }
    {
        let slot = self.slots[offer.circuit];
        self.slots[offer.circuit] = offered_slot(slot, offer);
    }

    // An offer is accepted: its message goes to the start of the circuit's region, and the circuit's slot has it to send.
    // Stays: (d) as for `put`.
    #[tactic(auto, using(bits::proofs::Lists::sets_part), unfolding(packet::specs::Stores::region))]
    fn accept(&mut self, store: &mut [u8], offer: Offer<'_>)
        requires { (offer.circuit < 4) × (length offer.message.now ≤ longest_long) × (region * offer.circuit + length offer.message.now ≤ length store.old) }
        ensures { (self.new ≡ offered_sender self.old offer.entry.circuit offer.entry.priority offer.entry.repetition offer.entry.message.now)
            × (store.new ≡ sets store.old (region * offer.entry.circuit) offer.entry.message.now) }
    {
        let start = Sender::REGION * offer.circuit;
        copying::copy_in(&mut store[start..], offer.message);
        self.put(offer);
    }

    // A message is offered at a circuit, with the long buffer given or not.
    #[tactic(auto, using(crate::proofs::Offers::accepted_room, crate::proofs::Offers::offer_refused, crate::proofs::Offers::offer_accepted), unfolding(crate::specs::Offering::offered_stores))]
    fn offer_to(&mut self, store: &mut [u8], given: bool, long: &[u8], offer: Offer<'_>) -> Answer
        ensures { (result ≡ answer_of (offer_refusal self.old (stores store.old given long.now) offer.entry.circuit offer.entry.priority offer.entry.repetition offer.entry.message.now))
            × (self.new ≡ sender_after_offer self.old (stores store.old given long.now) offer.entry.circuit offer.entry.priority offer.entry.repetition offer.entry.message.now)
            × (stores store.new given long.now ≡ stores_after_offer self.old (stores store.old given long.now) offer.entry.circuit offer.entry.priority offer.entry.repetition offer.entry.message.now) }
    {
        self.check_offer(store, given, long, offer)?;
        self.accept(store, offer);
        Ok(())
    }

    // A message is offered at a circuit by an end that has no long buffer.
    pub fn offer(&mut self, store: &mut [u8], offer: Offer<'_>) -> Answer
        ensures { (result ≡ answer_of (offer_refusal self.old (store_alone store.old) offer.entry.circuit offer.entry.priority offer.entry.repetition offer.entry.message.now))
            × (self.new ≡ sender_after_offer self.old (store_alone store.old) offer.entry.circuit offer.entry.priority offer.entry.repetition offer.entry.message.now)
            × (store_alone store.new ≡ stores_after_offer self.old (store_alone store.old) offer.entry.circuit offer.entry.priority offer.entry.repetition offer.entry.message.now) }
    {
        self.offer_to(store, false, &[], offer)
    }

    // A message is offered at a circuit by an end that has the long buffer.
    pub fn offer_beside(&mut self, store: &mut [u8], long: &[u8], offer: Offer<'_>) -> Answer
        ensures { (result ≡ answer_of (offer_refusal self.old (stores store.old true long.now) offer.entry.circuit offer.entry.priority offer.entry.repetition offer.entry.message.now))
            × (self.new ≡ sender_after_offer self.old (stores store.old true long.now) offer.entry.circuit offer.entry.priority offer.entry.repetition offer.entry.message.now)
            × (stores store.new true long.now ≡ stores_after_offer self.old (stores store.old true long.now) offer.entry.circuit offer.entry.priority offer.entry.repetition offer.entry.message.now) }
    {
        self.offer_to(store, true, long, offer)
    }
}
