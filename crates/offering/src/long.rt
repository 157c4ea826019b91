// A long message is offered at circuit 0.
ghost use Rattle.std.specs.Prelude.{◌≡◌, true};
ghost use Rattle.packet.specs.Answers.{answer_of};
ghost use Rattle.packet.specs.Stores.{stores};
ghost use Rattle.offering.specs.Offering.{long_bounds_refusal, long_refusal, sender_after_long, stores_after_long};

use super::slots::pending;
use super::{Offer, Sender};
use packet::{Answer, Refusal};

// A long message for circuit 0: its priority, how many copies of each packet follow the first, and its bytes.
#[derive(Clone, Copy)]
pub struct LongOffer<'a> {
    pub priority: u8,
    pub repetition: u8,
    pub message: &'a [u8],
}

impl<'a> LongOffer<'a> {
    // What is offered is refused by 5 to 8, 18 or 19, or not, by a sender for `count` circuits.
    #[tactic(auto, unfolding(crate::specs::Offering::long_bounds_refusal, crate::specs::Record::store_length, packet::specs::Stores::region, packet::specs::Messages::longest, packet::specs::Messages::longest_long, packet::specs::Answers::answer_of, packet::specs::Answers::answered, packet::specs::Answers::refusal_of))]
    pub fn check_bounds(self, store: &[u8], long: &[u8], count: usize) -> Answer
        ensures { result ≡ answer_of (long_bounds_refusal (stores store.now true long.now) count self.entry.priority self.entry.repetition self.entry.message.now) }
    {
        if store.len() < Sender::STORE {
            return Err(Refusal::ShortStore);
        }
        if packet::long_short(true, long) {
            return Err(Refusal::ShortLong);
        }
        if count == 0 {
            return Err(Refusal::NoSuchCircuit);
        }
        if 3 < self.priority {
            return Err(Refusal::PriorityTooHigh);
        }
        if 5 < self.repetition {
            return Err(Refusal::RepetitionTooHigh);
        }
        if self.message.len() <= packet::LONGEST_MESSAGE
            || packet::LONGEST_LONG < self.message.len()
        {
            return Err(Refusal::LongLength);
        }
        Ok(())
    }

    // The same for circuit 0, by its number.
    pub fn numbered(self) -> Offer<'a>
        ensures { (result.circuit ≡ 0) × (result.priority ≡ self.entry.priority) × (result.repetition ≡ self.entry.repetition) × (result.message.now ≡ self.entry.message.now) }
    {
        Offer {
            circuit: 0,
            priority: self.priority,
            repetition: self.repetition,
            message: self.message,
        }
    }
}

impl Sender {
    // A long offer is refused, or not.
    #[tactic(auto, unfolding(crate::specs::Offering::long_bounds_refusal, crate::specs::Offering::long_refusal, crate::specs::Record::slot_at, crate::specs::Record::no_slot, packet::specs::Answers::answer_of, packet::specs::Answers::answered, packet::specs::Answers::refusal_of))]
    fn check_long(&self, store: &[u8], long: &[u8], offer: LongOffer<'_>) -> Answer
        ensures { result ≡ answer_of (long_refusal self.now (stores store.now true long.now) offer.entry.priority offer.entry.repetition offer.entry.message.now) }
    {
        if !self.in_range(true) {
            return Err(Refusal::OutOfRange);
        }
        offer.check_bounds(store, long, self.circuits.count as usize)?;
        if pending(self.slots[0]) {
            Err(Refusal::Pending)
        } else {
            Ok(())
        }
    }

    // A long message is offered at circuit 0.
    #[tactic(auto, using(crate::proofs::Offers::long_room, crate::proofs::Offers::long_refused, crate::proofs::Offers::long_accepted), unfolding(crate::specs::Offering::offered_long))]
    pub fn offer_long(&mut self, store: &[u8], long: &mut [u8], offer: LongOffer<'_>) -> Answer
        ensures { (result ≡ answer_of (long_refusal self.old (stores store.now true long.old) offer.entry.priority offer.entry.repetition offer.entry.message.now))
            × (self.new ≡ sender_after_long self.old (stores store.now true long.old) offer.entry.priority offer.entry.repetition offer.entry.message.now)
            × (stores store.now true long.new ≡ stores_after_long self.old (stores store.now true long.old) offer.entry.priority offer.entry.repetition offer.entry.message.now) }
    {
        self.check_long(store, long, offer)?;
        copying::copy_in(long, offer.message);
        self.put(offer.numbered());
        Ok(())
    }
}
