// Reading: lent bits are read up to the first notice.
ghost use Rattle.std.specs.Prelude.{◌≤◌, true, ◌≡◌, length};
ghost use Rattle.packet.specs.Answers.{answer_of};
ghost use Rattle.packet.specs.Messages.{longest_long};
ghost use Rattle.packet.specs.Stores.{stores, store_alone};
ghost use Rattle.notices.specs.Stores.{store_length};
ghost use Rattle.receiver.specs.Record.{in_range};
ghost use Rattle.receiver.specs.Reading.{passed, quiet_notice, read_refusal, ReadCalled};

use super::{Receiver, Told};
use framing::Check;
use notices::passed::Passed;
use notices::{Notice, stores};
use packet::{Answer, Refusal};
use scanning::Stretch;

// The notice where no packet passed: a spoilt body, or the end of the bits.
#[tactic(auto, unfolding(crate::specs::Reading::quiet_notice))]
pub fn quiet_notice(check: Check) -> Notice
    ensures { result ≡ quiet_notice check }
{
    match check {
        Check::Spoilt => Notice::Spoilt,
        Check::Packet(_) | Check::Nothing => Notice::End,
    }
}

impl Receiver {
    // A reading call is accepted, or refused.
    #[tactic(auto, unfolding(packet::specs::Answers::answer_of, packet::specs::Answers::answered, packet::specs::Answers::refusal_of, crate::specs::Reading::read_refusal, notices::specs::Stores::store_length, notices::specs::Stores::system_place, packet::specs::Stores::region))]
    fn check_read(
        self,
        store: &[u8],
        given: bool,
        long: &[u8],
        bytes: &[u8],
        from: usize,
        to: usize,
    ) -> Answer
        ensures { result ≡ answer_of (read_refusal self (stores store.now given long.now) bytes.now from to) }
    {
        if !self.in_range(given) {
            return Err(Refusal::OutOfRange);
        }
        if store.len() < Receiver::STORE {
            return Err(Refusal::ShortStore);
        }
        if packet::long_short(given, long) {
            return Err(Refusal::ShortLong);
        }
        if to < from || bits::past(bytes, to) {
            return Err(Refusal::WrongStretch);
        }
        Ok(())
    }

    // A packet that passed is heard, and what its notice writes is written.
    fn hear(
        &mut self,
        store: &mut [u8],
        given: bool,
        long: &mut [u8],
        packet: &Passed<'_>,
    ) -> Notice
        requires { (in_range given self.old ≡ true) × (store_length ≤ length store.old) × (given ≡ true → longest_long ≤ length long.old) }
        ensures { (result ≡ (passed self.old (stores store.old given long.old) packet.now).notice)
            × (self.new ≡ (passed self.old (stores store.old given long.old) packet.now).receiver)
            × (stores store.new given long.new ≡ (passed self.old (stores store.old given long.old) packet.now).store) }
    {
        let heard = notices::hear(given, self.circuits, self.slots, packet);
        let notice = heard.notice;
        stores::write(store, long, notice, self.slots, packet);
        let slots = heard.slots;
        self.slots = slots;
        notice
    }

    // Reads the bits from number `from` up to `to` of the bytes lent, until the first notice, with the long buffer where it is given.
    fn read_lent(
        &mut self,
        store: &mut [u8],
        given: bool,
        long: &mut [u8],
        bytes: &[u8],
        from: usize,
        to: usize,
    ) -> Result<Told, Refusal>
        ensures { ReadCalled self.old (stores store.old given long.old) bytes.now from to self.new (stores store.new given long.new) result }
    {
        self.check_read(store, given, long, bytes, from, to)?;
        let scan = scanning::scan_left(self.framing, Stretch { bytes, from, to });
        let bits = scan.at - from;
        let notice = match scan.check {
            Check::Packet(n) => self.hear(store, given, long, &Passed::new(&scan.bytes[..n])),
            check => quiet_notice(check),
        };
        self.framing = scan.framing;
        Ok(Told { notice, bits })
    }

    // Reads the bits from number `from` up to `to` of the bytes lent, until the first notice.
    pub fn read(
        &mut self,
        store: &mut [u8],
        bytes: &[u8],
        from: usize,
        to: usize,
    ) -> Result<Told, Refusal>
        ensures { ReadCalled self.old (store_alone store.old) bytes.now from to self.new (store_alone store.new) result }
    {
        self.read_lent(store, false, &mut [], bytes, from, to)
    }

    // Reads them with the long buffer beside the store.
    pub fn read_beside(
        &mut self,
        store: &mut [u8],
        long: &mut [u8],
        bytes: &[u8],
        from: usize,
        to: usize,
    ) -> Result<Told, Refusal>
        ensures { ReadCalled self.old (stores store.old true long.old) bytes.now from to self.new (stores store.new true long.new) result }
    {
        self.read_lent(store, true, long, bytes, from, to)
    }
}
