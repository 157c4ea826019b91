// The frame of the first copy waiting at a circuit, written. No packet is kept in an array: what stands before the message's bytes is a number,
// and each byte is stuffed from there, from the store or from the long buffer.
#![tactic(auto)]

ghost use Rattle.std.specs.Prelude.{◌≡◌, true, [], ◌++◌, ◌≤◌, ◌<◌, length, slice_index_or};
ghost use Rattle.hdlc.specs.Frames.{flag, frame};
ghost use Rattle.hdlc.specs.Leads.{led};
ghost use Rattle.hdlc.specs.Writing.{Room, FrameWritten};
ghost use Rattle.packet.specs.Circuits.{no_circuit};
ghost use Rattle.packet.specs.Messages.{longest, longest_long};
ghost use Rattle.packet.specs.Stores.{stores_of};
ghost use Rattle.offering.specs.Record.{store_length, slot_at, pending, slot_in_range, in_range, message_of, message_at, LongEnough};
ghost use Rattle.writing.specs.NextFrame.{next_packet, next_frame};
ghost use Rattle.writing.specs.PacketParts.{packet_at, control_at, header_at, lead_of, part_at};

use hdlc::led::below;
use hdlc::zeros::Framed;
use offering::{Sender, Slot};
use packet::{Circuit, Link, Part, Stores};

// Bytes that stand in a number, the first one lowest, and how many they are.
// Stays: (a) fixed memory, no packet in an array: the bytes are stuffed out of the number (`led`, `hdlc::led::write_led`).
#[derive(Clone, Copy)]
struct Lead {
    bytes: u64,
    len: usize,
}

// What waits first at a circuit: the circuit, its slot, which has a copy to place, and the slot's message.
#[derive(Clone, Copy)]
struct Waiting<'a> {
    circuit: Circuit,
    slot: Slot,
    message: &'a [u8],
    ghost in_range: { slot_in_range longest_long slot ≡ true },
    ghost waits: { pending slot ≡ true },
    ghost extended: { circuit.extended < 2 },
    ghost whole: { length message.now ≡ slot.length },
}

// A message of n bytes at a circuit: a long one at the start of the long buffer, any other at the start of the circuit's region.
// Stays: (d) the lengths are asked of stores that have just been let pass, and the circuit of a record in range: a type for that would be taken apart again here.
#[tactic(auto, unfolding(offering::specs::Record::message_of, offering::specs::Record::store_length, packet::specs::Stores::region, packet::specs::Messages::longest))]
fn message_of<'a>(lent: &Stores<'a>, circuit: usize, n: usize) -> &'a [u8]
    requires { (circuit < 4) × (store_length ≤ length lent.now.store.now) × (longest < n → n ≤ length lent.now.long.now) }
    ensures { result.now ≡ message_of (stores_of lent.now) circuit n }
{
    if packet::LONGEST_MESSAGE < n {
        return &lent.long[..n];
    }
    let from = Sender::REGION * circuit;
    let to = from + n;
    &lent.store[from..to]
}

impl<'a> Waiting<'a> {
    // What waits first at a circuit of a sender, with its message.
    fn at(sender: &Sender, lent: &Stores<'a>, circuit: usize) -> Waiting<'a>
        requires sender_value { in_range lent.now.given sender.now ≡ true }
        requires circuit_lt_count { circuit < sender.now.circuits.count }
        requires circuit_value { pending (slot_at sender.now circuit) ≡ true }
        requires long_enough { LongEnough (stores_of lent.now) }
        ensures { (result.circuit ≡ slice_index_or sender.now.circuits.list circuit no_circuit) × (result.slot ≡ slot_at sender.now circuit)
            × (result.message.now ≡ message_at sender.now (stores_of lent.now) circuit) }
    {
        let slot = sender.slots[circuit];
        Waiting {
            circuit: sender.circuits.list[circuit],
            slot,
            message: message_of(lent, circuit, slot.length as usize),
        }
    }

    // The packet's control byte.
    #[tactic(auto, unfolding(crate::specs::PacketParts::control_at, offering::specs::Record::slot_in_range))]
    fn control(&self) -> u8
        ensures { result ≡ control_at self.now.circuit self.now.slot }
    {
        let slot = self.slot;
        let place = slot.place as usize;
        let packets = packet::packets(slot.length as usize);
        packet::control(
            Link::of(place, packets),
            self.circuit.extended,
            slot.index,
            slot.priority,
        )
    }

    // The message's header, if the packet is the first.
    fn header(&self) -> Lead
        ensures { (led result.bytes result.len [] ≡ header_at self.now.slot) × (result.bytes < 65536) × (result.len ≤ 2) }
    {
        if self.slot.place != 0 {
            return Lead { bytes: 0, len: 0 };
        }
        let n = self.slot.length as usize;
        let first = packet::header_first(n);
        if packet::header_length(n) == 1 {
            return Lead {
                bytes: below(first, 0),
                len: 1,
            };
        }
        let second = below(packet::header_second(n), 0);
        Lead {
            bytes: below(first, second),
            len: 2,
        }
    }

    // What stands before the message's bytes in the packet.
    fn lead(&self) -> Lead
        ensures { (led result.bytes result.len [] ≡ lead_of self.now.circuit self.now.slot) × (0 < result.len) }
    {
        let header = self.header();
        let control = self.control();
        let circuit = self.circuit;
        if circuit.extended == 0 {
            let others = below(control, header.bytes);
            return Lead {
                bytes: below(circuit.address, others),
                len: 2 + header.len,
            };
        }
        let others = below(control, below(circuit.extension, header.bytes));
        Lead {
            bytes: below(circuit.address, others),
            len: 3 + header.len,
        }
    }

    // The part of the message in the packet.
    fn part(&self) -> &'a [u8]
        ensures { result.now ≡ part_at self.now.slot self.now.message.now }
    {
        let part = Part::of(self.slot.length as usize, self.slot.place as usize);
        let from = part.from;
        let to = from + part.len;
        &self.message[from..to]
    }

    // The packet's frame written at bit `at`, and the flag behind it.
    fn put(&self, buf: &mut [u8], at: usize) -> Framed
        requires { Room buf.old at (frame (packet_at self.now.circuit self.now.slot self.now.message.now) ++ flag) }
        ensures { FrameWritten buf.old at (packet_at self.now.circuit self.now.slot self.now.message.now) buf.new result }
    {
        let lead = self.lead();
        let part = self.part();
        let end = hdlc::led::write_led(buf, at, lead.bytes, lead.len, part);
        Framed::of(lead.len + part.len(), at, end)
    }
}

// The frame of the first copy waiting at a circuit written at bit `at`, and the flag behind it.
pub fn put_next(
    buf: &mut [u8],
    at: usize,
    sender: &Sender,
    lent: &Stores<'_>,
    circuit: usize,
) -> Framed
    requires sender_value { in_range lent.now.given sender.now ≡ true }
    requires circuit_lt_count { circuit < sender.now.circuits.count }
    requires circuit_value { pending (slot_at sender.now circuit) ≡ true }
    requires long_enough { LongEnough (stores_of lent.now) }
    requires room { Room buf.old at (next_frame sender.now (stores_of lent.now) circuit) }
    ensures { FrameWritten buf.old at (next_packet sender.now (stores_of lent.now) circuit) buf.new result }
{
    let waiting = Waiting::at(sender, lent, circuit);
    waiting.put(buf, at)
}
