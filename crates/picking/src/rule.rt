// The block rule: which circuit's frame is next, and the record after a copy of it is placed.
ghost use Rattle.std.specs.Prelude.{◌≡◌, ◌<◌, true};
ghost use Rattle.packet.specs.Messages.{longest_long};
ghost use Rattle.offering.specs.Record.{slot_at, pending, slot_in_range, in_range};
ghost use Rattle.picking.specs.Picking.{enabled, pick, advanced, served};
ghost use Rattle.picking.specs.Picked.{rank};

use offering::{Sender, Slot};

// The enable bit of a priority.
#[tactic(auto, unfolding(crate::specs::Picking::enabled, bits::specs::Bits::odd))]
fn enabled(enable: u8, priority: u8) -> bool
    requires { priority < 8 }
    ensures { result ≡ enabled enable priority }
{
    (enable >> priority) % 2 == 1
}

// The rank of a circuit: 0 if no copy of an enabled priority waits there; else the higher the priority, and among equals the sooner it comes
// going round after the one last served.
// Stays: (a) a number, 0 where none waits: the definition `rank` of specs/Picked.antt is one.
fn rank(sender: Sender, enable: u8, circuit: usize) -> u8
    requires sender_value { in_range true sender ≡ true }
    requires circuit_bound { circuit < 4 }
    ensures { result ≡ rank sender enable circuit }
{
    if sender.circuits.count as usize <= circuit {
        return 0;
    }
    let t = sender.slots[circuit];
    if !enabled(enable, t.priority) {
        return 0;
    }
    if !offering::slots::pending(t) {
        return 0;
    }
    let later = (circuit + 3 - sender.last as usize) % 4;
    4 * t.priority + 4 - later as u8
}

// The circuit whose frame is next, of the highest rank.
pub fn pick(sender: Sender, enable: u8) -> Option<usize>
    requires { in_range true sender ≡ true }
    ensures { result ≡ pick sender enable }
{
    let mut best: u8 = 0;
    let mut picked: usize = 0;
    for circuit in 0..4 {
        let r = rank(sender, enable, circuit);
        if best < r {
            best = r;
            picked = circuit;
        }
    }
    if best == 0 { None } else { Some(picked) }
}

// The slot after a copy is placed: the packet's next copy, or the next packet's first.
#[tactic(auto, unfolding(crate::specs::Picking::advanced, offering::specs::Record::slot_in_range, offering::specs::Record::pending, packet::specs::Messages::packets, packet::specs::Messages::header, packet::specs::Messages::longest_long))]
fn advance(t: Slot) -> Slot
    requires { (slot_in_range longest_long t ≡ true) × (pending t ≡ true) }
    ensures { result ≡ advanced t }
{
    if t.copy < t.repetition {
        return Slot {
            copy: t.copy + 1,
            ..t
        };
    }
    Slot {
        index: t.index.wrapping_add(1) % 8,
        copy: 0,
        place: t.place + 1,
        left: t.left - 1,
        ..t
    }
}

// A copy of this circuit is placed.
// Stays: (d) what is asked is what `pick` has found of the circuit: as a type this is `serve(sender, Place::new(circuit))` at each call, taken apart again here.
#[tactic(auto, unfolding(crate::specs::Picking::served, offering::specs::Record::slot_at, offering::specs::Record::no_slot))]
pub fn serve(sender: &mut Sender, circuit: usize)
    requires { (circuit < 4) × (slot_in_range longest_long (slot_at sender.old circuit) ≡ true) × (pending (slot_at sender.old circuit) ≡ true) }
    ensures { sender.new ≡ served sender.old circuit }
{
    sender.slots[circuit] = advance(sender.slots[circuit]);
    sender.last = circuit as u8;
}
