// A pass end to end on the proved calls. Four circuits take messages of telemetry as they get free, and twelve blocks carry them. The joined
// bits are torn in five places and read back in uneven cuts, by a receiver that lists the circuits in another order.
// The file `stdout` has what other code makes of documents 01 and 02 (tests/pass).
#![tactic(auto)]

ghost use Rattle.std.specs.Prelude.{◌<◌, ◌≤◌};

use notices::{Fate, Notice};
use offering::{Offer, Sender};
use packet::Refusal;
use printing::{print, print_bytes, print_numbers, print_right};
use receiver::Receiver;
use sender::blocks::make_block;
use sender::{Block, BlockRequest, SystemPacket};
use std::io;
use totals::Totals;

// A block has 1,200 bits, or 150 bytes, of which 1,100 bits may be used; all twelve have 14,400 bits.
const BITS: usize = 1200;

const USABLE: usize = 1100;

// What is planned for a circuit: its priority, its repetition, and the lengths of its six messages.
#[derive(Clone, Copy)]
struct Plan {
    priority: u8,
    repetition: u8,
    lengths: [u8; 6],
}

const PLANS: [Plan; 4] = [
    Plan {
        priority: 1,
        repetition: 0,
        lengths: [1, 16, 200, 40, 40, 15],
    },
    Plan {
        priority: 1,
        repetition: 1,
        lengths: [1, 0, 15, 16, 40, 40],
    },
    Plan {
        priority: 3,
        repetition: 2,
        lengths: [15, 15, 16, 1, 0, 40],
    },
    Plan {
        priority: 0,
        repetition: 0,
        lengths: [16, 15, 0, 1, 40, 40],
    },
];

// The charge of a battery in percent, at a time of its cycle of 120: up from 40, and down again.
fn charge(time: usize) -> usize
    ensures { result < 100 }
{
    let t = time % 120;
    if t < 60 { 40 + t } else { 159 - t }
}

// Character k of readings from a time on, each of two digits and a space.
fn character(time: usize, k: usize) -> u8
    requires { time ≤ 1000 }
{
    let reading = charge(time + k / 3);
    match k % 3 {
        0 => b'0' + (reading / 10) as u8,
        1 => b'0' + (reading % 10) as u8,
        _ => b' ',
    }
}

// Byte k of a circuit's message: switches, nearly all of them on, at circuit 2, and readings as text at the others.
fn telemetry(circuit: usize, count: usize, k: usize) -> u8
    requires { (circuit < 4) × (count < 6) }
{
    if circuit == 2 {
        return 255 - ((count + k % 8) % 8) as u8;
    }
    character(20 * count + 30 * circuit, k)
}

// The bytes of a circuit's message, and more behind them.
fn message(circuit: usize, count: usize) -> [u8; 256]
    requires { (circuit < 4) × (count < 6) }
{
    std::array::from_fn(|k| telemetry(circuit, count, k))
}

// The sending end: the sender and its store, and how many messages each circuit has taken.
#[derive(Drop)]
struct Origin<'a, P> {
    rt: &'a P,
    sender: Sender,
    store: [u8; 16384],
    taken: [usize; 4],
}

impl<P: Print> Origin<'_, P> {
    // The next message of a circuit is offered, if there is one. The circuit refuses while it has a copy to place.
    fn offer_next(&mut self, circuit: usize) -> io::Result<()>
        requires { circuit < 4 }
    {
        let count = self.taken[circuit];
        if 5 < count {
            return Ok(());
        }
        let Plan {
            priority,
            repetition,
            lengths,
        } = PLANS[circuit];
        let size = lengths[count];
        let bytes = message(circuit, count);
        let offer = Offer {
            circuit,
            priority,
            repetition,
            message: &bytes[..usize::from(size)],
        };
        if self.sender.offer(&mut self.store, offer).is_err() {
            return Ok(());
        }
        self.taken[circuit] = count + 1;
        println!(self.rt;
            "circuit {circuit} takes a message, length {size}, priority {priority}, repetition {repetition}"
        )
    }

    // A block is made. Two of them have a system packet: that of block 4 bars priority 3, until that of block 9 enables it again.
    fn make(&mut self, block: &mut [u8], number: usize) -> Result<Block, Refusal> {
        let system = match number {
            4 => Some(SystemPacket {
                enable: 7,
                code: 1,
                information: b"eclipse",
            }),
            9 => Some(SystemPacket {
                enable: 15,
                code: 2,
                information: b"sunlit",
            }),
            _ => None,
        };
        let request = BlockRequest {
            n: BITS,
            u: USABLE,
            system,
        };
        make_block(&mut self.sender, &self.store, block, &request)
    }

    // What a block carries, and the packets still to go at each circuit then.
    fn print_block(&self, number: usize, block: Block) -> io::Result<()> {
        print!(self.rt;
            "  block {number}: {} frames in {} bits, stuffed zeros {}, left",
            block.placed, block.used, block.zeros
        )?;
        print_numbers(self.rt, &self.sender.slots.map(|slot| slot.left))?;
        println!(self.rt)
    }
}

// All blocks, each at its place in the joined bits, and messages offered at all circuits before each: how many messages each circuit took.
fn send(rt: &impl Print, joined: &mut [u8; 1800]) -> io::Result<[usize; 4]> {
    let mut origin = Origin {
        rt,
        sender: Sender::list(b"\x10\x00\x00\x02\x01\x07\x7e\x00\x00\x33\x00\x00").record,
        store: [0; 16384],
        taken: [0; 4],
    };
    for number in 0..12 {
        for circuit in 0..4 {
            origin.offer_next(circuit)?;
        }
        if let Ok(block) = origin.make(&mut joined[150 * number..], number) {
            origin.print_block(number, block)?;
        }
    }
    Ok(origin.taken)
}

// Bits are replaced by noise, from one number up to another.
fn put_noise(joined: &mut [u8; 1800], from: usize, to: usize)
    requires { to ≤ 14400 }
{
    for at in from..to {
        bits::put_bit(joined, at, 37 * at % 101 % 2 == 1);
    }
}

// A bit is turned over.
fn turn_over(joined: &mut [u8; 1800], at: usize)
    requires { at < 14400 }
{
    let bit = bits::get_bit(joined, at);
    bits::put_bit(joined, at, !bit);
}

// The joined bits are torn.
fn tear(rt: &impl Print, joined: &mut [u8; 1800]) -> io::Result<()> {
    turn_over(joined, 2200);
    bits::put_run(joined, 3000, 60, true);
    bits::put_run(joined, 5840, 300, false);
    put_noise(joined, 9850, 10450);
    turn_over(joined, 13450);
    println!(rt; "bit 2200 is turned over")?;
    println!(rt; "bits 3000 to 3059 are ones")?;
    println!(rt; "bits 5840 to 6139 are zeros")?;
    println!(rt; "bits 9850 to 10449 are noise")?;
    println!(rt; "bit 13450 is turned over")
}

// How often a circuit's notices told what the totals do not have.
#[derive(Clone, Copy)]
struct Cases {
    copy: usize,
    begun: usize,
    held: usize,
    wrong: usize,
}

// What the totals do not have: each circuit's cases, the notices that name no circuit, and the bits read.
#[derive(Clone, Copy)]
struct Counts {
    circuits: [Cases; 4],
    system: usize,
    spoilt: usize,
    malformed: usize,
    elsewhere: usize,
    bits: usize,
}

impl Cases {
    // Nothing counted yet.
    fn none() -> Cases {
        Cases {
            copy: 0,
            begun: 0,
            held: 0,
            wrong: 0,
        }
    }

    // A packet's fate is counted.
    fn count(&mut self, fate: Fate) {
        match fate {
            Fate::Copy => self.copy = self.copy.wrapping_add(1),
            Fate::Begun => self.begun = self.begun.wrapping_add(1),
            Fate::Held => self.held = self.held.wrapping_add(1),
            Fate::Wrong => self.wrong = self.wrong.wrapping_add(1),
            Fate::Orphan | Fate::Whole(_) => (),
        }
    }
}

impl Counts {
    // Nothing counted yet.
    fn none() -> Counts {
        Counts {
            circuits: [Cases::none(); 4],
            system: 0,
            spoilt: 0,
            malformed: 0,
            elsewhere: 0,
            bits: 0,
        }
    }

    // A notice is counted, and the bits that were read up to it. No circuit's number is above 3.
    fn count(&mut self, bits: usize, notice: Notice) {
        self.bits = self.bits.wrapping_add(bits);
        match notice {
            Notice::End => (),
            Notice::System { .. } => self.system = self.system.wrapping_add(1),
            Notice::Spoilt => self.spoilt = self.spoilt.wrapping_add(1),
            Notice::Malformed => self.malformed = self.malformed.wrapping_add(1),
            Notice::Elsewhere => self.elsewhere = self.elsewhere.wrapping_add(1),
            Notice::Circuit { number, fate, .. } => {
                if let Some(cases) = self.circuits.get_mut(number) {
                    cases.count(fate);
                }
            }
        }
    }
}

// The receiving end: the receiver and its store, the totals of what it told, and the counts of what they do not have.
#[derive(Drop)]
struct Station<'a, P> {
    rt: &'a P,
    receiver: Receiver,
    store: [u8; Receiver::STORE],
    totals: Totals,
    counts: Counts,
}

impl<P: Print> Station<'_, P> {
    // A message that was handed over: the start of its circuit's region, which none passes. Circuit 0 has bytes, the others have text.
    fn print_message(&self, number: usize, size: usize) -> io::Result<()>
        requires { number < 4 }
    {
        if Receiver::REGION < size {
            return Ok(());
        }
        print!(self.rt; ", length {size} [")?;
        let start = Receiver::REGION * number;
        let message = &self.store[start..start + size];
        if number == 0 {
            print_bytes(self.rt, message)?;
        } else {
            print(self.rt, message)?;
        }
        print!(self.rt; "]")
    }

    // A notice that names a circuit. No number is above 3.
    fn print_circuit(&self, number: usize, loss: u8, fate: Fate) -> io::Result<()> {
        if 3 < number {
            return Ok(());
        }
        let name = match fate {
            Fate::Copy => "Copy",
            Fate::Begun => "Begun",
            Fate::Held => "Held",
            Fate::Orphan => "Orphan",
            Fate::Wrong => "Wrong",
            Fate::Whole(_) => "Whole",
        };
        print!(self.rt; "circuit {number}, loss {loss}, {name}")?;
        match fate {
            Fate::Whole(size) => self.print_message(number, size),
            _ => Ok(()),
        }
    }

    // A notice that tells a system packet, with its information. None has more than 16 bytes.
    fn print_system(&self, enable: u8, code: u8, size: usize) -> io::Result<()> {
        if 16 < size {
            return Ok(());
        }
        print!(self.rt; "System, enable bits {enable}, code {code}, length {size} [")?;
        print(
            self.rt,
            &self.store[Receiver::SYSTEM..Receiver::SYSTEM + size],
        )?;
        print!(self.rt; "]")
    }

    // A notice, told after so many bits. The end of a cut is none to print.
    fn print_notice(&self, at: usize, notice: Notice) -> io::Result<()> {
        if let Notice::End = notice {
            return Ok(());
        }
        print!(self.rt; "bit {at:>5}: ")?;
        match notice {
            Notice::End => (),
            Notice::System {
                enable,
                code,
                length,
            } => self.print_system(enable, code, length)?,
            Notice::Spoilt => print!(self.rt; "Spoilt")?,
            Notice::Malformed => print!(self.rt; "Malformed")?,
            Notice::Elsewhere => print!(self.rt; "Elsewhere")?,
            Notice::Circuit { number, loss, fate } => self.print_circuit(number, loss, fate)?,
        }
        println!(self.rt)
    }

    // A cut is read, from one notice to the next.
    fn read_cut(&mut self, joined: &[u8; 1800], from: usize, to: usize) -> io::Result<()> {
        let mut at = from;
        // Stays: (d) a `while`, here and in `receive`: each goes on to where the call stopped; a `for` over the bits would pass over those that the call has read.
        while at < to {
            let Ok(told) = self.receiver.read(&mut self.store, joined, at, to) else {
                break;
            };
            at += told.bits;
            self.counts.count(told.bits, told.notice);
            self.totals = self.totals.note(told.notice);
            self.print_notice(at, told.notice)?;
        }
        Ok(())
    }

    // A circuit's line of the table.
    fn print_row(&self, name: &str, row: usize, sent: usize) -> io::Result<()>
        requires { row < 4 }
    {
        let cases = self.counts.circuits[row];
        let figures = self.totals.circuits[row];
        print!(self.rt; "{name}")?;
        for figure in [
            cases.copy,
            cases.begun,
            cases.held,
            figures.orphaned as usize,
            cases.wrong,
            figures.lost as usize,
            figures.messages as usize,
            figures.bytes as usize,
            sent,
        ] {
            print_right(self.rt, figure, 8)?;
        }
        println!(self.rt)
    }

    // The table of the circuits, and the other counts.
    fn print_sums(&self, sent: [usize; 4]) -> io::Result<()> {
        println!(self.rt;
            "circuit       Copy   Begun    Held  Orphan   Wrong  losses   Whole   bytes    sent"
        )?;
        self.print_row("0: 7e     ", 0, sent[2])?;
        self.print_row("1: 33     ", 1, sent[3])?;
        self.print_row("2: 10     ", 2, sent[0])?;
        self.print_row("3: 02 07  ", 3, sent[1])?;
        let Counts {
            system,
            spoilt,
            malformed,
            elsewhere,
            bits,
            ..
        } = self.counts;
        println!(self.rt;
            "bits read: {bits}; System {system}, Spoilt {spoilt}, Malformed {malformed}, Elsewhere {elsewhere}"
        )
    }
}

// Where a cut ends: it has 1 to 200 bits.
fn cut_end(from: usize) -> usize
    requires { from < 14400 }
    ensures { (from < result) × (result ≤ 14400) }
{
    (from + 1 + 37 * from % 200).min(14400)
}

// All bits are read, cut by cut.
fn receive<'a, P: Print>(rt: &'a P, joined: &[u8; 1800]) -> io::Result<Station<'a, P>> {
    let mut station = Station {
        rt,
        receiver: Receiver::list(b"\x7e\x00\x00\x33\x00\x00\x10\x00\x00\x02\x01\x07").record,
        store: [0; Receiver::STORE],
        totals: Totals::empty(),
        counts: Counts::none(),
    };
    let mut at = 0;
    while at < 14400 {
        let end = cut_end(at);
        station.read_cut(joined, at, end)?;
        at = end;
    }
    Ok(station)
}

fn main(rt: HostRuntime) -> io::Result<()> {
    println!(&rt;
        "A pass end to end: four circuits, 12 blocks of 1200 user bits, torn in five places"
    )?;
    println!(&rt;
        "The sender lists 10, 02 07, 7e and 33; the receiver lists 7e, 33, 10 and 02 07"
    )?;
    let mut joined = [0; 1800];
    println!(&rt; "\nSending")?;
    let sent = send(&rt, &mut joined)?;
    println!(&rt; "\nTearing")?;
    tear(&rt, &mut joined)?;
    println!(&rt; "\nReading, in cuts of 1 to 200 bits")?;
    let station = receive(&rt, &joined)?;
    println!(&rt; "\nSums")?;
    station.print_sums(sent)
}
