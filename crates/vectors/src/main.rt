// Runs published vectors through the proved functions and prints what they give. The file `stdout` beside src/ has what the
// documents say, so that a run is a comparison with them:
// - CRC-16/X-25, also called CRC-16/IBM-SDLC: the check value of the published catalogues of CRC algorithms;
// - ISO/IEC 14443-3, annex B: the three examples of CRC_B, which is the same FCS;
// - ITU-T X.25, appendix I: a SABM command and a UA response as whole frames, bit by bit, the inserted 0 of the first included.
// Then frames with a tear in them are read, and whole blocks are made for chosen calls: what they give follows from documents 01 and 02.
#![tactic(auto)]

ghost use Rattle.std.specs.Prelude.{◌*◌, ◌<◌, ◌≤◌, length};

use framing::{Check, Framing};
use hdlc::zeros::Framed;
use offering::{Offer, Sender};
use packet::Refusal;
use printing::{print_bytes, print_numbers};
use scanning::Stretch;
use sender::blocks::make_block;
use sender::{BlockRequest, SystemPacket};
use std::io;

// The first n bits.
fn print_bits(rt: &impl Print, bytes: &[u8], n: usize) -> io::Result<()>
    requires { n ≤ 8 * length bytes.now }
{
    for at in 0..n {
        print!(rt; "{}", u8::from(bits::get_bit(bytes, at)))?;
    }
    Ok(())
}

// The FCS of bytes, and its two bytes as they are sent.
fn fcs_of(rt: &impl Print, bytes: &[u8]) -> io::Result<()> {
    let value = fcs::fcs(bytes);
    let [low, high] = value.to_le_bytes();
    print_bytes(rt, bytes)?;
    println!(rt; " fcs {value:04x} sent {low:02x}{high:02x}")
}

// What a fresh receiver finds in the first `to` bits.
fn read_back(rt: &impl Print, bytes: &[u8], to: usize) -> io::Result<()>
    requires { to ≤ 8 * length bytes.now }
{
    let found = scanning::scan(Framing::fresh(), Stretch { bytes, from: 0, to });
    match found.check {
        Check::Packet(n) => {
            print!(rt; "packet ")?;
            print_bytes(rt, found.bytes.get(..n).unwrap_or(b""))?;
        }
        Check::Spoilt => print!(rt; "spoilt")?,
        Check::Nothing => print!(rt; "nothing")?,
    }
    println!(rt; " after {} bits", found.at)
}

// A packet as a frame between two flags, at the buffer's start: the number of its bits, and of the zeros added to it.
fn write(buffer: &mut [u8; 32], packet: &[u8; 2]) -> Framed
    ensures { result.at ≤ 256 }
{
    let body = hdlc::put_flag(buffer, 0);
    hdlc::write_frame(buffer, body, packet)
}

// A packet as a frame, bit by bit, with the zeros added to it, and read back.
fn frame_of(rt: &impl Print, packet: &[u8; 2]) -> io::Result<()> {
    let mut buffer = [0; 32];
    let written = write(&mut buffer, packet);
    print_bytes(rt, packet)?;
    print!(rt; " frame ")?;
    print_bits(rt, &buffer, written.at)?;
    print!(rt; " zeros {} read ", written.zeros)?;
    read_back(rt, &buffer, written.at)
}

// The same with one bit of it turned over.
fn torn_frame_of(rt: &impl Print, packet: &[u8; 2], bit: usize) -> io::Result<()>
    requires { bit < 256 }
{
    let mut buffer = [0; 32];
    let written = write(&mut buffer, packet);
    let old = bits::get_bit(&buffer, bit);
    bits::put_bit(&mut buffer, bit, !old);
    print!(rt; "bit {bit} torn: ")?;
    read_back(rt, &buffer, written.at)
}

// A sender with its store, and where its answers are printed.
#[derive(Drop)]
struct Session<'a, P> {
    rt: &'a P,
    sender: Sender,
    store: [u8; 16384],
}

impl<P: Print> Session<'_, P> {
    // The packets still to go at each circuit number.
    fn print_left(&self) -> io::Result<()> {
        print!(self.rt; " left")?;
        print_numbers(self.rt, &self.sender.slots.map(|slot| slot.left))?;
        Ok(())
    }

    // A refusal, by its number.
    fn print_refusal(&self, refusal: Refusal) -> io::Result<()> {
        println!(self.rt; "refused {}", u32::from(refusal))
    }

    // An offer, its answer, and what is left then.
    fn offer(
        &mut self,
        circuit: usize,
        priority: u8,
        repetition: u8,
        message: &[u8],
    ) -> io::Result<()> {
        let offer = Offer {
            circuit,
            priority,
            repetition,
            message,
        };
        match self.sender.offer(&mut self.store, offer) {
            Ok(()) => {
                print!(self.rt; "accepted,")?;
                self.print_left()?;
                println!(self.rt)
            }
            Err(refusal) => self.print_refusal(refusal),
        }
    }

    // A block call into 80 bytes AA hex, its answer, what is left, and the bytes then.
    fn block(&mut self, request: BlockRequest<'_>) -> io::Result<()> {
        let mut buffer = [0xaa; 80];
        match make_block(&mut self.sender, &self.store, &mut buffer, &request) {
            Ok(block) => {
                print!(self.rt;
                    "placed {} used {} zeros {}",
                    block.placed, block.used, block.zeros
                )?;
                self.print_left()?;
                print!(self.rt; " ")?;
                print_bytes(self.rt, &buffer)?;
                println!(self.rt)
            }
            Err(refusal) => self.print_refusal(refusal),
        }
    }

    // A block with a system packet.
    fn system(&mut self, n: usize, enable: u8, code: u8, information: &[u8]) -> io::Result<()> {
        self.block(BlockRequest {
            n,
            u: n,
            system: Some(SystemPacket {
                enable,
                code,
                information,
            }),
        })
    }

    // A plain block, with no system packet.
    fn plain(&mut self, n: usize, u: usize) -> io::Result<()> {
        self.block(BlockRequest { n, u, system: None })
    }

    // Offers that are accepted.
    fn first_offers(&mut self) -> io::Result<()> {
        let ramp: [u8; 40] = std::array::from_fn(|k| k as u8);
        self.offer(0, 1, 0, b"charge 71%")?;
        self.offer(1, 1, 1, &ramp)?;
        self.offer(2, 3, 2, &[0xff; 20])
    }

    // Offers at a circuit that still has a copy to place, and at one that is not listed.
    fn refused_circuits(&mut self) -> io::Result<()> {
        self.offer(1, 0, 0, b"")?;
        self.offer(3, 0, 0, b"")
    }

    // Offers with a priority and a repetition that are too high.
    fn refused_numbers(&mut self) -> io::Result<()> {
        self.offer(0, 4, 0, b"")?;
        self.offer(0, 0, 6, b"")
    }

    fn first_blocks(&mut self) -> io::Result<()> {
        self.plain(600, 590)?;
        self.system(600, 5, 8, b"\x01\x02\x03")?;
        self.held_blocks()?;
        self.plain(605, 605)?;
        self.plain(601, 256)
    }

    // The enable bits 5 hold over, and all that waits has priority 1 or 3. Refused system packets change nothing; one that is sent enables all, and
    // leaves no room for a frame.
    fn held_blocks(&mut self) -> io::Result<()> {
        self.plain(600, 600)?;
        self.system(641, 15, 0, b"")?;
        self.system(600, 15, 9, b"")?;
        self.plain(600, 600)?;
        self.system(256, 15, 8, &[0xff; 15])
    }

    fn last_blocks(&mut self) -> io::Result<()> {
        self.system(640, 15, 0, b"")?;
        self.plain(640, 640)?;
        self.plain(255, 255)?;
        self.plain(640, 641)?;
        self.plain(641, 641)?;
        self.system(640, 16, 0, b"")?;
        self.system(640, 15, 9, b"")?;
        self.plain(640, 640)
    }
}

// Whole blocks for chosen calls. The file `stdout` has what other code makes of document 01 (tests/blocks).
fn blocks(rt: &impl Print) -> io::Result<()> {
    let mut session = Session {
        rt,
        sender: Sender::list(b"\x01\x00\x00\x02\x01\x07\x7e\x00\x00").record,
        store: [0; 16384],
    };
    session.first_offers()?;
    session.refused_circuits()?;
    session.refused_numbers()?;
    session.first_blocks()?;
    session.offer(0, 0, 5, b"")?;
    session.last_blocks()
}

fn main(rt: HostRuntime) -> io::Result<()> {
    println!(&rt; "CRC-16/X-25, check value")?;
    fcs_of(&rt, b"123456789")?;
    println!(&rt; "ISO/IEC 14443-3, annex B, CRC_B")?;
    fcs_of(&rt, b"\x00\x00\x00")?;
    fcs_of(&rt, b"\x0f\xaa\xff")?;
    fcs_of(&rt, b"\x0a\x12\x34\x56")?;
    println!(&rt; "ITU-T X.25, appendix I, SABM and UA")?;
    frame_of(&rt, b"\x03\x3f")?;
    frame_of(&rt, b"\x01\x73")?;
    println!(&rt; "SABM with one bit torn")?;
    for bit in [7, 8, 21, 44] {
        torn_frame_of(&rt, b"\x03\x3f", bit)?;
    }
    println!(&rt; "Blocks")?;
    blocks(&rt)
}
