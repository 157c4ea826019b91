// Circuits, messages and packets as bytes.
#![tactic(auto)]

ghost use Rattle.std.specs.Prelude.{◌≡◌, true, List, ℕ, ◌<◌, length, get_or};
ghost use Rattle.packet.specs.Answers.{refusal_number};
ghost use Rattle.packet.specs.Messages.{header, part_of, packets, link_of, LongByValue};
ghost use Rattle.packet.specs.Packets.{link_number, control};
ghost use Rattle.packet.specs.Stores.{stores, store_alone, stores_of, takes_long, longest_at, long_short};

pub mod circuit_lists;

// A circuit's region of the store, the longest message and the longest long one, which is also the length of the buffer for it, in bytes.
pub const REGION: usize = 4096;

pub const LONGEST_MESSAGE: usize = 4094;

pub const LONGEST_LONG: usize = 65535;

// The length that a long message's header holds.
pub const LONG_HEADER: usize = 4095;

// A circuit: an address byte, with an extension byte where `extended` is 1.
// Stays: (a) a record lent by C holds any three bytes here, and `wrong_extension` (refusals 3 and 14) speaks of all of them.
#[derive(Clone, Copy, Debug, PartialEq, Eq)]
pub struct Circuit {
    pub address: u8,
    pub extended: u8,
    pub extension: u8,
}

// One to four circuits, numbered from 0, or none.
// Stays: (a) fixed memory, and the layout of a record lent by C, whose count may be any byte (`offering::in_range`, refusal 14).
#[derive(Clone, Copy)]
pub struct Circuits {
    pub count: u8,
    pub list: [Circuit; 4],
}

// What listing a record for circuits answers, and the record: one of no circuits where the list is refused.
#[derive(Clone, Copy)]
pub struct Listed<T> {
    pub answer: Answer,
    pub record: T,
}

// A part of a message: `len` bytes from byte `from` on.
#[derive(Clone, Copy)]
pub struct Part {
    pub from: usize,
    pub len: usize,
}

// What is lent to a call that reads it: the store and, where one is given, the long buffer beside it.
#[derive(Clone, Copy)]
pub struct Stores<'a> {
    pub store: &'a [u8],
    pub given: bool,
    pub long: &'a [u8],
}

impl<'a> Stores<'a> {
    // The store alone.
    pub fn alone(store: &'a [u8]) -> Stores<'a>
        ensures { stores_of result ≡ store_alone store.now }
    {
        Stores {
            store,
            given: false,
            long: &[],
        }
    }

    // The store with a long buffer.
    pub fn beside(store: &'a [u8], long: &'a [u8]) -> Stores<'a>
        ensures { stores_of result ≡ stores store.now true long.now }
    {
        Stores {
            store,
            given: true,
            long,
        }
    }
}

// The number of bytes of the header of a message of n bytes.
#[tactic(auto, unfolding(crate::specs::Messages::header))]
pub fn header_length(n: usize) -> usize
    ensures { result ≡ length (header n) }
{
    if n <= 15 { 1 } else { 2 }
}

// The first byte of that header.
#[tactic(auto, unfolding(crate::specs::Messages::header, crate::specs::Messages::longest))]
pub fn header_first(n: usize) -> u8
    ensures { result ≡ get_or (header n) 0 0 }
{
    if n <= 15 {
        return n as u8;
    }
    (16 + n.min(LONG_HEADER) / 256) as u8
}

// The second byte of that header, 0 if it has only one.
#[tactic(auto, unfolding(crate::specs::Messages::header))]
pub fn header_second(n: usize) -> u8
    ensures { result ≡ get_or (header n) 1 0 }
{
    if n <= 15 {
        return 0;
    }
    (n.min(LONG_HEADER) % 256) as u8
}

impl Part {
    // The part of a message of n bytes that stands in its segment k: segment 0 has the header before it.
    pub fn of(n: usize, k: usize) -> Part
        requires { k < packets n }
        ensures { result ≡ part_of n k }
    {
        let first = 16 - header_length(n);
        if k == 0 {
            let len = first.min(n);
            return Part { from: 0, len };
        }
        let from = first + 16 * (k - 1);
        let len = (n - from).min(16);
        Part { from, len }
    }
}

// The number of packets of a message of n bytes; of more than 15, the first packet has 14 and each later one at most 16.
#[tactic(auto, unfolding(crate::specs::Messages::packets, crate::specs::Messages::header))]
pub fn packets(n: usize) -> usize
    ensures { result ≡ packets n }
{
    if n <= 15 { 1 } else { 2 + (n - 15) / 16 }
}

// A circuit number takes long messages: 0, where a buffer is given.
#[tactic(auto, unfolding(crate::specs::Stores::takes_long))]
pub fn takes_long(given: bool, circuit: usize) -> bool
    ensures { result ≡ takes_long given circuit }
{
    given && circuit == 0
}

// The longest message that a circuit number may have.
#[tactic(auto, unfolding(crate::specs::Stores::longest_at, crate::specs::Messages::longest, crate::specs::Messages::longest_long))]
pub fn longest_at(given: bool, circuit: usize) -> usize
    ensures { result ≡ longest_at given circuit }
{
    if takes_long(given, circuit) {
        LONGEST_LONG
    } else {
        LONGEST_MESSAGE
    }
}

// A long buffer is given and too short: what refusal 19 says.
#[tactic(auto, unfolding(crate::specs::Stores::long_short, crate::specs::Messages::longest_long))]
pub fn long_short(given: bool, long: &[u8]) -> bool
    ensures { (store : List ℕ) → result ≡ long_short (stores store given long.now) }
{
    given && long.len() < LONGEST_LONG
}

// What the length of a long message gives.
#[tactic(auto, using(crate::proofs::Segments::long_by_value))]
fn long_by_value()
    ensures { LongByValue }
{}

// The link of a packet: its number in A7 A6 of the control byte.
#[derive(Clone, Copy, Debug, PartialEq, Eq)]
pub enum Link {
    Between = 0,
    Last = 1,
    First = 2,
    System = 3,
}

impl Link {
    // The link of packet `place`, from 0, of `packets`.
    #[tactic(auto, unfolding(crate::specs::Messages::link_of, crate::specs::Packets::link_number))]
    pub fn of(place: usize, packets: usize) -> Link
        ensures { link_number result ≡ link_of place packets }
    {
        if place == 0 {
            return Link::First;
        }
        if packets <= place {
            return Link::Between;
        }
        if packets - place == 1 {
            return Link::Last;
        }
        Link::Between
    }
}

// The control byte of a packet.
#[tactic(auto, unfolding(crate::specs::Packets::control, crate::specs::Packets::link_number))]
pub fn control(link: Link, extended: u8, index: u8, priority: u8) -> u8
    requires { (extended < 2) × (index < 8) × (priority < 4) }
    ensures { result ≡ control (link_number link) extended index priority }
{
    64 * link as u8 + 32 * extended + 4 * index + priority
}

// The refusals, with their numbers: 1 to 15 of document 01, 16 to 19 of document 02.
#[derive(Clone, Copy, Debug, PartialEq, Eq)]
pub enum Refusal {
    ListLength = 1,
    AddressFF = 2,
    WrongExtension = 3,
    TwoAlike = 4,
    ShortStore = 5,
    NoSuchCircuit = 6,
    PriorityTooHigh = 7,
    RepetitionTooHigh = 8,
    MessageTooLong = 9,
    Pending = 10,
    WrongSize = 11,
    ShortBuffer = 12,
    WrongSystem = 13,
    OutOfRange = 14,
    WrongStretch = 15,
    ShortOutput = 16,
    WrongPacket = 17,
    LongLength = 18,
    ShortLong = 19,
}

impl From<Refusal> for u32 {
    ghost from_gives = { λ refusal n. n ≡ refusal_number refusal };

    // A refusal's number.
    #[tactic(auto, unfolding(crate::specs::Answers::refusal_number))]
    fn from(refusal: Refusal) -> u32 {
        refusal as u32
    }
}

// The answer of a call that has nothing else to tell: accepted, or refused.
pub type Answer = Result<(), Refusal>;
