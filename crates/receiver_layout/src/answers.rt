// The answer of reading: the notice and the bits read, in bytes.
ghost use Rattle.std.specs.Prelude.{◌≡◌, ◌∷◌, ◌≤◌, length, replicate};
ghost use Rattle.std.proofs.lemmas.List.Edits.{sets};
ghost use Rattle.notices.specs.declared.Notice.TheVariants.{Circuit};
ghost use Rattle.receiver_layout.specs.Answers.{read_answer_length, fate_number, whole_length, notice_bytes, read_answer_bytes};

use layout::{low_byte, put_number};
use notices::{Fate, Notice};

// What became of a packet, by number.
// Stays: (d) as a function: `u8::from(fate)` would stand in `notices`, which has no bytes, and `Whole(_)` has a value beside it, so that no cast gives the number.
#[tactic(auto, unfolding(crate::specs::Answers::fate_number))]
fn fate_number(fate: Fate) -> u8
    ensures { result ≡ fate_number fate }
{
    match fate {
        Fate::Copy => 0,
        Fate::Begun => 1,
        Fate::Held => 2,
        Fate::Whole(_) => 3,
        Fate::Orphan => 4,
        Fate::Wrong => 5,
    }
}

// The length of a whole message; 0 where there is none.
#[tactic(auto, unfolding(crate::specs::Answers::whole_length))]
fn whole_length(fate: Fate) -> usize
    ensures { result ≡ whole_length fate }
{
    match fate {
        Fate::Whole(n) => n,
        Fate::Copy | Fate::Begun | Fate::Held | Fate::Orphan | Fate::Wrong => 0,
    }
}

// A notice that is told by its number alone.
fn plain(number: u8) -> [u8; 8]
    ensures { result ≡ number ∷ replicate 7 0 }
{
    [number, 0, 0, 0, 0, 0, 0, 0]
}

// A circuit's notice.
#[tactic(auto, unfolding(crate::specs::Answers::notice_bytes, layout::specs::Layout::low_bytes))]
fn circuit_notice(number: usize, loss: u8, fate: Fate) -> [u8; 8]
    ensures { result ≡ notice_bytes (Circuit number loss fate) }
{
    let n = whole_length(fate);
    [
        5,
        low_byte(number),
        loss,
        fate_number(fate),
        low_byte(n),
        low_byte(n / 256),
        0,
        0,
    ]
}

// A notice's bytes.
#[tactic(auto, unfolding(crate::specs::Answers::notice_bytes, layout::specs::Layout::low_bytes))]
pub fn notice_bytes(notice: Notice) -> [u8; 8]
    ensures { result ≡ notice_bytes notice }
{
    match notice {
        Notice::End => plain(0),
        Notice::Spoilt => plain(1),
        Notice::Malformed => plain(2),
        Notice::System {
            enable,
            code,
            length,
        } => [3, enable, code, low_byte(length), 0, 0, 0, 0],
        Notice::Elsewhere => plain(4),
        Notice::Circuit { number, loss, fate } => circuit_notice(number, loss, fate),
    }
}

// A reading call's answer goes to the start of the bytes lent: the notice, and how many bits were read.
#[tactic(auto, using(layout::proofs::Copies::two_written), unfolding(crate::specs::Answers::read_answer_bytes))]
pub fn put_read_answer(bytes: &mut [u8], notice: Notice, read: usize)
    requires { read_answer_length ≤ length bytes.old }
    ensures { bytes.new ≡ sets bytes.old 0 (read_answer_bytes notice read) }
{
    let told = notice_bytes(notice);
    copying::copy_in(bytes, &told);
    put_number(bytes, 8, 8, read);
}
