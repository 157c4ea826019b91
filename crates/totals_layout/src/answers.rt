// The notice in a reading call's answer.
ghost use Rattle.std.specs.Prelude.{◌≡◌, ◌≤◌, length};
ghost use Rattle.receiver_layout.specs.Answers.{read_answer_length};
ghost use Rattle.totals_layout.specs.NoticeSaid.{fate_of_number, likely_notice, notice_said, noted_said};

use layout::word_at;
use notices::{Fate, Notice};
use receiver_layout::answers::notice_bytes;
use totals::Totals;

// The fate of a number, with the length of a whole message.
// Stays: (d) `impl From<(u8, usize)> for Fate` would have to stand in notices, and `Fate::from((answer[3], length))` says less of the two than this name.
#[tactic(auto, unfolding(crate::specs::NoticeSaid::fate_of_number))]
fn fate_of_number(number: u8, length: usize) -> Fate
    ensures { result ≡ fate_of_number number length }
{
    match number {
        0 => Fate::Copy,
        1 => Fate::Begun,
        2 => Fate::Held,
        3 => Fate::Whole(length),
        4 => Fate::Orphan,
        _ => Fate::Wrong,
    }
}

// The only notice that fits and may have these bytes.
// Stays: (d) the length is asked here, in `notice_said` and in `note`: as an array it is `note(.., answer.first_chunk().unwrap(), ..)` at each call, since what is lent may be longer.
#[tactic(auto, unfolding(crate::specs::NoticeSaid::likely_notice, layout::specs::Layout::byte_at))]
fn likely_notice(answer: &[u8]) -> Notice
    requires { read_answer_length ≤ length answer.now }
    ensures { result ≡ likely_notice answer.now }
{
    match answer[0] {
        0 => Notice::End,
        1 => Notice::Spoilt,
        2 => Notice::Malformed,
        3 => Notice::System {
            enable: answer[1],
            code: answer[2],
            length: usize::from(answer[3]),
        },
        4 => Notice::Elsewhere,
        _ => Notice::Circuit {
            number: usize::from(answer[1]),
            loss: answer[2],
            fate: fate_of_number(answer[3], usize::from(word_at(answer, 4))),
        },
    }
}

// The notice whose bytes the answer begins with.
fn notice_said(answer: &[u8]) -> Option<Notice>
    requires { read_answer_length ≤ length answer.now }
    ensures { result ≡ notice_said answer.now }
{
    let notice = likely_notice(answer);
    if !answer.starts_with(&notice_bytes(notice)) {
        return None;
    }
    Some(notice)
}

// The record after an answer.
#[tactic(auto, unfolding(crate::specs::NoticeSaid::noted_said))]
pub fn note(totals: Totals, answer: &[u8]) -> Totals
    requires { read_answer_length ≤ length answer.now }
    ensures { result ≡ noted_said totals (notice_said answer.now) }
{
    match notice_said(answer) {
        Some(notice) => totals.note(notice),
        None => totals,
    }
}
