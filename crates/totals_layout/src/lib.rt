// The record of pass totals in bytes, and the notice in a reading call's answer.
#![tactic(auto)]

pub mod answers;

ghost use Rattle.std.specs.Prelude.{◌≡◌, ◌+◌, ◌≤◌, length};
ghost use Rattle.std.proofs.lemmas.List.Edits.{sets};
ghost use Rattle.layout.specs.Layout.{number_at};
ghost use Rattle.totals_layout.specs.TotalsBytes.{totals_length, figures_bytes, figures_in, totals_bytes, totals_in};

use layout::put_number;
use totals::{Figures, Totals};

// The length of the record.
pub const LENGTH: usize = 64;

// The number in four bytes, lowest first.
#[tactic(auto, unfolding(layout::specs::Layout::number_at, layout::specs::Layout::byte_at))]
fn number_at(bytes: &[u8], at: usize) -> u32
    requires { at + 4 ≤ length bytes.now }
    ensures { result ≡ number_at 4 bytes.now at }
{
    u32::from_le_bytes([bytes[at], bytes[at + 1], bytes[at + 2], bytes[at + 3]])
}

// The figures in sixteen bytes.
#[tactic(auto, unfolding(crate::specs::TotalsBytes::figures_in))]
fn figures_in(bytes: &[u8], at: usize) -> Figures
    requires { at + 16 ≤ length bytes.now }
    ensures { result ≡ figures_in bytes.now at }
{
    Figures {
        messages: number_at(bytes, at),
        bytes: number_at(bytes, at + 4),
        lost: number_at(bytes, at + 8),
        orphaned: number_at(bytes, at + 12),
    }
}

// The record in bytes.
#[tactic(auto, unfolding(crate::specs::TotalsBytes::totals_in))]
pub fn totals_in(bytes: &[u8]) -> Totals
    requires { totals_length ≤ length bytes.now }
    ensures { result ≡ totals_in bytes.now }
{
    Totals {
        circuits: std::array::from_fn(|i| figures_in(bytes, 16 * i)),
    }
}

// The figures' bytes go to byte `at` and those behind it.
fn put_figures(bytes: &mut [u8], at: usize, figures: Figures)
    requires { at + 16 ≤ length bytes.old }
    ensures { bytes.new ≡ sets bytes.old at (figures_bytes figures) }
{
    put_number(bytes, at, 4, figures.messages as usize);
    put_number(bytes, at + 4, 4, figures.bytes as usize);
    put_number(bytes, at + 8, 4, figures.lost as usize);
    put_number(bytes, at + 12, 4, figures.orphaned as usize);
}

// The record's bytes go to the start of the bytes lent.
pub fn put_totals(bytes: &mut [u8], totals: Totals)
    requires { totals_length ≤ length bytes.old }
    ensures { bytes.new ≡ sets bytes.old 0 (totals_bytes totals) }
{
    let circuits = totals.circuits;
    put_figures(bytes, 0, circuits[0]);
    put_figures(bytes, 16, circuits[1]);
    put_figures(bytes, 32, circuits[2]);
    put_figures(bytes, 48, circuits[3]);
}
