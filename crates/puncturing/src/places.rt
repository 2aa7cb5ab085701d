//! Closed forms of the kept places.
ghost use Rattle.std.specs.Prelude.{◌≡◌, ◌<◌, ◌≤◌};
ghost use Rattle.puncturing.specs.Closed.{even_place, residue_place, data_place, mcs_place};

use crate::Figures;
use placement::header_place;

// The data's places are kept by these residues modulo 21.
const KEPT_RESIDUES: [u8; 13] = [0, 1, 3, 4, 6, 7, 9, 12, 13, 15, 16, 18, 19];

// These are kept all the same.
const EXCEPTIONS: [u16; 8] = [73, 136, 199, 262, 325, 388, 451, 514];

// Of `kept` places spread evenly over the coded ones, the one with `index` before it.
pub(crate) fn even_place(figures: Figures, index: usize) -> usize
    requires some { 1 ≤ figures.coded }
    requires few { index < figures.kept }
    ensures value { result ≡ even_place figures index }
{
    (usize::from(figures.coded) * (index + 1) - 1) / usize::from(figures.kept)
}

// The header's kept places, then the data's.
#[tactic(auto, using(placement::proofs::Header::header_by_formula))]
pub(crate) fn mcs_place(index: usize) -> usize
    requires few { index < 420 }
    ensures value { result ≡ mcs_place index }
{
    header_place(index).unwrap_or_else(|| 72 + data_place(index - 48))
}

// The data's kept place number 46 is an exception, and so is every 40th after it, eight in all; the others are kept by
// their residue.
fn data_place(index: usize) -> usize
    requires few { index < 372 }
    ensures value { result ≡ data_place index }
{
    match index {
        0..=45 => residue_place(index),
        46..=365 => match ((index - 46) / 40, (index - 46) % 40) {
            (turn, 0) => usize::from(EXCEPTIONS[turn]),
            (turn, _) => residue_place(index - 1 - turn),
        },
        _ => residue_place(index - 8),
    }
}

// Of the places that are kept by their residue, the one with `index` before it.
fn residue_place(index: usize) -> usize
    requires few { index < 372 }
    ensures value { result ≡ residue_place index }
{
    21 * (index / 13) + usize::from(KEPT_RESIDUES[index % 13])
}
