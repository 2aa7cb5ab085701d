//! A header on its way to the air: parity, code, puncturing.
ghost use Rattle.std.specs.Prelude.{◌≡◌, slice_index};
ghost use Rattle.ecbox.specs.Stages.{StagesOf, sent_of};

use code::{CodePart, EcPart, encode};
use fault::Fault;
use parity::protect;
use placement::header_place;
use std::array;

/// The word of a header, its coded bits, and those of them that are sent.
#[derive(Clone, Copy)]
pub struct Stages {
    pub word: [u8; 24],
    pub coded: [u8; 72],
    pub kept: [u8; 48],
}

/// Takes the bits of a header through all stages.
pub fn take_through(message: &[u8]) -> Result<Stages, Fault>
    ensures value { StagesOf message.now result }
{
    let part = EcPart::McsHeader;
    let mut word = [0; 24];
    protect(&part, message, &mut word)?;
    let mut coded = [0; 72];
    encode(&part, &word, &mut coded)?;
    let kept = kept_bits(&coded);
    Ok(Stages { word, coded, kept })
}

// The coded bits that are sent.
fn kept_bits(coded: &[u8; 72]) -> [u8; 48]
    ensures value { result ≡ sent_of coded.now }
{
    array::from_fn(|index| kept_bit(coded, index))
}

// Bit `index` of those that are sent.
fn kept_bit(coded: &[u8; 72], index: usize) -> u8
    ensures value { result ≡ slice_index (sent_of coded.now) index }
{
    header_place(index).map_or(0, |place| coded[place])
}
