//! The convolutional code, for any part and both endings.
ghost use Rattle.std.specs.Prelude.{◌≡◌, length, OnErr, OnOk};
ghost use Rattle.code.specs.Bits.{writing_check};
ghost use Rattle.code.specs.Convolution.{back, coded, coded_word};
ghost use Rattle.code.specs.Part.{places};

use crate::check::check_writing;
use crate::part::{CodePart, Ending};
use fault::ParityFault;

// The bit of the word that stands `by` before a step.
fn bit_back(ending: Ending, word: &[u8], step: usize, by: usize) -> u8
    ensures value { result ≡ back ending word.now step by }
{
    let index = match ending {
        _ if by <= step => Some(step - by),
        Ending::TailBiting => Some(word.len().saturating_sub(by - step)),
        Ending::ZeroTail => None,
    };
    index
        .and_then(|index| word.get(index))
        .copied()
        .unwrap_or(0)
}

/// The coded bit at a place of a word.
pub fn coded_bit(ending: Ending, word: &[u8], place: usize) -> u8
    ensures value { result ≡ coded ending word.now place }
{
    let step = place / 3;
    let bit = |by| u16::from(bit_back(ending, word, step, by));
    // The sums as the standard writes them, which a table of taps would hide.
    let sum = match place % 3 {
        0 => bit(0) + bit(2) + bit(3) + bit(5) + bit(6),
        1 => bit(0) + bit(1) + bit(2) + bit(3) + bit(6),
        _ => bit(0) + bit(1) + bit(4) + bit(6),
    };
    (sum % 2) as u8
}

// Writes the coded bits of a word.
fn write_coded<C: CodePart>(part: &C, word: &[u8], out: &mut [u8])
    requires room { length out.old ≡ places (C.rule part.now) }
    ensures after { out.new ≡ coded_word (C.rule part.now) word.now }
{
    let ending = part.ending();
    for (place, bit) in out.iter_mut().enumerate() {
        *bit = coded_bit(ending, word, place);
    }
}

/// Writes the coded bits of a word of a part. It checks the word's length, the output's, then the word's bits.
pub fn encode<C: CodePart>(part: &C, word: &[u8], out: &mut [u8]) -> Result<(), ParityFault>
    ensures refusal { result ≡ writing_check word.now (C.rule part.now).word (length out.old) (places (C.rule part.now)) }
    ensures same { OnErr result (out.new ≡ out.old) }
    ensures after { OnOk result (out.new ≡ coded_word (C.rule part.now) word.now) }
{
    check_writing(word, part.word_length(), out.len(), part.coded_count())?;
    write_coded(part, word, out);
    Ok(())
}

#[cfg(test)]
mod tests {
    use super::*;
    use crate::parts::EcPart;
    use std::test::Fail;

    // The first two sums take five bits, the third takes four.
    #[test]
    fn a_word_of_ones_is_coded_to_two_ones_of_each_three(rt: HostRuntime) -> Result<(), Fail> {
        let mut coded = [7u8; 72];
        encode(&EcPart::McsHeader, &[1; 24], &mut coded)?;
        for (place, bit) in coded.iter().enumerate() {
            assert_eq!(rt; *bit == 1, place % 3 < 2);
        }
        Ok(())
    }

    #[test]
    fn a_short_output_is_left_alone(rt: HostRuntime) {
        let mut coded = [7u8; 71];
        let refusal = encode(&EcPart::McsHeader, &[1; 24], &mut coded);
        assert_eq!(rt; refusal, Err(ParityFault::Length { buffer: 2 }));
        assert_eq!(rt; coded, [7; 71]);
    }
}
