//! Parity by division of polynomials over GF(2), for any code part.
#![tactic(auto)]

ghost use Rattle.std.specs.Prelude.{◌≡◌, ◌^◌, ◌<◌, ◌≤◌, ◌++◌, length, OnErr, OnOk};
ghost use Rattle.code.specs.Bits.{Bits, writing_check};
ghost use Rattle.code.specs.Part.{Message};
ghost use Rattle.parity.specs.Division.{read};
ghost use Rattle.parity.specs.Parity.{Judged, TheWordOf};

mod division;
mod laws;

use code::{CodePart, check_string, check_writing};
use division::Register;
use fault::ParityFault;
pub use laws::{division_leaves_one_remainder, every_message_has_one_word};

/// Writes the parity bits of a message of a part. It checks the message's length, the output's, then the message's bits.
pub fn parity<C: CodePart>(part: &C, message: &[u8], out: &mut [u8]) -> Result<(), ParityFault>
    ensures refusal { result ≡ writing_check message.now (C.rule part.now).message (length out.old) (C.rule part.now).generator.degree }
    ensures same { OnErr result (out.new ≡ out.old) }
    ensures after { OnOk result (TheWordOf (C.rule part.now) message.now (message.now ++ out.new)) }
{
    check_writing(
        message,
        part.message_length(),
        out.len(),
        usize::from(part.generator().degree),
    )?;
    write_parity(part, message, out);
    Ok(())
}

/// Writes the word of a message: the message, then its parity. It checks the message's length, the word's, then the
/// message's bits.
pub fn protect<C: CodePart>(part: &C, message: &[u8], word: &mut [u8]) -> Result<(), ParityFault>
    ensures refusal { result ≡ writing_check message.now (C.rule part.now).message (length word.old) (C.rule part.now).word }
    ensures same { OnErr result (word.new ≡ word.old) }
    ensures after { OnOk result (TheWordOf (C.rule part.now) message.now word.new) }
{
    check_writing(
        message,
        part.message_length(),
        word.len(),
        part.word_length(),
    )?;
    let (front, rest) = word.split_at_mut(message.len());
    front.copy_from_slice(message);
    write_parity(part, message, rest);
    Ok(())
}

/// Whether the parity of a word of a part is right. It checks the word's length, then its bits.
pub fn parity_right<C: CodePart>(part: &C, word: &[u8]) -> Result<bool, ParityFault>
    ensures value { Judged (C.rule part.now) word.now result }
{
    check_string(word, part.word_length())?;
    let register = Register::after(part.generator(), word);
    Ok(register.missing() == 0)
}

// Writes the parity of a message.
fn write_parity<C: CodePart>(part: &C, message: &[u8], out: &mut [u8])
    requires message { Message (C.rule part.now) message.now }
    requires room { length out.old ≡ (C.rule part.now).generator.degree }
    ensures after { TheWordOf (C.rule part.now) message.now (message.now ++ out.new) }
{
    let mut register = Register::after(part.generator(), message);
    register.take_zeros();
    write_number(register.missing(), out);
}

// Writes a number in bits, the highest first.
fn write_number(number: u32, out: &mut [u8])
    requires fits { number < 2 ^ length out.old }
    requires room { length out.old ≤ 24 }
    ensures bits { Bits out.new }
    ensures after { read out.new ≡ number }
{
    let n = out.len();
    for (i, bit) in out.iter_mut().enumerate() {
        *bit = ((number >> (n - 1 - i)) & 1) as u8;
    }
}

#[cfg(test)]
mod tests {
    use super::*;
    use code::EcPart;
    use fault::{Detail, Fault, Layer};
    use std::test::Fail;

    #[test]
    fn the_zero_header_has_parity_of_ones(rt: HostRuntime) -> Result<(), Fail> {
        let mut bits = [0u8; 8];
        parity(&EcPart::McsHeader, &[0; 16], &mut bits)?;
        assert_eq!(rt; bits, [1; 8]);
        Ok(())
    }

    #[test]
    fn a_word_is_right_until_a_bit_is_turned(rt: HostRuntime) -> Result<(), Fail> {
        let mut word = [0u8; 24];
        protect(
            &EcPart::McsHeader,
            &[1, 0, 1, 1, 0, 0, 1, 0, 1, 0, 0, 0, 1, 1, 1, 0],
            &mut word,
        )?;
        assert!(rt; parity_right(&EcPart::McsHeader, &word)?);
        word[5] = 1 - (word[5] & 1);
        assert!(rt; !parity_right(&EcPart::McsHeader, &word)?);
        Ok(())
    }

    #[test]
    fn the_message_is_checked_before_the_word(rt: HostRuntime) {
        let mut word = [7u8; 23];
        let refusal = protect(&EcPart::McsHeader, &[0; 15], &mut word);
        assert_eq!(rt; refusal, Err(ParityFault::Length { buffer: 1 }));
        let refusal = protect(&EcPart::McsHeader, &[3; 16], &mut word);
        assert_eq!(rt; refusal, Err(ParityFault::Length { buffer: 2 }));
        assert_eq!(rt; word, [7; 23]);
    }

    #[test]
    fn a_refusal_is_told_by_number_layer_and_detail(rt: HostRuntime) -> Result<(), Fail> {
        let mut bits = [0u8; 8];
        let message = [0, 1, 0, 3, 1, 1, 0, 0, 1, 9, 0, 0, 0, 0, 0, 0];
        let Err(refusal) = parity(&EcPart::McsHeader, &message, &mut bits) else {
            return Err(Fail::new("not refused"));
        };
        let fault = Fault::from(refusal);
        assert_eq!(rt; fault.number(), 2);
        assert_eq!(rt; fault.layer(), Layer::Parity);
        assert_eq!(rt; fault.detail(), Detail::Number(3));
        Ok(())
    }
}
