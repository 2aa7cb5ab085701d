//! The checks of buffers of bits. Each is refused in the parity layer.
ghost use Rattle.std.specs.Prelude.{◌≡◌, Ok, OnOk};
ghost use Rattle.code.specs.Bits.{BitString, FirstNoBit, length_check, string_check, writing_check};

use fault::ParityFault;

/// Checks a string of bits that a call reads: its length, then the bits.
pub fn check_string(bits: &[u8], asked: usize) -> Result<(), ParityFault>
    ensures refusal { result ≡ string_check bits.now asked }
    ensures passed { OnOk result (BitString asked bits.now) }
{
    check_length(1, bits.len(), asked)?;
    check_bits(bits)
}

/// Checks a string of bits that a call writes from: its length, then the output's, which is `out` where `room` is asked,
/// then the bits.
pub fn check_writing(bits: &[u8], asked: usize, out: usize, room: usize) -> Result<(), ParityFault>
    ensures refusal { result ≡ writing_check bits.now asked out room }
    ensures passed { OnOk result (BitString asked bits.now × (out ≡ room)) }
{
    check_length(1, bits.len(), asked)?;
    check_length(2, out, room)?;
    check_bits(bits)
}

// A buffer, told by its number in the order of the checks, has the length asked.
fn check_length(buffer: u8, given: usize, asked: usize) -> Result<(), ParityFault>
    ensures refusal { result ≡ length_check buffer given asked (Ok tt) }
{
    if given == asked {
        Ok(())
    } else {
        Err(ParityFault::Length { buffer })
    }
}

// Every byte is 0 or 1, or the first that is not is told.
fn check_bits(bytes: &[u8]) -> Result<(), ParityFault>
    ensures refusal { FirstNoBit bytes.now result }
{
    for (index, byte) in bytes.iter().enumerate() {
        if *byte > 1 {
            return Err(ParityFault::NotABit { index });
        }
    }
    Ok(())
}
