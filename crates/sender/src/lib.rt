//! Sending: the bursts of a message, for any block.
#![tactic(auto)]

ghost use Rattle.std.specs.Prelude.{◌≡◌, ◌+◌, ◌*◌, ◌≤◌, length, OnErr, OnOk};
ghost use Rattle.std.specs.List.{sum_by};
ghost use Rattle.code.specs.Bits.{writing_check};
ghost use Rattle.code.specs.Part.{Message, places};
ghost use Rattle.block.specs.Layout.{message_length};
ghost use Rattle.sender.specs.Sent.{BlockMessage, Encoded, Sent, shown, shown_all};
ghost use Rattle.sender.specs.Written.{PartEncoded};

mod laws;

use block::{Block, MOST_CODED};
use code::{CodePart, LONGEST_WORD, check_writing, encode};
use fault::ParityFault;
pub use laws::every_message_is_sent_in_one_way;
use parity::protect;
use placement::{BURST, Place, Placement};

/// Writes the bursts of a message, burst 0 first, 116 bytes each. It checks the message's length, the output's, then the
/// message's bits.
pub fn send<B: Block>(block: &B, message: &[u8], out: &mut [u8]) -> Result<(), ParityFault>
    ensures refusal { result ≡ writing_check message.now (message_length (B.layout block.now)) (length out.old) (116 * (B.layout block.now).bursts) }
    ensures same { OnErr result (out.new ≡ out.old) }
    ensures after { OnOk result (Sent (B.layout block.now) message.now out.new) }
{
    check_writing(
        message,
        message_length(block),
        out.len(),
        BURST * block.burst_count(),
    )?;
    write_bursts(block, message, out);
    Ok(())
}

// The length of a block's message: the messages of all its parts.
fn message_length<B: Block>(block: &B) -> usize
    ensures value { result ≡ message_length (B.layout block.now) }
{
    block.parts().map(|part| part.message_length()).sum()
}

// Writes the bursts of a message.
fn write_bursts<B: Block>(block: &B, message: &[u8], out: &mut [u8])
    requires message { BlockMessage (B.layout block.now) message.now }
    requires room { length out.old ≡ 116 * (B.layout block.now).bursts }
    ensures after { Sent (B.layout block.now) message.now out.new }
{
    let pile = block.pile();
    // As long as any block needs, since there is no heap.
    let mut buffer = [0; MOST_CODED];
    let coded = &mut buffer[..pile.coded_count()];
    encode_parts(block, message, coded);
    lay(&pile, coded, out);
}

// Writes the coded bits of a message's parts, each next part's after the last one's.
fn encode_parts<B: Block>(block: &B, message: &[u8], coded: &mut [u8])
    requires message { BlockMessage (B.layout block.now) message.now }
    requires room { length coded.old ≡ sum_by places (B.layout block.now).parts }
    ensures after { Encoded (B.layout block.now).parts message.now coded.new }
{
    let mut from = 0;
    let mut start = 0;
    for part in block.parts() {
        let until = from + part.message_length();
        let end = start + part.coded_count();
        encode_message(&part, &message[from..until], &mut coded[start..end]);
        from = until;
        start = end;
    }
}

// Writes the coded bits of one part's message.
fn encode_message<C: CodePart>(part: &C, message: &[u8], coded: &mut [u8])
    requires message { Message (C.rule part.now) message.now }
    requires room { length coded.old ≡ places (C.rule part.now) }
    ensures after { PartEncoded (C.rule part.now) message.now coded.new }
{
    // As long as any part needs, since there is no heap.
    let mut buffer = [0; LONGEST_WORD];
    let word = &mut buffer[..part.word_length()];
    protect(part, message, word).unwrap();
    encode(part, word, coded).unwrap();
}

// Writes what a pile shows of coded bits.
fn lay<P: Placement>(pile: &P, coded: &[u8], out: &mut [u8])
    requires whole { length coded.now ≡ (P.placing pile.now).coded }
    ensures after { out.new ≡ shown_all (P.placing pile.now).shows (length out.old) coded.now }
{
    for (place, bit) in out.iter_mut().enumerate() {
        *bit = bit_at(pile, coded, place);
    }
}

// The bit at a place of a pile.
fn bit_at<P: Placement>(pile: &P, coded: &[u8], place: usize) -> u8
    requires whole { length coded.now ≡ (P.placing pile.now).coded }
    ensures value { result ≡ shown coded.now ((P.placing pile.now).shows place) }
{
    match pile.at(place) {
        Place::Coded(place) => coded[place],
        Place::Fixed(bit) => bit,
    }
}

#[cfg(test)]
mod tests {
    use super::*;
    use block::EcBlock;

    #[test]
    fn the_output_is_checked_before_the_bits_and_left_alone(rt: HostRuntime) {
        let mut out = [7u8; 231];
        let refusal = send(&EcBlock::CcchDown, &[2; 88], &mut out);
        assert_eq!(rt; refusal, Err(ParityFault::Length { buffer: 2 }));
        assert_eq!(rt; out, [7; 231]);
    }
}
