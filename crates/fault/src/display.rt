//! What an operator reads of a fault.
ghost use Rattle.std.specs.Prelude.{Some};
ghost use Rattle.fault.specs.Shown.{layer_text, detail_text, value_text, parity_text, placement_text, receiver_text, timing_text, sentence};

use crate::{
    Detail, Fault, Layer, ParityFault, PlacementFault, ReceiverFault, TimingFault, ValueFault,
};
use std::fmt;

impl fmt::Display for Layer {
    ghost output = { λ l. Some (layer_text l) };

    fn fmt<W: fmt::Write>(&self, f: &mut fmt::Formatter<W>) -> fmt::Result {
        f.write_str(match self {
            Layer::Value => "value",
            Layer::Parity => "parity",
            Layer::Placement => "placement",
            Layer::Receiver => "receiver",
            Layer::Timing => "timing",
        })
    }
}

impl fmt::Display for Detail {
    ghost output = { λ d. Some (detail_text d) };

    fn fmt<W: fmt::Write>(&self, f: &mut fmt::Formatter<W>) -> fmt::Result {
        match self {
            Detail::Number(number) => write!(f, "{number}"),
            Detail::PartAndCost { part, cost } => write!(f, "{part} {cost}"),
        }
    }
}

impl fmt::Display for ValueFault {
    ghost output = { λ e. Some (value_text e) };

    fn fmt<W: fmt::Write>(&self, f: &mut fmt::Formatter<W>) -> fmt::Result {
        match self {
            ValueFault::Length { buffer } => write!(f, "buffer {buffer} has the wrong length"),
            ValueFault::Weight => write!(
                f,
                "the weight or amplitude is not finite or is below zero"
            ),
            ValueFault::Noise => write!(f, "the noise is not finite or is not above zero"),
            ValueFault::Quotient => write!(f, "amplitude divided by noise is not finite"),
        }
    }
}

impl fmt::Display for ParityFault {
    ghost output = { λ e. Some (parity_text e) };

    fn fmt<W: fmt::Write>(&self, f: &mut fmt::Formatter<W>) -> fmt::Result {
        match self {
            ParityFault::Length { buffer } => write!(f, "buffer {buffer} has the wrong length"),
            ParityFault::NotABit { index } => write!(f, "byte {index} is neither 0 nor 1"),
            ParityFault::WrongParity { part, cost } => {
                write!(
                    f,
                    "the word found for part {part} has wrong parity, and no word costs less than {cost}"
                )
            }
        }
    }
}

impl fmt::Display for PlacementFault {
    ghost output = { λ e. Some (placement_text e) };

    fn fmt<W: fmt::Write>(&self, f: &mut fmt::Formatter<W>) -> fmt::Result {
        match self {
            PlacementFault::NoSuchBurst { burst } => write!(f, "the block has no burst {burst}"),
        }
    }
}

impl fmt::Display for ReceiverFault {
    ghost output = { λ e. Some (receiver_text e) };

    fn fmt<W: fmt::Write>(&self, f: &mut fmt::Formatter<W>) -> fmt::Result {
        match self {
            ReceiverFault::Length { buffer } => write!(f, "buffer {buffer} has the wrong length"),
            ReceiverFault::NoMoreRepeats { burst } => write!(
                f,
                "burst {burst} was already accepted as many times as the block allows"
            ),
            ReceiverFault::NothingHeard => write!(
                f,
                "no burst was accepted since opening or the last restart"
            ),
            ReceiverFault::NoSuchPart { part } => write!(f, "the block has no part {part}"),
        }
    }
}

impl fmt::Display for TimingFault {
    ghost output = { λ e. Some (timing_text e) };

    fn fmt<W: fmt::Write>(&self, f: &mut fmt::Formatter<W>) -> fmt::Result {
        f.write_str(match self {
            TimingFault::Total => "the block is not sent that many times",
            TimingFault::Repeat => "there is no repeat of that number",
            TimingFault::Slots => {
                "the block does not use that many slots, or has no slot of that number"
            }
        })
    }
}

impl fmt::Display for Fault {
    ghost output = { λ e. Some (sentence e) };

    fn fmt<W: fmt::Write>(&self, f: &mut fmt::Formatter<W>) -> fmt::Result {
        let number = self.number();
        let layer = self.layer();
        write!(f, "refused by {number} in the {layer} layer: ")?;
        match self {
            Fault::Value(fault) => write!(f, "{fault}"),
            Fault::Parity(fault) => write!(f, "{fault}"),
            Fault::Placement(fault) => write!(f, "{fault}"),
            Fault::Receiver(fault) => write!(f, "{fault}"),
            Fault::Timing(fault) => write!(f, "{fault}"),
        }
    }
}
