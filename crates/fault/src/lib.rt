//! Why a call is refused: one enum for each layer, and `Fault` over them. A fault tells a number, its layer and a detail.
#![tactic(auto)]

ghost use Rattle.std.specs.Prelude.{◌≡◌};
ghost use Rattle.fault.specs.Fault.{number_of, layer_of, detail_of};
ghost use Rattle.fault.specs.declared.Fault.TheVariants.{Value, Parity, Placement, Receiver, Timing};

mod display;

/// The layer that refused.
#[derive(Clone, Copy, PartialEq, Eq, Debug)]
pub enum Layer {
    Value,
    Parity,
    Placement,
    Receiver,
    Timing,
}

/// What stands beside a fault's number: one number, or for wrong parity the part and the least cost.
#[derive(Clone, Copy, PartialEq, Eq, Debug)]
pub enum Detail {
    Number(usize),
    PartAndCost { part: usize, cost: u32 },
}

/// Why samples are not weighed. Buffers are numbered from 1 in the order in which a call checks them.
#[derive(Clone, Copy, PartialEq, Eq, Debug)]
pub enum ValueFault {
    Length { buffer: u8 },
    /// The weight or the amplitude is not finite or is below zero.
    Weight,
    /// The noise is not both finite and above zero.
    Noise,
    /// Amplitude divided by noise is not finite.
    Quotient,
}

/// Why a message is not sent, or a word that was found is not handed out.
#[derive(Clone, Copy, PartialEq, Eq, Debug)]
pub enum ParityFault {
    Length { buffer: u8 },
    /// The first byte that is neither 0 nor 1.
    NotABit { index: usize },
    /// The word found has wrong parity; no word costs less than `cost`.
    WrongParity { part: usize, cost: u32 },
}

/// Why a place of a block is not had.
#[derive(Clone, Copy, PartialEq, Eq, Debug)]
pub enum PlacementFault {
    NoSuchBurst { burst: usize },
}

/// Why a receiver does not take a burst, or does not answer.
#[derive(Clone, Copy, PartialEq, Eq, Debug)]
pub enum ReceiverFault {
    Length { buffer: u8 },
    /// The burst was already accepted as many times as the block allows.
    NoMoreRepeats { burst: usize },
    NothingHeard,
    NoSuchPart { part: usize },
}

/// Why there is no such repeat on timeslots.
#[derive(Clone, Copy, PartialEq, Eq, Debug)]
pub enum TimingFault {
    /// The block is not sent that many times in all.
    Total,
    /// No repeat of that number.
    Repeat,
    /// Not so many slots, or no slot of that number.
    Slots,
}

/// Why a call is refused, in whatever layer.
#[derive(Clone, Copy, PartialEq, Eq, Debug)]
pub enum Fault {
    Value(ValueFault),
    Parity(ParityFault),
    Placement(PlacementFault),
    Receiver(ReceiverFault),
    Timing(TimingFault),
}

// By hand, since `from_gives` tells a proof which case a `?` makes; a derived `From` tells nothing.
impl From<ValueFault> for Fault {
    ghost from_gives = { λ f r. r ≡ Value f };

    fn from(fault: ValueFault) -> Fault {
        Fault::Value(fault)
    }
}

impl From<ParityFault> for Fault {
    ghost from_gives = { λ f r. r ≡ Parity f };

    fn from(fault: ParityFault) -> Fault {
        Fault::Parity(fault)
    }
}

impl From<PlacementFault> for Fault {
    ghost from_gives = { λ f r. r ≡ Placement f };

    fn from(fault: PlacementFault) -> Fault {
        Fault::Placement(fault)
    }
}

impl From<ReceiverFault> for Fault {
    ghost from_gives = { λ f r. r ≡ Receiver f };

    fn from(fault: ReceiverFault) -> Fault {
        Fault::Receiver(fault)
    }
}

impl From<TimingFault> for Fault {
    ghost from_gives = { λ f r. r ≡ Timing f };

    fn from(fault: TimingFault) -> Fault {
        Fault::Timing(fault)
    }
}

impl Fault {
    /// The number of the refusal, 1 to 9.
    pub fn number(self) -> u8
        ensures value { result ≡ number_of self }
    {
        match self {
            Fault::Value(ValueFault::Length { .. })
            | Fault::Parity(ParityFault::Length { .. })
            | Fault::Receiver(ReceiverFault::Length { .. }) => 1,
            Fault::Parity(ParityFault::NotABit { .. }) => 2,
            Fault::Placement(PlacementFault::NoSuchBurst { .. }) => 3,
            Fault::Receiver(ReceiverFault::NoMoreRepeats { .. }) => 4,
            Fault::Receiver(ReceiverFault::NothingHeard) => 5,
            Fault::Parity(ParityFault::WrongParity { .. }) => 6,
            Fault::Receiver(ReceiverFault::NoSuchPart { .. }) => 7,
            Fault::Value(ValueFault::Weight | ValueFault::Noise | ValueFault::Quotient) => 8,
            Fault::Timing(_) => 9,
        }
    }

    /// The layer in which it arose.
    pub fn layer(self) -> Layer
        ensures value { result ≡ layer_of self }
    {
        match self {
            Fault::Value(_) => Layer::Value,
            Fault::Parity(_) => Layer::Parity,
            Fault::Placement(_) => Layer::Placement,
            Fault::Receiver(_) => Layer::Receiver,
            Fault::Timing(_) => Layer::Timing,
        }
    }

    /// What stands beside the number.
    pub fn detail(self) -> Detail
        ensures value { result ≡ detail_of self }
    {
        match self {
            Fault::Value(ValueFault::Length { buffer })
            | Fault::Parity(ParityFault::Length { buffer })
            | Fault::Receiver(ReceiverFault::Length { buffer }) => {
                Detail::Number(usize::from(buffer))
            }
            Fault::Value(ValueFault::Weight) => Detail::Number(1),
            Fault::Value(ValueFault::Noise) => Detail::Number(2),
            Fault::Value(ValueFault::Quotient) => Detail::Number(3),
            Fault::Parity(ParityFault::NotABit { index }) => Detail::Number(index),
            Fault::Parity(ParityFault::WrongParity { part, cost }) => Detail::PartAndCost {
                part,
                cost,
            },
            Fault::Placement(PlacementFault::NoSuchBurst { burst }) => Detail::Number(burst),
            Fault::Receiver(ReceiverFault::NoMoreRepeats { burst }) => Detail::Number(burst),
            Fault::Receiver(ReceiverFault::NothingHeard) => Detail::Number(0),
            Fault::Receiver(ReceiverFault::NoSuchPart { part }) => Detail::Number(part),
            Fault::Timing(TimingFault::Total) => Detail::Number(1),
            Fault::Timing(TimingFault::Repeat) => Detail::Number(2),
            Fault::Timing(TimingFault::Slots) => Detail::Number(3),
        }
    }
}

#[cfg(test)]
mod tests {
    use super::*;
    use std::test::Fail;

    // Every case, with what an operator reads of it.
    const SENTENCES: [(Fault, &str); 15] = [
        (
            Fault::Value(ValueFault::Length { buffer: 2 }),
            "refused by 1 in the value layer: buffer 2 has the wrong length",
        ),
        (
            Fault::Value(ValueFault::Weight),
            "refused by 8 in the value layer: the weight or amplitude is not finite or is below zero",
        ),
        (
            Fault::Value(ValueFault::Noise),
            "refused by 8 in the value layer: the noise is not finite or is not above zero",
        ),
        (
            Fault::Value(ValueFault::Quotient),
            "refused by 8 in the value layer: amplitude divided by noise is not finite",
        ),
        (
            Fault::Parity(ParityFault::Length { buffer: 1 }),
            "refused by 1 in the parity layer: buffer 1 has the wrong length",
        ),
        (
            Fault::Parity(ParityFault::NotABit { index: 17 }),
            "refused by 2 in the parity layer: byte 17 is neither 0 nor 1",
        ),
        (
            Fault::Parity(ParityFault::WrongParity { part: 1, cost: 340 }),
            "refused by 6 in the parity layer: the word found for part 1 has wrong parity, and no word costs less than 340",
        ),
        (
            Fault::Placement(PlacementFault::NoSuchBurst { burst: 2 }),
            "refused by 3 in the placement layer: the block has no burst 2",
        ),
        (
            Fault::Receiver(ReceiverFault::Length { buffer: 1 }),
            "refused by 1 in the receiver layer: buffer 1 has the wrong length",
        ),
        (
            Fault::Receiver(ReceiverFault::NoMoreRepeats { burst: 0 }),
            "refused by 4 in the receiver layer: burst 0 was already accepted as many times as the block allows",
        ),
        (
            Fault::Receiver(ReceiverFault::NothingHeard),
            "refused by 5 in the receiver layer: no burst was accepted since opening or the last restart",
        ),
        (
            Fault::Receiver(ReceiverFault::NoSuchPart { part: 3 }),
            "refused by 7 in the receiver layer: the block has no part 3",
        ),
        (
            Fault::Timing(TimingFault::Total),
            "refused by 9 in the timing layer: the block is not sent that many times",
        ),
        (
            Fault::Timing(TimingFault::Repeat),
            "refused by 9 in the timing layer: there is no repeat of that number",
        ),
        (
            Fault::Timing(TimingFault::Slots),
            "refused by 9 in the timing layer: the block does not use that many slots, or has no slot of that number",
        ),
    ];

    #[test]
    fn an_operator_reads_a_sentence(rt: HostRuntime) -> Result<(), Fail> {
        for (fault, sentence) in SENTENCES {
            let text = format!(in rt.alloc(); "{fault}")?;
            assert_eq!(rt; text.as_str(), sentence);
        }
        Ok(())
    }
}
