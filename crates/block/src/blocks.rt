//! The five blocks that are coded here.
ghost use Rattle.std.specs.Prelude.{◌≡◌, map};
ghost use Rattle.code.specs.Parts.{rule_of};
ghost use Rattle.block.specs.Blocks.{layout_of, pile_placing};
ghost use Rattle.block.specs.Limits.{block_limits};

use crate::block::Block;
use crate::pile::EcPile;
use code::EcPart;
use placement::{Flags, Interleaver, Over, SplitByTen, SplitByTwo, Straight};
use puncturing::KeptList;

/// One of the five blocks.
#[derive(Clone, Copy, PartialEq, Eq, Debug)]
pub enum EcBlock {
    /// CCCH/D
    CcchDown,
    /// PACCH/D
    PacchDown,
    /// PACCH/U
    PacchUp,
    /// PACCH/U/48
    PacchUp48,
    /// MCS-1'/48
    Mcs,
}

// The figures of a block.
#[derive(Clone, Copy)]
struct Figures {
    parts: &'static [EcPart],
    pile: EcPile,
    bursts: u8,
    repeats: u8,
}

// A static, so that a question reads its row where it lies; a constant would be laid on the stack whole, at every question.
static FIGURES: [Figures; 5] = [
    Figures {
        parts: &[EcPart::CcchDown],
        pile: EcPile::Straight(Over {
            layer: Straight { bursts: 2 },
            below: KeptList::CcchDown,
        }),
        bursts: 2,
        repeats: 32,
    },
    Figures {
        parts: &[EcPart::PacchDown],
        pile: EcPile::SplitByTwo(Over {
            layer: SplitByTwo,
            below: KeptList::PacchDown,
        }),
        bursts: 4,
        repeats: 16,
    },
    Figures {
        parts: &[EcPart::PacchUp],
        pile: EcPile::Straight(Over {
            layer: Straight { bursts: 4 },
            below: KeptList::PacchUp,
        }),
        bursts: 4,
        repeats: 16,
    },
    Figures {
        parts: &[EcPart::PacchUp48],
        pile: EcPile::Straight(Over {
            layer: Straight { bursts: 4 },
            below: KeptList::PacchUp48,
        }),
        bursts: 4,
        repeats: 48,
    },
    Figures {
        parts: &[EcPart::McsHeader, EcPart::McsData],
        pile: EcPile::SplitByTen(Over {
            layer: SplitByTen,
            below: Over {
                layer: Interleaver,
                below: Over {
                    layer: Flags,
                    below: KeptList::Mcs,
                },
            },
        }),
        bursts: 4,
        repeats: 48,
    },
];

impl EcBlock {
    fn figures(self) -> Figures
        ensures parts { map rule_of result.parts.now ≡ (layout_of self).parts }
        ensures pile { pile_placing result.pile ≡ (layout_of self).pile }
        ensures bursts { result.bursts ≡ (layout_of self).bursts }
        ensures repeats { result.repeats ≡ (layout_of self).repeats }
    {
        FIGURES[self as usize]
    }
}

impl Block for EcBlock {
    type Part = EcPart;

    type Pile = EcPile;

    ghost layout = { λ b. layout_of b };

    ghost limits = { λ b. block_limits b };

    fn part_count(&self) -> usize {
        self.figures().parts.len()
    }

    fn part(&self, number: usize) -> Option<EcPart> {
        self.figures().parts.get(number).copied()
    }

    fn pile(&self) -> EcPile {
        self.figures().pile
    }

    fn burst_count(&self) -> usize {
        usize::from(self.figures().bursts)
    }

    fn most_repeats(&self) -> usize {
        usize::from(self.figures().repeats)
    }
}
