//! The piles of placements of the five blocks.
ghost use Rattle.block.specs.Blocks.{pile_placing};
ghost use Rattle.block.specs.Limits.{pile_sound};

use placement::{Flags, Interleaver, Over, Place, Placement, SplitByTen, SplitByTwo, Straight};
use puncturing::KeptList;

/// An enum and not a boxed placement, since the codec has no heap.
#[derive(Clone, Copy)]
pub enum EcPile {
    /// CCCH/D, PACCH/U and PACCH/U/48
    Straight(Over<Straight, KeptList>),
    /// PACCH/D
    SplitByTwo(Over<SplitByTwo, KeptList>),
    /// MCS-1'/48
    SplitByTen(Over<SplitByTen, Over<Interleaver, Over<Flags, KeptList>>>),
}

impl Placement for EcPile {
    ghost placing = { λ p. pile_placing p };

    ghost sound = { λ p. pile_sound p };

    fn coded_count(&self) -> usize {
        match self {
            EcPile::Straight(pile) => pile.coded_count(),
            EcPile::SplitByTwo(pile) => pile.coded_count(),
            EcPile::SplitByTen(pile) => pile.coded_count(),
        }
    }

    fn outer_count(&self) -> usize {
        match self {
            EcPile::Straight(pile) => pile.outer_count(),
            EcPile::SplitByTwo(pile) => pile.outer_count(),
            EcPile::SplitByTen(pile) => pile.outer_count(),
        }
    }

    fn at(&self, place: usize) -> Place {
        match self {
            EcPile::Straight(pile) => pile.at(place),
            EcPile::SplitByTwo(pile) => pile.at(place),
            EcPile::SplitByTen(pile) => pile.at(place),
        }
    }
}
