//! Puncturing: the coded places that are sent, as the bottom of a pile of placements.
#![tactic(auto)]

ghost use Rattle.std.specs.Prelude.{◌≡◌};
ghost use Rattle.std.specs.List.{slice_get};
ghost use Rattle.puncturing.specs.Lists.{figures_of, kept_of, listed, KeptLists};
ghost use Rattle.puncturing.specs.Listed.{listed_sound};

mod places;

use placement::{Place, Placement};
use places::{even_place, mcs_place};

/// The kept places of a block, in order.
#[derive(Clone, Copy, PartialEq, Eq, Debug)]
pub enum KeptList {
    /// CCCH/D
    CcchDown,
    /// PACCH/D
    PacchDown,
    /// PACCH/U
    PacchUp,
    /// PACCH/U/48
    PacchUp48,
    /// MCS-1'/48: the header's, then the data's
    Mcs,
}

// How many places are coded, and how many of them are kept.
#[derive(Clone, Copy)]
struct Figures {
    coded: u16,
    kept: u16,
}

const FIGURES: [Figures; 5] = [
    Figures {
        coded: 318,
        kept: 116,
    },
    Figures {
        coded: 294,
        kept: 114,
    },
    Figures {
        coded: 246,
        kept: 116,
    },
    Figures {
        coded: 222,
        kept: 106,
    },
    Figures {
        coded: 660,
        kept: 420,
    },
];

/// A kept list is what is not dropped, in order, and each of ours has its count.
pub fn kept_is_what_is_not_dropped()
    ensures law { KeptLists }
{}

impl KeptList {
    fn figures(self) -> Figures
        ensures value { result ≡ figures_of self }
    {
        FIGURES[self as usize]
    }

    // The kept place with `index` kept places before it, if there is one.
    #[tactic(auto, using(crate::proofs::Closing::kept_get, crate::proofs::Closing::kept_past, crate::proofs::Closing::even_at))]
    fn place(self, index: usize) -> Option<usize>
        ensures value { result ≡ slice_get (kept_of self) index }
    {
        let figures = self.figures();
        (index < usize::from(figures.kept)).then(|| match self {
            KeptList::Mcs => mcs_place(index),
            _ => even_place(figures, index),
        })
    }
}

impl Placement for KeptList {
    ghost placing = { λ l. listed l };

    ghost sound = { λ l. listed_sound l };

    fn coded_count(&self) -> usize {
        usize::from(self.figures().coded)
    }

    #[tactic(auto, using(crate::proofs::Closing::kept_long))]
    fn outer_count(&self) -> usize {
        usize::from(self.figures().kept)
    }

    fn at(&self, place: usize) -> Place {
        self.place(place).map_or(Place::Fixed(0), Place::Coded)
    }
}
