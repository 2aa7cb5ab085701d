//! The layers that keep entries in order. A layer is a placement whose coded places are the entries below it.
ghost use Rattle.std.specs.Prelude.{◌≡◌};
ghost use Rattle.placement.specs.Layers.{straight, split_by_two, split_by_ten, around_flags, flagged};
ghost use Rattle.placement.specs.Sounds.{straight_sound, split_by_two_sound, split_by_ten_sound, flagged_sound};

use crate::placement::{BURST, Place, Placement, by_burst, up_to};

/// Every burst shows the entries from the first on.
#[derive(Clone, Copy)]
pub struct Straight {
    pub bursts: u8,
}

impl Placement for Straight {
    ghost placing = { λ s. straight s.bursts };

    ghost sound = { λ p. straight_sound p.bursts };

    fn coded_count(&self) -> usize {
        BURST
    }

    fn outer_count(&self) -> usize {
        BURST * usize::from(self.bursts)
    }

    fn at(&self, place: usize) -> Place {
        by_burst(self.bursts, place, |_, j| Place::Coded(j))
    }
}

/// Every one of four bursts shows the entries from the first on, around two flags of its own.
#[derive(Clone, Copy)]
pub struct SplitByTwo;

// The flags at places 57 and 58 of each burst.
const FLAGS: [(u8, u8); 4] = [(0, 0), (0, 1), (0, 1), (1, 0)];

impl Placement for SplitByTwo {
    ghost placing = { λ _. split_by_two };

    ghost sound = { λ p. split_by_two_sound };

    fn coded_count(&self) -> usize {
        114
    }

    fn outer_count(&self) -> usize {
        4 * BURST
    }

    fn at(&self, place: usize) -> Place {
        by_burst(4, place, |burst, j| match j {
            0..=56 => Place::Coded(j),
            57 => Place::Fixed(FLAGS[burst].0),
            58 => Place::Fixed(FLAGS[burst].1),
            _ => Place::Coded(j - 2),
        })
    }
}

/// Each of four bursts shows 106 entries of its own, around ten zeros.
#[derive(Clone, Copy)]
pub struct SplitByTen;

impl Placement for SplitByTen {
    ghost placing = { λ _. split_by_ten };

    ghost sound = { λ p. split_by_ten_sound };

    fn coded_count(&self) -> usize {
        424
    }

    fn outer_count(&self) -> usize {
        4 * BURST
    }

    fn at(&self, place: usize) -> Place {
        by_burst(4, place, |burst, j| match j {
            0..=52 => Place::Coded(106 * burst + j),
            53..=62 => Place::Fixed(0),
            _ => Place::Coded(106 * burst + j - 10),
        })
    }
}

/// Four stealing flags, all 0, among 420 entries.
#[derive(Clone, Copy)]
pub struct Flags;

impl Placement for Flags {
    ghost placing = { λ _. flagged };

    ghost sound = { λ p. flagged_sound };

    fn coded_count(&self) -> usize {
        420
    }

    fn outer_count(&self) -> usize {
        424
    }

    fn at(&self, place: usize) -> Place {
        up_to(self.outer_count(), place, around_flags)
    }
}

// A fixed 0 at the place of a flag; elsewhere an entry, moved on by the flags before it, with no search for them.
fn around_flags(place: usize) -> Place
    ensures value { result ≡ around_flags place }
{
    match place {
        25 | 82 | 139 | 401 => Place::Fixed(0),
        0..=24 => Place::Coded(place),
        26..=81 => Place::Coded(place - 1),
        83..=138 => Place::Coded(place - 2),
        140..=400 => Place::Coded(place - 3),
        _ => Place::Coded(place - 4),
    }
}
