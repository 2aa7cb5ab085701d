//! The interleaver.
ghost use Rattle.std.specs.Prelude.{◌≡◌, ℕ, ◌<◌};
ghost use Rattle.placement.specs.Layers.{spot, moved, interleaved, Permutation};
ghost use Rattle.placement.specs.declared.placement.Place.TheVariants.{Coded};
ghost use Rattle.placement.specs.Sounds.{interleaved_sound};

use crate::placement::{Place, Placement, up_to};

/// Spreads 424 entries over four groups of 106 places.
#[derive(Clone, Copy)]
pub struct Interleaver;

impl Placement for Interleaver {
    ghost placing = { λ _. interleaved };

    ghost sound = { λ p. interleaved_sound };

    fn coded_count(&self) -> usize {
        424
    }

    fn outer_count(&self) -> usize {
        424
    }

    #[tactic(auto, using(crate::proofs::Spots::shown_there, crate::proofs::Spots::nothing_past))]
    fn at(&self, place: usize) -> Place
        ensures value { result ≡ moved spot 424 place }
        ensures rule { (k : ℕ) → k < 424 → spot k ≡ place → result ≡ Coded k }
    {
        let shows = |place| Place::Coded(entry_at(place));
        up_to(self.outer_count(), place, shows)
    }
}

/// No two entries go to one place, and no place is left out.
pub fn interleaver_is_a_permutation()
    ensures law { Permutation }
{}

// The entry that goes to a place.
fn entry_at(place: usize) -> usize
    requires few { place < 424 }
    ensures bound { result < 424 }
    ensures value { spot result ≡ place }
{
    let group = place / 106;
    let column = place % 106;
    (265 * (group + 4 * (column % 2)) + 384 * (column / 2)) % 424
}
