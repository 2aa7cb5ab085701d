//! A layer over any placement.
ghost use Rattle.placement.specs.Placing.{over};
ghost use Rattle.placement.specs.Sounds.{over_sound};

use crate::placement::{Place, Placement};

/// Where the layer names a coded place, the placement below shows what stands at its outer place of that number.
#[derive(Clone, Copy)]
pub struct Over<L, P> {
    pub layer: L,
    pub below: P,
}

impl<L: Placement, P: Placement> Placement for Over<L, P> {
    ghost placing = { λ s. over (L.Placement.placing s.layer) (P.Placement.placing s.below) };

    ghost sound = { λ p. over_sound _ _ (L.Placement.sound p.layer) (P.Placement.sound p.below) };

    fn coded_count(&self) -> usize {
        self.below.coded_count()
    }

    fn outer_count(&self) -> usize {
        self.layer.outer_count()
    }

    fn at(&self, place: usize) -> Place {
        match self.layer.at(place) {
            Place::Coded(entry) => self.below.at(entry),
            Place::Fixed(bit) => Place::Fixed(bit),
        }
    }
}
