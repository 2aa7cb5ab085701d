//! Where coded bits go: placements, and the layers that are put over them.
#![tactic(auto)]

mod interleaver;
mod kept;
mod layers;
mod over;
mod placement;

pub use interleaver::{Interleaver, interleaver_is_a_permutation};
pub use kept::header_place;
pub use layers::{Flags, SplitByTen, SplitByTwo, Straight};
pub use over::Over;
pub use placement::{BURST, Place, Placement};
