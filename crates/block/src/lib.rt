//! Blocks: what is sent in one go, made of code parts and a pile of placements.
#![tactic(auto)]

mod block;
mod blocks;
mod name;
mod parts;
mod pile;

pub use block::{Block, MOST_BURSTS, MOST_CODED};
pub use blocks::EcBlock;
pub use name::UnknownBlock;
pub use parts::Parts;
pub use pile::EcPile;
