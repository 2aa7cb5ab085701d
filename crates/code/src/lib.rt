//! Code parts, their words, and the convolutional code.
#![tactic(auto)]

mod check;
mod convolution;
mod laws;
mod part;
mod parts;

pub use check::{check_string, check_writing};
pub use convolution::{coded_bit, encode};
pub use laws::coding_is_linear;
pub use part::{CodePart, Ending, Generator, LONGEST_WORD, Rule};
pub use parts::EcPart;
