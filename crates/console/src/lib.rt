//! What the consoles share: reading lines and words, and writing bits, refusals and errors.
#![tactic(auto)]

mod lines;
mod misread;
mod shown;
mod words;

pub use lines::{Console, Unanswered, answer_lines};
pub use misread::Misread;
pub use shown::{Bits, Refusal};
pub use words::{alone, bits_word};
