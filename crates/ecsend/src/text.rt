//! What the console answers.
ghost use Rattle.std.specs.Prelude.{Some};
ghost use Rattle.ecsend.specs.Line.{answer_line};

use block::EcBlock;
use console::Bits;
use std::fmt;

/// The answer to a call that is not refused; a message is answered by each of its bursts.
#[derive(Clone, Copy)]
pub enum Answer<'a> {
    Block(EcBlock),
    Burst { number: usize, places: &'a [u8] },
    /// Where a burst of a repeat goes.
    Slot { burst: usize, slot: usize },
    /// What a burst of a slot is.
    Repeat { repeat: usize, burst: usize },
}

impl fmt::Display for Answer<'_> {
    ghost output = { λ answer. Some (answer_line answer) };

    fn fmt<W: fmt::Write>(&self, f: &mut fmt::Formatter<W>) -> fmt::Result {
        match *self {
            Answer::Block(block) => write!(f, "block {block}"),
            Answer::Burst { number, places } => write!(f, "burst {number} {}", Bits(places)),
            Answer::Slot { burst, slot } => write!(f, "burst {burst} slot {slot}"),
            Answer::Repeat { repeat, burst } => write!(f, "repeat {repeat} burst {burst}"),
        }
    }
}
